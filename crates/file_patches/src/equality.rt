//! Equality of trees.

ghost use Rattle.std.specs.Prelude.{◌≡◌, IfOk, option_map};
ghost use Rattle.json.specs.Json.{array, object};
ghost use Rattle.file_trees.specs.FileTrees.{file_tree, items_view, members_view};
ghost use Rattle.file_patches.specs.Equality.{equal, items_equal, members_equal, named, passes};
ghost use Rattle.file_patches.specs.Numbers.{same_bool};

use crate::numbers::is_same_number;
use file_trees::FileTree;
use std::alloc::{AllocError, Global};
use texts::Name;

/// Whether two trees are equal as RFC 6902 has it: numbers by value, arrays in order, and objects in any order.
///
/// A number with an exponent of more than 18 digits, zeros in front not counted, is equal to its own text alone. Fails
/// only if memory runs out.
#[cycle(equal)]
pub fn is_equal(alloc: Global, one: &FileTree, other: &FileTree) -> Result<bool, AllocError>
    ensures { IfOk result (λ same. same ≡ equal (file_tree one.now) (file_tree other.now)) }
{
    match (one, other) {
        (FileTree::Null, FileTree::Null) => Ok(true),
        (FileTree::Bool(first), FileTree::Bool(second)) => Ok(is_same_bool(*first, *second)),
        (FileTree::Number(first), FileTree::Number(second)) => {
            is_same_number(alloc, first.as_str(), second.as_str())
        }
        (FileTree::Text(first), FileTree::Text(second)) => Ok(first.is_same(second)),
        (FileTree::Array(items), FileTree::Array(others)) => {
            if items.len() != others.len() {
                return Ok(false);
            }
            are_items_equal(alloc, items, others)
        }
        (FileTree::Object(members), FileTree::Object(others)) => {
            if members.len() != others.len() {
                return Ok(false);
            }
            are_members_equal(alloc, members, others)
        }
        _ => Ok(false),
    }
}

fn is_same_bool(one: bool, other: bool) -> bool
    ensures { result ≡ same_bool one other }
{
    if one { other } else { !other }
}

#[cycle(equal)]
fn are_items_equal(
    alloc: Global,
    items: &Vec<FileTree>,
    others: &Vec<FileTree>,
) -> Result<bool, AllocError>
    ensures { IfOk result (λ same. same ≡ items_equal (items_view items.now.items) (items_view others.now.items)) }
{
    for i in 0..items.len() {
        if i >= others.len() {
            return Ok(true);
        }
        if !is_equal(alloc, &items[i], &others[i])? {
            return Ok(false);
        }
    }
    Ok(true)
}

#[cycle(equal)]
fn are_members_equal(
    alloc: Global,
    members: &Vec<(Name, FileTree)>,
    others: &Vec<(Name, FileTree)>,
) -> Result<bool, AllocError>
    ensures { IfOk result (λ same. same
        ≡ members_equal (members_view members.now.items) (members_view others.now.items)) }
{
    for member in members {
        let Some(content) = named(others, member.0.as_str()) else {
            return Ok(false);
        };
        if !is_equal(alloc, &member.1, content)? {
            return Ok(false);
        }
    }
    Ok(true)
}

// The content of the first member of a name.
pub(crate) fn named<'a>(members: &'a Vec<(Name, FileTree)>, name: &str) -> Option<&'a FileTree>
    ensures { option_map (λ content. file_tree content.now) result ≡ named name.now (members_view members.now.items) }
{
    for member in members {
        if name == member.0.as_str() {
            return Some(&member.1);
        }
    }
    None
}
