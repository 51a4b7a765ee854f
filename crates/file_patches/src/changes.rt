//! Changes of the content at a place.

ghost use Rattle.std.specs.Prelude.{◌≡◌, ◌<◌, Ok, vec_len};
ghost use Rattle.json.specs.Json.{array, object};
ghost use Rattle.file_trees.specs.FileTrees.{file_tree, items_view, members_view};
ghost use Rattle.file_patches.specs.Places.{position, child, item_at, member_at};
ghost use Rattle.file_patches.specs.Counts.{child_count};
ghost use Rattle.file_patches.specs.Changes.{change_tree, changed, changed_whole, changed_child, put, put_content, cut};
ghost use Rattle.file_patches.specs.Changes.{append_member, put_item};
ghost use Rattle.file_patches.specs.Changes.{with_added};
ghost use Rattle.file_patches.specs.Results.{on_ok, Gives};
ghost use Rattle.file_patches.specs.declared.fault.Cause.{Cause};

use crate::fault::{Cause, Fault};
use crate::places::{free_position, member_position, position};
use file_trees::FileTree;
use std::alloc::Global;
use std::mem;
use texts::{Name, Twin};

// A content is added, put in the place of one, or removed.
#[derive(Drop)]
pub(crate) enum Change {
    Add(FileTree),
    Replace(FileTree),
    Remove,
}

// The tree with a change at a place.
pub(crate) fn changed(
    alloc: Global,
    tree: FileTree,
    place: &[Name],
    change: Change,
) -> Result<FileTree, Fault<Cause>>
    ensures { Gives file_tree result (changed (change_tree change) place.now (file_tree tree)) }
{
    if place.is_empty() {
        return changed_whole(change);
    }
    if place.len() == 1 {
        return changed_child(alloc, tree, &place[0], change);
    }
    let at = position(&tree, &place[0])?;
    let (tree, content) = exchange(tree, at, FileTree::Null);
    let content = changed(alloc, content, &place[1..], change)?;
    Ok(with_content(tree, at, content))
}

fn changed_whole(change: Change) -> Result<FileTree, Fault<Cause>>
    ensures { Gives file_tree result (changed_whole (change_tree change)) }
{
    match change {
        Change::Add(content) => Ok(content),
        Change::Replace(content) => Ok(content),
        Change::Remove => Err(Fault::Refused(Cause::WholeFile)),
    }
}

fn changed_child(
    alloc: Global,
    tree: FileTree,
    part: &Name,
    change: Change,
) -> Result<FileTree, Fault<Cause>>
    ensures { Gives file_tree result (changed_child (change_tree change) part.now (file_tree tree)) }
{
    match change {
        Change::Add(content) => with_added(alloc, tree, part, content),
        Change::Replace(content) => with_replaced(tree, part, content),
        Change::Remove => with_removed(tree, part),
    }
}

fn with_replaced(tree: FileTree, part: &Name, content: FileTree) -> Result<FileTree, Fault<Cause>>
    ensures { Gives file_tree result
        (on_ok (λ i. put i (file_tree content) (file_tree tree)) (position part.now (file_tree tree))) }
{
    let at = position(&tree, part)?;
    Ok(with_content(tree, at, content))
}

fn with_removed(tree: FileTree, part: &Name) -> Result<FileTree, Fault<Cause>>
    ensures { Gives file_tree result (on_ok (λ i. cut i (file_tree tree)) (position part.now (file_tree tree))) }
{
    let at = position(&tree, part)?;
    Ok(cut(tree, at))
}

fn with_added(
    alloc: Global,
    tree: FileTree,
    part: &Name,
    content: FileTree,
) -> Result<FileTree, Fault<Cause>>
    ensures { Gives file_tree result (with_added part.now (file_tree content) (file_tree tree)) }
{
    match tree {
        FileTree::Object(members) => with_member(alloc, members, part, content),
        FileTree::Array(items) => with_item(items, part, content),
        _ => Err(Fault::Refused(Cause::NotAPlace)),
    }
}

// The object with a member in the place of the one that has its name, or behind the others.
fn with_member(
    alloc: Global,
    members: Vec<(Name, FileTree)>,
    name: &Name,
    content: FileTree,
) -> Result<FileTree, Fault<Cause>>
    ensures { Gives file_tree result
        (with_added name.now (file_tree content) (object (members_view members.items))) }
{
    match member_position(&members, name) {
        Some(at) => Ok(with_content(FileTree::Object(members), at, content)),
        None => with_new(alloc, members, name, content),
    }
}

// The object with a member behind the others.
fn with_new(
    alloc: Global,
    members: Vec<(Name, FileTree)>,
    name: &Name,
    content: FileTree,
) -> Result<FileTree, Fault<Cause>>
    ensures { Gives {C = Cause} file_tree result
        (Ok (object (append_member name.now (file_tree content) (members_view members.items)))) }
{
    let mut members = members;
    members.push((name.twin(alloc)?, content))?;
    Ok(FileTree::Object(members))
}

// The array with an item in front of the one at an index, or at the end.
#[tactic(auto, using(crate::proofs::Lists::count_rules))]
fn with_item(items: Vec<FileTree>, part: &Name, content: FileTree) -> Result<FileTree, Fault<Cause>>
    ensures { Gives file_tree result
        (with_added part.now (file_tree content) (array (items_view items.items))) }
{
    let mut items = items;
    let at = free_position(part.as_str(), items.len())?;
    items.insert(at, content)?;
    Ok(FileTree::Array(items))
}

// The tree with another content at a position.
fn with_content(tree: FileTree, at: usize, content: FileTree) -> FileTree
    requires { at < child_count (file_tree tree) }
    ensures { file_tree result ≡ put at (file_tree content) (file_tree tree) }
{
    let (tree, before) = exchange(tree, at, content);
    drop(before);
    tree
}

// The tree with another content at a position, and the content that was there.
fn exchange(tree: FileTree, at: usize, content: FileTree) -> (FileTree, FileTree)
    requires { at < child_count (file_tree tree) }
    ensures after { file_tree result.0 ≡ put at (file_tree content) (file_tree tree) }
    ensures before { file_tree result.1 ≡ child at (file_tree tree) }
{
    match tree {
        FileTree::Object(members) => {
            let mut members = members;
            let before = exchange_content(&mut members, at, content);
            (FileTree::Object(members), before)
        }
        FileTree::Array(items) => {
            let mut items = items;
            let before = exchange_item(&mut items, at, content);
            (FileTree::Array(items), before)
        }
        _ => (content, FileTree::Null),
    }
}

fn exchange_item(items: &mut Vec<FileTree>, at: usize, content: FileTree) -> FileTree
    requires { at < vec_len items.old }
    ensures after { items_view items.new.items ≡ put_item at (file_tree content) (items_view items.old.items) }
    ensures before { file_tree result ≡ item_at at (items_view items.old.items) }
{
    mem::replace(&mut items[at], content)
}

fn exchange_content(members: &mut Vec<(Name, FileTree)>, at: usize, content: FileTree) -> FileTree
    requires { at < vec_len members.old }
    ensures after { members_view members.new.items
        ≡ put_content at (file_tree content) (members_view members.old.items) }
    ensures before { file_tree result ≡ member_at at (members_view members.old.items) }
{
    let member = &mut members[at];
    mem::replace(&mut member.1, content)
}

// The tree without the content at a position.
fn cut(tree: FileTree, at: usize) -> FileTree
    requires { at < child_count (file_tree tree) }
    ensures { file_tree result ≡ cut at (file_tree tree) }
{
    match tree {
        FileTree::Object(members) => {
            let mut members = members;
            drop(members.remove(at));
            FileTree::Object(members)
        }
        FileTree::Array(items) => {
            let mut items = items;
            drop(items.remove(at));
            FileTree::Array(items)
        }
        _ => FileTree::Null,
    }
}
