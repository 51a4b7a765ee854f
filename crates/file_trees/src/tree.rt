//! The tree of a JSON file.

ghost use Rattle.std.specs.Prelude.{◌≡◌, IfOk};
ghost use Rattle.json.specs.Json.{array, object};
ghost use Rattle.json.specs.Value.{value_view, items_view as value_items, members_view as value_members};
ghost use Rattle.file_trees.specs.FileTrees.{file_tree};

use json::Value;
use std::alloc::{AllocError, Global};
use texts::{Name, Str};

/// The tree of a JSON file. A number is its text, and the members of an object keep their order.
///
/// Dropping a tree is a recursion as deep as the tree.
#[derive(Debug, Drop)]
pub enum FileTree {
    /// Null.
    Null,
    /// True or false.
    Bool(bool),
    /// A number, as its text.
    Number(Str),
    /// A string.
    Text(Str),
    /// An array.
    Array(Vec<FileTree>),
    /// An object: names with contents.
    Object(Vec<(Name, FileTree)>),
}

// The tree of a value, with texts of its own. Fails only if memory runs out.
#[cycle(own)]
pub(crate) fn own(alloc: Global, value: &Value<'_>) -> Result<FileTree, AllocError>
    ensures { IfOk result (λ tree. file_tree tree ≡ value_view value.now) }
{
    match value {
        Value::Null => Ok(FileTree::Null),
        Value::Bool(truth) => Ok(FileTree::Bool(*truth)),
        Value::Number(text) => Ok(FileTree::Number(own_text(alloc, text)?)),
        Value::String(text) => Ok(FileTree::Text(own_text(alloc, text)?)),
        Value::Array(items) => own_array(alloc, items),
        Value::Object(members) => own_object(alloc, members),
    }
}

fn own_text(alloc: Global, text: &str) -> Result<Str, AllocError>
    ensures { IfOk result (λ own. own ≡ text.now) }
{
    Ok(Str::from_string(String::from_str(alloc, text)?))
}

fn own_name(alloc: Global, text: &str) -> Result<Name, AllocError>
    ensures { IfOk result (λ own. own ≡ text.now) }
{
    Ok(Name::from_string(String::from_str(alloc, text)?))
}

#[cycle(own)]
fn own_array(alloc: Global, items: &Vec<Value<'_>>) -> Result<FileTree, AllocError>
    ensures { IfOk result (λ tree. file_tree tree ≡ array (value_items items.now.items)) }
{
    let mut owned = Vec::with_capacity(alloc, items.len())?;
    for item in items {
        owned.push(own(alloc, item)?)?;
    }
    Ok(FileTree::Array(owned))
}

#[cycle(own)]
fn own_object(alloc: Global, members: &Vec<(&str, Value<'_>)>) -> Result<FileTree, AllocError>
    ensures { IfOk result (λ tree. file_tree tree ≡ object (value_members members.now.items)) }
{
    let mut owned = Vec::with_capacity(alloc, members.len())?;
    for member in members {
        let name = own_name(alloc, member.0)?;
        let content = own(alloc, &member.1)?;
        owned.push((name, content))?;
    }
    Ok(FileTree::Object(owned))
}
