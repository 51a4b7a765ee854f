//! A tree as a value of the kit's JSON, which borrows its texts.

ghost use Rattle.std.specs.Prelude.{◌≡◌, IfOk};
ghost use Rattle.json.specs.Json.{array, object};
ghost use Rattle.json.specs.Value.{value_view};
ghost use Rattle.file_trees.specs.FileTrees.{file_tree, items_view, members_view};

use crate::tree::FileTree;
use json::Value;
use std::alloc::{AllocError, Global};
use texts::Name;

// The value that the tree is. Fails only if memory runs out.
#[cycle(lend)]
pub(crate) fn lend(alloc: Global, tree: &FileTree) -> Result<Value<'_>, AllocError>
    ensures { IfOk result (λ value. value_view value ≡ file_tree tree.now) }
{
    match tree {
        FileTree::Null => Ok(Value::Null),
        FileTree::Bool(truth) => Ok(Value::Bool(*truth)),
        FileTree::Number(text) => Ok(Value::Number(text.as_str())),
        FileTree::Text(text) => Ok(Value::String(text.as_str())),
        FileTree::Array(items) => lend_array(alloc, items),
        FileTree::Object(members) => lend_object(alloc, members),
    }
}

#[cycle(lend)]
fn lend_array(alloc: Global, items: &Vec<FileTree>) -> Result<Value<'_>, AllocError>
    ensures { IfOk result (λ value. value_view value ≡ array (items_view items.now.items)) }
{
    let mut lent = Vec::with_capacity(alloc, items.len())?;
    for item in items {
        lent.push(lend(alloc, item)?)?;
    }
    Ok(Value::Array(lent))
}

#[cycle(lend)]
fn lend_object(alloc: Global, members: &Vec<(Name, FileTree)>) -> Result<Value<'_>, AllocError>
    ensures { IfOk result (λ value. value_view value ≡ object (members_view members.now.items)) }
{
    let mut lent = Vec::with_capacity(alloc, members.len())?;
    for member in members {
        let name = member.0.as_str();
        let content = lend(alloc, &member.1)?;
        lent.push((name, content))?;
    }
    Ok(Value::Object(lent))
}
