//! Copies of trees.

ghost use Rattle.std.specs.Prelude.{◌≡◌, IfOk};
ghost use Rattle.json.specs.Json.{array, object};
ghost use Rattle.file_trees.specs.FileTrees.{file_tree, items_view, members_view};

use file_trees::FileTree;
use std::alloc::{AllocError, Global};
use texts::{Name, Twin};

// A copy of a tree. Fails only if memory runs out.
#[cycle(copied)]
pub(crate) fn copied(alloc: Global, tree: &FileTree) -> Result<FileTree, AllocError>
    ensures { IfOk result (λ copy. file_tree copy ≡ file_tree tree.now) }
{
    match tree {
        FileTree::Null => Ok(FileTree::Null),
        FileTree::Bool(truth) => Ok(FileTree::Bool(*truth)),
        FileTree::Number(text) => Ok(FileTree::Number(text.twin(alloc)?)),
        FileTree::Text(text) => Ok(FileTree::Text(text.twin(alloc)?)),
        FileTree::Array(items) => copied_array(alloc, items),
        FileTree::Object(members) => copied_object(alloc, members),
    }
}

#[cycle(copied)]
fn copied_array(alloc: Global, items: &Vec<FileTree>) -> Result<FileTree, AllocError>
    ensures { IfOk result (λ copy. file_tree copy ≡ array (items_view items.now.items)) }
{
    let mut copies = Vec::with_capacity(alloc, items.len())?;
    for item in items {
        copies.push(copied(alloc, item)?)?;
    }
    Ok(FileTree::Array(copies))
}

#[cycle(copied)]
fn copied_object(alloc: Global, members: &Vec<(Name, FileTree)>) -> Result<FileTree, AllocError>
    ensures { IfOk result (λ copy. file_tree copy ≡ object (members_view members.now.items)) }
{
    let mut copies = Vec::with_capacity(alloc, members.len())?;
    for member in members {
        let name = member.0.twin(alloc)?;
        let content = copied(alloc, &member.1)?;
        copies.push((name, content))?;
    }
    Ok(FileTree::Object(copies))
}
