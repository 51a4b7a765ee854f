//! What a patch makes of a tree.

ghost use Rattle.std.specs.Prelude.{◌≡◌, ◌≤◌, nat_le, IfOk};
ghost use Rattle.json.specs.Json.{max_depth};
ghost use Rattle.json.specs.Tree.{HasNumbers, depth, items_depth, members_depth};
ghost use Rattle.file_trees.specs.FileTrees.{file_tree, items_view, members_view};
ghost use Rattle.file_patches.specs.Places.{content_at};
ghost use Rattle.file_patches.specs.Operations.{operation_tree, patch_view};
ghost use Rattle.file_patches.specs.Patching.{begins_with, is_same_place, is_shallow, if_shallow, added};
ghost use Rattle.file_patches.specs.Patching.{replaced, moved};
ghost use Rattle.file_patches.specs.Patching.{tested, operated, patched};
ghost use Rattle.file_patches.specs.Kept.{PatchHasNumbers};
ghost use Rattle.file_patches.specs.Results.{and_then, Gives};

use crate::changes::{Change, changed};
use crate::copies::copied;
use crate::equality::is_equal;
use crate::fault::{Cause, Fault};
use crate::operations::Operation;
use crate::places::content_at;
use file_trees::FileTree;
use std::alloc::Global;
use texts::Name;

const MOST_LEVELS: usize = 128;

/// What a patch makes of a tree (RFC 6902): its operations are done one after another on a copy.
///
/// The refusal has the number of the first operation that cannot be done, from 0, and the cause:
///
/// - `NoPlace`: a place does not exist
/// - `NotAPlace`: a part of a place leads into what is no array or object, or is not an index of an array
/// - `TestFailed`: the content of the place is not equal to the value of the test
/// - `IntoItself`: a content would be moved into itself
/// - `WholeFile`: the complete tree would be removed
/// - `TooDeep`: the parts of the place and the levels of the value are more than 128
pub fn patched(
    alloc: Global,
    tree: &FileTree,
    patch: &[Operation],
) -> Result<FileTree, Fault<(usize, Cause)>>
    // The tree and the refusal are the definition's, both ways.
    ensures tree { Gives file_tree result (patched (patch_view patch.now) (file_tree tree.now)) }

    // What is made of a tree that can be written and read back can be, too.
    ensures numbers { HasNumbers (file_tree tree.now) → PatchHasNumbers (patch_view patch.now)
        → IfOk result (λ made. HasNumbers (file_tree made)) }
    ensures nests { depth (file_tree tree.now) ≤ max_depth
        → IfOk result (λ made. depth (file_tree made) ≤ max_depth) }
{
    made(alloc, tree, patch)
}

fn made(
    alloc: Global,
    tree: &FileTree,
    patch: &[Operation],
) -> Result<FileTree, Fault<(usize, Cause)>>
    ensures { Gives file_tree result (patched (patch_view patch.now) (file_tree tree.now)) }
{
    let mut current = copied(alloc, tree)?;
    for i in 0..patch.len() {
        current = match operated(alloc, current, &patch[i]) {
            Ok(next) => next,
            Err(Fault::Refused(cause)) => return Err(Fault::Refused((i, cause))),
            Err(Fault::NoMemory) => return Err(Fault::NoMemory),
        };
    }
    Ok(current)
}

// What an operation makes of a tree.
fn operated(alloc: Global, tree: FileTree, operation: &Operation) -> Result<FileTree, Fault<Cause>>
    ensures { Gives file_tree result (operated (operation_tree operation.now) (file_tree tree)) }
{
    match operation {
        Operation::Add(place, value) => added(alloc, tree, place.as_slice(), value),
        Operation::Remove(place) => changed(alloc, tree, place.as_slice(), Change::Remove),
        Operation::Replace(place, value) => replaced(alloc, tree, place.as_slice(), value),
        Operation::Move(from, place) => moved(alloc, tree, from.as_slice(), place.as_slice()),
        Operation::Copy(from, place) => with_copy(alloc, tree, from.as_slice(), place.as_slice()),
        Operation::Test(place, value) => tested(alloc, tree, place.as_slice(), value),
    }
}

// The tree with a copy of a value at a place.
fn added(
    alloc: Global,
    tree: FileTree,
    place: &[Name],
    value: &FileTree,
) -> Result<FileTree, Fault<Cause>>
    ensures { Gives file_tree result (added place.now (file_tree value.now) (file_tree tree)) }
{
    let value = copied(alloc, value)?;
    placed(alloc, tree, place, value)
}

// The tree with a value at a place.
fn placed(
    alloc: Global,
    tree: FileTree,
    place: &[Name],
    value: FileTree,
) -> Result<FileTree, Fault<Cause>>
    ensures { Gives file_tree result (added place.now (file_tree value) (file_tree tree)) }
{
    let shallow = is_shallow(place, &value);
    let tree = changed(alloc, tree, place, Change::Add(value))?;
    if_shallow(shallow, tree)
}

fn replaced(
    alloc: Global,
    tree: FileTree,
    place: &[Name],
    value: &FileTree,
) -> Result<FileTree, Fault<Cause>>
    ensures { Gives file_tree result (replaced place.now (file_tree value.now) (file_tree tree)) }
{
    let shallow = is_shallow(place, value);
    let value = copied(alloc, value)?;
    let tree = changed(alloc, tree, place, Change::Replace(value))?;
    if_shallow(shallow, tree)
}

fn if_shallow(shallow: bool, tree: FileTree) -> Result<FileTree, Fault<Cause>>
    ensures { Gives file_tree result (if_shallow shallow (file_tree tree)) }
{
    if shallow {
        Ok(tree)
    } else {
        Err(Fault::Refused(Cause::TooDeep))
    }
}

// The tree with the content of one place at another one.
fn moved(
    alloc: Global,
    tree: FileTree,
    from: &[Name],
    place: &[Name],
) -> Result<FileTree, Fault<Cause>>
    ensures { Gives file_tree result
        (and_then (moved from.now place.now (file_tree tree)) (content_at from.now (file_tree tree))) }
{
    let content = content_at(&tree, from)?;
    if is_same_place(from, place) {
        return Ok(tree);
    }
    if begins_with(from, place) {
        return Err(Fault::Refused(Cause::IntoItself));
    }
    let content = copied(alloc, content)?;
    let tree = changed(alloc, tree, from, Change::Remove)?;
    placed(alloc, tree, place, content)
}

// The tree with a copy of the content of one place at another one.
fn with_copy(
    alloc: Global,
    tree: FileTree,
    from: &[Name],
    place: &[Name],
) -> Result<FileTree, Fault<Cause>>
    ensures { Gives file_tree result
        (and_then (λ k. added place.now k (file_tree tree)) (content_at from.now (file_tree tree))) }
{
    let content = copied(alloc, content_at(&tree, from)?)?;
    placed(alloc, tree, place, content)
}

// The tree, if the content of a place is equal to a value.
fn tested(
    alloc: Global,
    tree: FileTree,
    place: &[Name],
    value: &FileTree,
) -> Result<FileTree, Fault<Cause>>
    ensures { Gives file_tree result
        (and_then (tested (file_tree tree) (file_tree value.now)) (content_at place.now (file_tree tree))) }
{
    let content = content_at(&tree, place)?;
    if is_equal(alloc, content, value)? {
        Ok(tree)
    } else {
        Err(Fault::Refused(Cause::TestFailed))
    }
}

fn is_same_place(one: &[Name], other: &[Name]) -> bool
    ensures { result ≡ is_same_place one.now other.now }
{
    one.len() == other.len() && begins_with(one, other)
}

// Whether a place begins with the parts of another one.
fn begins_with(front: &[Name], place: &[Name]) -> bool
    ensures { result ≡ begins_with front.now place.now }
{
    for i in 0..front.len() {
        if i >= place.len() {
            return false;
        }
        if !front[i].is_same(&place[i]) {
            return false;
        }
    }
    true
}

// Whether a value nests no deeper than a file may at this place.
fn is_shallow(place: &[Name], value: &FileTree) -> bool
    ensures { result ≡ is_shallow place.now (file_tree value.now) }
{
    place.len() <= MOST_LEVELS && nests_within(value, MOST_LEVELS - place.len())
}

// Whether arrays and objects nest no deeper than this.
#[cycle(nests)]
fn nests_within(tree: &FileTree, levels: usize) -> bool
    ensures { result ≡ nat_le (depth (file_tree tree.now)) levels }
{
    match tree {
        FileTree::Array(items) => levels > 0 && items_nest_within(items, levels - 1),
        FileTree::Object(members) => levels > 0 && members_nest_within(members, levels - 1),
        _ => true,
    }
}

#[cycle(nests)]
fn items_nest_within(items: &Vec<FileTree>, levels: usize) -> bool
    ensures { result ≡ nat_le (items_depth (items_view items.now.items)) levels }
{
    for item in items {
        if !nests_within(item, levels) {
            return false;
        }
    }
    true
}

#[cycle(nests)]
fn members_nest_within(members: &Vec<(Name, FileTree)>, levels: usize) -> bool
    ensures { result ≡ nat_le (members_depth (members_view members.now.items)) levels }
{
    for member in members {
        if !nests_within(&member.1, levels) {
            return false;
        }
    }
    true
}
