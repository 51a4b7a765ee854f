//! Reading a patch from the tree of its document.

ghost use Rattle.std.specs.Prelude.{◌≡◌, IfOk, option_map};
ghost use Rattle.json.specs.Json.{Json};
ghost use Rattle.json.specs.Tree.{HasNumbers};
ghost use Rattle.file_trees.specs.FileTrees.{file_tree, members_view};
ghost use Rattle.file_patches.specs.Equality.{named};
ghost use Rattle.file_patches.specs.Operations.{operation_tree, patch_view};
ghost use Rattle.file_patches.specs.Reading.{text_in, kind_in, pointer_in, from_in, value_in, operation_with};
ghost use Rattle.file_patches.specs.Reading.{operation_of};
ghost use Rattle.file_patches.specs.Reading.{patch_of};
ghost use Rattle.file_patches.specs.Kept.{PatchHasNumbers};
ghost use Rattle.file_patches.specs.Results.{on_ok, Gives};

use crate::copies::copied;
use crate::equality::named;
use crate::fault::{Fault, Misread, ReadRefusal};
use crate::kinds::{Kind, kind_of};
use crate::operations::Operation;
use crate::pointers::read_pointer;
use file_trees::FileTree;
use std::alloc::Global;
use texts::{Name, Names, Str};

/// The patch that the tree of a document is.
///
/// The members of an operation may be in any order, and members that it does not need are ignored. Of two members of
/// one name, which the tree of a file does not have, the first one counts.
///
/// - `NotAList`: if and only if the tree is not an array
/// - `At`: if and only if an item is not an operation; the number of the first such item, from 0, and the cause
pub fn read_patch(alloc: Global, tree: &FileTree) -> Result<Vec<Operation>, Fault<ReadRefusal>>
    // The patch and the refusal are the definition's, both ways.
    ensures patch { Gives (λ patch. patch_view patch.items) result (patch_of (file_tree tree.now)) }

    // Each number in its values is one, if each number of the document is.
    ensures numbers { HasNumbers (file_tree tree.now)
        → IfOk result (λ patch. PatchHasNumbers (patch_view patch.items)) }
{
    patch_of(alloc, tree)
}

fn patch_of(alloc: Global, tree: &FileTree) -> Result<Vec<Operation>, Fault<ReadRefusal>>
    ensures { Gives (λ patch. patch_view patch.items) result (patch_of (file_tree tree.now)) }
{
    let FileTree::Array(items) = tree else {
        return Err(Fault::Refused(ReadRefusal::NotAList));
    };
    let mut patch = Vec::with_capacity(alloc, items.len())?;
    for i in 0..items.len() {
        match operation_of(alloc, &items[i]) {
            Ok(operation) => patch.push(operation)?,
            Err(Fault::Refused(why)) => return Err(Fault::Refused(ReadRefusal::At(i, why))),
            Err(Fault::NoMemory) => return Err(Fault::NoMemory),
        }
    }
    Ok(patch)
}

// The operation that a tree is.
fn operation_of(alloc: Global, tree: &FileTree) -> Result<Operation, Fault<Misread>>
    ensures { Gives operation_tree result (operation_of (file_tree tree.now)) }
{
    let FileTree::Object(members) = tree else {
        return Err(Fault::Refused(Misread::NotAnObject));
    };
    let kind = kind_in(members)?;
    let path = named(members, "path");
    let place = pointer_in(alloc, path, Misread::NoPath, Misread::BadPath)?;
    operation_with(alloc, kind, place, members)
}

// The operation of a kind at a place, with the other members that this kind needs.
fn operation_with(
    alloc: Global,
    kind: Kind,
    place: Names,
    members: &Vec<(Name, FileTree)>,
) -> Result<Operation, Fault<Misread>>
    ensures { Gives operation_tree result (operation_with kind place (members_view members.now.items)) }
{
    match kind {
        Kind::Add => Ok(Operation::Add(place, value_in(alloc, members)?)),
        Kind::Remove => Ok(Operation::Remove(place)),
        Kind::Replace => Ok(Operation::Replace(place, value_in(alloc, members)?)),
        Kind::Move => Ok(Operation::Move(from_in(alloc, members)?, place)),
        Kind::Copy => Ok(Operation::Copy(from_in(alloc, members)?, place)),
        Kind::Test => Ok(Operation::Test(place, value_in(alloc, members)?)),
    }
}

fn kind_in(members: &Vec<(Name, FileTree)>) -> Result<Kind, Misread>
    ensures { result ≡ kind_in (members_view members.now.items) }
{
    let text = text_in(named(members, "op"), Misread::NoKind)?;
    match kind_of(text.as_str()) {
        Some(kind) => Ok(kind),
        None => Err(Misread::UnknownKind),
    }
}

fn from_in(alloc: Global, members: &Vec<(Name, FileTree)>) -> Result<Names, Fault<Misread>>
    ensures { Gives (λ place. place) result (from_in (members_view members.now.items)) }
{
    pointer_in(
        alloc,
        named(members, "from"),
        Misread::NoFrom,
        Misread::BadFrom,
    )
}

fn value_in(alloc: Global, members: &Vec<(Name, FileTree)>) -> Result<FileTree, Fault<Misread>>
    ensures { Gives file_tree result (value_in (members_view members.now.items)) }
{
    match named(members, "value") {
        Some(value) => Ok(copied(alloc, value)?),
        None => Err(Fault::Refused(Misread::NoValue)),
    }
}

// The pointer that a member is, and the causes where it is no text and where it is no pointer.
fn pointer_in(
    alloc: Global,
    member: Option<&FileTree>,
    missing: Misread,
    bad: Misread,
) -> Result<Names, Fault<Misread>>
    ensures { Gives (λ place. place) result
        (pointer_in missing bad (option_map (λ tree. file_tree tree.now) member.entry)) }
{
    let text = text_in(member, missing)?;
    match read_pointer(alloc, text.as_str())? {
        Some(place) => Ok(place),
        None => Err(Fault::Refused(bad)),
    }
}

// The text of a member, and the cause where it is no text.
fn text_in<'a>(member: Option<&'a FileTree>, missing: Misread) -> Result<&'a Str, Misread>
    ensures { on_ok (λ text. text.now) result
        ≡ text_in missing (option_map (λ tree. file_tree tree.now) member.entry) }
{
    match member {
        Some(FileTree::Text(text)) => Ok(text),
        _ => Err(missing),
    }
}
