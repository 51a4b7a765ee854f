//! Each patch of the rows, with what it makes.

ghost use Rattle.json.specs.Tree.{HasNumbers};
ghost use Rattle.file_trees.specs.FileTrees.{file_tree};
ghost use Rattle.file_patches.specs.Kept.{PatchHasNumbers};
ghost use Rattle.file_patches.specs.Operations.{patch_view};

use crate::rows::PATCHED;
use file_patches::{Fault, Operation, ReadRefusal, patched, read_patch};
use file_trees::{FileTree, read_file, write_file};
use std::alloc::Global;
use std::test::Fail;

// The text of what a patch makes of a document, or of the refusal.
fn answer(alloc: Global, document: &str, patch: &str) -> Result<String, Fail> {
    let tree = read_file(alloc, document.as_bytes())?;
    let patch = read_file(alloc, patch.as_bytes())?;
    match read_patch(alloc, &patch) {
        Ok(patch) => made(alloc, &tree, &patch),
        Err(Fault::Refused(ReadRefusal::NotAList)) => Ok(String::from_str(alloc, "NotAList")?),
        Err(Fault::Refused(ReadRefusal::At(number, cause))) => {
            Ok(format!(in alloc; "{number} {cause:?}")?)
        }
        Err(Fault::NoMemory) => Ok(String::from_str(alloc, "NoMemory")?),
    }
}

fn made(alloc: Global, tree: &FileTree, patch: &[Operation]) -> Result<String, Fail>
    requires tree { HasNumbers (file_tree tree.now) }
    requires patch { PatchHasNumbers (patch_view patch.now) }
{
    match patched(alloc, tree, patch) {
        Ok(tree) => Ok(String::from_utf8(write_file(alloc, &tree)?)?),
        Err(Fault::Refused((number, cause))) => Ok(format!(in alloc; "{number} {cause:?}")?),
        Err(Fault::NoMemory) => Ok(String::from_str(alloc, "NoMemory")?),
    }
}

#[test]
fn patches(rt: HostRuntime) -> Result<(), Fail> {
    let alloc = rt.alloc();
    for (document, patch, wanted) in PATCHED {
        let found = answer(alloc, document, patch)?;
        assert_eq!(rt; found.as_str(), wanted);
    }
    Ok(())
}
