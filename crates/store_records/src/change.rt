//! The change of a record.

ghost use Rattle.std.specs.Prelude.{◌≡◌, IfOk, option_map, option_and_then};
ghost use Rattle.serde_json.specs.View.{view};
ghost use Rattle.edit_module.specs.Views.{change_tree};
ghost use Rattle.edit_journal.specs.EntryJson.{change_of_tree, tree_of_text};
ghost use Rattle.store_records.specs.RecordJson.{single_entry, any_change, change_in};

use crate::text::read_tree;
use crate::tokens::change_by_tokens;
use edit_journal::{EntryFault, read_change_tree};
use edit_module::Change;
use json::Scratch;
use serde_json::Value;
use std::alloc::{AllocError, Global};
use texts::Bytes;
use value_json::only_member;

/// The change of the payload of an entry or of a group.
///
/// None if and only if the payload is not one of these two; the page docs/FORMATS.md has both. The version of the store
/// does not count, nor whether the change applies. Fails only if memory runs out.
pub fn read_change(alloc: Global, payload: &Bytes) -> Result<Option<Change>, AllocError>
    ensures { IfOk result (λ change. option_map change_tree change
        ≡ option_and_then change_in (tree_of_text payload.now)) }
{
    let mut scratch = Scratch::new(alloc);
    match change_by_tokens(alloc, payload.as_slice(), &mut scratch) {
        Some(change) => Ok(Some(change)),
        None => change_by_tree(alloc, payload.as_slice()),
    }
}

fn change_by_tree(alloc: Global, payload: &[u8]) -> Result<Option<Change>, AllocError>
    ensures { IfOk result (λ change. option_map change_tree change
        ≡ option_and_then change_in (tree_of_text payload.now)) }
{
    match read_tree(alloc, payload)? {
        Some(tree) => change_in(alloc, &tree),
        None => Ok(None),
    }
}

/// The change of the tree of an entry record or of a group record.
///
/// None if and only if the tree is not one of these two. Fails only if memory runs out.
pub fn change_in(alloc: Global, tree: &Value) -> Result<Option<Change>, AllocError>
    ensures { IfOk result (λ change. option_map change_tree change ≡ change_in (view tree.now)) }
{
    let Some((name, content)) = only_member(tree) else {
        return Ok(None);
    };
    if name == "entry" {
        return single_entry(alloc, content);
    }
    if name == "group" {
        return any_change(alloc, tree);
    }
    Ok(None)
}

// The change of a tree, where it is a single entry.
fn single_entry(alloc: Global, tree: &Value) -> Result<Option<Change>, AllocError>
    ensures { IfOk result (λ change. option_map change_tree change ≡ single_entry (change_of_tree (view tree.now))) }
{
    match any_change(alloc, tree)? {
        Some(Change::One(entry)) => Ok(Some(Change::One(entry))),
        _ => Ok(None),
    }
}

// The change of a tree, whatever change it is.
fn any_change(alloc: Global, tree: &Value) -> Result<Option<Change>, AllocError>
    ensures { IfOk result (λ change. option_map change_tree change ≡ any_change (change_of_tree (view tree.now))) }
{
    match read_change_tree(alloc, tree) {
        Ok(change) => Ok(Some(change)),
        Err(EntryFault::NoMemory) => Err(AllocError),
        Err(_) => Ok(None),
    }
}
