//! Reading the change that a line is, by its tokens where that serves.

ghost use Rattle.std.specs.Prelude.{◌≡◌, ◌≢◌, true, Some, Ok, IfSome, IfOk, IfErr};
ghost use Rattle.edit_module.specs.Views.{change_tree};
ghost use Rattle.edit_module.specs.Changes.{ChangeTree};
ghost use Rattle.edit_journal.specs.EntryJson.{tree_of_line, tree_of_change, change_counts_fit};
ghost use Rattle.edit_journal.specs.EntryJson.{change_numbers_fit, change_of_line};
ghost use Rattle.edit_journal.specs.Reading.{Gives};
ghost use Rattle.edit_journal.specs.declared.fault.EntryFault;

use crate::changes::change_of_tokens;
use edit_journal::{EntryFault, Line, read_entry};
use edit_module::Change;
use json::Scratch;
use std::alloc::Global;

/// The change that a line is, and each refusal, as `read_entry` has them, in less time.
///
/// The scratch may hold anything. Room in it is kept, so a caller keeps one from line to line.
pub fn read_line(alloc: Global, line: &Line, scratch: &mut Scratch) -> Result<Change, EntryFault>
    // The change and each refusal are the definition's, both ways.
    ensures change { Gives change_tree result (change_of_line line.now) }

    // What is read has a tree, and it is the tree of this line.
    ensures fits { IfOk result (λ change. change_counts_fit (change_tree change) ≡ true) }
    ensures tree { IfOk result
        (λ change. tree_of_line line.now ≡ Some (tree_of_change (change_tree change))) }

    // If it is refused and memory has not run out, no change has the tree of this line.
    ensures refused { IfErr result (λ fault. fault ≢ EntryFault.NoMemory → (change : ChangeTree)
        → change_counts_fit change ≡ true → change_numbers_fit change ≡ true
        → tree_of_line line.now ≡ Some (tree_of_change change) → ⊥) }
{
    read_either_way(alloc, line, scratch)
}

fn read_either_way(alloc: Global, line: &Line, scratch: &mut Scratch) -> Result<Change, EntryFault>
    ensures { Gives change_tree result (change_of_line line.now) }
{
    match by_tokens(alloc, line, scratch) {
        Some(change) => Ok(change),
        None => read_entry(alloc, line),
    }
}

// The change of a line by its tokens. `None` says nothing of the line.
fn by_tokens(alloc: Global, line: &Line, scratch: &mut Scratch) -> Option<Change>
    ensures { IfSome result (λ change. change_of_line line.now ≡ Ok (change_tree change)) }
{
    match line {
        Line::Text(bytes) => change_of_tokens(alloc, bytes.as_slice(), scratch),
        Line::TooLong => None,
    }
}
