//! The entries of a change, one after another.

ghost use Rattle.std.specs.Prelude.{◌≡◌, Some, Ok, IfOk, MatchResult};
ghost use Rattle.edit_module.specs.Views.{word_tree, word_trees, entry_tree, entry_trees};
ghost use Rattle.edit_session.specs.Step.{IsInStep, step, step_each};
ghost use Rattle.edit_session.specs.Views.{triple_tree, IsGroupFault, IsPartFault};

use crate::fault::{GroupFault, StepFault};
use crate::session::next;
use crate::triple::Triple;
use edit_module::change::Words;
use edit_module::{Entry, Word};
use lens_core::EditLens;
use std::alloc::Global;
use texts::Twin;

// The triple after these entries, each from the triple that the one before it left, and the carried words. They start
// from a copy of the triple, which shares its contents.
pub(crate) fn next_all<L: EditLens>(
    alloc: Global,
    lens: &L,
    triple: &Triple,
    entries: &[Entry],
) -> Result<(Triple, Words), GroupFault>
    requires consistent { IsInStep (L.holds lens.now) (triple_tree triple.now) }
    ensures steps { MatchResult result
        (λ r. step_each (L.left_type lens.now) (L.right_type lens.now) (L.carried lens.now)
        (triple_tree triple.now) (entry_trees entries.now)
        ≡ Some (Ok (triple_tree r.0, word_trees r.1)))
        (IsGroupFault (step_each (L.left_type lens.now) (L.right_type lens.now)
        (L.carried lens.now) (triple_tree triple.now) (entry_trees entries.now))) }
    ensures consistent { IfOk result (λ r. IsInStep (L.holds lens.now) (triple_tree r.0)) }
{
    let mut current = triple.twin(alloc)?;
    let mut words = Vec::new(alloc);
    for part in 0..entries.len() {
        let (after, word) = next_part(alloc, lens, &current, part as u64, &entries[part])?;
        current = after;
        words.push(word)?;
    }
    Ok((current, Words::from_vec(words)))
}

// The triple after the entry with this number in a group, and the carried word.
fn next_part<L: EditLens>(
    alloc: Global,
    lens: &L,
    triple: &Triple,
    part: u64,
    entry: &Entry,
) -> Result<(Triple, Word), GroupFault>
    requires consistent { IsInStep (L.holds lens.now) (triple_tree triple.now) }
    ensures steps { MatchResult result
        (λ r. step (L.left_type lens.now) (L.right_type lens.now) (L.carried lens.now)
        (triple_tree triple.now) (entry_tree entry.now)
        ≡ Some (Ok (triple_tree r.0, word_tree r.1)))
        (IsPartFault part (step (L.left_type lens.now) (L.right_type lens.now)
        (L.carried lens.now) (triple_tree triple.now) (entry_tree entry.now))) }
    ensures consistent { IfOk result (λ r. IsInStep (L.holds lens.now) (triple_tree r.0)) }
{
    match next(alloc, lens, triple, entry) {
        Ok(made) => Ok(made),
        Err(StepFault::NoApply { at, cause }) => Err(GroupFault::NoApply { part, at, cause }),
        Err(StepFault::NoMemory) => Err(GroupFault::NoMemory),
    }
}
