//! The edits of a group, one after another.

ghost use Rattle.std.specs.Prelude.{◌≡◌, Some, Ok, map, IfOk, MatchResult};
ghost use Rattle.view_hub.specs.Groups.{step_group};
ghost use Rattle.view_hub.specs.Hubs.{hub_step};
ghost use Rattle.view_hub.specs.Laws.{IsHub};
ghost use Rattle.view_hub.specs.Views.{hub_carried_tree, edit_tree, edit_trees, hub_tree, IsGroupRefusal};
ghost use Rattle.view_hub.specs.Views.{IsPartRefusal};

use crate::fault::{HubFault, HubGroupFault};
use crate::hub::next;
use crate::side::{HubCarried, HubSide};
use crate::view::{HubParts, copy_parts};
use edit_module::Word;
use lens_core::EditLens;
use std::alloc::Global;

// The parts after these edits, each from the parts that the one before it left, and the words that acted in each. They
// start from a copy of the parts, which shares their contents.
pub(crate) fn next_all<L: EditLens>(
    alloc: Global,
    lenses: &[L],
    parts: &HubParts,
    edits: &[(HubSide, Word)],
) -> Result<(HubParts, Vec<HubCarried>), HubGroupFault>
    requires in_step { IsHub L.EditLens lenses.now (hub_tree parts.now) }
    ensures steps { MatchResult result
        (λ r. step_group L.EditLens lenses.now (hub_tree parts.now) (edit_trees edits.now)
        ≡ Some (Ok (hub_tree r.0, map hub_carried_tree r.1.items)))
        (IsGroupRefusal (step_group L.EditLens lenses.now (hub_tree parts.now)
        (edit_trees edits.now))) }
    ensures in_step { IfOk result (λ r. IsHub L.EditLens lenses.now (hub_tree r.0)) }
{
    let mut current = copy_parts(alloc, parts)?;
    let mut words = Vec::new(alloc);
    for part in 0..edits.len() {
        let (after, carried) = next_part(alloc, lenses, &current, part as u64, &edits[part])?;
        current = after;
        words.push(carried)?;
    }
    Ok((current, words))
}

// The parts after the edit with this number in a group, and the words that acted.
fn next_part<L: EditLens>(
    alloc: Global,
    lenses: &[L],
    parts: &HubParts,
    part: u64,
    edit: &(HubSide, Word),
) -> Result<(HubParts, HubCarried), HubGroupFault>
    requires in_step { IsHub L.EditLens lenses.now (hub_tree parts.now) }
    ensures steps { MatchResult result
        (λ r. hub_step L.EditLens lenses.now (hub_tree parts.now) (edit_tree edit.now)
        ≡ Some (Ok (hub_tree r.0, hub_carried_tree r.1)))
        (IsPartRefusal part (hub_step L.EditLens lenses.now (hub_tree parts.now)
        (edit_tree edit.now))) }
    ensures in_step { IfOk result (λ r. IsHub L.EditLens lenses.now (hub_tree r.0)) }
{
    match next(alloc, lenses, parts, edit.0, &edit.1) {
        Ok(made) => Ok(made),
        Err(HubFault::NoView { views }) => Err(HubGroupFault::NoView { part, views }),
        Err(HubFault::NoApply { at, cause }) => Err(HubGroupFault::NoApply { part, at, cause }),
        Err(HubFault::NoMemory) => Err(HubGroupFault::NoMemory),
    }
}
