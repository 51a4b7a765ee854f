//! The lines of a hub's journal, one after another.

ghost use Rattle.std.specs.Prelude.{◌≡◌, IfOk, Ok};
ghost use Rattle.edit_module.specs.Views.{word_tree};
ghost use Rattle.view_hub.specs.Views.{hub_tree, place_of_side};
ghost use Rattle.hub_run.specs.AnswerLines.{HasAnswerLine};
ghost use Rattle.hub_run.specs.EditJson.{edit_of_line};
ghost use Rattle.hub_run.specs.Runs.{take_hub_item};
ghost use Rattle.hub_run.specs.Views.{step_with};

use crate::answers::HubAnswer;
use crate::line::read_hub_edit;
use edit_journal::{EntryFault, Line};
use edit_module::Word;
use lens_core::EditLens;
use std::alloc::{AllocError, Global};
use view_hub::{Hub, HubFault, HubSide};

/// The answer to a line that is not blank, which steps the hub.
///
/// An edit that is refused, and a line that is not an edit, leave the hub as it was. The only error is running out of
/// memory.
pub fn take_hub_item<L: EditLens>(
    alloc: Global,
    hub: &mut Hub<L>,
    line: &Line,
) -> Result<HubAnswer, AllocError>
    ensures answer { IfOk result (λ answer. take_hub_item L.EditLens hub.old.lenses
        (hub_tree hub.old.parts) (edit_of_line line.now)
        ≡ step_with (hub_tree hub.new.parts) answer) }
    ensures has_line { IfOk result (λ answer. HasAnswerLine answer) }
    ensures lens { hub.new.lenses ≡ hub.old.lenses }
{
    match read_hub_edit(alloc, line) {
        Ok((side, word)) => take_edit(hub, side, &word),
        Err(EntryFault::NoMemory) => Err(AllocError),
        Err(fault) => Ok(HubAnswer::NoEdit(fault)),
    }
}

// The answer to an edit, which steps the hub.
fn take_edit<L: EditLens>(
    hub: &mut Hub<L>,
    side: HubSide,
    word: &Word,
) -> Result<HubAnswer, AllocError>
    ensures answer { IfOk result (λ answer. take_hub_item L.EditLens hub.old.lenses
        (hub_tree hub.old.parts) (Ok (place_of_side side, word_tree word.now))
        ≡ step_with (hub_tree hub.new.parts) answer) }
    ensures has_line { IfOk result (λ answer. HasAnswerLine answer) }
    ensures lens { hub.new.lenses ≡ hub.old.lenses }
{
    match hub.step(side, word) {
        Ok(carried) => Ok(HubAnswer::Carried(carried)),
        Err(HubFault::NoView { .. }) => Ok(HubAnswer::NoView),
        Err(HubFault::NoApply { at, cause }) => Ok(HubAnswer::NoApply { at, cause }),
        Err(HubFault::NoMemory) => Err(AllocError),
    }
}
