//! The hub that goes on from a state, or why there is none.

ghost use Rattle.std.specs.Prelude.{◌≡◌, List, ℕ, Ok, map};
ghost use Rattle.edit_journal.specs.Pieces.{texts_of};
ghost use Rattle.lens_forms.specs.Forms.{form_tree};
ghost use Rattle.view_hub.specs.Laws.{HaveOneLeftType, IsHub};
ghost use Rattle.view_hub.specs.Views.{hub_tree};
ghost use Rattle.hub_run.specs.FormLenses.{form_lens};
ghost use Rattle.hub_run.specs.Lenses.{lenses_of};
ghost use Rattle.embed_hub.specs.Embedded.{IsResumed};
ghost use Rattle.embed_hub.specs.Resuming.{AreStateTexts};

use crate::embedded::EmbeddedHub;
use crate::form_hub::FormHub;
use crate::opening::{closed, read_pieces};
use crate::outcome::HubStateFault;
use crate::running::RunningHub;
use crate::state_texts::read_state;
use embed_session::cut;
use lens_types::Typed;
use std::alloc::Global;
use texts::Bytes;
use view_hub::HubParts;

// The hub over a program part that goes on from the state of these texts, or why there is none.
pub(crate) fn resume(alloc: Global, part: &[u8], state: &[u8]) -> EmbeddedHub
    ensures { IsResumed part.now (texts_of state.now) result }
{
    match cut(alloc, state) {
        Ok(texts) => resume_texts(alloc, part, texts.as_slice()),
        Err(_) => EmbeddedHub::NoMemory,
    }
}

fn resume_texts(alloc: Global, part: &[u8], texts: &[Bytes]) -> EmbeddedHub
    ensures { IsResumed part.now texts.now result }
{
    let Ok(pieces) = read_pieces(alloc, part) else {
        return EmbeddedHub::NoMemory;
    };
    match pieces.lenses(alloc) {
        Ok(typed) => resumed(alloc, typed, texts),
        Err(refused) => closed(alloc, refused),
    }
}

// The hub of these lenses.
fn resumed(alloc: Global, typed: Vec<Typed>, texts: &[Bytes]) -> EmbeddedHub
    requires one_left { HaveOneLeftType form_lens (map form_tree typed.items) }
    ensures { (part : List ℕ) → lenses_of part ≡ Ok (map form_tree typed.items) → IsResumed part texts.now result }
{
    match read_state(alloc, &typed, texts) {
        Ok(parts) => going_on(alloc, typed, parts),
        Err(HubStateFault::NoMemory) => EmbeddedHub::NoMemory,
        Err(fault) => EmbeddedHub::StateRefused(fault),
    }
}

// The hub of these lenses at a state that is consistent.
fn going_on(alloc: Global, typed: Vec<Typed>, parts: HubParts) -> EmbeddedHub
    requires one_left { HaveOneLeftType form_lens (map form_tree typed.items) }
    requires in_step { IsHub form_lens (map form_tree typed.items) (hub_tree parts) }
    ensures { (part : List ℕ) (texts : List (List ℕ)) → lenses_of part ≡ Ok (map form_tree typed.items)
        → AreStateTexts (map form_tree typed.items) texts (hub_tree parts) → IsResumed part texts result }
{
    match FormHub::resume(alloc, typed, parts) {
        Ok(hub) => EmbeddedHub::Open(RunningHub {
            hub,
            number: 0,
            text: Vec::new(alloc),
        }),
        Err(_) => EmbeddedHub::NoMemory,
    }
}
