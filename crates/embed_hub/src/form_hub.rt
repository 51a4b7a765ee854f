//! A hub of lenses over forms, as the calls of the library take it.

ghost use Rattle.std.specs.Prelude.{◌≡◌, IfOk, OnErr, map, option_map};
ghost use Rattle.lens_forms.specs.Forms.{form_tree};
ghost use Rattle.view_hub.specs.Laws.{HaveOneLeftType, IsHub};
ghost use Rattle.view_hub.specs.Views.{hub_tree};
ghost use Rattle.hub_run.specs.FormLenses.{form_lens};
ghost use Rattle.hub_run.specs.RunStates.{forms_of_lenses, hub_state_of, IsHubOf};
ghost use Rattle.hub_run.specs.Runs.{first_state};
ghost use Rattle.embed_hub.specs.Parts.{part_text};
ghost use Rattle.embed_hub.specs.Steps.{Answers, StaysInStep};

use crate::outcome::{HubOutcome, HubPart, outcome_of};
use crate::parts::part_text;
use edit_journal::Line;
use hub_run::{first_hub, hub_answer_line, take_hub_item};
use lens_flat::Flat;
use lens_types::Typed;
use std::alloc::{AllocError, Global};
use std::marker::Model;
use view_hub::{Hub, HubParts, copy_parts};

/// A hub of lenses over forms. Contracts see it as the hub.
#[derive(Drop)]
pub struct FormHub {
    hub: Hub<Flat>,
}

impl Model for FormHub {
    ghost use Rattle.lens_flat.specs.contracts.flat.ReadyForm as ready_form;
    ghost use Rattle.lens_flat.specs.declared.flat.ReadyForm.{ReadyForm};
    ghost use Rattle.view_hub.specs.contracts.view.HubParts as parts_type;
    ghost use Rattle.view_hub.specs.Views.{HubOf, hub_code};

    ghost Value = { HubOf ReadyForm };

    ghost coded = { hub_code ready_form.the_row.coded parts_type.the_row.coded };

    ghost view = { λ h. h.hub };
}

impl FormHub {
    /// A hub of these lenses at its start. There is a lens, and all lenses have the same left type.
    ///
    /// The only error is running out of memory.
    pub(crate) fn start(alloc: Global, typed: Vec<Typed>) -> Result<FormHub, AllocError>
        requires one_left { HaveOneLeftType form_lens (map form_tree typed.items) }
        ensures state { IfOk result (λ h. hub_state_of h ≡ first_state (map form_tree typed.items)) }
        ensures in_step { IfOk result (λ h. StaysInStep h) }
    {
        let hub = first_hub(alloc, &typed);
        drop(typed);
        let hub = hub?;
        is_in_step(&hub);
        Ok(FormHub { hub })
    }

    /// A hub of these lenses at this state, of which each view is in its lens's relation with the hub's document.
    ///
    /// The only error is running out of memory.
    pub(crate) fn resume(
        alloc: Global,
        typed: Vec<Typed>,
        parts: HubParts,
    ) -> Result<FormHub, AllocError>
        requires one_left { HaveOneLeftType form_lens (map form_tree typed.items) }
        requires in_step { IsHub form_lens (map form_tree typed.items) (hub_tree parts) }
        ensures forms { IfOk result (λ h. forms_of_lenses h.lenses ≡ map form_tree typed.items) }
        ensures parts { IfOk result (λ h. hub_tree h.parts ≡ hub_tree parts) }
        ensures in_step { IfOk result (λ h. StaysInStep h) }
    {
        let hub = hub_at(alloc, &typed, parts);
        drop(typed);
        Ok(FormHub { hub: hub? })
    }

    /// Takes the item with this number, which is not blank. Returns its answer line, and how the step ends.
    ///
    /// The only error is running out of memory. The lenses, the documents and the complements are then as before, also
    /// if the hub had stepped and its answer found no room.
    pub(crate) fn take(
        &mut self,
        alloc: Global,
        number: u64,
        line: &Line,
    ) -> Result<(Vec<u8>, HubOutcome), AllocError>
        ensures answers { IfOk result (λ made.
            Answers self.old number line.now made.0.items made.1 self.new) }
        ensures unchanged { OnErr result (hub_state_of self.new ≡ hub_state_of self.old) }
    {
        let before = copy_parts(alloc, self.hub.parts())?;
        match answer(alloc, &mut self.hub, number, line) {
            Ok(made) => Ok(made),
            Err(fault) => {
                self.hub.replace(before);
                Err(fault)
            }
        }
    }

    /// The text of a part of the state. None if and only if the part is one of a view that does not exist.
    ///
    /// The only error is running out of memory.
    pub(crate) fn part(&self, alloc: Global, part: HubPart) -> Result<Option<Vec<u8>>, AllocError>
        ensures text { IfOk result (λ found.
            part_text (hub_state_of self.now) part ≡ option_map (λ text. text.items) found) }
    {
        part_text(alloc, &self.hub, part)
    }
}

// A hub of these lenses at this state.
fn hub_at(alloc: Global, typed: &[Typed], parts: HubParts) -> Result<Hub<Flat>, AllocError>
    requires one_left { HaveOneLeftType form_lens (map form_tree typed.now) }
    requires in_step { IsHub form_lens (map form_tree typed.now) (hub_tree parts) }
    ensures forms { IfOk result (λ h. map form_tree typed.now ≡ forms_of_lenses h.lenses) }
    ensures parts { IfOk result (λ h. h.parts ≡ parts) }
    ensures in_step { IfOk result (λ h. StaysInStep h) }
{
    let mut hub = first_hub(alloc, typed)?;
    hub.replace(parts);
    is_in_step(&hub);
    Ok(hub)
}

// The answer to the item with this number, which steps the hub, and how the step ends.
fn answer(
    alloc: Global,
    hub: &mut Hub<Flat>,
    number: u64,
    line: &Line,
) -> Result<(Vec<u8>, HubOutcome), AllocError>
    ensures answers { IfOk result (λ made.
        Answers hub.old number line.now made.0.items made.1 hub.new) }
    ensures lenses { hub.new.lenses ≡ hub.old.lenses }
{
    let answer = take_hub_item(alloc, hub, line)?;
    let outcome = outcome_of(&answer);
    let text = hub_answer_line(alloc, number, &answer)?;
    is_in_step(hub);
    Ok((text.into_vec(), outcome))
}

// Does nothing; its clause is what a hub's calls say of it.
pub(crate) fn is_in_step(hub: &Hub<Flat>)
    ensures of_lenses { IsHubOf hub.now.lenses (hub_tree hub.now.parts) }
    ensures of_forms { StaysInStep hub.now }
{
    let _ = hub.hub();
}
