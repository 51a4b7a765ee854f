//! A hub that answers the journal of a script.

ghost use Rattle.std.specs.Prelude.{◌≡◌, ℕ, List, map, IfOk, OnErr, MatchResult};
ghost use Rattle.lens_forms.specs.Forms.{form_tree};
ghost use Rattle.run_scripts.specs.Answers.{AddsAnswer};
ghost use Rattle.run_scripts.specs.ScriptSteps.{Opens, IsNotOpened};
ghost use Rattle.view_hub.specs.Laws.{HaveOneLeftType};
ghost use Rattle.view_hub.specs.Views.{hub_tree};
ghost use Rattle.hub_run.specs.FormLenses.{form_lens};
ghost use Rattle.hub_run.specs.FoundLenses.{IsRefusedHub, HasRefusalLine};
ghost use Rattle.hub_run.specs.HubHeads.{HasPieces};
ghost use Rattle.hub_run.specs.HubScript.{hub_script};
ghost use Rattle.hub_run.specs.Lenses.{lenses_of};
ghost use Rattle.hub_run.specs.RunStates.{hub_state_of, forms_of_lenses};
ghost use Rattle.hub_run.specs.Runs.{hub_answer, first_state, hub_of};

use crate::answers::hub_answer_line;
use crate::journal::take_hub_item;
use crate::pieces::Pieces;
use crate::state::hub_state_lines;
use crate::views::{HubRefused, refusal_line};
use edit_journal::Line;
use lens_flat::Flat;
use lens_types::Typed;
use run_scripts::{NotOpened, ScriptState};
use std::alloc::{AllocError, Global};
use std::marker::Model;
use texts::Bytes;
use view_hub::Hub;

/// A hub that answers the journal of a script. Contracts see it as the hub.
#[derive(Drop)]
pub struct HubRun {
    hub: Hub<Flat>,
}

impl Model for HubRun {
    ghost use Rattle.lens_flat.specs.contracts.flat.ReadyForm as ready_form;
    ghost use Rattle.lens_flat.specs.declared.flat.ReadyForm.{ReadyForm};
    ghost use Rattle.view_hub.specs.contracts.view.HubParts as parts_type;
    ghost use Rattle.view_hub.specs.Views.{HubOf, hub_code};

    ghost Value = { HubOf ReadyForm };

    ghost coded = { hub_code ready_form.the_row.coded parts_type.the_row.coded };

    ghost view = { λ r. r.hub };
}

impl ScriptState for HubRun {
    ghost use Rattle.std.specs.Prelude.{List};
    ghost use Rattle.lens_forms.specs.Forms.{FormTree};
    ghost use Rattle.hub_run.specs.Lenses.{HubRefusal, lenses_of, hub_refusal_line};
    ghost use Rattle.hub_run.specs.RunStates.{hub_state_of};
    ghost use Rattle.hub_run.specs.Runs.{HubState, IsHubInStep, hub_answer, first_state, hub_state_text};

    ghost Accepted = { List FormTree };

    ghost Refusal = { HubRefusal };

    ghost State = { HubState };

    ghost state = { hub_state_of };

    ghost accepted = { lenses_of };

    ghost refusal_line = { hub_refusal_line };

    ghost start = { first_state };

    ghost answer = { hub_answer };

    ghost state_text = { hub_state_text };

    ghost in_step = { IsHubInStep };

    fn answer(
        &mut self,
        alloc: Global,
        number: u64,
        line: &Line,
        text: &mut Vec<u8>,
    ) -> Result<bool, AllocError> {
        answer_item(alloc, &mut self.hub, number, line, text)
    }

    fn state_lines(&self, alloc: Global) -> Result<Bytes, AllocError> {
        let lines = hub_state_lines(alloc, &self.hub)?;
        Ok(Bytes::from_vec(lines))
    }
}

// Adds the answer line of the item with this number, which steps the hub if it is an edit.
fn answer_item(
    alloc: Global,
    hub: &mut Hub<Flat>,
    number: u64,
    line: &Line,
    text: &mut Vec<u8>,
) -> Result<bool, AllocError>
    ensures answer { IfOk result (AddsAnswer (hub_answer (hub_state_of hub.old) number line.now)
        (hub_state_of hub.new) text.old.items text.new.items) }
    ensures unchanged { OnErr result (text.new.items ≡ text.old.items) }
    ensures lenses { hub.new.lenses ≡ hub.old.lenses }
{
    let answer = take_hub_item(alloc, hub, line)?;
    let line = hub_answer_line(alloc, number, &answer)?;
    text.extend_from_slice(line.as_slice())?;
    Ok(answer.is_refused())
}

impl HubRun {
    /// A hub of these lenses at its start. There is a lens, and all lenses have the same left type.
    ///
    /// The only error is running out of memory.
    pub fn start(alloc: Global, typed: &[Typed]) -> Result<HubRun, AllocError>
        requires one_left { HaveOneLeftType form_lens (map form_tree typed.now) }
        ensures state { IfOk result (λ r. hub_state_of r ≡ first_state (map form_tree typed.now)) }
    {
        let hub = first_hub(alloc, typed)?;
        Ok(HubRun { hub })
    }

    /// The hub of a program part at its start; or the line of the refusal, if the program part is refused as
    /// [`Pieces::lenses`] says.
    ///
    /// `NoMemory` comes only if memory ran out, and says nothing of the program part.
    pub fn open(alloc: Global, pieces: &Pieces) -> Result<HubRun, NotOpened>
        ensures opens { (part : List ℕ) → HasPieces pieces.now part
            → Opens hub_script (lenses_of part) result }
    {
        match pieces.lenses(alloc) {
            Ok(typed) => started(alloc, &typed),
            Err(refused) => Err(not_opened(alloc, &refused)),
        }
    }
}

// A hub of these lenses at its start, unless memory ran out.
fn started(alloc: Global, typed: &[Typed]) -> Result<HubRun, NotOpened>
    requires one_left { HaveOneLeftType form_lens (map form_tree typed.now) }
    ensures { MatchResult result (λ r. hub_state_of r ≡ first_state (map form_tree typed.now))
        (λ refused. refused ≡ NotOpened.NoMemory) }
{
    match HubRun::start(alloc, typed) {
        Ok(run) => Ok(run),
        Err(_) => Err(NotOpened::NoMemory),
    }
}

// The line of a refusal, unless memory ran out.
fn not_opened(alloc: Global, refused: &HubRefused) -> NotOpened
    requires has_line { HasRefusalLine refused.now }
    ensures { (part : List ℕ) → IsRefusedHub (lenses_of part) refused.now
        → IsNotOpened hub_script (lenses_of part) result }
{
    match refusal_line(alloc, refused) {
        Ok(line) => NotOpened::Refused(line),
        Err(_) => NotOpened::NoMemory,
    }
}

/// A hub of these lenses at its start. There is a lens, and all lenses have the same left type.
///
/// The only error is running out of memory.
#[tactic(auto, using(crate::proofs::HubStarts::one_left_of_lenses))]
pub fn first_hub(alloc: Global, typed: &[Typed]) -> Result<Hub<Flat>, AllocError>
    requires one_left { HaveOneLeftType form_lens (map form_tree typed.now) }
    ensures forms { IfOk result (λ h. map form_tree typed.now ≡ forms_of_lenses h.lenses) }
    ensures first { IfOk result (λ h. hub_tree h.parts ≡ hub_of (map form_tree typed.now)) }
{
    let lenses = compiled(alloc, typed)?;
    Hub::start(alloc, lenses)
}

// The lenses, each as a table of nodes.
fn compiled(alloc: Global, typed: &[Typed]) -> Result<Vec<Flat>, AllocError>
    ensures { IfOk result (λ lenses. forms_of_lenses lenses.items ≡ map form_tree typed.now) }
{
    let mut lenses = Vec::with_capacity(alloc, typed.len())?;
    for lens in typed {
        let flat = Flat::compile(alloc, lens)?;
        lenses.push(flat)?;
    }
    Ok(lenses)
}
