//! What a line makes of a session, and what is shown of it.
ghost use Rattle.std.specs.Option.{ForSome};
ghost use Rattle.std.specs.Prelude.{◌≡◌, ◌+◌, ◌^◌, ◌<◌, IfOk, IfSome, OnOk, OnErr, true};
ghost use Rattle.edit_journal.specs.EntryJson.{change_counts_fit, change_of_line};
ghost use Rattle.edit_journal.specs.declared.line.Line.{Line as LineValue};
ghost use Rattle.edit_module.specs.Views.{change_tree};
ghost use Rattle.edit_session.specs.Run.{take_item};
ghost use Rattle.edit_session.specs.Views.{triple_tree};
ghost use Rattle.lens_core.specs.Translation.{translate};
ghost use Rattle.lens_forms.specs.Forms.{left_type, right_type};
ghost use Rattle.run_answers.specs.AnswerLines.{HasAnswerLine};
ghost use Rattle.run_answers.specs.ItemRuns.{IsInStepFor};
ghost use Rattle.run_answers.specs.ItemViews.{answer_tree, step_with, IsOfItem};
ghost use Rattle.embed_session.specs.Changes.{IsRemembered, KeepsChange};
ghost use Rattle.embed_session.specs.Steps.{session_form, Answers, IsLineStep, IsAsBefore, outcome_of};
ghost use Rattle.embed_session.specs.States.{ShowsText};
ghost use Rattle.embed_session.specs.declared.outcome.Outcome.{Outcome as OutcomeValue};

use crate::accepted::Accepted;
use crate::outcome::{Outcome, Part, outcome_of};
use crate::parts::part_text;
use crate::running::Running;
use crate::shared::SharedLens;
use edit_journal::{Line, is_blank};
use edit_module::Change;
use edit_session::Session;
use json::Scratch;
use run_answers::{PairAnswer, answer_line, take_item};
use std::alloc::{AllocError, Global};
use texts::Twin;

impl Running {
    /// Takes a line, which is without its LF: the text is then the answer line, and is empty if the line is blank.
    ///
    /// The only error is running out of memory. The session, the number, the text and the last change are then as
    /// before, also if the session had stepped and its answer found no room.
    pub fn step(&mut self, alloc: Global, line: &[u8]) -> Result<Outcome, AllocError>
        requires fits { self.old.number + 1 < 2 ^ 64 }
        ensures stepped { IfOk result (λ outcome. IsLineStep self.old line.now outcome self.new) }
        ensures unchanged { OnErr result (IsAsBefore self.old self.new) }
    {
        let line = Line::from_slice(alloc, line)?;
        if is_blank(&line) {
            self.text.clear();
            self.accepted = None;
            return Ok(Outcome::Blank);
        }
        let before = copy(alloc, &self.session)?;
        match answer(alloc, &mut self.session, self.number + 1, &line) {
            Ok((text, outcome, change)) => {
                self.text = text;
                self.number += 1;
                self.accepted = remembered(change, before);
                Ok(outcome)
            }
            Err(fault) => {
                self.session = before;
                Err(fault)
            }
        }
    }

    /// Makes a part of the state or of the last change the text. False if and only if the part is one of the last
    /// change, and the last line was not a change that was accepted; then nothing changes. The only error is running
    /// out of memory, and then nothing changes either.
    pub fn show(&mut self, alloc: Global, part: Part) -> Result<bool, AllocError>
        ensures shown { IfOk result (λ found. ShowsText self.old part found self.new) }
        ensures unchanged { OnErr result (self.new ≡ self.old) }
    {
        match part_text(alloc, &self.session, &self.accepted, part)? {
            Some(shown) => {
                self.text = shown;
                Ok(true)
            }
            None => Ok(false),
        }
    }
}

// A session over the same lens at the same triple, which shares their contents.
pub(crate) fn copy(
    alloc: Global,
    session: &Session<SharedLens>,
) -> Result<Session<SharedLens>, AllocError>
    ensures lens { IfOk result (λ copy. copy.lens ≡ session.now.lens) }
    ensures triple { IfOk result (λ copy. triple_tree copy.triple ≡ triple_tree session.now.triple) }
    ensures in_step { OnOk result (IsInStepFor (session_form session.now) (triple_tree session.now.triple)) }
{
    let lens = session.lens().share()?;
    let left = session.left().twin(alloc)?;
    let comp = session.comp().twin(alloc)?;
    let right = session.right().twin(alloc)?;
    Ok(Session::resume(alloc, lens, left, comp, right))
}

// The answer to the item with this number, which steps the session, how the step ends, and the change if it was
// accepted.
fn answer(
    alloc: Global,
    session: &mut Session<SharedLens>,
    number: u64,
    line: &Line,
) -> Result<(Vec<u8>, Outcome, Option<Change>), AllocError>
    ensures answer { IfOk result (λ made. Answers session.old number line.now made.0.items made.1 session.new) }
    ensures change { IfOk result (λ made. KeepsChange line.now made.1 made.2) }
    ensures counts_fit { IfOk result (λ made.
        ForSome made.2 (λ change. change_counts_fit (change_tree change) ≡ true)) }
    ensures in_step { OnOk result (IsInStepFor (session_form session.new) (triple_tree session.new.triple)) }
    ensures lens { session.new.lens ≡ session.old.lens }
{
    let answer = take_line(alloc, session, line)?;
    // The proof needs that the triple is in step, which this call says.
    let _ = session.comp();
    let outcome = outcome_of(&answer);
    let text = answer_line(alloc, number, &answer)?;
    Ok((text.into_vec(), outcome, change_of(answer)))
}

// The answer to the item of a line, which steps the session.
fn take_line(
    alloc: Global,
    session: &mut Session<SharedLens>,
    line: &Line,
) -> Result<PairAnswer, AllocError>
    ensures answer { IfOk result (λ answer. take_item (left_type (session_form session.old))
        (right_type (session_form session.old)) (translate (session_form session.old))
        (triple_tree session.old.triple) (change_of_line line.now)
        ≡ step_with (triple_tree session.new.triple) answer) }
    ensures of_item { IfOk result (λ answer. IsOfItem (change_of_line line.now) answer) }
    ensures has_line { IfOk result (λ answer. HasAnswerLine answer) }
    ensures lens { session.new.lens ≡ session.old.lens }
{
    let mut scratch = Scratch::new(alloc);
    take_item(alloc, session, line, &mut scratch)
}

// The change that an answer is to, if it was accepted. Does not allocate.
fn change_of(answer: PairAnswer) -> Option<Change>
    ensures { (line : LineValue) → IsOfItem (change_of_line line) answer
        → IfSome (answer_tree answer) (λ tree. KeepsChange line (outcome_of tree) result) }
{
    match answer {
        PairAnswer::Carried(entry, _) => Some(Change::One(entry)),
        PairAnswer::GroupCarried(entries, _) => Some(Change::Group(entries)),
        PairAnswer::NoApply { .. } | PairAnswer::GroupNoApply { .. } | PairAnswer::NoEntry(_) =>
            None,
    }
}

// What is remembered of a step from a session on: the change and that session, if the change was accepted.
fn remembered(change: Option<Change>, before: Session<SharedLens>) -> Option<Accepted>
    requires counts_fit { ForSome change (λ change. change_counts_fit (change_tree change) ≡ true) }
    ensures remembered { (line : LineValue) (end : OutcomeValue) → KeepsChange line end change
        → IsRemembered (triple_tree before.triple) line end result }
    ensures lens { ForSome result (λ last. last.before.lens ≡ before.lens) }
{
    match change {
        Some(change) => Some(Accepted { change, before }),
        None => None,
    }
}
