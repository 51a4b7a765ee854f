//! The state of `run`: a session that answers the journal of a script.
ghost use Rattle.std.specs.Prelude.{◌≡◌, ℕ, List, IfOk, OnErr, Ok, Result};
ghost use Rattle.program_accepted.specs.Program.{Refusal, lens_of};
ghost use Rattle.program_accepted.specs.Refused.{IsKnown, IsProgramRefusal};
ghost use Rattle.lens_forms.specs.Forms.{FormTree, form_tree};
ghost use Rattle.run_pair.specs.Runs.{first_pair, line_answer, pair_state_of, pair_state_text};
ghost use Rattle.run_pair.specs.Scripts.{pair_script};
ghost use Rattle.run_scripts.specs.Answers.{AddsAnswer};
ghost use Rattle.run_scripts.specs.ScriptSteps.{Opens, IsNotOpened};

use answer_text::refused_part_line;
use edit_journal::Line;
use edit_session::Session;
use json::Scratch;
use lens_flat::Flat;
use lens_types::Typed;
use program_accepted::Refused;
use run_answers::{add_answer_line, state_lines, take_item};
use run_scripts::{NotOpened, ProgramScript, ScriptState};
use script_input::ProgramText;
use std::alloc::{AllocError, Global};
use texts::Bytes;

/// A session that answers the journal of a script.
#[derive(Drop)]
pub struct PairRun {
    pub session: Session<Flat>,
    // Room for reading lines, which says nothing of the state.
    scratch: Scratch,
}

impl ScriptState for PairRun {
    ghost use Rattle.program_accepted.specs.Program.{Refusal, lens_of};
    ghost use Rattle.answer_text.specs.RefusalLines.{refused_part_line};
    ghost use Rattle.edit_session.specs.Step.{TripleTree};
    ghost use Rattle.lens_forms.specs.Forms.{FormTree};
    ghost use Rattle.run_pair.specs.Runs.{IsPairInStep, first_pair, line_answer, pair_state_of, pair_state_text};

    ghost Accepted = { FormTree };

    ghost Refusal = { Refusal };

    ghost State = { FormTree × TripleTree };

    ghost state = { λ s. pair_state_of s.session };

    ghost accepted = { lens_of };

    ghost refusal_line = { refused_part_line };

    ghost start = { first_pair };

    ghost answer = { line_answer };

    ghost state_text = { pair_state_text };

    ghost in_step = { IsPairInStep };

    fn answer(
        &mut self,
        alloc: Global,
        number: u64,
        line: &Line,
        text: &mut Vec<u8>,
    ) -> Result<bool, AllocError> {
        answer_item(
            alloc,
            &mut self.session,
            number,
            line,
            &mut self.scratch,
            text,
        )
    }

    fn state_lines(&self, alloc: Global) -> Result<Bytes, AllocError> {
        text_of_state(alloc, &self.session)
    }
}

// Adds the answer line of the item with this number, which steps the session by a change that applies.
fn answer_item(
    alloc: Global,
    session: &mut Session<Flat>,
    number: u64,
    line: &Line,
    scratch: &mut Scratch,
    text: &mut Vec<u8>,
) -> Result<bool, AllocError>
    ensures answer { IfOk result (AddsAnswer (line_answer (pair_state_of session.old) number line.now)
        (pair_state_of session.new) text.old.items text.new.items) }
    ensures unchanged { OnErr result (text.new.items ≡ text.old.items) }
{
    let answer = take_item(alloc, session, line, scratch)?;
    add_answer_line(alloc, text, number, &answer)?;
    Ok(answer.is_refused())
}

// The state lines of a session of a compiled lens.
#[tactic(auto, using(lens_flat::proofs::FormLenses::is_lens_of))]
fn text_of_state(alloc: Global, session: &Session<Flat>) -> Result<Bytes, AllocError>
    ensures { IfOk result (λ text. text ≡ pair_state_text (pair_state_of session.now)) }
{
    let text = state_lines(alloc, session.lens().typed(), session)?;
    Ok(Bytes::from_vec(text))
}

impl ProgramScript for PairRun {
    ghost use Rattle.run_pair.specs.RunsInStep.{every_run};

    ghost every_run = { every_run };

    fn open(alloc: Global, program: &ProgramText) -> Result<Self, NotOpened> {
        match program.lens(alloc) {
            Ok(typed) => start_run(alloc, typed),
            Err(refused) => Err(not_opened(alloc, refused)),
        }
    }
}

// The session of a lens before the journal.
fn start_run(alloc: Global, typed: Typed) -> Result<PairRun, NotOpened>
    ensures { (part : List ℕ) → lens_of part ≡ Ok (form_tree typed) → Opens pair_script (lens_of part) result }
{
    let started = first_run(alloc, &typed);
    drop(typed);
    match started {
        Ok(run) => Ok(run),
        Err(_) => Err(NotOpened::NoMemory),
    }
}

fn first_run(alloc: Global, typed: &Typed) -> Result<PairRun, AllocError>
    ensures { IfOk result (λ run. pair_state_of run.session ≡ first_pair (form_tree typed.now)) }
{
    let lens = Flat::compile(alloc, typed)?;
    let session = Session::start(alloc, lens)?;
    let scratch = Scratch::new(alloc);
    Ok(PairRun { session, scratch })
}

// The refusal of a program part, with its line. Running out of memory is not a refusal.
fn not_opened(alloc: Global, refused: Refused) -> NotOpened
    requires { IsKnown refused }
    ensures { (outcome : Result FormTree Refusal) → IsProgramRefusal outcome refused
        → IsNotOpened pair_script outcome result }
{
    let line = refused_part_line(alloc, &refused);
    drop(refused);
    match line {
        Ok(line) => NotOpened::Refused(line),
        Err(_) => NotOpened::NoMemory,
    }
}
