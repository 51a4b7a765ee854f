//! A script over a link: its program part, its journal and its last link.
ghost use Rattle.std.specs.Prelude.{◌≡◌, ℕ, List, IfOk, Result};
ghost use Rattle.lens_forms.specs.Forms.{FormTree, form_tree};
ghost use Rattle.program_accepted.specs.Program.{Refusal, lens_of};
ghost use Rattle.program_accepted.specs.Refused.{IsKnown, IsProgramRefusal};
ghost use Rattle.run_scripts.specs.ScriptSteps.{Opens, IsNotOpened};
ghost use Rattle.run_link.specs.LinkScript.{link_script};
ghost use Rattle.run_link.specs.Runs.{first_link, link_state_of, link_state_text};

use crate::journal::answer_item;
use crate::state::link_state_lines;
use answer_text::refused_part_line;
use edit_journal::Line;
use lens_flat::Flat;
use lens_types::Typed;
use program_accepted::Refused;
use run_scripts::{NotOpened, ProgramScript, ScriptState};
use script_input::ProgramText;
use std::alloc::{AllocError, Global};
use texts::Bytes;
use turn_link::Link;

/// A link that answers the journal of a script.
#[derive(Drop)]
pub struct LinkRun {
    pub link: Link<Flat>,
}

impl ScriptState for LinkRun {
    ghost use Rattle.lens_forms.specs.Forms.{FormTree};
    ghost use Rattle.program_accepted.specs.Program.{Refusal, lens_of};
    ghost use Rattle.turn_link.specs.Links.{LinkTree};
    ghost use Rattle.answer_text.specs.RefusalLines.{refused_part_line};
    ghost use Rattle.run_link.specs.Runs.{first_link, link_line_answer, link_state_of, link_state_text, IsInTurnsWith};

    ghost Accepted = { FormTree };

    ghost Refusal = { Refusal };

    ghost State = { FormTree × LinkTree };

    ghost state = { λ s. link_state_of s.link };

    ghost accepted = { lens_of };

    ghost refusal_line = { refused_part_line };

    ghost start = { first_link };

    ghost answer = { link_line_answer };

    ghost state_text = { link_state_text };

    ghost in_step = { IsInTurnsWith };

    fn answer(
        &mut self,
        alloc: Global,
        number: u64,
        line: &Line,
        text: &mut Vec<u8>,
    ) -> Result<bool, AllocError> {
        answer_item(alloc, &mut self.link, number, line, text)
    }

    fn state_lines(&self, alloc: Global) -> Result<Bytes, AllocError> {
        text_of_state(alloc, &self.link)
    }
}

// The state lines of a link of a compiled lens.
#[tactic(auto, using(lens_flat::proofs::FormLenses::is_lens_of))]
fn text_of_state(alloc: Global, link: &Link<Flat>) -> Result<Bytes, AllocError>
    ensures { IfOk result (λ text. text ≡ link_state_text (link_state_of link.now)) }
{
    let text = link_state_lines(alloc, link.left().lens().typed(), link)?;
    Ok(Bytes::from_vec(text))
}

impl ProgramScript for LinkRun {
    ghost use Rattle.run_link.specs.RunsInTurns.{every_run};

    ghost every_run = { every_run };

    fn open(alloc: Global, program: &ProgramText) -> Result<Self, NotOpened> {
        match program.lens(alloc) {
            Ok(typed) => start_run(alloc, typed),
            Err(refused) => Err(refusal(alloc, refused)),
        }
    }
}

// The link of a lens before any event.
fn start_run(alloc: Global, typed: Typed) -> Result<LinkRun, NotOpened>
    ensures { (part : List ℕ) → lens_of part ≡ Ok (form_tree typed)
        → Opens link_script (lens_of part) result }
{
    let started = first_run(alloc, &typed);
    drop(typed);
    match started {
        Ok(run) => Ok(run),
        Err(_) => Err(NotOpened::NoMemory),
    }
}

fn first_run(alloc: Global, typed: &Typed) -> Result<LinkRun, AllocError>
    ensures { IfOk result (λ run. link_state_of run.link ≡ first_link (form_tree typed.now)) }
{
    let lens = Flat::compile(alloc, typed)?;
    let link = Link::start(alloc, lens)?;
    Ok(LinkRun { link })
}

// The refusal of a program part, with its line. Running out of memory is not a refusal.
fn refusal(alloc: Global, refused: Refused) -> NotOpened
    requires { IsKnown refused }
    ensures { (outcome : Result FormTree Refusal) → IsProgramRefusal outcome refused
        → IsNotOpened link_script outcome result }
{
    let line = refused_part_line(alloc, &refused);
    drop(refused);
    match line {
        Ok(line) => NotOpened::Refused(line),
        Err(_) => NotOpened::NoMemory,
    }
}
