//! The state of `check`: the two types of a lens, which are shown at the end of a script.
ghost use Rattle.std.specs.Prelude.{◌≡◌, IfOk, Result};
ghost use Rattle.program_accepted.specs.Program.{Refusal};
ghost use Rattle.program_accepted.specs.Refused.{IsKnown, IsProgramRefusal};
ghost use Rattle.lens_forms.specs.Forms.{FormTree, form_tree};
ghost use Rattle.run_pair.specs.Scripts.{types_script};
ghost use Rattle.run_pair.specs.Shown.{type_lines};
ghost use Rattle.run_scripts.specs.ScriptSteps.{IsNotOpened};

use answer_text::{refused_part_line, type_line};
use edit_journal::Line;
use lens_types::Typed;
use program_accepted::Refused;
use run_scripts::{NotOpened, ProgramScript, ScriptState};
use script_input::ProgramText;
use std::alloc::{AllocError, Global};
use texts::{Bytes, Side};

/// A lens whose types are shown.
#[derive(Drop)]
pub struct TypesShown {
    pub lens: Typed,
}

impl ScriptState for TypesShown {
    ghost use Rattle.program_accepted.specs.Program.{Refusal, lens_of};
    ghost use Rattle.answer_text.specs.RefusalLines.{refused_part_line};
    ghost use Rattle.lens_forms.specs.Forms.{FormTree, form_tree};
    ghost use Rattle.run_pair.specs.Shown.{IsShown, no_answer, same_form, type_lines};

    ghost Accepted = { FormTree };

    ghost Refusal = { Refusal };

    ghost State = { FormTree };

    ghost state = { λ s. form_tree s.lens };

    ghost accepted = { lens_of };

    ghost refusal_line = { refused_part_line };

    ghost start = { same_form };

    ghost answer = { no_answer };

    ghost state_text = { type_lines };

    ghost in_step = { IsShown };

    /// No text: a line of the journal is not looked at.
    fn answer(
        &mut self,
        _alloc: Global,
        _number: u64,
        _line: &Line,
        _text: &mut Vec<u8>,
    ) -> Result<bool, AllocError> {
        Ok(false)
    }

    fn state_lines(&self, alloc: Global) -> Result<Bytes, AllocError> {
        types_of(alloc, &self.lens)
    }
}

// The two types of a lens. The only error is running out of memory.
fn types_of(alloc: Global, lens: &Typed) -> Result<Bytes, AllocError>
    ensures { IfOk result (λ text. text ≡ type_lines (form_tree lens.now)) }
{
    let left = type_line(alloc, Side::Left, lens.left())?;
    let right = type_line(alloc, Side::Right, lens.right())?;
    let mut text = left.into_vec();
    text.extend_from_slice(right.as_slice())?;
    Ok(Bytes::from_vec(text))
}

impl ProgramScript for TypesShown {
    ghost use Rattle.run_pair.specs.RunsInStep.{every_check};

    ghost every_run = { every_check };

    fn open(alloc: Global, program: &ProgramText) -> Result<Self, NotOpened> {
        match program.lens(alloc) {
            Ok(lens) => Ok(TypesShown { lens }),
            Err(refused) => Err(not_opened(alloc, refused)),
        }
    }
}

// The refusal of a program part, with its line. Running out of memory is not a refusal.
fn not_opened(alloc: Global, refused: Refused) -> NotOpened
    requires { IsKnown refused }
    ensures { (outcome : Result FormTree Refusal) → IsProgramRefusal outcome refused
        → IsNotOpened types_script outcome result }
{
    let line = refused_part_line(alloc, &refused);
    drop(refused);
    match line {
        Ok(line) => NotOpened::Refused(line),
        Err(_) => NotOpened::NoMemory,
    }
}
