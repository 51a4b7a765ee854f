//! The lens of the fixed program.

ghost use Rattle.std.specs.Prelude.{◌≡◌, IfOk};
ghost use Rattle.lens_forms.specs.Forms.{form_tree};
ghost use Rattle.program_terms.specs.Views.{program_tree};
ghost use Rattle.lens_syntax.specs.declared.fault.ProgramFault.TheVariants as ReadingFault;
ghost use Rattle.lens_types.specs.declared.fault.TypeFault.TheVariants as TypingFault;
ghost use Rattle.run_gen.specs.Program.{program_tree as fixed_program, generated_form};

use lens_flat::Flat;
use lens_syntax::{Program, ProgramFault, read_program};
use lens_types::{TypeFault, check};
use std::alloc::{AllocError, Global};

// A list of texts and numbers on the left; a record of the numbers and of the texts on the right.
const TEXT: &str =
    "main then(part <p: text, o: int>, {o ~ nums: each id int, p ~ names: each id text})";

/// The lens of the fixed program. Fails only if memory runs out.
#[tactic(auto, using(crate::proofs::Accepted::form_is, crate::proofs::Accepted::typing_fault))]
pub(crate) fn fixed_lens(alloc: Global) -> Result<Flat, AllocError>
    ensures { IfOk result (λ lens. form_tree lens.typed ≡ generated_form) }
{
    let program = fixed_program(alloc)?;
    match check(alloc, &program) {
        Ok(typed) => Flat::compile(alloc, &typed),
        Err(fault) => Err(from_typing(fault)),
    }
}

// The fixed program.
#[tactic(auto, using(crate::proofs::Accepted::read_is, crate::proofs::Accepted::reading_fault))]
fn fixed_program(alloc: Global) -> Result<Program, AllocError>
    ensures { IfOk result (λ program. program_tree program ≡ fixed_program) }
{
    match read_program(alloc, TEXT.as_bytes()) {
        Ok(program) => Ok(program),
        Err(fault) => Err(from_reading(fault)),
    }
}

// The text is a program, so reading it fails only if memory runs out.
fn from_reading(_fault: ProgramFault) -> AllocError
    requires { _fault ≡ ReadingFault.NoMemory }
{
    AllocError
}

// The program has a type, so checking it fails only if memory runs out.
fn from_typing(_fault: TypeFault) -> AllocError
    requires { _fault ≡ TypingFault.NoMemory }
{
    AllocError
}
