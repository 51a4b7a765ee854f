//! A program text that is accepted, and its lens.
ghost use Rattle.std.specs.Prelude.{◌≡◌, MatchResult, IfErr, Ok};
ghost use Rattle.lens_forms.specs.Forms.{form_tree};
ghost use Rattle.program_terms.specs.Views.{program_tree};
ghost use Rattle.program_accepted.specs.Program.{IsAccepted, form_of_program, lens_of};
ghost use Rattle.program_accepted.specs.Refused.{IsKnown, IsProgramRefusal};

use lens_syntax::{Program, ProgramFault, read_program};
use lens_types::{TypeFault, Typed, check};
use std::alloc::Global;

/// Why a program text has no lens.
#[derive(Drop)]
pub enum Refused {
    /// The text is not a program, for this cause, which is not that memory ran out.
    Syntax(ProgramFault),
    /// The program has no type, for this cause, which is not that memory ran out.
    Typing(TypeFault),
    /// Memory ran out.
    NoMemory,
}

/// A program that is accepted, and its lens.
#[derive(Drop)]
pub struct Accepted {
    pub program: Program,
    pub lens: Typed,
}

/// The lens of a program text, its main lens with all names expanded, or why there is none: as [`read_accepted`]
/// refuses the text.
pub fn read_lens(alloc: Global, text: &[u8]) -> Result<Typed, Refused>
    ensures lens { MatchResult result
        (λ lens. lens_of text.now ≡ Ok (form_tree lens)) (λ refused. IsProgramRefusal (lens_of text.now) refused) }
    ensures known { IfErr result IsKnown }
{
    match read_accepted(alloc, text) {
        Ok(accepted) => Ok(accepted.lens),
        Err(refused) => Err(refused),
    }
}

/// The program of a program text and its lens, or why it is refused:
///
/// - `Syntax`: if and only if the text is longer than 65,536 bytes, is not in the grammar, or a name in it is unknown
///   or repeated. The cause is that of `bounded` in lens_syntax.
/// - `Typing`: if and only if the text is a program and the checker has a first failure, which is the cause.
/// - `NoMemory`: only if memory ran out.
///
/// docs/LANGUAGE.md says which texts are programs, and which of them are accepted.
#[tactic(auto, using(crate::proofs::Refusals::syntax_refused))]
pub fn read_accepted(alloc: Global, text: &[u8]) -> Result<Accepted, Refused>
    ensures accepted { MatchResult result
        (λ a. IsAccepted text.now (program_tree a.program) (form_tree a.lens)) (IsProgramRefusal (lens_of text.now)) }
    ensures known { IfErr result IsKnown }
{
    match read_program(alloc, text) {
        Ok(program) => with_lens(alloc, program),
        Err(ProgramFault::NoMemory) => Err(Refused::NoMemory),
        Err(fault) => Err(Refused::Syntax(fault)),
    }
}

// A program with its lens.
fn with_lens(alloc: Global, program: Program) -> Result<Accepted, Refused>
    ensures accepted { MatchResult result
        (λ a. (program_tree a.program ≡ program_tree program)
        × (form_of_program (Ok (program_tree program)) ≡ Ok (form_tree a.lens)))
        (IsProgramRefusal (form_of_program (Ok (program_tree program)))) }
    ensures known { IfErr result IsKnown }
{
    match check(alloc, &program) {
        Ok(lens) => Ok(Accepted { program, lens }),
        Err(TypeFault::NoMemory) => Err(Refused::NoMemory),
        Err(fault) => Err(Refused::Typing(fault)),
    }
}
