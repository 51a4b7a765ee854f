//! A program that is accepted, with the first record of a log.
ghost use Rattle.std.specs.Prelude.{◌≡◌, MatchResult, IfErr, IfOk, Ok};
ghost use Rattle.program_accepted.specs.Program.{form_of_program, lens_of};
ghost use Rattle.program_accepted.specs.Refused.{IsKnown, IsProgramRefusal};
ghost use Rattle.lens_forms.specs.Forms.{form_tree};
ghost use Rattle.program_terms.specs.Views.{program_tree};
ghost use Rattle.program_writing.specs.Canonical.{canonical};
ghost use Rattle.store_records.specs.RecordJson.{tree_of_program};
ghost use Rattle.embed_session.specs.Records.{IsFirstRecord};
ghost use Rattle.embed_session.specs.States.{IsTextOf};

use lens_syntax::{Program, ProgramFault, read_program};
use lens_types::{TypeFault, Typed, check};
use program_accepted::Refused;
use std::alloc::{AllocError, Global};
use store_records::program_payload;

// A lens, and the payload of the first record of a log for it.
#[derive(Drop)]
pub(crate) struct Begun {
    pub(crate) typed: Typed,
    pub(crate) text: Vec<u8>,
}

// The lens of a program with the first record, or why the program is refused.
#[tactic(auto, using(program_accepted::proofs::Refusals::known_error))]
pub(crate) fn begin(alloc: Global, program: &[u8]) -> Result<Begun, Refused>
    ensures begun { MatchResult result
        (λ b. (lens_of program.now ≡ Ok (form_tree b.typed)) × IsFirstRecord program.now b.text.items)
        (λ refused. IsProgramRefusal (lens_of program.now) refused) }
    ensures known { IfErr result IsKnown }
{
    begin_text(alloc, program)
}

// The same of the text, by one clause.
#[tactic(auto, using(program_accepted::proofs::Refusals::syntax_refused))]
fn begin_text(alloc: Global, text: &[u8]) -> Result<Begun, Refused>
    ensures { MatchResult result
        (λ b. (lens_of text.now ≡ Ok (form_tree b.typed)) × IsFirstRecord text.now b.text.items)
        (λ refused. IsProgramRefusal (lens_of text.now) refused) }
{
    match read_program(alloc, text) {
        Ok(program) => {
            let begun = begin_program(alloc, &program);
            drop(program);
            begun
        }
        Err(ProgramFault::NoMemory) => Err(Refused::NoMemory),
        Err(fault) => Err(Refused::Syntax(fault)),
    }
}

// The lens of a program that is read, with its first record.
fn begin_program(alloc: Global, program: &Program) -> Result<Begun, Refused>
    ensures { MatchResult result
        (λ b. (form_of_program (Ok (program_tree program.now)) ≡ Ok (form_tree b.typed))
        × IsTextOf (tree_of_program (canonical (program_tree program.now))) b.text.items)
        (λ refused. IsProgramRefusal (form_of_program (Ok (program_tree program.now))) refused) }
{
    match check(alloc, program) {
        Ok(typed) => match first_record(alloc, program) {
            Ok(text) => Ok(Begun { typed, text }),
            Err(_) => Err(Refused::NoMemory),
        },
        Err(TypeFault::NoMemory) => Err(Refused::NoMemory),
        Err(fault) => Err(Refused::Typing(fault)),
    }
}

// The payload of the first record.
fn first_record(alloc: Global, program: &Program) -> Result<Vec<u8>, AllocError>
    ensures { IfOk result (λ text. IsTextOf (tree_of_program (canonical (program_tree program.now))) text.items) }
{
    let payload = program_payload(alloc, program)?;
    Ok(payload.into_vec())
}
