//! The session over a program, or the line of its refusal.
ghost use Rattle.std.specs.Prelude.{◌≡◌, List, ℕ, IfOk, Ok};
ghost use Rattle.program_accepted.specs.Program.{lens_of};
ghost use Rattle.program_accepted.specs.Refused.{IsKnown, IsProgramRefusal};
ghost use Rattle.edit_session.specs.Views.{triple_tree};
ghost use Rattle.run_answers.specs.ItemRuns.{triple_at_first};
ghost use Rattle.lens_forms.specs.Forms.{form_tree};
ghost use Rattle.embed_session.specs.Embedded.{IsOpened, IsRefusedProgram};
ghost use Rattle.embed_session.specs.Records.{IsFirstRecord};

use crate::beginning::{Begun, begin};
use crate::embedded::EmbeddedSession;
use crate::running::Running;
use crate::shared::SharedLens;
use answer_text::refused_part_line;
use edit_session::Session;
use lens_types::Typed;
use program_accepted::Refused;
use std::alloc::{AllocError, Global};

// The session over a program, or why there is none.
pub(crate) fn open(alloc: Global, program: &[u8]) -> EmbeddedSession
    ensures { IsOpened program.now result }
{
    match begin(alloc, program) {
        Ok(begun) => started(alloc, begun),
        Err(refused) => closed(alloc, refused),
    }
}

fn started(alloc: Global, begun: Begun) -> EmbeddedSession
    ensures { (program : List ℕ) → lens_of program ≡ Ok (form_tree begun.typed)
        → IsFirstRecord program begun.text.items → IsOpened program result }
{
    let Begun { typed, text } = begun;
    match first_session(alloc, &typed) {
        Ok(session) => EmbeddedSession::Open(Running::new(session, text)),
        Err(_) => EmbeddedSession::NoMemory,
    }
}

// The session at the first triple of a lens.
pub(crate) fn first_session(alloc: Global, typed: &Typed) -> Result<Session<SharedLens>, AllocError>
    ensures form { IfOk result (λ s. form_tree s.lens.typed ≡ form_tree typed.now) }
    ensures first { IfOk result (λ s. triple_tree s.triple ≡ triple_at_first (form_tree typed.now)) }
{
    let lens = SharedLens::compile(alloc, typed)?;
    Session::start(alloc, lens)
}

// What is held of a program that is refused.
pub(crate) fn closed(alloc: Global, refused: Refused) -> EmbeddedSession
    requires { IsKnown refused }
    ensures { (program : List ℕ) → IsProgramRefusal (lens_of program) refused → IsRefusedProgram program result }
{
    match refused_part_line(alloc, &refused) {
        Ok(line) => EmbeddedSession::Refused(refused, line.into_vec()),
        Err(_) => EmbeddedSession::NoMemory,
    }
}
