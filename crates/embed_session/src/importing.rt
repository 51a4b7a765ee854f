//! The session of which one document is given, or why there is none.
ghost use Rattle.std.specs.Prelude.{◌≡◌, List, ℕ, true, Ok, IfOk, IsTrue};
ghost use Rattle.program_accepted.specs.Program.{lens_of};
ghost use Rattle.doc_values.specs.Documents.{doc_tree};
ghost use Rattle.doc_values.specs.Types.{ty_tree, is_well_formed};
ghost use Rattle.doc_values.specs.Typing.{has};
ghost use Rattle.edit_session.specs.Views.{triple_tree};
ghost use Rattle.lens_forms.specs.Forms.{form_tree};
ghost use Rattle.embed_session.specs.Embedded.{IsImported, side_type, side_fault, Brings};
ghost use Rattle.embed_session.specs.Records.{IsFirstRecord};
ghost use Rattle.embed_session.specs.States.{IsDocumentText};
ghost use Rattle.embed_session.specs.Steps.{session_form};

use crate::beginning::{Begun, begin};
use crate::embedded::EmbeddedSession;
use crate::opening::{closed, first_session};
use crate::outcome::StateFault;
use crate::resuming::document_of_text;
use crate::running::Running;
use crate::shared::SharedLens;
use doc_values::{Doc, Ty};
use edit_inverse::construct;
use edit_module::Entry;
use edit_session::{Session, StepFault};
use lens_types::Typed;
use std::alloc::{AllocError, Global};
use texts::Side;

// The session over a program with this document of a side, or why there is none.
pub(crate) fn import(alloc: Global, program: &[u8], side: Side, document: &[u8]) -> EmbeddedSession
    ensures { IsImported program.now side document.now result }
{
    match begin(alloc, program) {
        Ok(begun) => imported(alloc, begun, side, document),
        Err(refused) => closed(alloc, refused),
    }
}

fn imported(alloc: Global, begun: Begun, side: Side, document: &[u8]) -> EmbeddedSession
    ensures { (program : List ℕ) → lens_of program ≡ Ok (form_tree begun.typed)
        → IsFirstRecord program begun.text.items → IsImported program side document.now result }
{
    match document_of_text(alloc, side_type(&begun.typed, side), document) {
        Ok(Some(doc)) => brought(alloc, begun, side, &doc),
        Ok(None) => EmbeddedSession::StateRefused(side_fault(side)),
        Err(_) => EmbeddedSession::NoMemory,
    }
}

// The type of a side.
fn side_type(typed: &Typed, side: Side) -> &Ty
    ensures is { ty_tree result.now ≡ side_type (form_tree typed.now) side }
    ensures well_formed { IsTrue (is_well_formed (ty_tree result.now)) }
{
    match side {
        Side::Left => typed.left(),
        Side::Right => typed.right(),
    }
}

// The fault of a text that is not of a document of the side's type.
fn side_fault(side: Side) -> StateFault
    ensures { result ≡ side_fault side }
{
    match side {
        Side::Left => StateFault::NotLeft,
        Side::Right => StateFault::NotRight,
    }
}

// The session with a document of a side.
fn brought(alloc: Global, begun: Begun, side: Side, doc: &Doc) -> EmbeddedSession
    requires typed { has (side_type (form_tree begun.typed) side) (doc_tree doc.now) ≡ true }
    ensures { (program document : List ℕ) → lens_of program ≡ Ok (form_tree begun.typed)
        → IsFirstRecord program begun.text.items
        → IsDocumentText (side_type (form_tree begun.typed) side) document (doc_tree doc.now)
        → IsImported program side document result }
{
    let Begun { typed, text } = begun;
    match session_with(alloc, &typed, side, doc) {
        Ok(session) => EmbeddedSession::Open(Running::new(session, text)),
        Err(_) => EmbeddedSession::NoMemory,
    }
}

fn session_with(
    alloc: Global,
    typed: &Typed,
    side: Side,
    doc: &Doc,
) -> Result<Session<SharedLens>, AllocError>
    requires typed { has (side_type (form_tree typed.now) side) (doc_tree doc.now) ≡ true }
    ensures form { IfOk result (λ s. session_form s ≡ form_tree typed.now) }
    ensures brings { IfOk result (λ s. Brings (form_tree typed.now) side (doc_tree doc.now) (triple_tree s.triple)) }
{
    let mut session = first_session(alloc, typed)?;
    let word = construct(alloc, side_type(typed, side), doc)?;
    let entry = Entry { side, word };
    match session.step(&entry) {
        Ok(word) => {
            drop(word);
            Ok(session)
        }
        Err(StepFault::NoApply { .. }) => unreachable!(),
        Err(StepFault::NoMemory) => Err(AllocError),
    }
}
