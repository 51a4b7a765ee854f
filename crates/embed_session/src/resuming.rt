//! The session that goes on from a state, or why there is none.
ghost use Rattle.std.specs.Prelude.{◌≡◌, List, ℕ, Ok, MatchResult, MatchOption, IfOk};
ghost use Rattle.serde_json.specs.View.{view};
ghost use Rattle.program_accepted.specs.Program.{lens_of};
ghost use Rattle.doc_values.specs.Documents.{DocTree, doc_tree};
ghost use Rattle.doc_values.specs.Types.{ty_tree};
ghost use Rattle.edit_session.specs.Views.{triple_tree};
ghost use Rattle.run_answers.specs.ItemRuns.{IsInStepFor};
ghost use Rattle.lens_core.specs.Complements.{CompTree, comp_tree};
ghost use Rattle.lens_forms.specs.Forms.{form_tree};
ghost use Rattle.embed_session.specs.Embedded.{IsResumed};
ghost use Rattle.embed_session.specs.Records.{IsFirstRecord};
ghost use Rattle.embed_session.specs.States.{IsDocumentTree, IsDocumentText, IsComplementTree, IsComplementText};
ghost use Rattle.embed_session.specs.States.{IsNotOfType, IsNotOfForm, IsStateText, IsStateFault};

use crate::beginning::{Begun, begin};
use crate::embedded::EmbeddedSession;
use crate::opening::closed;
use crate::outcome::StateFault;
use crate::running::Running;
use crate::shared::SharedLens;
use complement_file::{CompFault, read_comp};
use doc_values::{Doc, Ty};
use edit_session::{Session, Triple};
use json::Scratch;
use lens_check::consistent;
use lens_core::Comp;
use lens_tokens::{complement_of_tokens, document_of_tokens};
use lens_types::Typed;
use serde_json::Value;
use std::alloc::{AllocError, Global};
use store_records::read_tree;
use value_json::{DocFault, read_doc};

// The session over a program that goes on from the state of these texts, or why there is none.
pub(crate) fn resume(
    alloc: Global,
    program: &[u8],
    left: &[u8],
    comp: &[u8],
    right: &[u8],
) -> EmbeddedSession
    ensures { IsResumed program.now left.now comp.now right.now result }
{
    match begin(alloc, program) {
        Ok(begun) => resumed(alloc, begun, left, comp, right),
        Err(refused) => closed(alloc, refused),
    }
}

fn resumed(alloc: Global, begun: Begun, left: &[u8], comp: &[u8], right: &[u8]) -> EmbeddedSession
    ensures { (program : List ℕ) → lens_of program ≡ Ok (form_tree begun.typed)
        → IsFirstRecord program begun.text.items
        → IsResumed program left.now comp.now right.now result }
{
    match read_state(alloc, &begun.typed, left, comp, right) {
        Ok(triple) => going_on(alloc, begun, triple),
        Err(StateFault::NoMemory) => EmbeddedSession::NoMemory,
        Err(fault) => EmbeddedSession::StateRefused(fault),
    }
}

// The session of a triple that is consistent.
fn going_on(alloc: Global, begun: Begun, triple: Triple) -> EmbeddedSession
    requires in_step { IsInStepFor (form_tree begun.typed) (triple_tree triple) }
    ensures { (program left comp right : List ℕ) → lens_of program ≡ Ok (form_tree begun.typed)
        → IsFirstRecord program begun.text.items
        → IsStateText (form_tree begun.typed) left comp right (triple_tree triple)
        → IsResumed program left comp right result }
{
    let Begun { typed, text } = begun;
    match session_at(alloc, &typed, triple) {
        Ok(session) => EmbeddedSession::Open(Running::new(session, text)),
        Err(_) => EmbeddedSession::NoMemory,
    }
}

// The session of a lens at a triple that is consistent.
pub(crate) fn session_at(
    alloc: Global,
    typed: &Typed,
    triple: Triple,
) -> Result<Session<SharedLens>, AllocError>
    requires in_step { IsInStepFor (form_tree typed.now) (triple_tree triple) }
    ensures form { IfOk result (λ s. form_tree s.lens.typed ≡ form_tree typed.now) }
    ensures triple { IfOk result (λ s. triple_tree s.triple ≡ triple_tree triple) }
    ensures in_step { IfOk result (λ s. IsInStepFor (form_tree s.lens.typed) (triple_tree s.triple)) }
{
    let lens = SharedLens::compile(alloc, typed)?;
    let Triple { left, comp, right } = triple;
    Ok(Session::resume(alloc, lens, left, comp, right))
}

// The triple of these texts, which is consistent, or why there is none.
fn read_state(
    alloc: Global,
    typed: &Typed,
    left: &[u8],
    comp: &[u8],
    right: &[u8],
) -> Result<Triple, StateFault>
    ensures state { MatchResult result
        (λ triple. IsStateText (form_tree typed.now) left.now comp.now right.now (triple_tree triple))
        (IsStateFault (form_tree typed.now) left.now comp.now right.now) }
    ensures in_step { IfOk result (λ triple. IsInStepFor (form_tree typed.now) (triple_tree triple)) }
{
    let triple = read_triple(alloc, typed, left, comp, right)?;
    if !consistent(alloc, typed, &triple.left, &triple.comp, &triple.right)? {
        return Err(StateFault::NotConsistent);
    }
    Ok(triple)
}

// The triple of these texts, consistent or not, or which text is the first that is not of the lens.
fn read_triple(
    alloc: Global,
    typed: &Typed,
    left: &[u8],
    comp: &[u8],
    right: &[u8],
) -> Result<Triple, StateFault>
    ensures { MatchResult result
        (λ triple. IsStateText (form_tree typed.now) left.now comp.now right.now (triple_tree triple))
        (IsStateFault (form_tree typed.now) left.now comp.now right.now) }
{
    let Some(left) = document_of_text(alloc, typed.left(), left)? else {
        return Err(StateFault::NotLeft);
    };
    let Some(comp) = complement_of_text(alloc, typed, comp)? else {
        return Err(StateFault::NotComplement);
    };
    let Some(right) = document_of_text(alloc, typed.right(), right)? else {
        return Err(StateFault::NotRight);
    };
    Ok(Triple { left, comp, right })
}

/// The document of a type that a text is the JSON of. None if and only if there is none.
///
/// The only error is running out of memory.
#[tactic(auto, using(crate::proofs::TokenTexts::document_text))]
pub fn document_of_text(alloc: Global, ty: &Ty, text: &[u8]) -> Result<Option<Doc>, AllocError>
    ensures { IfOk result (λ found. MatchOption found
        (IsNotOfType (ty_tree ty.now) text.now)
        (λ doc. IsDocumentText (ty_tree ty.now) text.now (doc_tree doc))) }
{
    let mut scratch = Scratch::new(alloc);
    match document_of_tokens(alloc, ty, text, &mut scratch) {
        Some(doc) => Ok(Some(doc)),
        None => document_by_tree(alloc, ty, text),
    }
}

// The same, by the tree of the text.
fn document_by_tree(alloc: Global, ty: &Ty, text: &[u8]) -> Result<Option<Doc>, AllocError>
    ensures { IfOk result (λ found. MatchOption found
        (IsNotOfType (ty_tree ty.now) text.now)
        (λ doc. IsDocumentText (ty_tree ty.now) text.now (doc_tree doc))) }
{
    match read_tree(alloc, text)? {
        Some(tree) => document_of_tree(alloc, ty, &tree),
        None => Ok(None),
    }
}

fn document_of_tree(alloc: Global, ty: &Ty, tree: &Value) -> Result<Option<Doc>, AllocError>
    ensures { IfOk result (λ found. MatchOption found
        ((doc : DocTree) → IsDocumentTree (ty_tree ty.now) (view tree.now) doc → ⊥)
        (λ doc. IsDocumentTree (ty_tree ty.now) (view tree.now) (doc_tree doc))) }
{
    match read_doc(alloc, ty, tree) {
        Ok(doc) => Ok(Some(doc)),
        Err(DocFault::NotOfType) => Ok(None),
        Err(DocFault::NoMemory) => Err(AllocError),
    }
}

/// The complement of a lens that a text is the JSON of. None if and only if there is none.
///
/// The only error is running out of memory.
#[tactic(auto, using(crate::proofs::TokenTexts::complement_text))]
pub fn complement_of_text(
    alloc: Global,
    typed: &Typed,
    text: &[u8],
) -> Result<Option<Comp>, AllocError>
    ensures { IfOk result (λ found. MatchOption found
        (IsNotOfForm (form_tree typed.now) text.now)
        (λ comp. IsComplementText (form_tree typed.now) text.now (comp_tree comp))) }
{
    let mut scratch = Scratch::new(alloc);
    match complement_of_tokens(alloc, typed, text, &mut scratch) {
        Some(comp) => Ok(Some(comp)),
        None => complement_by_tree(alloc, typed, text),
    }
}

// The same, by the tree of the text.
fn complement_by_tree(alloc: Global, typed: &Typed, text: &[u8]) -> Result<Option<Comp>, AllocError>
    ensures { IfOk result (λ found. MatchOption found
        (IsNotOfForm (form_tree typed.now) text.now)
        (λ comp. IsComplementText (form_tree typed.now) text.now (comp_tree comp))) }
{
    match read_tree(alloc, text)? {
        Some(tree) => complement_of_tree(alloc, typed, &tree),
        None => Ok(None),
    }
}

fn complement_of_tree(
    alloc: Global,
    typed: &Typed,
    tree: &Value,
) -> Result<Option<Comp>, AllocError>
    ensures { IfOk result (λ found. MatchOption found
        ((comp : CompTree) → IsComplementTree (form_tree typed.now) (view tree.now) comp → ⊥)
        (λ comp. IsComplementTree (form_tree typed.now) (view tree.now) (comp_tree comp))) }
{
    match read_comp(alloc, typed, tree) {
        Ok(comp) => Ok(Some(comp)),
        Err(CompFault::NotAComplement) => Ok(None),
        Err(CompFault::NoMemory) => Err(AllocError),
    }
}
