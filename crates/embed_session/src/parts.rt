//! The texts of the parts of a state and of the last change.
ghost use Rattle.std.specs.Option.{ForSome};
ghost use Rattle.std.specs.Prelude.{◌≡◌, ◌≤◌, false, IfOk, MatchOption, IsTrue};
ghost use Rattle.serde_json.specs.View.{view};
ghost use Rattle.serde_json.specs.Data.{depth};
ghost use Rattle.serde_json.specs.Read.{max_depth};
ghost use Rattle.serde_json.specs.Written.{has_float};
ghost use Rattle.doc_values.specs.Documents.{doc_tree};
ghost use Rattle.doc_values.specs.Types.{ty_tree, is_well_formed, height};
ghost use Rattle.doc_values.specs.Typing.{has};
ghost use Rattle.edit_session.specs.Views.{triple_tree};
ghost use Rattle.lens_core.specs.Complements.{comp_tree, Fits};
ghost use Rattle.lens_forms.specs.Forms.{form_tree};
ghost use Rattle.lens_forms.specs.declared.limits.TheConstants.{GREATEST_HEIGHT};
ghost use Rattle.program_writing.specs.Canonical.{canonical_type};
ghost use Rattle.embed_session.specs.States.{HasNoChange, IsPartText, IsTextOf, IsWrittenDocument, IsWrittenComplement};
ghost use Rattle.embed_session.specs.States.{IsSnapshotText};
ghost use Rattle.embed_session.specs.Steps.{session_form};

use crate::accepted::Accepted;
use crate::changes::{change_text, undo_text};
use crate::outcome::Part;
use crate::shared::SharedLens;
use complement_file::write_comp;
use doc_values::{Doc, Ty};
use edit_session::Session;
use lens_core::Comp;
use lens_types::Typed;
use program_writing::write_type;
use run_answers::state_lines;
use serde_json::Value;
use std::alloc::{AllocError, Global};
use store_records::snapshot_payload;
use texts::Side;
use value_json::{write_compact, write_doc};

// The text of a part of the state or of the last change. None if and only if there is no such change.
#[tactic(auto, using(lens_flat::proofs::FormLenses::is_lens_of))]
pub(crate) fn part_text(
    alloc: Global,
    session: &Session<SharedLens>,
    last: &Option<Accepted>,
    part: Part,
) -> Result<Option<Vec<u8>>, AllocError>
    requires one_lens { ForSome last.now (λ accepted. accepted.before.lens ≡ session.now.lens) }
    ensures { IfOk result (λ found. MatchOption found
        (HasNoChange (session_form session.now) last.now part)
        (λ text. IsPartText (session_form session.now) (triple_tree session.now.triple) last.now part text.items)) }
{
    let typed = session.lens().typed();
    match part {
        Part::State => Ok(Some(state_lines(alloc, typed, session)?)),
        Part::Left => Ok(Some(document_text(alloc, typed.left(), session.left())?)),
        Part::Complement => Ok(Some(complement_text(alloc, typed, session.comp())?)),
        Part::Right => Ok(Some(document_text(alloc, typed.right(), session.right())?)),
        Part::LeftType => Ok(Some(type_text(alloc, typed.left())?)),
        Part::RightType => Ok(Some(type_text(alloc, typed.right())?)),
        Part::Snapshot => Ok(Some(snapshot_text(alloc, session)?)),
        Part::Change => change_text(alloc, typed, last),
        Part::UndoLeft => undo_text(alloc, session, last, Side::Left),
        Part::UndoRight => undo_text(alloc, session, last, Side::Right),
    }
}

fn document_text(alloc: Global, ty: &Ty, doc: &Doc) -> Result<Vec<u8>, AllocError>
    requires well_formed { IsTrue (is_well_formed (ty_tree ty.now)) }
    requires low { height (ty_tree ty.now) ≤ GREATEST_HEIGHT }
    requires typed { IsTrue (has (ty_tree ty.now) (doc_tree doc.now)) }
    ensures { IfOk result (λ text. IsWrittenDocument (ty_tree ty.now) (doc_tree doc.now) text.items) }
{
    let tree = write_doc(alloc, ty, doc)?;
    tree_text(alloc, &tree)
}

fn complement_text(alloc: Global, typed: &Typed, comp: &Comp) -> Result<Vec<u8>, AllocError>
    requires fits { Fits (form_tree typed.now) (comp_tree comp.now) }
    ensures { IfOk result (λ text. IsWrittenComplement (form_tree typed.now) (comp_tree comp.now) text.items) }
{
    // The proof needs how high the form is, which this call says.
    let _form = typed.form();
    let tree = write_comp(alloc, typed, comp)?;
    tree_text(alloc, &tree)
}

fn type_text(alloc: Global, ty: &Ty) -> Result<Vec<u8>, AllocError>
    ensures { IfOk result (λ text. text.items ≡ canonical_type (ty_tree ty.now)) }
{
    let text = write_type(alloc, ty)?;
    Ok(text.into_string().into_bytes())
}

// The payload of a snapshot of the session's triple.
fn snapshot_text(alloc: Global, session: &Session<SharedLens>) -> Result<Vec<u8>, AllocError>
    ensures { IfOk result
        (λ text. IsSnapshotText (session_form session.now) (triple_tree session.now.triple) text.items) }
{
    let typed = session.lens().typed();
    let (left, right) = (session.left(), session.right());
    let payload = snapshot_payload(alloc, typed, left, session.comp(), right)?;
    Ok(payload.into_vec())
}

// The text of a tree that nests no deeper than the reader of JSON reads back.
fn tree_text(alloc: Global, tree: &Value) -> Result<Vec<u8>, AllocError>
    requires no_float { has_float (view tree.now) ≡ false }
    requires low { depth (view tree.now) ≤ max_depth }
    ensures { IfOk result (λ text. IsTextOf (view tree.now) text.items) }
{
    let text = write_compact(alloc, tree)?;
    Ok(text.into_bytes())
}
