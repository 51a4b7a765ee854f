//! The texts of the parts of a state.

ghost use Rattle.std.specs.Prelude.{◌≡◌, IfOk, IsTrue, Some, option_map};
ghost use Rattle.serde_json.specs.Written.{compact_text};
ghost use Rattle.doc_values.specs.Documents.{doc_tree};
ghost use Rattle.doc_values.specs.Types.{ty_tree, is_well_formed};
ghost use Rattle.doc_values.specs.Typing.{has};
ghost use Rattle.value_json.specs.DocumentJson.{tree_of_document};
ghost use Rattle.complement_file.specs.ComplementJson.{tree_of_complement};
ghost use Rattle.lens_core.specs.Complements.{comp_tree, Fits};
ghost use Rattle.lens_forms.specs.Forms.{form_tree};
ghost use Rattle.view_hub.specs.Views.{hub_tree};
ghost use Rattle.hub_run.specs.RunStates.{forms_of_lenses, hub_state_of};
ghost use Rattle.embed_hub.specs.Parts.{part_text, hub_text, view_at, document_text, complement_text};

use crate::form_hub::is_in_step;
use crate::outcome::HubPart;
use complement_file::write_comp;
use doc_values::{Doc, Ty};
use hub_run::hub_state_lines;
use lens_core::Comp;
use lens_flat::Flat;
use lens_types::Typed;
use std::alloc::{AllocError, Global};
use value_json::{write_compact, write_doc_text};
use view_hub::Hub;

// The text of a part of the state. None if and only if the part is one of a view that does not exist.
pub(crate) fn part_text(
    alloc: Global,
    hub: &Hub<Flat>,
    part: HubPart,
) -> Result<Option<Vec<u8>>, AllocError>
    ensures text { IfOk result (λ found.
        part_text (hub_state_of hub.now) part ≡ option_map (λ text. text.items) found) }
{
    match part {
        HubPart::State => Ok(Some(hub_state_lines(alloc, hub)?)),
        HubPart::Document => Ok(Some(hub_text(alloc, hub)?)),
        HubPart::ViewDocument(number) => view_text(alloc, hub, number),
        HubPart::ViewComplement(number) => comp_text(alloc, hub, number),
    }
}

// The text of the hub's document.
fn hub_text(alloc: Global, hub: &Hub<Flat>) -> Result<Vec<u8>, AllocError>
    ensures { IfOk result (λ text. text.items
        ≡ hub_text (forms_of_lenses hub.now.lenses) (hub_tree hub.now.parts)) }
{
    let document = hub.hub();
    document_text(alloc, hub.lenses()[0].typed().left(), document)
}

// The text of the document of the view with this number.
fn view_text(alloc: Global, hub: &Hub<Flat>, number: u64) -> Result<Option<Vec<u8>>, AllocError>
    ensures { IfOk result (λ found. option_map document_text (view_at (hub_state_of hub.now) number)
        ≡ option_map (λ text. text.items) found) }
{
    is_in_step(hub);
    let Some(lens) = hub.lenses().get(number as usize) else {
        return Ok(None);
    };
    let Some(document) = hub.view(number) else {
        return Ok(None);
    };
    Ok(Some(document_text(alloc, lens.typed().right(), document)?))
}

// The text of the complement of the view with this number.
fn comp_text(alloc: Global, hub: &Hub<Flat>, number: u64) -> Result<Option<Vec<u8>>, AllocError>
    ensures { IfOk result (λ found. option_map complement_text (view_at (hub_state_of hub.now) number)
        ≡ option_map (λ text. text.items) found) }
{
    is_in_step(hub);
    let Some(lens) = hub.lenses().get(number as usize) else {
        return Ok(None);
    };
    let Some(comp) = hub.comp(number) else {
        return Ok(None);
    };
    Ok(Some(complement_text(alloc, lens.typed(), comp)?))
}

fn document_text(alloc: Global, ty: &Ty, doc: &Doc) -> Result<Vec<u8>, AllocError>
    requires well_formed { IsTrue (is_well_formed (ty_tree ty.now)) }
    requires typed { IsTrue (has (ty_tree ty.now) (doc_tree doc.now)) }
    ensures { IfOk result (λ text. text.items
        ≡ compact_text (tree_of_document (ty_tree ty.now) (doc_tree doc.now))) }
{
    let text = write_doc_text(alloc, ty, doc)?;
    Ok(text.into_bytes())
}

#[tactic(auto, using(complement_file::proofs::Floats::whole))]
fn complement_text(alloc: Global, typed: &Typed, comp: &Comp) -> Result<Vec<u8>, AllocError>
    requires fits { Fits (form_tree typed.now) (comp_tree comp.now) }
    ensures { IfOk result (λ text. text.items
        ≡ compact_text (tree_of_complement (form_tree typed.now) (comp_tree comp.now))) }
{
    let tree = write_comp(alloc, typed, comp)?;
    let text = write_compact(alloc, &tree)?;
    Ok(text.into_bytes())
}
