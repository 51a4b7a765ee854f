//! The state of a hub as lines, which end a run.

ghost use Rattle.std.specs.Prelude.{◌≡◌, ◌++◌, slice_get, Some, IfOk, IsTrue};
ghost use Rattle.doc_values.specs.Documents.{doc_tree};
ghost use Rattle.doc_values.specs.Typing.{has};
ghost use Rattle.lens_forms.specs.Forms.{form_tree, left_type, right_type};
ghost use Rattle.lens_core.specs.Complements.{comp_tree, Fits};
ghost use Rattle.view_hub.specs.Views.{hub_tree};
ghost use Rattle.hub_run.specs.RunStates.{forms_of_lenses, IsHubOf};
ghost use Rattle.hub_run.specs.Runs.{hub_line, lines_of_view, view_lines, hub_state_lines, HasLinesOfView};

use answer_text::{complement_line, document_line};
use doc_values::Doc;
use lens_core::Comp;
use lens_flat::Flat;
use lens_types::Typed;
use std::alloc::{AllocError, Global};
use texts::Bytes;
use view_hub::Hub;

/// `hub JSON` and a line feed: the document of a hub, which has the left type of the form. The only error is running
/// out of memory.
pub fn hub_line(alloc: Global, typed: &Typed, hub: &Doc) -> Result<Bytes, AllocError>
    requires has_type { IsTrue (has (left_type (form_tree typed.now)) (doc_tree hub.now)) }
    ensures line { IfOk result (λ line. line ≡ hub_line (form_tree typed.now) (doc_tree hub.now)) }
{
    document_line(alloc, "hub", typed.left(), hub)
}

/// `view V JSON` and `complement V JSON`, each with a line feed: the document and the complement of the view with this
/// number.
///
/// The document has the right type of the form, and the complement fits the form. The only error is running out of
/// memory.
pub fn lines_of_view(
    alloc: Global,
    number: u64,
    typed: &Typed,
    doc: &Doc,
    comp: &Comp,
) -> Result<Vec<u8>, AllocError>
    requires has_type { IsTrue (has (right_type (form_tree typed.now)) (doc_tree doc.now)) }
    requires fits { Fits (form_tree typed.now) (comp_tree comp.now) }
    ensures lines { IfOk result (λ lines. lines.items ≡ lines_of_view number (form_tree typed.now)
        (comp_tree comp.now) (doc_tree doc.now)) }
{
    let view = format!(in alloc; "view {number}")?;
    let view = document_line(alloc, view.as_str(), typed.right(), doc)?;
    let label = format!(in alloc; "complement {number}")?;
    let comp = complement_line(alloc, label.as_str(), typed, comp)?;
    let mut lines = view.into_vec();
    lines.extend_from_slice(comp.as_slice())?;
    Ok(lines)
}

/// The state lines of a hub: `hub JSON`, and for each view `view V JSON` and `complement V JSON`.
///
/// The only error is running out of memory.
pub fn hub_state_lines(alloc: Global, hub: &Hub<Flat>) -> Result<Vec<u8>, AllocError>
    ensures lines { IfOk result (λ text. text.items
        ≡ hub_state_lines (forms_of_lenses hub.now.lenses) (hub_tree hub.now.parts)) }
{
    is_in_step(hub);
    let line = hub_line(alloc, hub.lenses()[0].typed(), hub.hub())?;
    add_views(alloc, hub, line.into_vec())
}

// A text with the lines of all views behind it.
fn add_views(alloc: Global, hub: &Hub<Flat>, line: Vec<u8>) -> Result<Vec<u8>, AllocError>
    ensures { IfOk result (λ text. text.items
        ≡ line.items ++ view_lines 0 (forms_of_lenses hub.now.lenses) (hub_tree hub.now.parts).views) }
{
    let mut text = line;
    let lenses = hub.lenses();
    for number in 0..lenses.len() {
        let lines = lines_at(alloc, lenses[number].typed(), hub, number as u64)?;
        text.extend_from_slice(&lines)?;
    }
    Ok(text)
}

// The lines of the view with this number.
fn lines_at(
    alloc: Global,
    typed: &Typed,
    hub: &Hub<Flat>,
    number: u64,
) -> Result<Vec<u8>, AllocError>
    requires form { slice_get (forms_of_lenses hub.now.lenses) number ≡ Some (form_tree typed.now) }
    ensures { IfOk result (λ lines. HasLinesOfView (hub_tree hub.now.parts).views number
        (form_tree typed.now) lines.items) }
{
    is_in_step(hub);
    let Some(doc) = hub.view(number) else {
        unreachable!();
    };
    let Some(comp) = hub.comp(number) else {
        unreachable!();
    };
    lines_of_view(alloc, number, typed, doc, comp)
}

/// Does nothing; its clause is what a hub's calls say of it.
pub fn is_in_step(hub: &Hub<Flat>)
    ensures { IsHubOf hub.now.lenses (hub_tree hub.now.parts) }
{
    let _ = hub.hub();
}
