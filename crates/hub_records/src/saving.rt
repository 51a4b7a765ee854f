//! The payload of a snapshot of a hub.

ghost use Rattle.std.specs.Prelude.{◌≡◌, true, codes, IfOk, IsTrue, OnOk, Some};
ghost use Rattle.serde_json.specs.Data.{array, member, no_members, object};
ghost use Rattle.serde_json.specs.View.{view};
ghost use Rattle.serde_json.specs.Written.{compact_text};
ghost use Rattle.doc_values.specs.Documents.{doc_tree};
ghost use Rattle.doc_values.specs.Types.{ty_tree, is_well_formed};
ghost use Rattle.doc_values.specs.Typing.{has};
ghost use Rattle.value_json.specs.DocumentJson.{holds_i64s, tree_of_document};
ghost use Rattle.edit_journal.specs.EntryJson.{tree_of_text};
ghost use Rattle.lens_core.specs.Complements.{comp_tree, Fits};
ghost use Rattle.lens_forms.specs.Forms.{form_tree, left_type, right_type};
ghost use Rattle.view_hub.specs.Views.{hub_tree, view_tree, view_trees};
ghost use Rattle.hub_run.specs.RunStates.{forms_of_lenses, IsHubOf};
ghost use Rattle.hub_records.specs.HubRecords.{items_of_views, tree_of_hub, tree_of_hub_snapshot, tree_of_view};
ghost use Rattle.hub_records.specs.WholeInts.{hub_holds_i64s, views_hold_i64s};

use crate::low::lenses_are_low;
use complement_file::write_comp;
use doc_values::{Doc, Ty};
use lens_flat::Flat;
use lens_types::Typed;
use serde_json::{Map, Value, put};
use std::alloc::{AllocError, Global};
use store_records::{payload_of, record_named};
use texts::Bytes;
use value_json::write_doc;
use view_hub::{Hub, HubParts, View};

/// The payload of a snapshot of a hub: its document, and the complement and the document of each view.
///
/// Fails only if memory runs out.
pub fn snapshot_payload(alloc: Global, hub: &Hub<Flat>) -> Result<Bytes, AllocError>
    ensures text { IfOk result (λ bytes. bytes ≡ compact_text
        (tree_of_hub_snapshot (forms_of_lenses hub.now.lenses) (hub_tree hub.now.parts))) }

    // A reader of JSON gives its tree back.
    ensures reads_back { IfOk result (λ bytes. tree_of_text bytes
        ≡ Some (tree_of_hub_snapshot (forms_of_lenses hub.now.lenses) (hub_tree hub.now.parts))) }

    // The ints of all documents are i64.
    ensures ints { OnOk result (hub_holds_i64s (hub_tree hub.now.parts) ≡ true) }
{
    let lenses = hub.lenses();
    lenses_are_low(lenses);
    let parts = hub.parts();
    let tree = snapshot_record(alloc, lenses, parts)?;
    payload_of(alloc, &tree)
}

fn snapshot_record(alloc: Global, lenses: &[Flat], parts: &HubParts) -> Result<Value, AllocError>
    requires in_step { IsHubOf lenses.now (hub_tree parts.now) }
    ensures tree { IfOk result (λ tree. view tree
        ≡ tree_of_hub_snapshot (forms_of_lenses lenses.now) (hub_tree parts.now)) }
    ensures ints { OnOk result (hub_holds_i64s (hub_tree parts.now) ≡ true) }
{
    let content = hub_record(alloc, lenses, parts)?;
    record_named(alloc, "snapshot", content)
}

// The tree of a hub: its document and its views.
fn hub_record(alloc: Global, lenses: &[Flat], parts: &HubParts) -> Result<Value, AllocError>
    requires in_step { IsHubOf lenses.now (hub_tree parts.now) }
    ensures tree { IfOk result (λ tree. view tree
        ≡ tree_of_hub (forms_of_lenses lenses.now) (hub_tree parts.now)) }
    ensures ints { OnOk result (hub_holds_i64s (hub_tree parts.now) ≡ true) }
{
    parts_record(alloc, lenses[0].typed(), lenses, parts)
}

// The same, where the first lens is given.
fn parts_record(
    alloc: Global,
    first: &Typed,
    lenses: &[Flat],
    parts: &HubParts,
) -> Result<Value, AllocError>
    requires has_type { IsTrue (has (left_type (form_tree first.now)) (doc_tree parts.now.hub.value)) }
    requires in_step { IsHubOf lenses.now (hub_tree parts.now) }
    ensures tree { IfOk result (λ tree. view tree
        ≡ object (member (codes "hub")
        (tree_of_document (left_type (form_tree first.now)) (doc_tree parts.now.hub.value))
        (member (codes "views") (array (items_of_views (forms_of_lenses lenses.now)
        (view_trees parts.now.views.items))) no_members))) }
    ensures ints { OnOk result (hub_holds_i64s (hub_tree parts.now) ≡ true) }
{
    let hub = document_record(alloc, first.left(), &parts.hub)?;
    let views = views_record(alloc, lenses, parts)?;
    let mut members = Map::new(alloc);
    put(&mut members, alloc, "hub", hub)?;
    put(&mut members, alloc, "views", views)?;
    Ok(Value::Object(members))
}

// The array of the trees of all views.
fn views_record(alloc: Global, lenses: &[Flat], parts: &HubParts) -> Result<Value, AllocError>
    requires in_step { IsHubOf lenses.now (hub_tree parts.now) }
    ensures tree { IfOk result (λ tree. view tree
        ≡ array (items_of_views (forms_of_lenses lenses.now) (view_trees parts.now.views.items))) }
    ensures ints { OnOk result (views_hold_i64s (view_trees parts.now.views.items) ≡ true) }
{
    let mut items = Vec::with_capacity(alloc, parts.views.len())?;
    for place in 0..parts.views.len() {
        items.push(view_record(alloc, lenses[place].typed(), &parts.views[place])?)?;
    }
    Ok(Value::Array(items))
}

// The tree of a view: its complement and its document.
fn view_record(alloc: Global, typed: &Typed, shown: &View) -> Result<Value, AllocError>
    requires comp_fits { Fits (form_tree typed.now) (comp_tree shown.now.comp) }
    requires has_type { IsTrue (has (right_type (form_tree typed.now))
        (doc_tree shown.now.doc.value)) }
    ensures tree { IfOk result (λ tree. view tree
        ≡ tree_of_view (form_tree typed.now) (view_tree shown.now)) }
    ensures ints { OnOk result (holds_i64s (doc_tree shown.now.doc.value) ≡ true) }
{
    let comp = write_comp(alloc, typed, &shown.comp)?;
    let doc = document_record(alloc, typed.right(), &shown.doc)?;
    let mut members = Map::new(alloc);
    put(&mut members, alloc, "complement", comp)?;
    put(&mut members, alloc, "view", doc)?;
    Ok(Value::Object(members))
}

// The tree of a document. It is read back as the document, so the ints of the document are i64.
fn document_record(alloc: Global, ty: &Ty, doc: &Doc) -> Result<Value, AllocError>
    requires well_formed { IsTrue (is_well_formed (ty_tree ty.now)) }
    requires typed { IsTrue (has (ty_tree ty.now) (doc_tree doc.now)) }
    ensures tree { IfOk result (λ tree. view tree
        ≡ tree_of_document (ty_tree ty.now) (doc_tree doc.now)) }
    ensures ints { OnOk result (holds_i64s (doc_tree doc.now) ≡ true) }
{
    write_doc(alloc, ty, doc)
}
