//! Calls on types and documents.

use crate::answers::{fault, ok, ok_bool, pair, text};
use crate::arguments::counts;
use crate::bytes::tree;
use crate::case::Case;
use crate::shape_trees::{origins_of, shape_of};
use crate::shapes::are_below;
use crate::type_trees::{doc_items, doc_of, doc_tree, docs_of, fields_of, ok_doc, read_as, ty_of};
use anyhow::{Context, Result, bail};
use doc_values::{Doc, Docs, Ty, init};
use hold_shapes::Origins;
use lens_syntax::write_type;
use serde_json::Value;
use std::alloc::Global;
use value_json::{DocFault, read_counts, read_doc, write_counts};

/// Runs `read_doc`: the tree of the document that was read, or the fault.
pub fn run_read_doc(alloc: Global, case: &Case<'_>) -> Result<Value> {
    let ty = ty_of(alloc, case, "type")?;
    let tree = tree(alloc, case)?;
    let read = doc_or_fault(alloc, &ty, &tree);
    drop(tree);
    read
}

fn doc_or_fault(alloc: Global, ty: &Ty, tree: &Value) -> Result<Value> {
    match read_doc(alloc, ty, tree) {
        Ok(doc) => {
            let written = ok_doc(alloc, ty, &doc);
            drop(doc);
            written
        }
        Err(DocFault::NotOfType) => fault(alloc, "not-of-type"),
        Err(DocFault::NoMemory) => bail!("out of memory"),
    }
}

/// Runs `init`: the initial value. It is refused if the type is ill formed.
pub fn run_init(alloc: Global, case: &Case<'_>) -> Result<Value> {
    let ty = ty_of(alloc, case, "type")?;
    initial(alloc, &ty)
}

fn initial(alloc: Global, ty: &Ty) -> Result<Value> {
    if !ty.is_well_formed() {
        bail!("the type is ill formed");
    }
    let doc = init(alloc, ty)?;
    let written = ok_doc(alloc, ty, &doc);
    drop(doc);
    written
}

/// Runs `is_same` of types.
pub fn run_is_same(alloc: Global, case: &Case<'_>) -> Result<Value> {
    let left = ty_of(alloc, case, "left")?;
    let right = ty_of(alloc, case, "right")?;
    ok_bool(alloc, left.is_same(&right))
}

/// Runs `is_same_doc`: `is_same` of two documents of a type.
pub fn run_is_same_doc(alloc: Global, case: &Case<'_>) -> Result<Value> {
    let ty = ty_of(alloc, case, "type")?;
    ok_bool(alloc, are_same_docs(alloc, &ty, case)?)
}

fn are_same_docs(alloc: Global, ty: &Ty, case: &Case<'_>) -> Result<bool> {
    let left = doc_of(alloc, ty, case, "left")?;
    let right = doc_of(alloc, ty, case, "right")?;
    Ok(left.is_same(&right))
}

/// Runs `is_well_formed`.
pub fn run_is_well_formed(alloc: Global, case: &Case<'_>) -> Result<Value> {
    let ty = ty_of(alloc, case, "type")?;
    ok_bool(alloc, ty.is_well_formed())
}

/// Runs `is_within`.
pub fn run_is_within(alloc: Global, case: &Case<'_>) -> Result<Value> {
    let ty = ty_of(alloc, case, "type")?;
    let levels = u32::try_from(case.count("levels")?)
        .ok()
        .context("too many levels")?;
    ok_bool(alloc, ty.is_within(levels))
}

/// Runs `has_type`, of a document that is read as one of another type, or of a container of a shape and contents.
pub fn run_has_type(alloc: Global, case: &Case<'_>) -> Result<Value> {
    let of = ty_of(alloc, case, "of")?;
    let doc = subject(alloc, &of, case)?;
    ok_bool(alloc, is_of_type(alloc, &doc, case)?)
}

fn is_of_type(alloc: Global, doc: &Doc, case: &Case<'_>) -> Result<bool> {
    let ty = ty_of(alloc, case, "type")?;
    Ok(doc.has_type(&ty))
}

// The container of `shape` and of `items` of the type, if the case has a shape, or else the document `doc` of the type.
fn subject(alloc: Global, of: &Ty, case: &Case<'_>) -> Result<Box<Doc>> {
    if !case.has("shape") {
        return doc_of(alloc, of, case, "doc");
    }
    let shape = shape_of(alloc, case, "shape")?;
    let items = docs_of(alloc, of, case)?;
    let held = Doc::Hold(Box::into_inner(shape), items);
    Ok(Box::new(alloc, held)?)
}

/// Runs `find`: the place and the type of a field, or null.
pub fn run_find(alloc: Global, case: &Case<'_>) -> Result<Value> {
    let fields = fields_of(alloc, case.argument("fields")?)?;
    match fields.find(case.text("name")?) {
        Some((place, ty)) => found(alloc, place, ty),
        None => ok(alloc, Value::Null),
    }
}

fn found(alloc: Global, place: usize, ty: &Ty) -> Result<Value> {
    let ty = ty_text(alloc, ty)?;
    let place = Value::from(place as u64);
    ok(alloc, pair(alloc, ("place", place), ("type", ty))?)
}

/// Returns the canonical text of a type.
pub fn ty_text(alloc: Global, ty: &Ty) -> Result<Value> {
    let written = write_type(alloc, ty)?;
    text(alloc, written.as_str())
}

/// Runs `set`: the document that was there and all items after. It is refused if there is no such place.
pub fn run_set(alloc: Global, case: &Case<'_>) -> Result<Value> {
    let of = ty_of(alloc, case, "of")?;
    let mut docs = docs_of(alloc, &of, case)?;
    ok(alloc, old_and_items(alloc, &of, &mut docs, case)?)
}

fn old_and_items(alloc: Global, of: &Ty, docs: &mut Docs, case: &Case<'_>) -> Result<Value> {
    let old = old_at(alloc, of, docs, case.count("place")?)?;
    let items = items_after(alloc, of, docs, case)?;
    pair(alloc, ("old", old), ("items", items))
}

fn old_at(alloc: Global, of: &Ty, docs: &Docs, place: u64) -> Result<Value> {
    if place >= docs.len() as u64 {
        bail!("no place");
    }
    doc_tree(alloc, of, docs.get(place as usize))
}

fn items_after(alloc: Global, of: &Ty, docs: &mut Docs, case: &Case<'_>) -> Result<Value> {
    replace(alloc, of, docs, case)?;
    doc_items(alloc, of, docs)
}

// Makes the call.
fn replace(alloc: Global, of: &Ty, docs: &mut Docs, case: &Case<'_>) -> Result<()> {
    let place = case.count("place")?;
    if place >= docs.len() as u64 {
        bail!("no place");
    }
    let doc = read_as(alloc, of, case.argument("doc")?)?;
    Ok(docs.set(alloc, place as usize, doc)?)
}

/// Runs `gathered`: the documents at the new places.
pub fn run_gathered(alloc: Global, case: &Case<'_>) -> Result<Value> {
    let of = ty_of(alloc, case, "of")?;
    let gathered = docs_gathered(alloc, &of, case)?;
    ok(alloc, doc_items(alloc, &of, &gathered)?)
}

fn docs_gathered(alloc: Global, of: &Ty, case: &Case<'_>) -> Result<Docs> {
    let docs = docs_of(alloc, of, case)?;
    let from = origins_of(alloc, case)?;
    gathered_with(alloc, of, &docs, &from, case)
}

fn gathered_with(
    alloc: Global,
    of: &Ty,
    docs: &Docs,
    from: &Origins,
    case: &Case<'_>,
) -> Result<Docs> {
    let fresh = doc_of(alloc, of, case, "fresh")?;
    gathered(alloc, docs, from, &fresh)
}

// The documents at the new places. It is refused if an origin is not a place.
fn gathered(alloc: Global, docs: &Docs, from: &Origins, fresh: &Doc) -> Result<Docs> {
    if !are_below(from, docs.len()) {
        bail!("an origin is not a place");
    }
    Ok(docs.gathered(alloc, from, fresh)?)
}

/// Runs `read_counts`: the numbers that were read, or null.
pub fn run_read_counts(alloc: Global, case: &Case<'_>) -> Result<Value> {
    match &read_counts(alloc, case.items("tree")?)? {
        Some(counts) => ok(alloc, write_counts(alloc, counts.as_slice())?),
        None => ok(alloc, Value::Null),
    }
}

/// Runs `write_counts`.
pub fn run_write_counts(alloc: Global, case: &Case<'_>) -> Result<Value> {
    let counts = counts(alloc, case.argument("counts")?)?;
    ok(alloc, write_counts(alloc, counts.as_slice())?)
}
