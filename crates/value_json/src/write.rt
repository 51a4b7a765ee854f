//! Writing a document of a type as a JSON tree.

ghost use Rattle.std.specs.Prelude.{◌≡◌, true, Some, IfOk, OnOk, length, codes};
ghost use Rattle.texts.specs.Keys.{is_rising};
ghost use Rattle.serde_json.specs.Data.{string, array, object, no_members, member};
ghost use Rattle.serde_json.specs.View.{view};
ghost use Rattle.doc_values.specs.Documents.{alt, doc_tree, docs_tree, doc_list};
ghost use Rattle.doc_values.specs.Types.{ty_tree, fields_tree, ty_alt, names_of, is_well_formed, are_well_formed};
ghost use Rattle.doc_values.specs.Typing.{has, has_fields, has_each};
ghost use Rattle.value_json.specs.Numbers.{count_items};
ghost use Rattle.value_json.specs.DocumentJson.{tree_of_document, document_of, field_members, key_members};
ghost use Rattle.value_json.specs.DocumentJson.{content_items, holds_i64s, all_hold_i64s};

use doc_values::{Doc, Docs, Fields, Ty};
use hold_shapes::{DepthSeq, Name, Shape};
use serde_json::{Map, Value, put};
use shared_lists::SharedList;
use std::alloc::{AllocError, Global};

/// The tree of a document of the type; the page docs/FORMATS.md says which tree this is.
///
/// The document has the type, and the type is well formed. Fails only if memory runs out.
pub fn write_doc(alloc: Global, ty: &Ty, doc: &Doc) -> Result<Value, AllocError>
    requires well_formed { is_well_formed (ty_tree ty.now) ≡ true }
    requires typed { has (ty_tree ty.now) (doc_tree doc.now) ≡ true }

    ensures tree { IfOk result
        (λ tree. view tree ≡ tree_of_document (ty_tree ty.now) (doc_tree doc.now)) }

    // What is written is read back as the same document.
    ensures reads_back { IfOk result
        (λ tree. document_of (ty_tree ty.now) (view tree) ≡ Some (doc_tree doc.now)) }
{
    write(alloc, ty, doc)
}

#[cycle(write)]
fn write(alloc: Global, ty: &Ty, doc: &Doc) -> Result<Value, AllocError>
    requires well_formed { is_well_formed (ty_tree ty.now) ≡ true }
    requires typed { has (ty_tree ty.now) (doc_tree doc.now) ≡ true }
    ensures tree { IfOk result
        (λ tree. view tree ≡ tree_of_document (ty_tree ty.now) (doc_tree doc.now)) }
    ensures whole { OnOk result (holds_i64s (doc_tree doc.now) ≡ true) }
{
    match (ty, doc) {
        (Ty::Unit, Doc::Unit) => Ok(Value::Null),
        (Ty::Bool, Doc::Bool(truth)) => Ok(Value::Bool(*truth)),
        (Ty::Int(_), Doc::Int(number)) => Ok(Value::from(*number)),
        (Ty::Text(_), Doc::Text(text)) => write_text(alloc, text.as_str()),
        (Ty::Enum(_, _), Doc::Pick(name)) => write_text(alloc, name.as_str()),
        (Ty::Rec(fields), Doc::Rec(docs)) => write_record(alloc, fields, docs),
        (Ty::Alt(tags), Doc::Alt(tag, content)) => write_tagged(alloc, tags, tag, content),
        (Ty::List(inner), Doc::Hold(Shape::List(_), docs)) => write_list(alloc, inner, docs),
        (Ty::Keyed(inner), Doc::Hold(Shape::Keyed(keys), docs)) => {
            write_keyed(alloc, inner, keys.names(), docs)
        }
        (Ty::Tree(inner), Doc::Hold(Shape::Tree(nodes), docs)) => {
            write_ordered(alloc, inner, nodes.depths(), docs)
        }
        _ => unreachable!(),
    }
}

/// The string of a text. Fails only if memory runs out.
pub fn write_text(alloc: Global, text: &str) -> Result<Value, AllocError>
    ensures { IfOk result (λ tree. view tree ≡ string text.now) }
{
    Ok(Value::String(String::from_str(alloc, text)?))
}

// An object with a member for each field.
#[cycle(write)]
fn write_record(alloc: Global, fields: &Fields, docs: &Docs) -> Result<Value, AllocError>
    requires rising { is_rising (names_of (fields_tree fields.now)) ≡ true }
    requires well_formed { are_well_formed (fields_tree fields.now) ≡ true }
    requires typed { has_fields (fields_tree fields.now) (docs_tree docs.now) ≡ true }
    ensures tree { IfOk result
        (λ tree. view tree ≡ object (field_members (fields_tree fields.now) (docs_tree docs.now))) }
    ensures whole { OnOk result (all_hold_i64s (docs_tree docs.now) ≡ true) }
{
    let mut members = Map::new(alloc);
    for (i, field) in fields.as_slice().iter().enumerate() {
        let content = write(alloc, &field.1, docs.get(i))?;
        put(&mut members, alloc, field.0.as_str(), content)?;
    }
    Ok(Value::Object(members))
}

// An object with the tag as its one member.
#[cycle(write)]
fn write_tagged(
    alloc: Global,
    tags: &Fields,
    tag: &Name,
    content: &Doc,
) -> Result<Value, AllocError>
    requires well_formed { are_well_formed (fields_tree tags.now) ≡ true }
    requires typed { has (ty_alt (fields_tree tags.now)) (alt tag.now (doc_tree content.now)) ≡ true }
    ensures tree { IfOk result (λ tree. view tree
        ≡ tree_of_document (ty_alt (fields_tree tags.now)) (alt tag.now (doc_tree content.now))) }
    ensures whole { OnOk result (holds_i64s (doc_tree content.now) ≡ true) }
{
    let name = tag.as_str();
    let Some((_, ty)) = tags.find(name) else {
        unreachable!()
    };
    let content = write(alloc, ty, content)?;
    let mut members = Map::new(alloc);
    put(&mut members, alloc, name, content)?;
    Ok(Value::Object(members))
}

#[cycle(write)]
fn write_list(alloc: Global, inner: &Ty, docs: &Docs) -> Result<Value, AllocError>
    requires well_formed { is_well_formed (ty_tree inner.now) ≡ true }
    requires typed { has_each (ty_tree inner.now) (docs_tree docs.now) ≡ true }
    ensures tree { IfOk result
        (λ tree. view tree ≡ array (content_items (ty_tree inner.now) (docs_tree docs.now))) }
    ensures whole { OnOk result (all_hold_i64s (docs_tree docs.now) ≡ true) }
{
    let count = docs.len();
    let mut items = Vec::with_capacity(alloc, count)?;
    for i in 0..count {
        items.push(write(alloc, inner, docs.get(i))?)?;
    }
    Ok(Value::Array(items))
}

// An object with a member for each key.
#[cycle(write)]
fn write_keyed(
    alloc: Global,
    inner: &Ty,
    keys: &SharedList<Name>,
    docs: &Docs,
) -> Result<Value, AllocError>
    requires rising { is_rising keys.now ≡ true }
    requires many { length keys.now ≡ length (doc_list (docs_tree docs.now)) }
    requires well_formed { is_well_formed (ty_tree inner.now) ≡ true }
    requires typed { has_each (ty_tree inner.now) (docs_tree docs.now) ≡ true }
    ensures tree { IfOk result (λ tree. view tree
        ≡ object (key_members (ty_tree inner.now) keys.now (docs_tree docs.now))) }
    ensures whole { OnOk result (all_hold_i64s (docs_tree docs.now) ≡ true) }
{
    let mut members = Map::new(alloc);
    for i in 0..docs.len() {
        let key = keys.get(i);
        let content = write(alloc, inner, docs.get(i))?;
        put(&mut members, alloc, key.as_str(), content)?;
    }
    Ok(Value::Object(members))
}

// An object with the depths and the contents of an ordered tree.
#[cycle(write)]
fn write_ordered(
    alloc: Global,
    inner: &Ty,
    depths: &DepthSeq,
    docs: &Docs,
) -> Result<Value, AllocError>
    requires well_formed { is_well_formed (ty_tree inner.now) ≡ true }
    requires typed { has_each (ty_tree inner.now) (docs_tree docs.now) ≡ true }
    ensures tree { IfOk result (λ tree. view tree
        ≡ object (member (codes "depths") (array (count_items depths.now)) (member (codes "items")
        (array (content_items (ty_tree inner.now) (docs_tree docs.now))) no_members))) }
    ensures whole { OnOk result (all_hold_i64s (docs_tree docs.now) ≡ true) }
{
    let mut members = Map::new(alloc);
    put(&mut members, alloc, "depths", write_depths(alloc, depths)?)?;
    put(
        &mut members,
        alloc,
        "items",
        write_list(alloc, inner, docs)?,
    )?;
    Ok(Value::Object(members))
}

/// The array of these depths. Fails only if memory runs out.
pub fn write_depths(alloc: Global, depths: &DepthSeq) -> Result<Value, AllocError>
    ensures { IfOk result (λ tree. view tree ≡ array (count_items depths.now)) }
{
    let count = depths.len();
    let mut items = Vec::with_capacity(alloc, count)?;
    for i in 0..count {
        items.push(Value::from(*depths.get(i)))?;
    }
    Ok(Value::Array(items))
}

/// The array of these numbers. Fails only if memory runs out.
pub fn write_counts(alloc: Global, counts: &[u64]) -> Result<Value, AllocError>
    ensures { IfOk result (λ tree. view tree ≡ array (count_items counts.now)) }
{
    let mut items = Vec::with_capacity(alloc, counts.len())?;
    for count in counts {
        items.push(Value::from(*count))?;
    }
    Ok(Value::Array(items))
}
