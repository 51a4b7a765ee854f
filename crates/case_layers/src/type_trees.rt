//! Types and documents as JSON trees.

use crate::answers::ok;
use crate::arguments::{as_items, name, names};
use crate::case::Case;
use crate::programs::typed;
use anyhow::{Context, Result, bail};
use doc_values::{Doc, Docs, Fields, Ty};
use lens_types::Typed;
use serde_json::Value;
use std::alloc::Global;
use texts::{Name, Names, Twin};
use value_json::{only_member, read_doc, write_doc};

// How many built types may nest: the same number as values of JSON.
const MOST_LEVELS: u32 = 128;

/// Returns the type that a member is, in a box: its text as in a lens program, or an object that says how it is built.
/// It is refused if there is no such member, if it is neither, or if the text is not of a well-formed type.
pub fn ty_of(alloc: Global, case: &Case<'_>, member: &str) -> Result<Box<Ty>> {
    let ty = ty_within(alloc, MOST_LEVELS, case.argument(member)?)?;
    Ok(Box::new(alloc, ty)?)
}

/// Returns the fields that an array has, each a pair of a name and a type. It is refused if an item is not such a pair.
pub fn fields_of(alloc: Global, tree: &Value) -> Result<Fields> {
    fields_within(alloc, MOST_LEVELS, tree)
}

// The type of this text: the left type of its identity.
fn written_ty(alloc: Global, text: &str) -> Result<Ty> {
    let program = format!(in alloc; "main id {text}")?;
    left_ty(alloc, typed(alloc, program.as_str())?)
}

fn left_ty(alloc: Global, typed: Typed) -> Result<Ty> {
    let left = typed.left().twin(alloc);
    drop(typed);
    Ok(left?)
}

// The type that a tree is, built on at most `levels` levels.
#[cycle(ty)]
fn ty_within(alloc: Global, levels: u32, tree: &Value) -> Result<Ty> {
    match tree.as_str() {
        Some(text) => written_ty(alloc, text),
        None if levels > 0 => built_ty(alloc, levels - 1, tree),
        None => bail!("a type nests too deep"),
    }
}

// The type that an object builds, of types on at most `levels` levels.
#[cycle(ty)]
fn built_ty(alloc: Global, levels: u32, tree: &Value) -> Result<Ty> {
    let (kind, content) = only_member(tree).context("not a type")?;
    match kind {
        "enum" => enum_ty(alloc, names(alloc, content)?),
        "rec" => Ok(Ty::Rec(fields_within(alloc, levels, content)?)),
        "alt" => Ok(Ty::Alt(fields_within(alloc, levels, content)?)),
        _ => container_ty(alloc, levels, kind, content),
    }
}

// The enum of some members with the first one as its initial value, or the empty name if there are none.
fn enum_ty(alloc: Global, members: Names) -> Result<Ty> {
    let initial = match members.as_slice().first() {
        Some(first) => first.twin(alloc)?,
        None => Name::from_string(String::new(alloc)),
    };
    Ok(Ty::Enum(members, initial))
}

#[cycle(ty)]
fn container_ty(alloc: Global, levels: u32, kind: &str, content: &Value) -> Result<Ty> {
    let inner = Box::new(alloc, ty_within(alloc, levels, content)?)?;
    match kind {
        "list" => Ok(Ty::List(inner)),
        "keyed" => Ok(Ty::Keyed(inner)),
        "tree" => Ok(Ty::Tree(inner)),
        _ => bail!("not a kind of type"),
    }
}

#[cycle(ty)]
fn fields_within(alloc: Global, levels: u32, tree: &Value) -> Result<Fields> {
    let mut fields = Vec::new(alloc);
    for item in as_items(tree)? {
        fields.push(field_within(alloc, levels, as_items(item)?)?)?;
    }
    Ok(Fields::from_vec(fields))
}

#[cycle(ty)]
fn field_within(alloc: Global, levels: u32, pair: &[Value]) -> Result<(Name, Ty)> {
    match pair {
        [field, content] => Ok((name(alloc, field)?, ty_within(alloc, levels, content)?)),
        _ => bail!("a field is a pair"),
    }
}

/// Returns the document of the type that a member is, in a box. It is refused if there is no such member, or if the
/// type has no such document.
pub fn doc_of(alloc: Global, ty: &Ty, case: &Case<'_>, member: &str) -> Result<Box<Doc>> {
    let doc = read_as(alloc, ty, case.argument(member)?)?;
    Ok(Box::new(alloc, doc)?)
}

/// Returns the document of the type that a tree is. It is refused if the type has no such document.
pub fn read_as(alloc: Global, ty: &Ty, tree: &Value) -> Result<Doc> {
    match read_doc(alloc, ty, tree) {
        Ok(doc) => Ok(doc),
        Err(fault) => bail!("not a document: {fault:?}"),
    }
}

/// Returns the documents of one type that the member `items` has. It is refused if it is not an array, or if an item is
/// not a document of the type.
pub fn docs_of(alloc: Global, ty: &Ty, case: &Case<'_>) -> Result<Docs> {
    let items = case.items("items")?;
    let mut docs = Vec::new(alloc);
    for item in items {
        docs.push(read_as(alloc, ty, item)?)?;
    }
    Ok(Docs::from_vec(alloc, docs)?)
}

/// Returns the tree of a document. It is refused if the type is ill formed or the document does not have it.
pub fn doc_tree(alloc: Global, ty: &Ty, doc: &Doc) -> Result<Value> {
    if !ty.is_well_formed() || !doc.has_type(ty) {
        bail!("the document has another type");
    }
    Ok(write_doc(alloc, ty, doc)?)
}

/// Returns the tree of a document under `ok`. It is refused as by `doc_tree`.
pub fn ok_doc(alloc: Global, ty: &Ty, doc: &Doc) -> Result<Value> {
    ok(alloc, doc_tree(alloc, ty, doc)?)
}

/// Returns the array of the trees of documents of one type. It is refused if one has another type.
pub fn doc_items(alloc: Global, ty: &Ty, docs: &Docs) -> Result<Value> {
    let mut items = Vec::new(alloc);
    for doc in docs.iter() {
        items.push(doc_tree(alloc, ty, doc)?)?;
    }
    Ok(Value::Array(items))
}
