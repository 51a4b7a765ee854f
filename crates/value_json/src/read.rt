//! Reading a document of a type from a JSON tree.

ghost use Rattle.std.specs.Prelude.{ℕ, ℤ, List, ◌≡◌, ◌<◌, true, bytes_eq, Some, IfOk, IsErrOf, option_map};
ghost use Rattle.std.specs.Prelude.{option_and_then};
ghost use Rattle.texts.specs.Keys.{has_name};
ghost use Rattle.serde_json.specs.View.{view, items_view, members_view};
ghost use Rattle.doc_values.specs.Documents.{DocTree, alt, doc_tree, docs_tree};
ghost use Rattle.doc_values.specs.Types.{ty_tree, fields_tree, ty_unit, ty_bool, ty_int, ty_text, ty_enum, ty_rec};
ghost use Rattle.doc_values.specs.Types.{ty_alt, ty_list, ty_keyed, ty_ordered};
ghost use Rattle.doc_values.specs.Typing.{has};
ghost use Rattle.value_json.specs.Numbers.{counts_of};
ghost use Rattle.value_json.specs.DocumentJson.{tree_of_document, document_of, field_documents, member_documents};
ghost use Rattle.value_json.specs.DocumentJson.{item_documents, member_names, holds_i64s, list_document};
ghost use Rattle.value_json.specs.DocumentJson.{keyed_document, ordered_document};
ghost use Rattle.value_json.specs.Parts.{depths_and_items};
ghost use Rattle.value_json.specs.Reading.{Gives};
ghost use Rattle.value_json.specs.declared.fault.DocFault;

use crate::fault::DocFault;
use crate::numbers::{read_counts, read_int};
use crate::parts::{only_member, two_members};
use doc_values::{Doc, Docs, Fields, Ty, has_text};
use hold_shapes::{DepthSeq, KeyedShape, ListShape, Name, Names, Shape, Str, TreeShape};
use serde_json::{Map, Value};
use shared_lists::SharedList;
use std::alloc::{AllocError, Global};

/// The document of the type that has this tree.
///
/// `NotOfType` if and only if no document of the type has this tree; the page docs/FORMATS.md says
/// which tree a document has. The type may be any type, and the tree any tree. Nothing of the tree
/// is copied but its texts.
pub fn read_doc(alloc: Global, ty: &Ty, tree: &Value) -> Result<Doc, DocFault>
    // The document and the refusal are the definition's, both ways.
    ensures document { Gives doc_tree result (document_of (ty_tree ty.now) (view tree.now)) }

    // What is read has the type and has this tree.
    ensures typed { IfOk result (λ doc. has (ty_tree ty.now) (doc_tree doc) ≡ true) }
    ensures tree { IfOk result
        (λ doc. tree_of_document (ty_tree ty.now) (doc_tree doc) ≡ view tree.now) }

    // Where it is refused, no document of the type has this tree.
    ensures refused { IsErrOf result DocFault.NotOfType → (doc : DocTree)
        → has (ty_tree ty.now) doc ≡ true → holds_i64s doc ≡ true
        → tree_of_document (ty_tree ty.now) doc ≡ view tree.now → ⊥ }
{
    read(alloc, ty, tree)
}

#[cycle(read)]
fn read(alloc: Global, ty: &Ty, tree: &Value) -> Result<Doc, DocFault>
    ensures { Gives doc_tree result (document_of (ty_tree ty.now) (view tree.now)) }
{
    match ty {
        Ty::Unit => read_unit(tree),
        Ty::Bool => read_bool(tree),
        Ty::Int(_) => read_whole(tree),
        Ty::Text(_) => read_text(alloc, tree),
        Ty::Enum(members, _) => read_pick(alloc, members, tree),
        Ty::Rec(fields) => read_record(alloc, fields, tree),
        Ty::Alt(tags) => read_tagged(alloc, tags, tree),
        Ty::List(inner) => read_list(alloc, inner, tree),
        Ty::Keyed(inner) => read_keyed(alloc, inner, tree),
        Ty::Tree(inner) => read_ordered(alloc, inner, tree),
    }
}

#[tactic(auto, using(crate::proofs::DocumentOf::unit_of))]
fn read_unit(tree: &Value) -> Result<Doc, DocFault>
    ensures { Gives doc_tree result (document_of ty_unit (view tree.now)) }
{
    if tree.is_null() {
        Ok(Doc::Unit)
    } else {
        Err(DocFault::NotOfType)
    }
}

#[tactic(auto, using(crate::proofs::DocumentOf::truth_of))]
fn read_bool(tree: &Value) -> Result<Doc, DocFault>
    ensures { Gives doc_tree result (document_of ty_bool (view tree.now)) }
{
    match tree.as_bool() {
        Some(truth) => Ok(Doc::Bool(truth)),
        None => Err(DocFault::NotOfType),
    }
}

#[tactic(auto, using(crate::proofs::DocumentOf::whole_of))]
fn read_whole(tree: &Value) -> Result<Doc, DocFault>
    ensures { (initial : ℤ) → Gives doc_tree result (document_of (ty_int initial) (view tree.now)) }
{
    match read_int(tree) {
        Some(number) => Ok(Doc::Int(number)),
        None => Err(DocFault::NotOfType),
    }
}

#[tactic(auto, using(crate::proofs::DocumentOf::text_of))]
fn read_text(alloc: Global, tree: &Value) -> Result<Doc, DocFault>
    ensures { (initial : List ℕ) → Gives doc_tree result (document_of (ty_text initial) (view tree.now)) }
{
    match tree.as_str() {
        Some(text) => Ok(Doc::Text(Str::from_string(String::from_str(alloc, text)?))),
        None => Err(DocFault::NotOfType),
    }
}

#[tactic(auto, using(crate::proofs::DocumentOf::pick_of))]
fn read_pick(alloc: Global, members: &Names, tree: &Value) -> Result<Doc, DocFault>
    ensures { (initial : List ℕ) → Gives doc_tree result (document_of (ty_enum members.now initial) (view tree.now)) }
{
    let Some(text) = tree.as_str() else {
        return Err(DocFault::NotOfType);
    };
    if !has_text(members, text) {
        return Err(DocFault::NotOfType);
    }
    let member = Name::from_string(String::from_str(alloc, text)?);
    Ok(Doc::Pick(member))
}

#[cycle(read)]
#[tactic(auto, using(crate::proofs::DocumentOf::rec_of))]
fn read_record(alloc: Global, fields: &Fields, tree: &Value) -> Result<Doc, DocFault>
    ensures { Gives doc_tree result (document_of (ty_rec (fields_tree fields.now)) (view tree.now)) }
{
    let Some(members) = tree.as_object() else {
        return Err(DocFault::NotOfType);
    };
    Ok(Doc::Rec(read_fields(alloc, fields, members)?))
}

// The contents of a record, from exactly its fields as members.
#[cycle(read)]
fn read_fields(
    alloc: Global,
    fields: &Fields,
    members: &Map<String, Value>,
) -> Result<Docs, DocFault>
    ensures { Gives docs_tree result
        (field_documents (fields_tree fields.now) (members_view members.now.entries)) }
{
    let mut rest = members.iter();
    let mut docs = Vec::with_capacity(alloc, fields.len())?;
    for field in fields.as_slice() {
        let Some((name, content)) = rest.next() else {
            return Err(DocFault::NotOfType);
        };
        if !is_named(&field.0, name.as_str()) {
            return Err(DocFault::NotOfType);
        }
        docs.push(read(alloc, &field.1, content)?)?;
    }
    match rest.next() {
        Some(_) => Err(DocFault::NotOfType),
        None => Ok(Docs::from_vec(alloc, docs)?),
    }
}

// Whether the name is the text, byte for byte.
//
// The bytes are compared one by one, since names are short. The comparison of texts reads eight
// bytes at a time, and costs more on a short name.
fn is_named(name: &Name, text: &str) -> bool
    ensures { result ≡ bytes_eq name.now text.now }
{
    name.as_str().bytes().eq(text.bytes())
}

#[cycle(read)]
#[tactic(auto, using(crate::proofs::DocumentOf::alt_of))]
fn read_tagged(alloc: Global, tags: &Fields, tree: &Value) -> Result<Doc, DocFault>
    ensures { Gives doc_tree result (document_of (ty_alt (fields_tree tags.now)) (view tree.now)) }
{
    let Some((name, content)) = only_member(tree) else {
        return Err(DocFault::NotOfType);
    };
    let Some((_, ty)) = tags.find(name) else {
        return Err(DocFault::NotOfType);
    };
    let content = read(alloc, ty, content)?;
    tagged(alloc, name, content)
}

// The alternatives of a tag and its content.
fn tagged(alloc: Global, name: &str, content: Doc) -> Result<Doc, DocFault>
    ensures { Gives doc_tree result (Some (alt name.now (doc_tree content))) }
{
    let tag = Name::from_string(String::from_str(alloc, name)?);
    Ok(Doc::Alt(tag, Box::new(alloc, content)?))
}

#[cycle(read)]
#[tactic(auto, using(crate::proofs::DocumentOf::list_of))]
fn read_list(alloc: Global, inner: &Ty, tree: &Value) -> Result<Doc, DocFault>
    ensures { Gives doc_tree result (document_of (ty_list (ty_tree inner.now)) (view tree.now)) }
{
    let Some(items) = tree.as_array() else {
        return Err(DocFault::NotOfType);
    };
    let docs = read_items(alloc, inner, items)?;
    let count = docs.len() as u64;
    Ok(Doc::Hold(Shape::List(ListShape { count }), docs))
}

#[cycle(read)]
#[tactic(auto, using(crate::proofs::DocumentOf::keyed_of))]
fn read_keyed(alloc: Global, inner: &Ty, tree: &Value) -> Result<Doc, DocFault>
    ensures { Gives doc_tree result (document_of (ty_keyed (ty_tree inner.now)) (view tree.now)) }
{
    let Some(members) = tree.as_object() else {
        return Err(DocFault::NotOfType);
    };
    let docs = read_members(alloc, inner, members)?;
    keyed(alloc, members, docs)
}

// A keyed map of the names of an object's members.
fn keyed(alloc: Global, members: &Map<String, Value>, docs: Docs) -> Result<Doc, DocFault>
    ensures { Gives doc_tree result
        (keyed_document (member_names (members_view members.now.entries)) (docs_tree docs)) }
{
    match KeyedShape::from_names(names_of(alloc, members)?) {
        Some(keys) => Ok(Doc::Hold(Shape::Keyed(keys), docs)),
        None => Err(DocFault::NotOfType),
    }
}

#[cycle(read)]
#[tactic(auto, using(crate::proofs::DocumentOf::ordered_of))]
fn read_ordered(alloc: Global, inner: &Ty, tree: &Value) -> Result<Doc, DocFault>
    ensures { Gives doc_tree result (document_of (ty_ordered (ty_tree inner.now)) (view tree.now)) }
{
    let Some((depths, items)) = depths_and_items(tree) else {
        return Err(DocFault::NotOfType);
    };
    let Some(depths) = read_counts(alloc, depths)? else {
        return Err(DocFault::NotOfType);
    };
    let docs = read_items(alloc, inner, items)?;
    ordered(alloc, depths, docs)
}

// An ordered tree of these depths.
fn ordered(alloc: Global, depths: Vec<u64>, docs: Docs) -> Result<Doc, DocFault>
    ensures { Gives doc_tree result (ordered_document depths.items (docs_tree docs)) }
{
    if depths.len() != docs.len() {
        return Err(DocFault::NotOfType);
    }
    match TreeShape::from_depths(DepthSeq::from_vec(alloc, depths)?) {
        Some(nodes) => Ok(Doc::Hold(Shape::Tree(nodes), docs)),
        None => Err(DocFault::NotOfType),
    }
}

// The arrays of an object with exactly the members `depths` and `items`.
#[tactic(auto, using(crate::proofs::DocumentOf::arrays_by))]
fn depths_and_items(tree: &Value) -> Option<(&Vec<Value>, &Vec<Value>)>
    ensures { option_map (λ p. (items_view p.0.now.items, items_view p.1.now.items)) result
        ≡ depths_and_items (view tree.now) }
{
    let ((first_name, depths), (last_name, items)) = two_members(tree)?;
    if first_name != "depths" || last_name != "items" {
        return None;
    }
    Some((depths.as_array()?, items.as_array()?))
}

// The names of an object's members.
fn names_of(alloc: Global, members: &Map<String, Value>) -> Result<SharedList<Name>, AllocError>
    ensures { IfOk result (λ names. names ≡ member_names (members_view members.now.entries)) }
{
    let mut names = Vec::with_capacity(alloc, members.len())?;
    for (name, _) in members.iter() {
        names.push(Name::from_string(name.clone()?))?;
    }
    SharedList::from_vec(alloc, names)
}

// The contents of an object's members.
#[cycle(read)]
fn read_members(alloc: Global, inner: &Ty, members: &Map<String, Value>) -> Result<Docs, DocFault>
    ensures { Gives docs_tree result
        (member_documents (ty_tree inner.now) (members_view members.now.entries)) }
{
    let mut docs = Vec::with_capacity(alloc, members.len())?;
    for (_, content) in members.iter() {
        docs.push(read(alloc, inner, content)?)?;
    }
    Ok(Docs::from_vec(alloc, docs)?)
}

// The contents that an array's items are.
#[cycle(read)]
fn read_items(alloc: Global, inner: &Ty, items: &[Value]) -> Result<Docs, DocFault>
    ensures { Gives docs_tree result (item_documents (ty_tree inner.now) (items_view items.now)) }
{
    let mut docs = Vec::with_capacity(alloc, items.len())?;
    for item in items {
        docs.push(read(alloc, inner, item)?)?;
    }
    Ok(Docs::from_vec(alloc, docs)?)
}
