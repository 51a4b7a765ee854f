//! Reading a document of a type from the tokens of a text.
ghost use Rattle.std.specs.Prelude.{◌≡◌, ◌<◌, ℕ, ℤ, List, Some, IfSome, option_map};
ghost use Rattle.doc_values.specs.Documents.{doc_tree, docs_tree};
ghost use Rattle.doc_values.specs.Types.{ty_tree, fields_tree, ty_unit, ty_bool, ty_int, ty_text, ty_enum, ty_rec};
ghost use Rattle.doc_values.specs.Types.{ty_alt, ty_list, ty_keyed, ty_ordered};
ghost use Rattle.json_tokens.specs.TreesAt.{read_at, read_items_at};
ghost use Rattle.value_json.specs.DocumentJson.{document_of, field_documents, item_documents};
ghost use Rattle.value_json.specs.DocumentJson.{keyed_document, ordered_document};
ghost use Rattle.doc_tokens.specs.MembersAt.{read_members_at, follows, last_of, entry_documents};

use crate::numbers::{take_counts, take_whole};
use doc_values::{Doc, Docs, Fields, Ty, has_text};
use hold_shapes::{DepthSeq, KeyedShape, ListShape, Name, Names, Shape, Str, TreeShape};
use json::{Reader, Token};
use json_tokens::{
    closes_object, next_key, opens_array, opens_object, take_key, take_text, takes_key,
};
use shared_lists::SharedList;
use std::alloc::Global;

/// The document of the type that the next value is, which nests no deeper than the number.
///
/// `None` says nothing of the value, and the reader is of no more use.
#[cycle(take)]
pub fn take_doc<'a>(alloc: Global, ty: &Ty, reader: &mut Reader<'a>, depth: usize) -> Option<Doc>
    ensures { IfSome result (λ doc. read_at (document_of (ty_tree ty.now)) depth reader.old
        ≡ Some (doc_tree doc, reader.new)) }
{
    match ty {
        Ty::Unit => take_unit(reader),
        Ty::Bool => take_bool(reader),
        Ty::Int(_) => take_int(reader),
        Ty::Text(_) => take_letters(alloc, reader),
        Ty::Enum(members, _) => take_pick(alloc, members, reader),
        Ty::Rec(fields) => take_record(alloc, fields, reader, depth),
        Ty::Alt(tags) => take_tagged(alloc, tags, reader, depth),
        Ty::List(inner) => take_list(alloc, inner, reader, depth),
        Ty::Keyed(inner) => take_keyed(alloc, inner, reader, depth),
        Ty::Tree(inner) => take_ordered(alloc, inner, reader, depth),
    }
}

fn take_unit<'a>(reader: &mut Reader<'a>) -> Option<Doc>
    ensures { IfSome result (λ doc. (depth : ℕ)
        → read_at (document_of ty_unit) depth reader.old ≡ Some (doc_tree doc, reader.new)) }
{
    match reader.next() {
        Some(Token::Null) => Some(Doc::Unit),
        _ => None,
    }
}

fn take_bool<'a>(reader: &mut Reader<'a>) -> Option<Doc>
    ensures { IfSome result (λ doc. (depth : ℕ)
        → read_at (document_of ty_bool) depth reader.old ≡ Some (doc_tree doc, reader.new)) }
{
    match reader.next() {
        Some(Token::Bool(truth)) => Some(Doc::Bool(truth)),
        _ => None,
    }
}

fn take_int<'a>(reader: &mut Reader<'a>) -> Option<Doc>
    ensures { IfSome result (λ doc. (initial : ℤ) → (depth : ℕ)
        → read_at (document_of (ty_int initial)) depth reader.old ≡ Some (doc_tree doc, reader.new)) }
{
    Some(Doc::Int(take_whole(reader)?))
}

fn take_letters<'a>(alloc: Global, reader: &mut Reader<'a>) -> Option<Doc>
    ensures { IfSome result (λ doc. (initial : List ℕ) → (depth : ℕ)
        → read_at (document_of (ty_text initial)) depth reader.old ≡ Some (doc_tree doc, reader.new)) }
{
    let text = take_text(reader)?;
    Some(Doc::Text(Str::from_string(String::from_str(alloc, text).ok()?)))
}

fn take_pick<'a>(alloc: Global, members: &Names, reader: &mut Reader<'a>) -> Option<Doc>
    ensures { IfSome result (λ doc. (initial : List ℕ) → (depth : ℕ)
        → read_at (document_of (ty_enum members.now initial)) depth reader.old
        ≡ Some (doc_tree doc, reader.new)) }
{
    let text = take_text(reader)?;
    if !has_text(members, text) {
        return None;
    }
    Some(Doc::Pick(name_of(alloc, text)?))
}

fn name_of(alloc: Global, text: &str) -> Option<Name>
    ensures { IfSome result (λ name. name ≡ text.now) }
{
    Some(Name::from_string(String::from_str(alloc, text).ok()?))
}

#[cycle(take)]
fn take_record<'a>(
    alloc: Global,
    fields: &Fields,
    reader: &mut Reader<'a>,
    depth: usize,
) -> Option<Doc>
    ensures { IfSome result (λ doc. read_at (document_of (ty_rec (fields_tree fields.now))) depth reader.old
        ≡ Some (doc_tree doc, reader.new)) }
{
    if depth == 0 || !opens_object(reader) {
        return None;
    }
    Some(Doc::Rec(take_fields(alloc, fields, reader, depth - 1)?))
}

// The contents of exactly these fields, up to the brace that closes an object. Their names have to rise.
#[cycle(take)]
fn take_fields<'a>(
    alloc: Global,
    fields: &Fields,
    reader: &mut Reader<'a>,
    depth: usize,
) -> Option<Docs>
    ensures { IfSome result (λ docs. read_members_at (field_documents (fields_tree fields.now)) depth reader.old
        ≡ Some (docs_tree docs, reader.new)) }
{
    let Ok(mut docs) = Vec::with_capacity(alloc, fields.len()) else {
        return None;
    };
    let mut last: Option<&Name> = None;
    for field in fields.as_slice() {
        if !follows(last, &field.0) || !takes_key(reader, field.0.as_str()) {
            return None;
        }
        let doc = take_doc(alloc, &field.1, reader, depth)?;
        let Ok(()) = docs.push(doc) else {
            return None;
        };
        last = Some(&field.0);
    }
    if !closes_object(reader) {
        return None;
    }
    match Docs::from_vec(alloc, docs) {
        Ok(docs) => Some(docs),
        Err(_) => None,
    }
}

// Whether a name comes behind the last one, if there is one.
fn follows(last: Option<&Name>, name: &Name) -> bool
    ensures { result ≡ follows (option_map (λ l. l.now) last.entry) name.now }
{
    match last {
        Some(last) => last.is_before(name),
        None => true,
    }
}

/// Whether a name comes behind the last of these.
pub fn rises(names: &[Name], name: &Name) -> bool
    ensures { result ≡ follows (last_of names.now) name.now }
{
    if names.is_empty() {
        return true;
    }
    names[names.len() - 1].is_before(name)
}

#[cycle(take)]
fn take_tagged<'a>(
    alloc: Global,
    tags: &Fields,
    reader: &mut Reader<'a>,
    depth: usize,
) -> Option<Doc>
    ensures { IfSome result (λ doc. read_at (document_of (ty_alt (fields_tree tags.now))) depth reader.old
        ≡ Some (doc_tree doc, reader.new)) }
{
    if depth == 0 || !opens_object(reader) {
        return None;
    }
    let name = take_key(reader)?;
    let Some((_, ty)) = tags.find(name) else {
        return None;
    };
    let content = take_doc(alloc, ty, reader, depth - 1)?;
    if !closes_object(reader) {
        return None;
    }
    let tag = name_of(alloc, name)?;
    match Box::new(alloc, content) {
        Ok(content) => Some(Doc::Alt(tag, content)),
        Err(_) => None,
    }
}

#[cycle(take)]
fn take_list<'a>(alloc: Global, inner: &Ty, reader: &mut Reader<'a>, depth: usize) -> Option<Doc>
    ensures { IfSome result (λ doc. read_at (document_of (ty_list (ty_tree inner.now))) depth reader.old
        ≡ Some (doc_tree doc, reader.new)) }
{
    if depth == 0 || !opens_array(reader) {
        return None;
    }
    let docs = take_items(alloc, inner, reader, depth - 1)?;
    let count = docs.len() as u64;
    Some(Doc::Hold(Shape::List(ListShape { count }), docs))
}

// The contents up to the bracket that closes an array.
#[cycle(take)]
fn take_items<'a>(alloc: Global, inner: &Ty, reader: &mut Reader<'a>, depth: usize) -> Option<Docs>
    ensures { IfSome result (λ docs. read_items_at (item_documents (ty_tree inner.now)) depth reader.old
        ≡ Some (docs_tree docs, reader.new)) }
{
    let mut docs = Vec::new(alloc);
    while !reader.take_end_array() {
        let doc = take_doc(alloc, inner, reader, depth)?;
        let Ok(()) = docs.push(doc) else {
            return None;
        };
    }
    match Docs::from_vec(alloc, docs) {
        Ok(docs) => Some(docs),
        Err(_) => None,
    }
}

#[cycle(take)]
fn take_keyed<'a>(alloc: Global, inner: &Ty, reader: &mut Reader<'a>, depth: usize) -> Option<Doc>
    ensures { IfSome result (λ doc. read_at (document_of (ty_keyed (ty_tree inner.now))) depth reader.old
        ≡ Some (doc_tree doc, reader.new)) }
{
    if depth == 0 || !opens_object(reader) {
        return None;
    }
    let (names, docs) = take_entries(alloc, inner, reader, depth - 1)?;
    keyed(alloc, names, docs)
}

// The names and the contents up to the brace that closes an object. The names have to rise.
#[cycle(take)]
fn take_entries<'a>(
    alloc: Global,
    inner: &Ty,
    reader: &mut Reader<'a>,
    depth: usize,
) -> Option<(Vec<Name>, Docs)>
    ensures { IfSome result (λ p. read_members_at (entry_documents (ty_tree inner.now)) depth reader.old
        ≡ Some ((p.0.items, docs_tree p.1), reader.new)) }
{
    let mut names: Vec<Name> = Vec::new(alloc);
    let mut docs = Vec::new(alloc);
    while let Some(key) = next_key(reader)? {
        let name = name_of(alloc, key)?;
        if !rises(&names, &name) {
            return None;
        }
        let doc = take_doc(alloc, inner, reader, depth)?;
        let Ok(()) = names.push(name) else {
            return None;
        };
        let Ok(()) = docs.push(doc) else {
            return None;
        };
    }
    match Docs::from_vec(alloc, docs) {
        Ok(docs) => Some((names, docs)),
        Err(_) => None,
    }
}

// A keyed map of these names.
fn keyed(alloc: Global, names: Vec<Name>, docs: Docs) -> Option<Doc>
    ensures { IfSome result (λ doc. keyed_document names.items (docs_tree docs) ≡ Some (doc_tree doc)) }
{
    let names = SharedList::from_vec(alloc, names).ok()?;
    let keys = KeyedShape::from_names(names)?;
    Some(Doc::Hold(Shape::Keyed(keys), docs))
}

#[cycle(take)]
fn take_ordered<'a>(alloc: Global, inner: &Ty, reader: &mut Reader<'a>, depth: usize) -> Option<Doc>
    ensures { IfSome result (λ doc. read_at (document_of (ty_ordered (ty_tree inner.now))) depth reader.old
        ≡ Some (doc_tree doc, reader.new)) }
{
    if depth < 2 || !opens_object(reader) {
        return None;
    }
    if !takes_key(reader, "depths") || !opens_array(reader) {
        return None;
    }
    let depths = take_counts(alloc, reader)?;
    if !takes_key(reader, "items") || !opens_array(reader) {
        return None;
    }
    let docs = take_items(alloc, inner, reader, depth - 2)?;
    if !closes_object(reader) {
        return None;
    }
    ordered(alloc, depths, docs)
}

// An ordered tree of these depths.
fn ordered(alloc: Global, depths: Vec<u64>, docs: Docs) -> Option<Doc>
    ensures { IfSome result (λ doc. ordered_document depths.items (docs_tree docs) ≡ Some (doc_tree doc)) }
{
    if depths.len() != docs.len() {
        return None;
    }
    let nodes = TreeShape::from_depths(DepthSeq::from_vec(alloc, depths).ok()?)?;
    Some(Doc::Hold(Shape::Tree(nodes), docs))
}
