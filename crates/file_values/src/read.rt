//! Reading a document from the tree of a file.

ghost use Rattle.std.specs.Prelude.{◌≡◌, ℕ, ℤ, List, true, Result, Ok, Some, IfOk};
ghost use Rattle.json.specs.Strict.{keys};
ghost use Rattle.texts.specs.Keys.{is_rising};
ghost use Rattle.hold_shapes.specs.declared.shape.Shape.TheVariants.{Keyed as KeyedOf};
ghost use Rattle.doc_values.specs.Documents.{DocTree, alt, hold, doc_tree, docs_tree};
ghost use Rattle.file_trees.specs.FileTrees.{file_tree, items_view, members_view};
ghost use Rattle.file_forms.specs.Forms.{as_literal, as_truths, as_int, as_text, as_enum, as_words, as_number};
ghost use Rattle.file_forms.specs.Forms.{as_bare};
ghost use Rattle.file_forms.specs.Forms.{file_form_tree, forms_view};
ghost use Rattle.file_forms.specs.Orders.{sorted};
ghost use Rattle.file_forms.specs.Fitting.{is_fit};
ghost use Rattle.file_forms.specs.FileValues.{int_text, listed_doc, read, write};
ghost use Rattle.file_values.specs.Reading.{Misfit, Reads, slot_of, inside, map_ok, one_member, one_reading};
ghost use Rattle.file_values.specs.Reading.{items_reading, map_reading, reading, fields_reading, tag_reading};
ghost use Rattle.file_values.specs.Reading.{lent_members};
ghost use Rattle.file_values.specs.declared.misfit.FileStep.TheVariants.{Member, Item};

use crate::members::{by_name, first_named, known_members, names_of, one_member};
use crate::misfit::{ReadCause, ReadFault};
use crate::slots::{is_literal, items_in, members_in, number_in, string_in, takes, truth_in};
use crate::words::{truth_of, word_of};
use doc_values::{Doc, Docs, has_text};
use file_forms::{FileForm, Literal};
use file_trees::FileTree;
use hold_shapes::{KeyedShape, ListShape, Shape};
use itoa::Buffer;
use json::is_number;
use std::alloc::Global;
use std::collections::BTreeMap;
use texts::{Name, Names, Twin};

/// The document that a file is. Of two members with one name the first counts; `read_file` returns no such tree.
///
/// - `Misfit`: if and only if the file is not as the form has it. It has the first part that is not, and why. Of a
///   record the members that no field has come first, then the fields in their order.
pub fn read_tree(alloc: Global, form: &FileForm, tree: &FileTree) -> Result<Doc, ReadFault>
    // The document and the misfit are the definition's, both ways.
    ensures document { Reads doc_tree result (reading (file_form_tree form.now) (Some (file_tree tree.now))) }

    // What is read is written back, with members in byte order.
    ensures read { is_fit (file_form_tree form.now) ≡ true → IfOk result
        (λ doc. read (file_form_tree form.now) (Some (file_tree tree.now)) ≡ Some (doc_tree doc)) }
    ensures comes_back { is_fit (file_form_tree form.now) ≡ true → IfOk result
        (λ doc. write (file_form_tree form.now) (doc_tree doc) ≡ Some (Some (sorted (file_tree tree.now)))) }
{
    read(alloc, form, Some(tree))
}

#[cycle(read)]
fn read(alloc: Global, form: &FileForm, slot: Option<&FileTree>) -> Result<Doc, ReadFault>
    ensures { Reads doc_tree result (reading (file_form_tree form.now) (slot_of slot.entry)) }
{
    match form {
        FileForm::Literal(literal) => read_literal(alloc, literal, slot),
        FileForm::Bool => Ok(Doc::Bool(truth_in(alloc, slot)?)),
        FileForm::Truths(no, yes) => read_truth(alloc, no, yes, slot),
        FileForm::Int(_) => read_int(alloc, slot),
        FileForm::Text(_) => read_text(alloc, slot),
        FileForm::Enum(members, _) => read_pick(alloc, members, slot),
        FileForm::Words(words, _) => read_word(alloc, words.as_slice(), slot),
        FileForm::Number(_) => read_number(alloc, slot),
        FileForm::Object(fields) => {
            let members = known_members(alloc, fields.as_slice(), slot)?;
            Ok(Doc::Rec(read_fields(alloc, fields, members)?))
        }
        FileForm::Tagged(tags) => read_tagged(alloc, tags, members_in(alloc, slot)?),
        FileForm::Bare(tags) => read_bare(alloc, tags, slot),
        FileForm::Items(inner) => Ok(listed(read_items(alloc, inner, items_in(alloc, slot)?)?)),
        FileForm::Map(inner) => read_map(alloc, inner, members_in(alloc, slot)?),
    }
}

fn read_literal(alloc: Global, literal: &Literal, slot: Option<&FileTree>) -> Result<Doc, ReadFault>
    ensures { Reads doc_tree result (reading (as_literal literal.now) (slot_of slot.entry)) }
{
    if is_literal(literal, slot) {
        Ok(Doc::Unit)
    } else {
        Err(ReadFault::here(alloc, ReadCause::OtherLiteral))
    }
}

fn read_truth(
    alloc: Global,
    no: &Literal,
    yes: &Literal,
    slot: Option<&FileTree>,
) -> Result<Doc, ReadFault>
    ensures { Reads doc_tree result (reading (as_truths no.now yes.now) (slot_of slot.entry)) }
{
    match truth_of(no, yes, slot) {
        Some(truth) => Ok(Doc::Bool(truth)),
        None => Err(ReadFault::here(alloc, ReadCause::OtherLiteral)),
    }
}

fn read_int(alloc: Global, slot: Option<&FileTree>) -> Result<Doc, ReadFault>
    ensures { (initial : ℤ) → Reads doc_tree result (reading (as_int initial) (slot_of slot.entry)) }
{
    let text = number_in(alloc, slot)?;
    match int_in(text.as_str()) {
        Some(number) => Ok(Doc::Int(number)),
        None => Err(ReadFault::here(alloc, ReadCause::NotAnInt)),
    }
}

// The i64 that is written as this text.
fn int_in(text: &str) -> Option<i64>
    ensures { result ≡ int_text text.now }
{
    let Ok(number) = text.parse::<i64>() else {
        return None;
    };
    let mut digits = Buffer::new();
    if digits.format(number) == text {
        Some(number)
    } else {
        None
    }
}

fn read_text(alloc: Global, slot: Option<&FileTree>) -> Result<Doc, ReadFault>
    ensures { (initial : List ℕ) → Reads doc_tree result (reading (as_text initial) (slot_of slot.entry)) }
{
    Ok(Doc::Text(string_in(alloc, slot)?.twin(alloc)?))
}

fn read_pick(alloc: Global, members: &Names, slot: Option<&FileTree>) -> Result<Doc, ReadFault>
    ensures { (initial : List ℕ)
        → Reads doc_tree result (reading (as_enum members.now initial) (slot_of slot.entry)) }
{
    let text = string_in(alloc, slot)?;
    if !has_text(members, text.as_str()) {
        return Err(ReadFault::here(alloc, ReadCause::NotAMember));
    }
    let member = String::from_str(alloc, text.as_str())?;
    Ok(Doc::Pick(Name::from_string(member)))
}

fn read_word(
    alloc: Global,
    words: &[(Name, Literal)],
    slot: Option<&FileTree>,
) -> Result<Doc, ReadFault>
    ensures { (initial : List ℕ) → Reads doc_tree result (reading (as_words words.now initial) (slot_of slot.entry)) }
{
    match word_of(words, slot) {
        Some(name) => Ok(Doc::Pick(name.twin(alloc)?)),
        None => Err(ReadFault::here(alloc, ReadCause::NotAMember)),
    }
}

fn read_number(alloc: Global, slot: Option<&FileTree>) -> Result<Doc, ReadFault>
    ensures { (initial : List ℕ) → Reads doc_tree result (reading (as_number initial) (slot_of slot.entry)) }
{
    let text = number_in(alloc, slot)?;
    if !is_number(text.as_str()) {
        return Err(ReadFault::here(alloc, ReadCause::NotANumber));
    }
    Ok(Doc::Text(text.twin(alloc)?))
}

// What the content of a member is, seen from the object.
fn in_member(alloc: Global, content: Result<Doc, ReadFault>, name: &str) -> Result<Doc, ReadFault>
    ensures { (outcome : Result DocTree Misfit) → Reads doc_tree content outcome
        → Reads doc_tree result (inside (Member name.now) outcome) }
{
    match content {
        Ok(doc) => Ok(doc),
        Err(fault) => Err(fault.in_member(alloc, name)),
    }
}

// What an item is, seen from the array.
fn in_item(content: Result<Doc, ReadFault>, place: u64) -> Result<Doc, ReadFault>
    ensures { (outcome : Result DocTree Misfit) → Reads doc_tree content outcome
        → Reads doc_tree result (inside (Item place) outcome) }
{
    match content {
        Ok(doc) => Ok(doc),
        Err(fault) => Err(fault.in_item(place)),
    }
}

// The contents of a record, a field after another.
#[cycle(read)]
fn read_fields(
    alloc: Global,
    fields: &Vec<(Name, FileForm)>,
    members: &[(Name, FileTree)],
) -> Result<Docs, ReadFault>
    ensures { Reads docs_tree result
        (fields_reading (forms_view fields.now.items) (members_view members.now)) }
{
    let mut docs = Vec::with_capacity(alloc, fields.len())?;
    for field in fields {
        let content = read(alloc, &field.1, first_named(&field.0, members));
        docs.push(in_member(alloc, content, field.0.as_str())?)?;
    }
    Ok(Docs::from_vec(alloc, docs)?)
}

// Alternatives, from the members of an object, of which the tag is the only one.
#[cycle(read)]
fn read_tagged(
    alloc: Global,
    tags: &Vec<(Name, FileForm)>,
    members: &[(Name, FileTree)],
) -> Result<Doc, ReadFault>
    ensures { Reads doc_tree result
        (one_reading (tag_reading (forms_view tags.now.items)) (one_member (members_view members.now))) }
{
    let Some((name, content)) = one_member(members) else {
        return Err(ReadFault::here(alloc, ReadCause::NotOneTag));
    };
    for tag in tags {
        if tag.0.is_same(name) {
            let doc = read(alloc, &tag.1, Some(content));
            return with_tag(alloc, name, in_member(alloc, doc, name.as_str()));
        }
    }
    Err(ReadFault::here(alloc, ReadCause::NotOneTag))
}

// Alternatives, from the content alone.
#[cycle(read)]
fn read_bare(
    alloc: Global,
    tags: &Vec<(Name, FileForm)>,
    slot: Option<&FileTree>,
) -> Result<Doc, ReadFault>
    ensures { Reads doc_tree result (reading (as_bare (forms_view tags.now.items)) (slot_of slot.entry)) }
{
    for tag in tags {
        if takes(&tag.1, slot) {
            return with_tag(alloc, &tag.0, read(alloc, &tag.1, slot));
        }
    }
    Err(ReadFault::here(alloc, ReadCause::NoTag))
}

// The content under its tag.
fn with_tag(alloc: Global, tag: &Name, content: Result<Doc, ReadFault>) -> Result<Doc, ReadFault>
    ensures { (outcome : Result DocTree Misfit) → Reads doc_tree content outcome
        → Reads doc_tree result (map_ok (alt tag.now) outcome) }
{
    let content = Box::new(alloc, content?)?;
    Ok(Doc::Alt(tag.twin(alloc)?, content))
}

// The contents of a list, an item after another.
#[cycle(read)]
fn read_items(alloc: Global, inner: &Box<FileForm>, items: &[FileTree]) -> Result<Docs, ReadFault>
    ensures { Reads docs_tree result
        (items_reading (λ j. reading (file_form_tree inner.now.value) (Some j)) 0 (items_view items.now)) }
{
    let mut docs = Vec::with_capacity(alloc, items.len())?;
    for i in 0..items.len() {
        let content = read(alloc, inner, Some(&items[i]));
        docs.push(in_item(content, i as u64)?)?;
    }
    Ok(Docs::from_vec(alloc, docs)?)
}

// A list of these contents.
fn listed(docs: Docs) -> Doc
    ensures { doc_tree result ≡ listed_doc (docs_tree docs) }
{
    let count = docs.len() as u64;
    Doc::Hold(Shape::List(ListShape { count }), docs)
}

// A keyed map, from the members of an object in byte order.
#[cycle(read)]
fn read_map(
    alloc: Global,
    inner: &Box<FileForm>,
    members: &[(Name, FileTree)],
) -> Result<Doc, ReadFault>
    ensures { Reads doc_tree result
        (map_reading (λ j. reading (file_form_tree inner.now.value) (Some j)) (members_view members.now)) }
{
    let ordered = by_name(alloc, members)?;
    let mut docs = Vec::with_capacity(alloc, ordered.len())?;
    for (name, content) in ordered.iter() {
        let doc = read(alloc, inner, Some(*content));
        docs.push(in_member(alloc, doc, name)?)?;
    }
    keyed(alloc, &ordered, Docs::from_vec(alloc, docs)?)
}

// A keyed map with the names of these members, which rise by bytes, as its keys.
fn keyed(alloc: Global, members: &BTreeMap<&str, &FileTree>, docs: Docs) -> Result<Doc, ReadFault>
    requires { is_rising (keys (lent_members members.now.entries)) ≡ true }
    ensures { Reads doc_tree result
        (Ok (hold (KeyedOf (keys (lent_members members.now.entries))) (docs_tree docs))) }
{
    match KeyedShape::from_names(names_of(alloc, members)?) {
        Some(keys) => Ok(Doc::Hold(Shape::Keyed(keys), docs)),
        None => unreachable!(),
    }
}
