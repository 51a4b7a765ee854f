//! Writing a document as the tree of a file.

ghost use Rattle.std.specs.Prelude.{◌≡◌, true, Some, None, IfOk, OnOk, option_map, if◌then◌else◌};
ghost use Rattle.std.specs.Option.{option_flatten};
ghost use Rattle.std.specs.Fmt.{signed_decimal};
ghost use Rattle.json.specs.Json.{Members, number, string};
ghost use Rattle.json.specs.Tree.{HasNumbers};
ghost use Rattle.texts.specs.Keys.{has_name};
ghost use Rattle.doc_values.specs.Documents.{hold, doc_tree, docs_tree};
ghost use Rattle.doc_values.specs.Integers.{fits_i64};
ghost use Rattle.file_trees.specs.FileTrees.{file_tree};
ghost use Rattle.file_forms.specs.Forms.{as_items, as_map, file_form_tree, forms_view};
ghost use Rattle.file_forms.specs.Fitting.{is_fit};
ghost use Rattle.file_forms.specs.Numbers.{is_number};
ghost use Rattle.file_forms.specs.Slots.{literal_slot};
ghost use Rattle.file_forms.specs.FileValues.{read, write, write_fields, write_tag, with_slot, word_slot};
ghost use Rattle.file_forms.specs.FileValues.{object_slot, tagged_slot};
ghost use Rattle.file_values.specs.Writing.{Writes, slot_view, then_members};

use crate::fault::WriteFault;
use crate::words::{truth_literal, word_literal};
use doc_values::{Doc, Docs, is_list_of};
use file_forms::{FileForm, Literal};
use file_trees::FileTree;
use hold_shapes::Shape;
use json::is_number;
use std::alloc::{AllocError, Global};
use texts::{Name, Names, Str, Twin};

/// The tree of the file that shows a document.
///
/// - `NoFile`: if and only if no file of the form shows the document
pub fn write_tree(alloc: Global, form: &FileForm, doc: &Doc) -> Result<FileTree, WriteFault>
    // The tree and the refusal are the definition's, both ways.
    ensures tree { Writes file_tree result
        (option_flatten (write (file_form_tree form.now) (doc_tree doc.now))) }

    // What is written is read as the document, and can be written as a file.
    ensures reads_back { is_fit (file_form_tree form.now) ≡ true → IfOk result
        (λ tree. read (file_form_tree form.now) (Some (file_tree tree)) ≡ Some (doc_tree doc.now)) }
    ensures numbers { is_fit (file_form_tree form.now) ≡ true → IfOk result
        (λ tree. HasNumbers (file_tree tree)) }
{
    written(alloc, form, doc)
}

fn written(alloc: Global, form: &FileForm, doc: &Doc) -> Result<FileTree, WriteFault>
    ensures { Writes file_tree result (option_flatten (write (file_form_tree form.now) (doc_tree doc.now))) }
{
    match write(alloc, form, doc)? {
        Some(tree) => Ok(tree),
        None => Err(WriteFault::NoFile),
    }
}

// What stands in the place of a document, where a member may be left out.
#[cycle(write)]
fn write(alloc: Global, form: &FileForm, doc: &Doc) -> Result<Option<FileTree>, WriteFault>
    ensures { Writes slot_view result (write (file_form_tree form.now) (doc_tree doc.now)) }
{
    match (form, doc) {
        (FileForm::Literal(literal), Doc::Unit) => Ok(write_literal(alloc, literal)?),
        (FileForm::Bool, Doc::Bool(truth)) => Ok(Some(FileTree::Bool(*truth))),
        (FileForm::Truths(no, yes), Doc::Bool(truth)) => {
            Ok(write_literal(alloc, truth_literal(no, yes, *truth))?)
        }
        (FileForm::Int(_), Doc::Int(value)) => Ok(write_int(alloc, *value)?),
        (FileForm::Text(_), Doc::Text(text)) => Ok(Some(FileTree::Text(text.twin(alloc)?))),
        (FileForm::Enum(members, _), Doc::Pick(name)) => write_pick(alloc, members, name),
        (FileForm::Words(words, _), Doc::Pick(name)) => write_word(alloc, words.as_slice(), name),
        (FileForm::Number(_), Doc::Text(text)) => write_number(alloc, text),
        (FileForm::Object(fields), Doc::Rec(docs)) => write_object(alloc, fields, docs),
        (FileForm::Tagged(tags), Doc::Alt(tag, content)) => {
            tagged(alloc, tag, write_tag(alloc, tags, tag, content)?)
        }
        (FileForm::Bare(tags), Doc::Alt(tag, content)) => write_tag(alloc, tags, tag, content),
        (FileForm::Items(inner), Doc::Hold(shape, docs)) => write_items(alloc, inner, shape, docs),
        (FileForm::Map(inner), Doc::Hold(shape, docs)) => write_map(alloc, inner, shape, docs),
        _ => Err(WriteFault::NoFile),
    }
}

fn write_literal(alloc: Global, literal: &Literal) -> Result<Option<FileTree>, AllocError>
    ensures { IfOk result (λ slot. slot_view slot ≡ literal_slot literal.now) }
{
    match literal {
        Literal::Gone => Ok(None),
        Literal::Null => Ok(Some(FileTree::Null)),
        Literal::Bool(truth) => Ok(Some(FileTree::Bool(*truth))),
        Literal::Number(text) => Ok(Some(FileTree::Number(text.twin(alloc)?))),
        Literal::Text(text) => Ok(Some(FileTree::Text(text.twin(alloc)?))),
    }
}

#[tactic(auto, using(crate::proofs::IntRanges::fits))]
fn write_int(alloc: Global, value: i64) -> Result<Option<FileTree>, AllocError>
    ensures { IfOk result (λ slot.
        (if fits_i64 value then Some (Some (number (signed_decimal value))) else None) ≡ Some (slot_view slot)) }
{
    let digits = Str::from_string(format!(in alloc; "{value}")?);
    Ok(Some(FileTree::Number(digits)))
}

fn write_pick(alloc: Global, members: &Names, name: &Name) -> Result<Option<FileTree>, WriteFault>
    ensures { Writes slot_view result
        (if has_name name.now members.now then Some (Some (string name.now)) else None) }
{
    if !members.has(name) {
        return Err(WriteFault::NoFile);
    }
    let text = String::from_str(alloc, name.as_str())?;
    Ok(Some(FileTree::Text(Str::from_string(text))))
}

fn write_word(
    alloc: Global,
    words: &[(Name, Literal)],
    name: &Name,
) -> Result<Option<FileTree>, WriteFault>
    ensures { Writes slot_view result (word_slot words.now name.now) }
{
    match word_literal(words, name) {
        Some(literal) => Ok(write_literal(alloc, literal)?),
        None => Err(WriteFault::NoFile),
    }
}

fn write_number(alloc: Global, letters: &Str) -> Result<Option<FileTree>, WriteFault>
    ensures { Writes slot_view result
        (if is_number letters.now then Some (Some (number letters.now)) else None) }
{
    if !is_number(letters.as_str()) {
        return Err(WriteFault::NoFile);
    }
    Ok(Some(FileTree::Number(letters.twin(alloc)?)))
}

// An object with a member for each field that is there.
#[cycle(write)]
fn write_object(
    alloc: Global,
    fields: &Vec<(Name, FileForm)>,
    docs: &Docs,
) -> Result<Option<FileTree>, WriteFault>
    ensures { Writes slot_view result
        (option_map object_slot (write_fields (forms_view fields.now.items) (docs_tree docs.now))) }
{
    let mut contents = docs.iter();
    let mut members = Vec::with_capacity(alloc, fields.len())?;
    for field in fields {
        let Some(content) = contents.next() else {
            return Err(WriteFault::NoFile);
        };
        let slot = write(alloc, &field.1, content)?;
        push_member(alloc, &mut members, &field.0, slot)?;
    }
    match contents.next() {
        Some(_) => Err(WriteFault::NoFile),
        None => Ok(Some(FileTree::Object(members))),
    }
}

// One more member, unless there is nothing in its place.
fn push_member(
    alloc: Global,
    members: &mut Vec<(Name, FileTree)>,
    name: &Name,
    slot: Option<FileTree>,
) -> Result<(), AllocError>
    ensures { (rest : Members) → OnOk result (then_members members.new.items rest
        ≡ then_members members.old.items (with_slot name.now (slot_view slot) rest)) }
{
    if let Some(tree) = slot {
        members.push((name.twin(alloc)?, tree))?;
    }
    Ok(())
}

// An object with the tag as its one member.
fn tagged(alloc: Global, tag: &Name, slot: Option<FileTree>) -> Result<Option<FileTree>, WriteFault>
    ensures { Writes slot_view result (option_map (tagged_slot tag.now) (slot_view slot)) }
{
    match slot {
        Some(tree) => Ok(Some(with_tag(alloc, tag, tree)?)),
        None => Err(WriteFault::NoFile),
    }
}

// An object with one member.
fn with_tag(alloc: Global, tag: &Name, tree: FileTree) -> Result<FileTree, AllocError>
    ensures { IfOk result (λ object. Some (file_tree object) ≡ tagged_slot tag.now (file_tree tree)) }
{
    let name = tag.twin(alloc)?;
    Ok(FileTree::Object(vec![in alloc; (name, tree)]?))
}

// The content of a tag.
#[cycle(write)]
fn write_tag(
    alloc: Global,
    tags: &Vec<(Name, FileForm)>,
    tag: &Name,
    content: &Doc,
) -> Result<Option<FileTree>, WriteFault>
    ensures { Writes slot_view result (write_tag (forms_view tags.now.items) tag.now (doc_tree content.now)) }
{
    for form in tags {
        if form.0.is_same(tag) {
            return write(alloc, &form.1, content);
        }
    }
    Err(WriteFault::NoFile)
}

// An array with an item for each content.
#[cycle(write)]
fn write_items(
    alloc: Global,
    inner: &Box<FileForm>,
    shape: &Shape,
    docs: &Docs,
) -> Result<Option<FileTree>, WriteFault>
    ensures { Writes slot_view result
        (write (as_items (file_form_tree inner.now.value)) (hold shape.now (docs_tree docs.now))) }
{
    if !is_list_of(shape, docs.len()) {
        return Err(WriteFault::NoFile);
    }
    let mut items = Vec::with_capacity(alloc, docs.len())?;
    for content in docs.iter() {
        let Some(tree) = write(alloc, inner, content)? else {
            return Err(WriteFault::NoFile);
        };
        items.push(tree)?;
    }
    Ok(Some(FileTree::Array(items)))
}

// An object with a member for each key.
#[cycle(write)]
fn write_map(
    alloc: Global,
    inner: &Box<FileForm>,
    shape: &Shape,
    docs: &Docs,
) -> Result<Option<FileTree>, WriteFault>
    ensures { Writes slot_view result
        (write (as_map (file_form_tree inner.now.value)) (hold shape.now (docs_tree docs.now))) }
{
    let Shape::Keyed(keys) = shape else {
        return Err(WriteFault::NoFile);
    };
    let names = keys.names();
    let mut contents = docs.iter();
    let mut members = Vec::with_capacity(alloc, docs.len())?;
    for i in 0..names.len() {
        let Some(content) = contents.next() else {
            return Err(WriteFault::NoFile);
        };
        let Some(tree) = write(alloc, inner, content)? else {
            return Err(WriteFault::NoFile);
        };
        members.push((names.get(i).twin(alloc)?, tree))?;
    }
    match contents.next() {
        Some(_) => Err(WriteFault::NoFile),
        None => Ok(Some(FileTree::Object(members))),
    }
}
