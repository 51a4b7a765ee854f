//! A word that makes a document from the initial value of its type.
//!
//! The word is built in one pass over the document; a content is looked up, and never copied.

ghost use Rattle.std.specs.Prelude.{◌≡◌, ◌≤◌, true, Ok, IfOk, map, drop, length, bytes_eq};
ghost use Rattle.hold_shapes.specs.Trees.{is_valid};
ghost use Rattle.doc_values.specs.Documents.{doc_tree, docs_tree, doc_list, alt};
ghost use Rattle.doc_values.specs.Types.{ty_tree, fields_tree, ty_alt, names_of, is_well_formed};
ghost use Rattle.doc_values.specs.Initial.{initial};
ghost use Rattle.doc_values.specs.Typing.{has, has_fields, has_each};
ghost use Rattle.edit_module.specs.declared.atom.Atom.TheVariants.{Letters};
ghost use Rattle.edit_module.specs.Words.{WordTree, word_of, joined, no_primitives, at, stay, switch, modify};
ghost use Rattle.edit_module.specs.Action.{act};
ghost use Rattle.edit_module.specs.Views.{primitive_tree, word_tree};
ghost use Rattle.edit_inverse.specs.Construct.{construct, construct_fields, construct_each, only, set_unless};
ghost use Rattle.edit_inverse.specs.Construct.{unless_empty, reshape, at_each, to_tag, modify_each, put_each};
ghost use Rattle.edit_inverse.specs.Construct.{graft_each, grow, insertions};
ghost use Rattle.edit_inverse.specs.Paths.{parent_path, next_path, paths};

use crate::words::{inserted, next_path, push_at, push_key, push_modify, push_node, switch_word};
use doc_values::{Doc, Docs, Fields, Ty};
use edit_module::Atom;
use edit_module::word::{Primitive, Word};
use hold_shapes::{DepthSeq, Name, Path, Place, Shape, SharedList, Str, Twin};
use std::alloc::{AllocError, Global};

/// A word that makes the document from the initial value of its type. Fails only if memory runs out.
///
/// The document has the type. An inner word that is empty is left out, with its primitive. The definition has a line
/// for each type; docs/EDITS.md has it in words. Where the type is well formed, the action of the word on the type's
/// initial value gives the document.
pub fn construct(alloc: Global, ty: &Ty, doc: &Doc) -> Result<Word, AllocError>
    requires { has (ty_tree ty.now) (doc_tree doc.now) ≡ true }
    ensures exact { IfOk result (λ w. word_tree w ≡ construct (ty_tree ty.now) (doc_tree doc.now)) }
    ensures makes { is_well_formed (ty_tree ty.now) ≡ true → IfOk result (λ w.
        act (ty_tree ty.now) (word_tree w) (initial (ty_tree ty.now)) ≡ Ok (doc_tree doc.now)) }
{
    build(alloc, ty, doc)
}

// ---- values

// The word of one primitive that sets a value, unless it is the initial one.
fn set(alloc: Global, is_initial: bool, value: Atom) -> Result<Word, AllocError>
    ensures { IfOk result (λ w. word_tree w ≡ set_unless is_initial value) }
{
    let mut primitives = Vec::new(alloc);
    if !is_initial {
        primitives.push(Primitive::Set(value))?;
    }
    Ok(Word::from_vec(primitives))
}

// The word that sets a text.
fn set_text(alloc: Global, text: &Str, initial: &Str) -> Result<Word, AllocError>
    ensures { IfOk result (λ w. word_tree w ≡ set_unless (bytes_eq text.now initial.now) (Letters text.now)) }
{
    let is_initial = text.is_same(initial);
    set(alloc, is_initial, Atom::Letters(text.twin(alloc)?))
}

// The word that sets a member of an enum.
fn set_member(alloc: Global, member: &Name, initial: &Name) -> Result<Word, AllocError>
    ensures { IfOk result (λ w. word_tree w ≡ set_unless (bytes_eq member.now initial.now) (Letters member.now)) }
{
    let is_initial = member.is_same(initial);
    let text = String::from_str(alloc, member.as_str())?;
    set(alloc, is_initial, Atom::Letters(Str::from_string(text)))
}

// ---- alternatives

// The word that goes to a tag.
fn at_tag(alloc: Global, tags: &Fields, tag: &Name, word: Word) -> Result<Word, AllocError>
    ensures { IfOk result (λ w. word_tree w ≡ to_tag (fields_tree tags.now) tag.now (word_tree word)) }
{
    let fields = tags.as_slice();
    if fields.is_empty() {
        return Ok(Word::from_vec(Vec::new(alloc)));
    }
    let first = &fields[0].0;
    if first.is_same(tag) {
        stay_at(alloc, first, word)
    } else {
        switch_word(alloc, first, tag, word)
    }
}

// Stay at a tag, unless the word is empty.
fn stay_at(alloc: Global, tag: &Name, word: Word) -> Result<Word, AllocError>
    ensures { IfOk result (λ w. word_tree w ≡ unless_empty (stay tag.now) (word_tree word) no_primitives) }
{
    let mut out = Vec::new(alloc);
    if word.len() != 0 {
        let tag = tag.twin(alloc)?;
        out.push(Primitive::Stay(tag, word))?;
    }
    Ok(Word::from_vec(out))
}

// ---- one pass over a document

#[cycle(build)]
fn build(alloc: Global, ty: &Ty, doc: &Doc) -> Result<Word, AllocError>
    requires { has (ty_tree ty.now) (doc_tree doc.now) ≡ true }
    ensures { IfOk result (λ w. word_tree w ≡ construct (ty_tree ty.now) (doc_tree doc.now)) }
{
    match (ty, doc) {
        (Ty::Unit, Doc::Unit) => Ok(Word::from_vec(Vec::new(alloc))),
        (Ty::Bool, Doc::Bool(truth)) => set(alloc, !*truth, Atom::Truth(*truth)),
        (Ty::Int(initial), Doc::Int(number)) => {
            set(alloc, *number == *initial, Atom::Number(*number))
        }
        (Ty::Text(initial), Doc::Text(text)) => set_text(alloc, text, initial),
        (Ty::Enum(_, initial), Doc::Pick(name)) => set_member(alloc, name, initial),
        (Ty::Rec(fields), Doc::Rec(docs)) => of_record(alloc, fields, docs),
        (Ty::List(inner), Doc::Hold(Shape::List(_), docs)) => of_list(alloc, inner, docs),
        (Ty::Alt(tags), Doc::Alt(tag, content)) => of_tag(alloc, tags, tag, content),
        (Ty::Keyed(inner), Doc::Hold(Shape::Keyed(keys), docs)) => {
            of_keyed(alloc, inner, keys.names(), docs)
        }
        (Ty::Tree(inner), Doc::Hold(Shape::Tree(nodes), docs)) => {
            of_tree(alloc, inner, nodes.depths(), docs)
        }
        _ => unreachable!(),
    }
}

// At for each field of a record.
#[cycle(build)]
fn of_record(alloc: Global, fields: &Fields, docs: &Docs) -> Result<Word, AllocError>
    requires { has_fields (fields_tree fields.now) (docs_tree docs.now) ≡ true }
    ensures { IfOk result
        (λ w. word_tree w ≡ at_each (names_of (fields_tree fields.now))
        (construct_fields (fields_tree fields.now) (docs_tree docs.now))) }
{
    let mut out = Vec::new(alloc);
    for (i, field) in fields.as_slice().iter().enumerate() {
        let word = build(alloc, &field.1, docs.get(i))?;
        push_at(alloc, &mut out, &field.0, word)?;
    }
    Ok(Word::from_vec(out))
}

// The items of a list, and then Mod at each.
#[cycle(build)]
fn of_list(alloc: Global, inner: &Ty, docs: &Docs) -> Result<Word, AllocError>
    requires { has_each (ty_tree inner.now) (docs_tree docs.now) ≡ true }
    ensures { IfOk result (λ w. word_tree w
        ≡ insertions (length (doc_list (docs_tree docs.now)))
        (modify_each 0 (construct_each (ty_tree inner.now) (docs_tree docs.now)))) }
{
    let out = inserted(alloc, docs.len() as u64)?;
    with_items(alloc, inner, docs, 0, out)
}

// Mod at each place of a list from one on, after what there is.
#[cycle(build)]
pub(crate) fn with_items(
    alloc: Global,
    inner: &Ty,
    docs: &Docs,
    from: usize,
    before: Vec<Primitive>,
) -> Result<Word, AllocError>
    requires typed { has_each (ty_tree inner.now) (docs_tree docs.now) ≡ true }
    requires within { from ≤ length (doc_list (docs_tree docs.now)) }
    ensures { IfOk result (λ w. word_tree w
        ≡ joined (word_of (map primitive_tree before.items))
        (modify_each from (drop from (construct_each (ty_tree inner.now) (docs_tree docs.now))))) }
{
    let mut out = before;
    for i in from..docs.len() {
        let word = build(alloc, inner, docs.get(i))?;
        push_modify(&mut out, Place::Index(i as u64), word)?;
    }
    Ok(Word::from_vec(out))
}

// Stay at the first tag, or Switch from it.
#[cycle(build)]
fn of_tag(alloc: Global, tags: &Fields, tag: &Name, content: &Doc) -> Result<Word, AllocError>
    requires { has (ty_alt (fields_tree tags.now)) (alt tag.now (doc_tree content.now)) ≡ true }
    ensures { IfOk result
        (λ w. word_tree w ≡ construct (ty_alt (fields_tree tags.now)) (alt tag.now (doc_tree content.now))) }
{
    let name = tag.as_str();
    let Some((_, ty)) = tags.find(name) else {
        unreachable!()
    };
    let word = build(alloc, ty, content)?;
    at_tag(alloc, tags, tag, word)
}

// PutKey for each key, and Mod of it.
#[cycle(build)]
fn of_keyed(
    alloc: Global,
    inner: &Ty,
    keys: &SharedList<Name>,
    docs: &Docs,
) -> Result<Word, AllocError>
    requires many { length keys.now ≡ length (doc_list (docs_tree docs.now)) }
    requires typed { has_each (ty_tree inner.now) (docs_tree docs.now) ≡ true }
    ensures { IfOk result
        (λ w. word_tree w ≡ put_each keys.now (construct_each (ty_tree inner.now) (docs_tree docs.now))) }
{
    let mut out = Vec::new(alloc);
    for i in 0..docs.len() {
        let word = build(alloc, inner, docs.get(i))?;
        push_key(alloc, &mut out, keys.get(i), word)?;
    }
    Ok(Word::from_vec(out))
}

// Mod of the root, and then Graft and Mod for each further node.
#[cycle(build)]
fn of_tree(alloc: Global, inner: &Ty, depths: &DepthSeq, docs: &Docs) -> Result<Word, AllocError>
    requires valid { is_valid depths.now ≡ true }
    requires many { length depths.now ≡ length (doc_list (docs_tree docs.now)) }
    requires typed { has_each (ty_tree inner.now) (docs_tree docs.now) ≡ true }
    ensures { IfOk result
        (λ w. word_tree w ≡ grow (paths depths.now) (construct_each (ty_tree inner.now) (docs_tree docs.now))) }
{
    let mut out = Vec::new(alloc);
    let root = build(alloc, inner, docs.get(0))?;
    push_modify(&mut out, Place::Node(Path::from_vec(Vec::new(alloc))), root)?;
    let mut path = Vec::new(alloc);
    for i in 1..docs.len() {
        let word = build(alloc, inner, docs.get(i))?;
        path = next_path(path, *depths.get(i), i as u64)?;
        push_node(alloc, &mut out, path.as_slice(), word)?;
    }
    Ok(Word::from_vec(out))
}
