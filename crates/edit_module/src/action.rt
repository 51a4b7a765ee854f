//! The action of a word on a document.
//!
//! A word is applied to a copy of the document, which shares its contents. Each primitive takes a copy of the content
//! that it acts on and sets the new value in its place, so an edit copies the path to what it changes and no more.
//! docs/EDITS.md has the primitives with their causes.

ghost use Rattle.std.specs.Prelude.{◌≡◌, ◌<◌, IfOk, MatchOption, MatchResult, option_map, length, true};
ghost use Rattle.hold_shapes.specs.Shapes.{place_of};
ghost use Rattle.doc_values.specs.Documents.{doc_tree, docs_tree, doc_list, alt};
ghost use Rattle.doc_values.specs.Types.{ty_tree, fields_tree, is_well_formed, are_well_formed, ty_rec, ty_alt};
ghost use Rattle.doc_values.specs.Typing.{has, has_fields, lookup_field, lookup_type};
ghost use Rattle.doc_values.specs.Initial.{initial};
ghost use Rattle.edit_module.specs.Views.{primitive_tree, word_tree};
ghost use Rattle.edit_module.specs.Action.{act, act_primitive, inner, act_at_place, put_result_at, doc_at};
ghost use Rattle.edit_module.specs.Containers.{IsHeld, container_ty};
ghost use Rattle.edit_module.specs.Words.{WordTree, stay, switch};
ghost use Rattle.edit_module.specs.Normal.{normal};
ghost use Rattle.edit_module.specs.Refusals.{IsRefusal, IsPrimitiveRefusal};

use crate::container::Container;
use crate::fault::{ActFault, Cause, PrimitiveFault};
use crate::leaves::{on_bool, on_enum, on_int, on_text};
use crate::reshape::reshape;
use crate::word::{Primitive, Word};
use doc_values::{Doc, Docs, Fields, Ty, init};
use hold_shapes::{Held, Name, Place, Shape, Twin};
use std::alloc::Global;
use std::mem;

/// What a word makes of a document: its value after the primitives of the word one after another, which has the type.
/// The empty word returns the document itself.
///
/// The type is well formed and the document has it. [`ActFault::NoApply`] comes if and only if a primitive fails; it
/// has the number, from 0, of the first one that does, and its cause. Where a word inside a primitive fails, the
/// primitive fails with the cause inside. docs/EDITS.md has each primitive with its causes. The document stays as it
/// is in any case. Words with the same normal form have the same value here, or fail with the same cause.
#[tactic(auto, using(crate::proofs::ActionKeepsTypes::act_rules, crate::proofs::NormalActs::equal_rules))]
pub fn act(alloc: Global, ty: &Ty, word: &Word, doc: &Doc) -> Result<Doc, ActFault>
    requires well_formed { is_well_formed (ty_tree ty.now) ≡ true }
    requires typed { has (ty_tree ty.now) (doc_tree doc.now) ≡ true }
    ensures exact { MatchResult result
        (λ d. act (ty_tree ty.now) (word_tree word.now) (doc_tree doc.now) ≡ Ok (doc_tree d))
        (λ fault. IsRefusal (act (ty_tree ty.now) (word_tree word.now) (doc_tree doc.now)) fault) }
    ensures typed { IfOk result (λ d. has (ty_tree ty.now) (doc_tree d) ≡ true) }

    // Words that differ only by where their primitives are joined have the same outcome; only the
    // number of the primitive that fails may differ, which `inner` leaves out.
    ensures equal_words { (other : WordTree) → normal (word_tree word.now) ≡ normal other
        → inner (act (ty_tree ty.now) (word_tree word.now) (doc_tree doc.now))
        ≡ inner (act (ty_tree ty.now) other (doc_tree doc.now)) }
{
    match doc.twin(alloc) {
        Ok(copy) => run(alloc, word, ty, copy),
        Err(_) => Err(ActFault::NoMemory),
    }
}

// The value of a document after the primitives of a word one after another.
#[cycle(run)]
#[tactic(auto, using(crate::proofs::WordSteps::steps))]
fn run(alloc: Global, word: &Word, ty: &Ty, doc: Doc) -> Result<Doc, ActFault>
    requires well_formed { is_well_formed (ty_tree ty.now) ≡ true }
    requires typed { has (ty_tree ty.now) (doc_tree doc) ≡ true }
    ensures { MatchResult result
        (λ d. act (ty_tree ty.now) (word_tree word.now) (doc_tree doc) ≡ Ok (doc_tree d))
        (λ fault. IsRefusal (act (ty_tree ty.now) (word_tree word.now) (doc_tree doc)) fault) }
{
    let mut current = doc;
    for i in 0..word.primitives.len() {
        match step(alloc, &word.primitives[i], ty, current) {
            Ok(next) => current = next,
            Err(PrimitiveFault::Fails(cause)) => {
                return Err(ActFault::NoApply {
                    at: i as u64,
                    cause,
                });
            }
            Err(PrimitiveFault::OutOfMemory) => return Err(ActFault::NoMemory),
        }
    }
    Ok(current)
}

/// What one primitive makes of a document, as [`act`] has it for a word. The document is consumed.
///
/// The type is well formed and the document has it. [`PrimitiveFault::Fails`] comes if and only if the primitive fails,
/// and has its cause.
#[cycle(run)]
pub fn step(alloc: Global, primitive: &Primitive, ty: &Ty, doc: Doc) -> Result<Doc, PrimitiveFault>
    requires well_formed { is_well_formed (ty_tree ty.now) ≡ true }
    requires typed { has (ty_tree ty.now) (doc_tree doc) ≡ true }
    ensures { MatchResult result
        (λ d. act_primitive (ty_tree ty.now) (primitive_tree primitive.now) (doc_tree doc) ≡ Ok (doc_tree d))
        (λ fault. IsPrimitiveRefusal (act_primitive (ty_tree ty.now) (primitive_tree primitive.now) (doc_tree doc))
        fault) }
{
    match ty {
        Ty::Unit => Err(PrimitiveFault::Fails(Cause::Kind)),
        Ty::Bool => on_bool(primitive, doc),
        Ty::Int(_) => on_int(primitive, doc),
        Ty::Text(_) => on_text(alloc, primitive, doc),
        Ty::Enum(members, _) => on_enum(alloc, primitive, members, doc),
        Ty::Rec(fields) => on_record(alloc, primitive, fields, doc),
        Ty::Alt(tags) => on_alternatives(alloc, primitive, tags, doc),
        Ty::List(inner) => on_container(alloc, primitive, Container::List, inner, doc),
        Ty::Keyed(inner) => on_container(alloc, primitive, Container::Keyed, inner, doc),
        Ty::Tree(inner) => on_container(alloc, primitive, Container::Tree, inner, doc),
    }
}

// Acts on a field of a record.
#[cycle(run)]
fn on_record(
    alloc: Global,
    primitive: &Primitive,
    fields: &Fields,
    doc: Doc,
) -> Result<Doc, PrimitiveFault>
    requires well_formed { is_well_formed (ty_rec (fields_tree fields.now)) ≡ true }
    requires typed { has (ty_rec (fields_tree fields.now)) (doc_tree doc) ≡ true }
    ensures { MatchResult result
        (λ d. act_primitive (ty_rec (fields_tree fields.now)) (primitive_tree primitive.now) (doc_tree doc)
        ≡ Ok (doc_tree d))
        (λ fault. IsPrimitiveRefusal (act_primitive (ty_rec (fields_tree fields.now)) (primitive_tree primitive.now)
        (doc_tree doc)) fault) }
{
    let Primitive::At(name, word) = primitive else {
        return Err(PrimitiveFault::Fails(Cause::Kind));
    };
    let Doc::Rec(docs) = doc else {
        return Err(PrimitiveFault::Fails(Cause::Kind));
    };
    match field_of(fields, name, &docs) {
        Some((place, ty)) => match at_place(alloc, word, ty, docs, place) {
            Ok(docs) => Ok(Doc::Rec(docs)),
            Err(fault) => Err(fault),
        },
        None => Err(PrimitiveFault::Fails(Cause::Place)),
    }
}

/// The place and the type of a field of a record that has the type. Returns None if and only if there is no such field.
pub fn field_of<'a>(fields: &'a Fields, name: &Name, docs: &Docs) -> Option<(usize, &'a Ty)>
    requires well_formed { is_well_formed (ty_rec (fields_tree fields.now)) ≡ true }
    requires typed { has_fields (fields_tree fields.now) (docs_tree docs.now) ≡ true }
    ensures place { option_map (λ p. (p.0, ty_tree p.1.now)) result ≡ lookup_field (fields_tree fields.now) name.now }
    ensures typed { MatchOption result (Unit {0}) (λ p. (p.0 < length (doc_list (docs_tree docs.now)))
        × (has (ty_tree p.1.now) (doc_at (docs_tree docs.now) p.0) ≡ true)
        × (is_well_formed (ty_tree p.1.now) ≡ true)) }
{
    fields.find(name.as_str())
}

// Acts on alternatives.
#[cycle(run)]
fn on_alternatives(
    alloc: Global,
    primitive: &Primitive,
    tags: &Fields,
    doc: Doc,
) -> Result<Doc, PrimitiveFault>
    requires well_formed { is_well_formed (ty_alt (fields_tree tags.now)) ≡ true }
    requires typed { has (ty_alt (fields_tree tags.now)) (doc_tree doc) ≡ true }
    ensures { MatchResult result
        (λ d. act_primitive (ty_alt (fields_tree tags.now)) (primitive_tree primitive.now) (doc_tree doc)
        ≡ Ok (doc_tree d))
        (λ fault. IsPrimitiveRefusal (act_primitive (ty_alt (fields_tree tags.now)) (primitive_tree primitive.now)
        (doc_tree doc)) fault) }
{
    match primitive {
        Primitive::Stay(tag, word) => stay(alloc, tag, word, tags, doc),
        Primitive::Switch(from, to, word) => switch(alloc, from, to, word, tags, doc),
        _ => Err(PrimitiveFault::Fails(Cause::Kind)),
    }
}

// Acts on the content of the tag that is there.
#[cycle(run)]
#[tactic(auto, using(crate::proofs::ActionKeepsTypes::alternatives_rules))]
fn stay(
    alloc: Global,
    tag: &Name,
    word: &Word,
    tags: &Fields,
    doc: Doc,
) -> Result<Doc, PrimitiveFault>
    requires well_formed { is_well_formed (ty_alt (fields_tree tags.now)) ≡ true }
    requires typed { has (ty_alt (fields_tree tags.now)) (doc_tree doc) ≡ true }
    ensures { MatchResult result
        (λ d. act_primitive (ty_alt (fields_tree tags.now)) (stay tag.now (word_tree word.now)) (doc_tree doc)
        ≡ Ok (doc_tree d))
        (λ fault. IsPrimitiveRefusal (act_primitive (ty_alt (fields_tree tags.now)) (stay tag.now (word_tree word.now))
        (doc_tree doc)) fault) }
{
    let Doc::Alt(held, content) = doc else {
        return Err(PrimitiveFault::Fails(Cause::Kind));
    };
    if !tag.is_same(&held) {
        return Err(PrimitiveFault::Fails(Cause::Tag));
    }
    let Some((_, ty)) = tag_of(tags, &held) else {
        return Err(PrimitiveFault::Fails(Cause::Tag));
    };
    let mut content = content;
    let old = take_out(&mut content);
    match inside(alloc, word, ty, old) {
        Ok(next) => Ok(with_content(held, content, next)),
        Err(fault) => Err(fault),
    }
}

// Goes to another tag, and acts on its initial content.
#[cycle(run)]
#[tactic(auto, using(crate::proofs::ActionKeepsTypes::alternatives_rules))]
fn switch(
    alloc: Global,
    from: &Name,
    to: &Name,
    word: &Word,
    tags: &Fields,
    doc: Doc,
) -> Result<Doc, PrimitiveFault>
    requires well_formed { is_well_formed (ty_alt (fields_tree tags.now)) ≡ true }
    ensures { MatchResult result
        (λ d. act_primitive (ty_alt (fields_tree tags.now)) (switch from.now to.now (word_tree word.now)) (doc_tree doc)
        ≡ Ok (doc_tree d))
        (λ fault. IsPrimitiveRefusal
        (act_primitive (ty_alt (fields_tree tags.now)) (switch from.now to.now (word_tree word.now)) (doc_tree doc))
        fault) }
{
    let Doc::Alt(held, content) = doc else {
        return Err(PrimitiveFault::Fails(Cause::Kind));
    };
    if !from.is_same(&held) {
        return Err(PrimitiveFault::Fails(Cause::Tag));
    }
    let Some((_, ty)) = tag_of(tags, to) else {
        return Err(PrimitiveFault::Fails(Cause::Tag));
    };
    let tag = to.twin(alloc)?;
    let fresh = init(alloc, ty)?;
    match inside(alloc, word, ty, fresh) {
        Ok(next) => Ok(with_content(tag, content, next)),
        Err(fault) => Err(fault),
    }
}

/// The number and the type of a tag of alternatives. Returns None if and only if there is no such tag.
pub fn tag_of<'a>(tags: &'a Fields, tag: &Name) -> Option<(usize, &'a Ty)>
    requires { is_well_formed (ty_alt (fields_tree tags.now)) ≡ true }
    ensures tag { option_map (λ p. ty_tree p.1.now) result ≡ lookup_type (fields_tree tags.now) tag.now }
    ensures well_formed { MatchOption result (Unit {0}) (λ p. is_well_formed (ty_tree p.1.now) ≡ true) }
{
    tags.find(tag.as_str())
}

// Takes the content out of a box, and leaves null there.
fn take_out(content: &mut Box<Doc>) -> Doc
    ensures { doc_tree result ≡ doc_tree content.old.value }
{
    mem::replace(&mut **content, Doc::Unit)
}

// Alternatives with a content in a box that is there.
fn with_content(tag: Name, content: Box<Doc>, next: Doc) -> Doc
    ensures { doc_tree result ≡ alt tag (doc_tree next) }
{
    let mut content = content;
    *content = next;
    Doc::Alt(tag, content)
}

// Acts on a container.
#[cycle(run)]
#[tactic(auto, using(crate::proofs::ContainerRows::container_rules))]
fn on_container(
    alloc: Global,
    primitive: &Primitive,
    kind: Container,
    ty: &Ty,
    doc: Doc,
) -> Result<Doc, PrimitiveFault>
    requires well_formed { is_well_formed (ty_tree ty.now) ≡ true }
    requires typed { has (container_ty kind (ty_tree ty.now)) (doc_tree doc) ≡ true }
    ensures { MatchResult result
        (λ d. act_primitive (container_ty kind (ty_tree ty.now)) (primitive_tree primitive.now) (doc_tree doc)
        ≡ Ok (doc_tree d))
        (λ fault. IsPrimitiveRefusal (act_primitive (container_ty kind (ty_tree ty.now)) (primitive_tree primitive.now)
        (doc_tree doc)) fault) }
{
    let Doc::Hold(shape, docs) = doc else {
        unreachable!()
    };
    match primitive {
        Primitive::Mod(place, word) => {
            if !kind.has_places_like(place) {
                return Err(PrimitiveFault::Fails(Cause::Kind));
            }
            modify(alloc, place, word, ty, shape, docs)
        }
        Primitive::Shape(edit) => reshape(alloc, edit, ty, shape, docs),
        _ => Err(PrimitiveFault::Fails(Cause::Kind)),
    }
}

// Acts on the content at a place of a container.
#[cycle(run)]
fn modify(
    alloc: Global,
    place: &Place,
    word: &Word,
    ty: &Ty,
    shape: Shape,
    docs: Docs,
) -> Result<Doc, PrimitiveFault>
    requires well_formed { is_well_formed (ty_tree ty.now) ≡ true }
    requires held { IsHeld (ty_tree ty.now) shape (docs_tree docs) }
    ensures { MatchResult result
        (λ d. act_at_place (λ v. act (ty_tree ty.now) (word_tree word.now) v) shape (docs_tree docs) place.now
        ≡ Ok (doc_tree d))
        (λ fault. IsPrimitiveRefusal
        (act_at_place (λ v. act (ty_tree ty.now) (word_tree word.now) v) shape (docs_tree docs) place.now) fault) }
{
    match item_of(place, ty, &shape, &docs) {
        Some(at) => match at_place(alloc, word, ty, docs, at) {
            Ok(docs) => Ok(Doc::Hold(shape, docs)),
            Err(fault) => Err(fault),
        },
        None => Err(PrimitiveFault::Fails(Cause::Place)),
    }
}

/// The number of a place of a container, whose contents have a type. Returns None if and only if the container does not
/// have the place.
pub fn item_of(place: &Place, ty: &Ty, shape: &Shape, docs: &Docs) -> Option<usize>
    requires { IsHeld (ty_tree ty.now) shape.now (docs_tree docs.now) }
    ensures place { result ≡ place_of shape.now place.now }
    ensures typed { MatchOption result (Unit {0}) (λ i. (i < length (doc_list (docs_tree docs.now)))
        × (has (ty_tree ty.now) (doc_at (docs_tree docs.now) i) ≡ true)) }
{
    match shape.place(place) {
        Some(at) => Some(at as usize),
        None => None,
    }
}

// The documents with the one at a place acted on.
#[cycle(run)]
fn at_place(
    alloc: Global,
    word: &Word,
    ty: &Ty,
    docs: Docs,
    place: usize,
) -> Result<Docs, PrimitiveFault>
    requires within { place < length (doc_list (docs_tree docs)) }
    requires well_formed { is_well_formed (ty_tree ty.now) ≡ true }
    requires typed { has (ty_tree ty.now) (doc_at (docs_tree docs) place) ≡ true }
    ensures { MatchResult result
        (λ ds. put_result_at (docs_tree docs) place
        (act (ty_tree ty.now) (word_tree word.now) (doc_at (docs_tree docs) place)) ≡ Ok (docs_tree ds))
        (λ fault. IsPrimitiveRefusal
        (put_result_at (docs_tree docs) place
        (act (ty_tree ty.now) (word_tree word.now) (doc_at (docs_tree docs) place))) fault) }
{
    let mut docs = docs;
    let old = docs.get(place).twin(alloc)?;
    match inside(alloc, word, ty, old) {
        Ok(next) => {
            docs.set(alloc, place, next)?;
            Ok(docs)
        }
        Err(fault) => Err(fault),
    }
}

// The value of a document after an inner word, whose failure has its cause alone.
#[cycle(run)]
fn inside(alloc: Global, word: &Word, ty: &Ty, doc: Doc) -> Result<Doc, PrimitiveFault>
    requires well_formed { is_well_formed (ty_tree ty.now) ≡ true }
    requires typed { has (ty_tree ty.now) (doc_tree doc) ≡ true }
    ensures { MatchResult result
        (λ d. inner (act (ty_tree ty.now) (word_tree word.now) (doc_tree doc)) ≡ Ok (doc_tree d))
        (λ fault. IsPrimitiveRefusal (inner (act (ty_tree ty.now) (word_tree word.now) (doc_tree doc))) fault) }
{
    match run(alloc, word, ty, doc) {
        Ok(next) => Ok(next),
        Err(ActFault::NoApply { cause, .. }) => Err(PrimitiveFault::Fails(cause)),
        Err(ActFault::NoMemory) => Err(PrimitiveFault::OutOfMemory),
    }
}
