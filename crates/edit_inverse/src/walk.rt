//! The inverse of a word.
//!
//! A word is walked as its action does: each primitive is applied to a copy, which shares its contents, and gives the
//! value that the next one meets. The inverses of the primitives are kept, and joined from the last to the first. So an
//! inverse takes what the action takes, and what it takes to write down what the word took away.

ghost use Rattle.std.specs.Prelude.{◌≡◌, ◌+◌, ◌<◌, List, [], ◌∷◌, ◌++◌, Ok, IfOk, OnOk, MatchResult, option_map, map};
ghost use Rattle.std.specs.Prelude.{length, true};
ghost use Rattle.hold_shapes.specs.Shapes.{place_of};
ghost use Rattle.doc_values.specs.Documents.{doc_tree, docs_tree, doc_list, rec, alt, hold};
ghost use Rattle.doc_values.specs.Types.{ty_tree, fields_tree, is_well_formed, ty_rec, ty_alt};
ghost use Rattle.doc_values.specs.Typing.{has};
ghost use Rattle.edit_module.specs.Views.{primitive_tree, word_tree};
ghost use Rattle.edit_module.specs.Words.{WordTree, word_of, joined, set, splice, at, stay, switch, modify, shape};
ghost use Rattle.edit_module.specs.Action.{act, act_primitive, act_at_place, inner, doc_at, put_at};
ghost use Rattle.edit_module.specs.Containers.{IsHeld};
ghost use Rattle.edit_module.specs.Refusals.{IsRefusal, IsPrimitiveRefusal};
ghost use Rattle.edit_inverse.specs.Construct.{only};
ghost use Rattle.edit_inverse.specs.Inverse.{for_found, atom_of_value, inverse, inverse_primitive};
ghost use Rattle.edit_inverse.specs.Laws.{TakesBack};
ghost use Rattle.edit_inverse.specs.Steps.{contents_at, backwards};
ghost use Rattle.edit_inverse.specs.Texts.{IfFound, MeetsTexts, PrimitiveMeets};

use crate::old_shapes::reshape_back;
use crate::old_values::{set_back, splice_back, switch_back};
use crate::words::{at_word, mod_word, stay_word};
use doc_values::{Doc, Docs, Fields, Ty};
use edit_module::action::{self, field_of, item_of, tag_of};
use edit_module::word::{Primitive, Word};
use edit_module::{ActFault, Cause, PrimitiveFault};
use hold_shapes::{Name, Place, Shape, ShapeEdit, Str, Twin};
use std::alloc::{AllocError, Global};

// What a word, or a primitive, makes of a document, and the word that takes it back.
#[derive(Drop)]
struct Made {
    value: Doc,
    back: Word,
}

/// The word that takes back what a word makes of a document: the inverses of its primitives, each at the value that it
/// met, from the last to the first.
///
/// The type is well formed and the document has it. [`ActFault::NoApply`] comes if and only if the word does not act on
/// the document, with the number and the cause that [`act`](edit_module::act) has. Where the word acts, the action of
/// the inverse on its value gives the document. The definition has a line for each primitive; docs/EDITS.md has it in
/// words.
pub fn inverse(alloc: Global, ty: &Ty, word: &Word, doc: &Doc) -> Result<Word, ActFault>
    requires well_formed { is_well_formed (ty_tree ty.now) ≡ true }
    requires typed { has (ty_tree ty.now) (doc_tree doc.now) ≡ true }
    ensures exact { MatchResult result
        (λ w. word_tree w ≡ inverse (ty_tree ty.now) (word_tree word.now) (doc_tree doc.now))
        (λ fault. IsRefusal (act (ty_tree ty.now) (word_tree word.now) (doc_tree doc.now)) fault) }
    ensures takes_back { IfOk result (λ w. TakesBack (ty_tree ty.now) (word_tree w)
        (act (ty_tree ty.now) (word_tree word.now) (doc_tree doc.now)) (doc_tree doc.now)) }
{
    match walk(alloc, ty, word, doc) {
        Ok(made) => Ok(made.back),
        Err(fault) => Err(fault),
    }
}

// ---- words

// The value of a document after the primitives of a word, and their inverses.
#[cycle(walk)]
#[tactic(auto, using(crate::proofs::Walks::walk_rules))]
fn walk(alloc: Global, ty: &Ty, word: &Word, doc: &Doc) -> Result<Made, ActFault>
    requires well_formed { is_well_formed (ty_tree ty.now) ≡ true }
    requires typed { has (ty_tree ty.now) (doc_tree doc.now) ≡ true }
    ensures value { MatchResult result
        (λ m. act (ty_tree ty.now) (word_tree word.now) (doc_tree doc.now) ≡ Ok (doc_tree m.value))
        (λ fault. IsRefusal (act (ty_tree ty.now) (word_tree word.now) (doc_tree doc.now)) fault) }
    ensures back { IfOk result (λ m.
        word_tree m.back ≡ inverse (ty_tree ty.now) (word_tree word.now) (doc_tree doc.now)) }
    ensures meets { IfOk result (λ m.
        MeetsTexts (ty_tree ty.now) (word_tree word.now) (doc_tree doc.now)) }
{
    let primitives = word.as_slice();
    let mut current = doc.twin(alloc)?;
    let mut parts = Vec::new(alloc);
    for i in 0..primitives.len() {
        match step(alloc, ty, &primitives[i], &current) {
            Ok(made) => {
                current = made.value;
                kept(&mut parts, made.back)?;
            }
            Err(PrimitiveFault::Fails(cause)) => {
                return Err(ActFault::NoApply {
                    at: i as u64,
                    cause,
                });
            }
            Err(PrimitiveFault::OutOfMemory) => return Err(ActFault::NoMemory),
        }
    }
    let back = last_first(alloc, parts)?;
    Ok(Made {
        value: current,
        back,
    })
}

// Appends a word.
fn kept(parts: &mut Vec<Word>, word: Word) -> Result<(), AllocError>
    ensures { OnOk result (parts.new.items ≡ parts.old.items ++ word ∷ []) }
{
    parts.push(word)?;
    Ok(())
}

// The words from the last to the first, as one.
fn last_first(alloc: Global, parts: Vec<Word>) -> Result<Word, AllocError>
    ensures { IfOk result (λ w. word_tree w ≡ backwards (map word_tree parts.items)) }
{
    let mut parts = parts;
    let mut out = Vec::new(alloc);
    'words: while let Some(part) = parts.pop() {
        append(&mut out, part)?;
    }
    Ok(Word::from_vec(out))
}

// Appends the primitives of a word.
fn append(out: &mut Vec<Primitive>, word: Word) -> Result<(), AllocError>
    ensures { OnOk result ((rest : WordTree) → joined (word_of (map primitive_tree out.new.items)) rest
        ≡ joined (word_of (map primitive_tree out.old.items)) (joined (word_tree word) rest)) }
{
    let mut primitives = word.into_vec();
    out.append(&mut primitives)?;
    Ok(())
}

// The value of a document after an inner word, whose failure has its cause alone, and the inverse of that word.
#[cycle(walk)]
fn inside(alloc: Global, ty: &Ty, word: &Word, doc: &Doc) -> Result<Made, PrimitiveFault>
    requires well_formed { is_well_formed (ty_tree ty.now) ≡ true }
    requires typed { has (ty_tree ty.now) (doc_tree doc.now) ≡ true }
    ensures value { MatchResult result
        (λ m. inner (act (ty_tree ty.now) (word_tree word.now) (doc_tree doc.now)) ≡ Ok (doc_tree m.value))
        (λ fault. IsPrimitiveRefusal (inner (act (ty_tree ty.now) (word_tree word.now) (doc_tree doc.now))) fault) }
    ensures back { IfOk result (λ m.
        word_tree m.back ≡ inverse (ty_tree ty.now) (word_tree word.now) (doc_tree doc.now)) }
    ensures meets { IfOk result (λ m.
        MeetsTexts (ty_tree ty.now) (word_tree word.now) (doc_tree doc.now)) }
{
    match walk(alloc, ty, word, doc) {
        Ok(made) => Ok(made),
        Err(ActFault::NoApply { cause, .. }) => Err(PrimitiveFault::Fails(cause)),
        Err(ActFault::NoMemory) => Err(PrimitiveFault::OutOfMemory),
    }
}

// ---- primitives

// The value of a document after a primitive, and its inverse.
#[cycle(walk)]
#[tactic(auto, using(crate::proofs::Building::primitive_rules))]
fn step(alloc: Global, ty: &Ty, primitive: &Primitive, doc: &Doc) -> Result<Made, PrimitiveFault>
    requires well_formed { is_well_formed (ty_tree ty.now) ≡ true }
    requires typed { has (ty_tree ty.now) (doc_tree doc.now) ≡ true }
    ensures value { MatchResult result
        (λ m. act_primitive (ty_tree ty.now) (primitive_tree primitive.now) (doc_tree doc.now) ≡ Ok (doc_tree m.value))
        (λ fault. IsPrimitiveRefusal (act_primitive (ty_tree ty.now) (primitive_tree primitive.now) (doc_tree doc.now))
        fault) }
    ensures back { IfOk result (λ m. word_tree m.back
        ≡ inverse_primitive (ty_tree ty.now) (primitive_tree primitive.now) (doc_tree doc.now)) }
    ensures meets { IfOk result (λ m.
        PrimitiveMeets (ty_tree ty.now) (primitive_tree primitive.now) (doc_tree doc.now)) }
{
    match primitive {
        Primitive::Set(_) => reset(alloc, ty, primitive, doc),
        Primitive::Add(_) => reset(alloc, ty, primitive, doc),
        Primitive::Splice(from, count, with) => {
            spliced(alloc, ty, primitive, *from, *count, with, doc)
        }
        Primitive::Switch(from, to, word) => switched(alloc, ty, primitive, from, to, word, doc),
        Primitive::Shape(edit) => reshaped(alloc, ty, primitive, edit, doc),
        Primitive::At(name, word) => at_field(alloc, ty, name, word, doc),
        Primitive::Stay(tag, word) => at_tag(alloc, ty, tag, word, doc),
        Primitive::Mod(place, word) => at_item(alloc, ty, place, word, doc),
    }
}

// The value of a document after a primitive, and the word that sets what there was.
fn reset(alloc: Global, ty: &Ty, primitive: &Primitive, doc: &Doc) -> Result<Made, PrimitiveFault>
    requires well_formed { is_well_formed (ty_tree ty.now) ≡ true }
    requires typed { has (ty_tree ty.now) (doc_tree doc.now) ≡ true }
    ensures value { MatchResult result
        (λ m. act_primitive (ty_tree ty.now) (primitive_tree primitive.now) (doc_tree doc.now) ≡ Ok (doc_tree m.value))
        (λ fault. IsPrimitiveRefusal (act_primitive (ty_tree ty.now) (primitive_tree primitive.now) (doc_tree doc.now))
        fault) }
    ensures back { IfOk result (λ m. word_tree m.back ≡ only (set (atom_of_value (doc_tree doc.now)))) }
{
    let value = acted(alloc, ty, primitive, doc)?;
    let back = set_back(alloc, doc)?;
    Ok(Made { value, back })
}

// The value of a text after a splice, and the inverse.
fn spliced(
    alloc: Global,
    ty: &Ty,
    primitive: &Primitive,
    from: u64,
    count: u64,
    with: &Str,
    doc: &Doc,
) -> Result<Made, PrimitiveFault>
    requires well_formed { is_well_formed (ty_tree ty.now) ≡ true }
    requires typed { has (ty_tree ty.now) (doc_tree doc.now) ≡ true }
    requires is { primitive_tree primitive.now ≡ splice from count with.now }
    ensures value { MatchResult result
        (λ m. act_primitive (ty_tree ty.now) (splice from count with.now) (doc_tree doc.now) ≡ Ok (doc_tree m.value))
        (λ fault. IsPrimitiveRefusal (act_primitive (ty_tree ty.now) (splice from count with.now) (doc_tree doc.now))
        fault) }
    ensures back { IfOk result (λ m. word_tree m.back
        ≡ inverse_primitive (ty_tree ty.now) (splice from count with.now) (doc_tree doc.now)) }
    ensures meets { IfOk result (λ m.
        PrimitiveMeets (ty_tree ty.now) (splice from count with.now) (doc_tree doc.now)) }
{
    let value = acted(alloc, ty, primitive, doc)?;
    let back = splice_back(alloc, from, count, with, doc)?;
    Ok(Made { value, back })
}

// The value of alternatives after a switch, and the inverse.
fn switched(
    alloc: Global,
    ty: &Ty,
    primitive: &Primitive,
    from: &Name,
    to: &Name,
    word: &Word,
    doc: &Doc,
) -> Result<Made, PrimitiveFault>
    requires well_formed { is_well_formed (ty_tree ty.now) ≡ true }
    requires typed { has (ty_tree ty.now) (doc_tree doc.now) ≡ true }
    requires is { primitive_tree primitive.now ≡ switch from.now to.now (word_tree word.now) }
    ensures value { MatchResult result
        (λ m. act_primitive (ty_tree ty.now) (switch from.now to.now (word_tree word.now)) (doc_tree doc.now)
        ≡ Ok (doc_tree m.value))
        (λ fault. IsPrimitiveRefusal (act_primitive (ty_tree ty.now) (switch from.now to.now (word_tree word.now))
        (doc_tree doc.now)) fault) }
    ensures back { IfOk result (λ m. word_tree m.back
        ≡ inverse_primitive (ty_tree ty.now) (switch from.now to.now (word_tree word.now)) (doc_tree doc.now)) }
{
    let value = acted(alloc, ty, primitive, doc)?;
    let back = switch_back(alloc, ty, from, to, doc)?;
    Ok(Made { value, back })
}

// The value of a document after a primitive.
fn acted(alloc: Global, ty: &Ty, primitive: &Primitive, doc: &Doc) -> Result<Doc, PrimitiveFault>
    requires well_formed { is_well_formed (ty_tree ty.now) ≡ true }
    requires typed { has (ty_tree ty.now) (doc_tree doc.now) ≡ true }
    ensures { MatchResult result
        (λ d. act_primitive (ty_tree ty.now) (primitive_tree primitive.now) (doc_tree doc.now) ≡ Ok (doc_tree d))
        (λ fault. IsPrimitiveRefusal (act_primitive (ty_tree ty.now) (primitive_tree primitive.now) (doc_tree doc.now))
        fault) }
{
    let copy = doc.twin(alloc)?;
    action::step(alloc, primitive, ty, copy)
}

// The value of a container after an edit of its shape, and the inverse.
fn reshaped(
    alloc: Global,
    ty: &Ty,
    primitive: &Primitive,
    edit: &ShapeEdit,
    doc: &Doc,
) -> Result<Made, PrimitiveFault>
    requires well_formed { is_well_formed (ty_tree ty.now) ≡ true }
    requires typed { has (ty_tree ty.now) (doc_tree doc.now) ≡ true }
    requires edit { primitive_tree primitive.now ≡ shape edit.now }
    ensures value { MatchResult result
        (λ m. act_primitive (ty_tree ty.now) (shape edit.now) (doc_tree doc.now) ≡ Ok (doc_tree m.value))
        (λ fault. IsPrimitiveRefusal (act_primitive (ty_tree ty.now) (shape edit.now) (doc_tree doc.now)) fault) }
    ensures back { IfOk result (λ m.
        word_tree m.back ≡ inverse_primitive (ty_tree ty.now) (shape edit.now) (doc_tree doc.now)) }
{
    let value = acted(alloc, ty, primitive, doc)?;
    let back = reshape_back(alloc, ty, edit, doc)?;
    Ok(Made { value, back })
}

// ---- records

// Acts on a field.
#[cycle(walk)]
fn at_field(
    alloc: Global,
    ty: &Ty,
    name: &Name,
    word: &Word,
    doc: &Doc,
) -> Result<Made, PrimitiveFault>
    requires well_formed { is_well_formed (ty_tree ty.now) ≡ true }
    requires typed { has (ty_tree ty.now) (doc_tree doc.now) ≡ true }
    ensures value { MatchResult result
        (λ m. act_primitive (ty_tree ty.now) (at name.now (word_tree word.now)) (doc_tree doc.now)
        ≡ Ok (doc_tree m.value))
        (λ fault. IsPrimitiveRefusal
        (act_primitive (ty_tree ty.now) (at name.now (word_tree word.now)) (doc_tree doc.now)) fault) }
    ensures back { IfOk result (λ m. word_tree m.back
        ≡ inverse_primitive (ty_tree ty.now) (at name.now (word_tree word.now)) (doc_tree doc.now)) }
    ensures meets { IfOk result (λ m.
        PrimitiveMeets (ty_tree ty.now) (at name.now (word_tree word.now)) (doc_tree doc.now)) }
{
    let Ty::Rec(fields) = ty else {
        return Err(PrimitiveFault::Fails(Cause::Kind));
    };
    let Doc::Rec(docs) = doc else {
        return Err(PrimitiveFault::Fails(Cause::Kind));
    };
    let Some((place, inner)) = field_of(fields, name, docs) else {
        return Err(PrimitiveFault::Fails(Cause::Place));
    };
    match inside(alloc, inner, word, docs.get(place)) {
        Ok(made) => Ok(with_field(alloc, docs, place, name, made)?),
        Err(fault) => Err(fault),
    }
}

// A record with another content of a field, and the inverse of the word that made it.
fn with_field(
    alloc: Global,
    docs: &Docs,
    place: usize,
    name: &Name,
    made: Made,
) -> Result<Made, AllocError>
    requires { place < length (doc_list (docs_tree docs.now)) }
    ensures value { IfOk result
        (λ m. doc_tree m.value ≡ rec (put_at (docs_tree docs.now) place (doc_tree made.value))) }
    ensures back { IfOk result (λ m. word_tree m.back ≡ only (at name.now (word_tree made.back))) }
{
    let back = at_word(alloc, name, made.back);
    both(rec_with(alloc, docs, place, made.value), back)
}

fn rec_with(alloc: Global, docs: &Docs, place: usize, next: Doc) -> Result<Doc, AllocError>
    requires { place < length (doc_list (docs_tree docs.now)) }
    ensures { IfOk result (λ d. doc_tree d ≡ rec (put_at (docs_tree docs.now) place (doc_tree next))) }
{
    let mut docs = docs.twin(alloc)?;
    docs.set(alloc, place, next)?;
    Ok(Doc::Rec(docs))
}

// A value with its inverse, if there was memory for both.
fn both(value: Result<Doc, AllocError>, back: Result<Word, AllocError>) -> Result<Made, AllocError>
    ensures { IfOk result (λ m. (value ≡ Ok m.value) × (back ≡ Ok m.back)) }
{
    let value = value?;
    let back = back?;
    Ok(Made { value, back })
}

// ---- alternatives

// Acts on the content of the tag that is there.
#[cycle(walk)]
fn at_tag(
    alloc: Global,
    ty: &Ty,
    tag: &Name,
    word: &Word,
    doc: &Doc,
) -> Result<Made, PrimitiveFault>
    requires well_formed { is_well_formed (ty_tree ty.now) ≡ true }
    requires typed { has (ty_tree ty.now) (doc_tree doc.now) ≡ true }
    ensures value { MatchResult result
        (λ m. act_primitive (ty_tree ty.now) (stay tag.now (word_tree word.now)) (doc_tree doc.now)
        ≡ Ok (doc_tree m.value))
        (λ fault. IsPrimitiveRefusal
        (act_primitive (ty_tree ty.now) (stay tag.now (word_tree word.now)) (doc_tree doc.now)) fault) }
    ensures back { IfOk result (λ m. word_tree m.back
        ≡ inverse_primitive (ty_tree ty.now) (stay tag.now (word_tree word.now)) (doc_tree doc.now)) }
    ensures meets { IfOk result (λ m.
        PrimitiveMeets (ty_tree ty.now) (stay tag.now (word_tree word.now)) (doc_tree doc.now)) }
{
    let Ty::Alt(tags) = ty else {
        return Err(PrimitiveFault::Fails(Cause::Kind));
    };
    let Doc::Alt(held, content) = doc else {
        return Err(PrimitiveFault::Fails(Cause::Kind));
    };
    if !tag.is_same(held) {
        return Err(PrimitiveFault::Fails(Cause::Tag));
    }
    let Some((_, inner)) = tag_of(tags, held) else {
        return Err(PrimitiveFault::Fails(Cause::Tag));
    };
    match inside(alloc, inner, word, content) {
        Ok(made) => Ok(with_content(alloc, held, tag, made)?),
        Err(fault) => Err(fault),
    }
}

// A tag with another content, and the inverse of the word that made it.
fn with_content(alloc: Global, held: &Name, tag: &Name, made: Made) -> Result<Made, AllocError>
    ensures value { IfOk result (λ m. doc_tree m.value ≡ alt held.now (doc_tree made.value)) }
    ensures back { IfOk result (λ m. word_tree m.back ≡ only (stay tag.now (word_tree made.back))) }
{
    let back = stay_word(alloc, tag, made.back);
    both(tagged(alloc, held, made.value), back)
}

fn tagged(alloc: Global, tag: &Name, content: Doc) -> Result<Doc, AllocError>
    ensures { IfOk result (λ d. doc_tree d ≡ alt tag.now (doc_tree content)) }
{
    let content = Box::new(alloc, content)?;
    Ok(Doc::Alt(tag.twin(alloc)?, content))
}

// ---- containers

// Acts on the content at a place.
#[cycle(walk)]
fn at_item(
    alloc: Global,
    ty: &Ty,
    place: &Place,
    word: &Word,
    doc: &Doc,
) -> Result<Made, PrimitiveFault>
    requires well_formed { is_well_formed (ty_tree ty.now) ≡ true }
    requires typed { has (ty_tree ty.now) (doc_tree doc.now) ≡ true }
    ensures value { MatchResult result
        (λ m. act_primitive (ty_tree ty.now) (modify place.now (word_tree word.now)) (doc_tree doc.now)
        ≡ Ok (doc_tree m.value))
        (λ fault. IsPrimitiveRefusal
        (act_primitive (ty_tree ty.now) (modify place.now (word_tree word.now)) (doc_tree doc.now)) fault) }
    ensures back { IfOk result (λ m. word_tree m.back
        ≡ inverse_primitive (ty_tree ty.now) (modify place.now (word_tree word.now)) (doc_tree doc.now)) }
    ensures meets { IfOk result (λ m.
        PrimitiveMeets (ty_tree ty.now) (modify place.now (word_tree word.now)) (doc_tree doc.now)) }
{
    let Some(inner) = contents_at(ty, place) else {
        return Err(PrimitiveFault::Fails(Cause::Kind));
    };
    let Doc::Hold(shape, docs) = doc else {
        return Err(PrimitiveFault::Fails(Cause::Kind));
    };
    in_container(alloc, inner, place, word, shape, docs)
}

// The type of the contents of a container whose places are of this kind.
fn contents_at<'a>(ty: &'a Ty, place: &Place) -> Option<&'a Ty>
    ensures { option_map (λ t. ty_tree t.now) result ≡ contents_at (ty_tree ty.now) place.now }
{
    match (ty, place) {
        (Ty::List(inner), Place::Index(_)) => Some(inner),
        (Ty::Keyed(inner), Place::Key(_)) => Some(inner),
        (Ty::Tree(inner), Place::Node(_)) => Some(inner),
        _ => None,
    }
}

// Acts on the content at a place of a container of any kind.
#[cycle(walk)]
fn in_container(
    alloc: Global,
    inner: &Ty,
    place: &Place,
    word: &Word,
    shape: &Shape,
    docs: &Docs,
) -> Result<Made, PrimitiveFault>
    requires well_formed { is_well_formed (ty_tree inner.now) ≡ true }
    requires held { IsHeld (ty_tree inner.now) shape.now (docs_tree docs.now) }
    ensures value { MatchResult result
        (λ m. act_at_place (λ v. act (ty_tree inner.now) (word_tree word.now) v) shape.now
        (docs_tree docs.now) place.now ≡ Ok (doc_tree m.value))
        (λ fault. IsPrimitiveRefusal (act_at_place (λ v. act (ty_tree inner.now) (word_tree word.now) v) shape.now
        (docs_tree docs.now) place.now) fault) }
    ensures back { IfOk result (λ m. word_tree m.back ≡ for_found (place_of shape.now place.now) (λ i.
        only (modify place.now (inverse (ty_tree inner.now) (word_tree word.now) (doc_at (docs_tree docs.now) i))))) }
    ensures meets { IfOk result (λ m. IfFound (place_of shape.now place.now) (λ i.
        MeetsTexts (ty_tree inner.now) (word_tree word.now) (doc_at (docs_tree docs.now) i))) }
{
    let Some(at) = item_of(place, inner, shape, docs) else {
        return Err(PrimitiveFault::Fails(Cause::Place));
    };
    match inside(alloc, inner, word, docs.get(at)) {
        Ok(made) => Ok(with_item(alloc, place, shape, docs, at, made)?),
        Err(fault) => Err(fault),
    }
}

// A container with another content at a place, and the inverse of the word that made it.
fn with_item(
    alloc: Global,
    place: &Place,
    shape: &Shape,
    docs: &Docs,
    at: usize,
    made: Made,
) -> Result<Made, AllocError>
    requires { at < length (doc_list (docs_tree docs.now)) }
    ensures value { IfOk result (λ m.
        doc_tree m.value ≡ hold shape.now (put_at (docs_tree docs.now) at (doc_tree made.value))) }
    ensures back { IfOk result (λ m. word_tree m.back ≡ only (modify place.now (word_tree made.back))) }
{
    let back = mod_word(alloc, place, made.back);
    both(held_with(alloc, shape, docs, at, made.value), back)
}

fn held_with(
    alloc: Global,
    shape: &Shape,
    docs: &Docs,
    at: usize,
    next: Doc,
) -> Result<Doc, AllocError>
    requires { at < length (doc_list (docs_tree docs.now)) }
    ensures { IfOk result (λ d. doc_tree d ≡ hold shape.now (put_at (docs_tree docs.now) at (doc_tree next))) }
{
    let mut docs = docs.twin(alloc)?;
    docs.set(alloc, at, next)?;
    Ok(Doc::Hold(shape.twin(alloc)?, docs))
}
