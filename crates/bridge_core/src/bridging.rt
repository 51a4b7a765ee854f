//! The bridge between a document and what a word makes of it.
//!
//! A word is walked as its action does: each primitive is applied to a copy, which shares its contents, and gives the
//! value that the next one meets.
ghost use Rattle.std.specs.Prelude.{◌≡◌, ◌<◌, Ok, IfOk, MatchResult, true};
ghost use Rattle.doc_values.specs.Documents.{doc_tree, docs_tree};
ghost use Rattle.doc_values.specs.Types.{ty_tree, is_well_formed};
ghost use Rattle.doc_values.specs.Typing.{has};
ghost use Rattle.edit_module.specs.Views.{primitive_tree, word_tree};
ghost use Rattle.hold_shapes.specs.Shapes.{place_of};
ghost use Rattle.edit_module.specs.Action.{act, act_primitive, act_at_place, inner, doc_at};
ghost use Rattle.edit_module.specs.Containers.{IsHeld};
ghost use Rattle.edit_module.specs.Refusals.{IsRefusal, IsPrimitiveRefusal};
ghost use Rattle.edit_module.specs.Words.{at, stay, splice, modify, shape};
ghost use Rattle.bridge_core.specs.Bridges.{bridge_tree, same};
ghost use Rattle.bridge_core.specs.Bridged.{bridge, bridge_primitive};
ghost use Rattle.bridge_core.specs.Bridged.{parts_of, arm_of, for_found, bridge_item};
ghost use Rattle.bridge_core.specs.Bridged.{linked_of};
ghost use Rattle.bridge_core.specs.Laws.{SpansValue};

use crate::bridge::Bridge;
use crate::laws::a_bridge_spans;
use crate::list_bridging::{after_shape, inner_of, linked_of};
use crate::made::{
    Made, after_set, after_splice, after_switch, arm_of, parts_of, unchanged, with_content,
    with_field, with_item,
};
use doc_values::{Doc, Docs, Ty};
use edit_module::action::{self, field_of, item_of, tag_of};
use edit_module::word::{Primitive, Word};
use edit_module::{ActFault, Cause, PrimitiveFault};
use hold_shapes::{Place, Shape, ShapeEdit};
use std::alloc::Global;
use texts::{Name, Str, Twin};

/// The bridge between a document and what a word makes of it.
///
/// The type is well formed and the document has it.
///
/// - `exact`: it is what the definition `bridge` has, from both documents the same. [`ActFault::NoApply`] comes if
///   and only if the word does not act on the document, with the number and the cause that
///   [`act`](edit_module::act) has.
/// - `spans`: the bridge leads from the document to the value of the word.
pub fn bridge_of(alloc: Global, ty: &Ty, word: &Word, doc: &Doc) -> Result<Bridge, ActFault>
    requires well_formed { is_well_formed (ty_tree ty.now) ≡ true }
    requires typed { has (ty_tree ty.now) (doc_tree doc.now) ≡ true }
    ensures exact { MatchResult result
        (λ b. bridge_tree b ≡ bridge (ty_tree ty.now) (word_tree word.now) (doc_tree doc.now) same)
        (λ fault. IsRefusal (act (ty_tree ty.now) (word_tree word.now) (doc_tree doc.now)) fault) }
    ensures spans { IfOk result (λ b. SpansValue (bridge_tree b) (ty_tree ty.now) (doc_tree doc.now)
        (act (ty_tree ty.now) (word_tree word.now) (doc_tree doc.now))) }
{
    a_bridge_spans();
    match walk(alloc, ty, word, doc, &Bridge::Same) {
        Ok(made) => Ok(made.bridge),
        Err(fault) => Err(fault),
    }
}

// ---- words

// The value of a document after the primitives of a word, and the bridge to it.
#[cycle(walk)]
#[tactic(auto, using(crate::proofs::Walks::walk_rules))]
fn walk(alloc: Global, ty: &Ty, word: &Word, doc: &Doc, before: &Bridge) -> Result<Made, ActFault>
    requires well_formed { is_well_formed (ty_tree ty.now) ≡ true }
    requires typed { has (ty_tree ty.now) (doc_tree doc.now) ≡ true }
    ensures value { MatchResult result
        (λ m. act (ty_tree ty.now) (word_tree word.now) (doc_tree doc.now) ≡ Ok (doc_tree m.value))
        (λ fault. IsRefusal (act (ty_tree ty.now) (word_tree word.now) (doc_tree doc.now)) fault) }
    ensures bridge { IfOk result (λ m. bridge_tree m.bridge
        ≡ bridge (ty_tree ty.now) (word_tree word.now) (doc_tree doc.now) (bridge_tree before.now)) }
{
    let primitives = word.as_slice();
    let mut current = unchanged(alloc, doc, before)?;
    for i in 0..primitives.len() {
        match step(alloc, ty, &primitives[i], &current.value, &current.bridge) {
            Ok(next) => current = next,
            Err(PrimitiveFault::Fails(cause)) => {
                return Err(ActFault::NoApply {
                    at: i as u64,
                    cause,
                });
            }
            Err(PrimitiveFault::OutOfMemory) => return Err(ActFault::NoMemory),
        }
    }
    Ok(current)
}

// The value of a document after an inner word, whose failure has its cause alone, and the bridge to it.
#[cycle(walk)]
fn inside(
    alloc: Global,
    ty: &Ty,
    word: &Word,
    doc: &Doc,
    before: &Bridge,
) -> Result<Made, PrimitiveFault>
    requires well_formed { is_well_formed (ty_tree ty.now) ≡ true }
    requires typed { has (ty_tree ty.now) (doc_tree doc.now) ≡ true }
    ensures value { MatchResult result
        (λ m. inner (act (ty_tree ty.now) (word_tree word.now) (doc_tree doc.now)) ≡ Ok (doc_tree m.value))
        (λ fault. IsPrimitiveRefusal (inner (act (ty_tree ty.now) (word_tree word.now) (doc_tree doc.now))) fault) }
    ensures bridge { IfOk result (λ m. bridge_tree m.bridge
        ≡ bridge (ty_tree ty.now) (word_tree word.now) (doc_tree doc.now) (bridge_tree before.now)) }
{
    match walk(alloc, ty, word, doc, before) {
        Ok(made) => Ok(made),
        Err(ActFault::NoApply { cause, .. }) => Err(PrimitiveFault::Fails(cause)),
        Err(ActFault::NoMemory) => Err(PrimitiveFault::OutOfMemory),
    }
}

// ---- primitives

// The value of a document after a primitive, and the bridge to it.
#[cycle(walk)]
fn step(
    alloc: Global,
    ty: &Ty,
    primitive: &Primitive,
    doc: &Doc,
    before: &Bridge,
) -> Result<Made, PrimitiveFault>
    requires well_formed { is_well_formed (ty_tree ty.now) ≡ true }
    requires typed { has (ty_tree ty.now) (doc_tree doc.now) ≡ true }
    ensures value { MatchResult result
        (λ m. act_primitive (ty_tree ty.now) (primitive_tree primitive.now) (doc_tree doc.now) ≡ Ok (doc_tree m.value))
        (λ fault. IsPrimitiveRefusal (act_primitive (ty_tree ty.now) (primitive_tree primitive.now) (doc_tree doc.now))
        fault) }
    ensures bridge { IfOk result (λ m. bridge_tree m.bridge ≡ bridge_primitive (ty_tree ty.now)
        (primitive_tree primitive.now) (doc_tree doc.now) (bridge_tree before.now)) }
{
    match primitive {
        Primitive::Set(_) => acted(alloc, ty, primitive, doc, after_set(ty)),
        Primitive::Add(_) => acted(alloc, ty, primitive, doc, Bridge::Other),
        Primitive::Splice(from, count, with) => {
            spliced(alloc, ty, primitive, *from, *count, with, doc, before)
        }
        Primitive::Switch(from, to, _) => {
            let next = after_switch(alloc, before, from, to)?;
            acted(alloc, ty, primitive, doc, next)
        }
        Primitive::Mod(place, word) => at_place(alloc, ty, primitive, place, word, doc, before),
        Primitive::Shape(edit) => shaped(alloc, ty, primitive, edit, doc, before),
        Primitive::At(name, word) => at_field(alloc, ty, name, word, doc, before),
        Primitive::Stay(tag, word) => at_tag(alloc, ty, tag, word, doc, before),
    }
}

// The value of a document after a primitive, with a bridge.
fn acted(
    alloc: Global,
    ty: &Ty,
    primitive: &Primitive,
    doc: &Doc,
    next: Bridge,
) -> Result<Made, PrimitiveFault>
    requires well_formed { is_well_formed (ty_tree ty.now) ≡ true }
    requires typed { has (ty_tree ty.now) (doc_tree doc.now) ≡ true }
    ensures value { MatchResult result
        (λ m. act_primitive (ty_tree ty.now) (primitive_tree primitive.now) (doc_tree doc.now) ≡ Ok (doc_tree m.value))
        (λ fault. IsPrimitiveRefusal (act_primitive (ty_tree ty.now) (primitive_tree primitive.now) (doc_tree doc.now))
        fault) }
    ensures bridge { IfOk result (λ m. bridge_tree m.bridge ≡ bridge_tree next) }
{
    let copy = doc.twin(alloc)?;
    match action::step(alloc, primitive, ty, copy) {
        Ok(value) => Ok(Made {
            value,
            bridge: next,
        }),
        Err(fault) => Err(fault),
    }
}

// ---- texts

// The value of a text after a splice, and the bridge to it.
fn spliced(
    alloc: Global,
    ty: &Ty,
    primitive: &Primitive,
    from: u64,
    count: u64,
    with: &Str,
    doc: &Doc,
    before: &Bridge,
) -> Result<Made, PrimitiveFault>
    requires well_formed { is_well_formed (ty_tree ty.now) ≡ true }
    requires typed { has (ty_tree ty.now) (doc_tree doc.now) ≡ true }
    requires is { primitive_tree primitive.now ≡ splice from count with.now }
    ensures value { MatchResult result
        (λ m. act_primitive (ty_tree ty.now) (splice from count with.now) (doc_tree doc.now) ≡ Ok (doc_tree m.value))
        (λ fault. IsPrimitiveRefusal (act_primitive (ty_tree ty.now) (splice from count with.now) (doc_tree doc.now))
        fault) }
    ensures bridge { IfOk result (λ m. bridge_tree m.bridge
        ≡ bridge_primitive (ty_tree ty.now) (splice from count with.now) (doc_tree doc.now) (bridge_tree before.now)) }
{
    let Ty::Text(_) = ty else {
        return Err(PrimitiveFault::Fails(Cause::Kind));
    };
    let Doc::Text(old) = doc else {
        return Err(PrimitiveFault::Fails(Cause::Kind));
    };
    let next = after_splice(alloc, old, before, from, count, with)?;
    acted(alloc, ty, primitive, doc, next)
}

// ---- records

// Acts on a field.
#[cycle(walk)]
fn at_field(
    alloc: Global,
    ty: &Ty,
    name: &Name,
    word: &Word,
    doc: &Doc,
    before: &Bridge,
) -> Result<Made, PrimitiveFault>
    requires well_formed { is_well_formed (ty_tree ty.now) ≡ true }
    requires typed { has (ty_tree ty.now) (doc_tree doc.now) ≡ true }
    ensures value { MatchResult result
        (λ m. act_primitive (ty_tree ty.now) (at name.now (word_tree word.now)) (doc_tree doc.now)
        ≡ Ok (doc_tree m.value))
        (λ fault. IsPrimitiveRefusal
        (act_primitive (ty_tree ty.now) (at name.now (word_tree word.now)) (doc_tree doc.now)) fault) }
    ensures bridge { IfOk result (λ m. bridge_tree m.bridge ≡ bridge_primitive (ty_tree ty.now)
        (at name.now (word_tree word.now)) (doc_tree doc.now) (bridge_tree before.now)) }
{
    let Ty::Rec(fields) = ty else {
        return Err(PrimitiveFault::Fails(Cause::Kind));
    };
    let Doc::Rec(docs) = doc else {
        return Err(PrimitiveFault::Fails(Cause::Kind));
    };
    let Some((place, inner)) = field_of(fields, name, docs) else {
        return Err(PrimitiveFault::Fails(Cause::Place));
    };
    let bridges = parts_of(alloc, before, docs)?;
    let old = bridges.at(alloc, place)?;
    match inside(alloc, inner, word, docs.get(place), &old) {
        Ok(made) => Ok(with_field(alloc, docs, &bridges, place, made)?),
        Err(fault) => Err(fault),
    }
}

// ---- alternatives

// Acts on the content of the tag that is there.
#[cycle(walk)]
fn at_tag(
    alloc: Global,
    ty: &Ty,
    tag: &Name,
    word: &Word,
    doc: &Doc,
    before: &Bridge,
) -> Result<Made, PrimitiveFault>
    requires well_formed { is_well_formed (ty_tree ty.now) ≡ true }
    requires typed { has (ty_tree ty.now) (doc_tree doc.now) ≡ true }
    ensures value { MatchResult result
        (λ m. act_primitive (ty_tree ty.now) (stay tag.now (word_tree word.now)) (doc_tree doc.now)
        ≡ Ok (doc_tree m.value))
        (λ fault. IsPrimitiveRefusal
        (act_primitive (ty_tree ty.now) (stay tag.now (word_tree word.now)) (doc_tree doc.now)) fault) }
    ensures bridge { IfOk result (λ m. bridge_tree m.bridge ≡ bridge_primitive (ty_tree ty.now)
        (stay tag.now (word_tree word.now)) (doc_tree doc.now) (bridge_tree before.now)) }
{
    let Ty::Alt(tags) = ty else {
        return Err(PrimitiveFault::Fails(Cause::Kind));
    };
    let Doc::Alt(held, content) = doc else {
        return Err(PrimitiveFault::Fails(Cause::Kind));
    };
    if !tag.is_same(held) {
        return Err(PrimitiveFault::Fails(Cause::Tag));
    }
    let Some((_, inner)) = tag_of(tags, held) else {
        return Err(PrimitiveFault::Fails(Cause::Tag));
    };
    let old = arm_of(alloc, before)?;
    match inside(alloc, inner, word, content, &old) {
        Ok(made) => Ok(with_content(alloc, held, before, made)?),
        Err(fault) => Err(fault),
    }
}

// ---- containers

// Acts on the content at a place of a container.
#[cycle(walk)]
#[tactic(auto, using(crate::proofs::Walks::place_rules))]
fn at_place(
    alloc: Global,
    ty: &Ty,
    primitive: &Primitive,
    place: &Place,
    word: &Word,
    doc: &Doc,
    before: &Bridge,
) -> Result<Made, PrimitiveFault>
    requires well_formed { is_well_formed (ty_tree ty.now) ≡ true }
    requires typed { has (ty_tree ty.now) (doc_tree doc.now) ≡ true }
    requires is { primitive_tree primitive.now ≡ modify place.now (word_tree word.now) }
    ensures value { MatchResult result
        (λ m. act_primitive (ty_tree ty.now) (modify place.now (word_tree word.now)) (doc_tree doc.now)
        ≡ Ok (doc_tree m.value))
        (λ fault. IsPrimitiveRefusal
        (act_primitive (ty_tree ty.now) (modify place.now (word_tree word.now)) (doc_tree doc.now)) fault) }
    ensures bridge { IfOk result (λ m. bridge_tree m.bridge ≡ bridge_primitive (ty_tree ty.now)
        (modify place.now (word_tree word.now)) (doc_tree doc.now) (bridge_tree before.now)) }
{
    let Ty::List(inner) = ty else {
        return acted(alloc, ty, primitive, doc, Bridge::Lost);
    };
    let Place::Index(_) = place else {
        return acted(alloc, ty, primitive, doc, Bridge::Lost);
    };
    let Doc::Hold(shape, docs) = doc else {
        return acted(alloc, ty, primitive, doc, Bridge::Lost);
    };
    at_item(alloc, inner, place, word, shape, docs, before)
}

// Acts on an item of a list.
#[cycle(walk)]
fn at_item(
    alloc: Global,
    ty: &Ty,
    place: &Place,
    word: &Word,
    shape: &Shape,
    docs: &Docs,
    before: &Bridge,
) -> Result<Made, PrimitiveFault>
    requires well_formed { is_well_formed (ty_tree ty.now) ≡ true }
    requires held { IsHeld (ty_tree ty.now) shape.now (docs_tree docs.now) }
    ensures value { MatchResult result
        (λ m. act_at_place (λ v. act (ty_tree ty.now) (word_tree word.now) v) shape.now (docs_tree docs.now) place.now
        ≡ Ok (doc_tree m.value))
        (λ fault. IsPrimitiveRefusal
        (act_at_place (λ v. act (ty_tree ty.now) (word_tree word.now) v) shape.now (docs_tree docs.now) place.now)
        fault) }
    ensures bridge { IfOk result (λ m. bridge_tree m.bridge
        ≡ for_found (bridge_tree before.now) (place_of shape.now place.now)
        (λ y. bridge_item (linked_of (bridge_tree before.now) (docs_tree docs.now)) y
        (λ c. bridge (ty_tree ty.now) (word_tree word.now) (doc_at (docs_tree docs.now) y) c))) }
{
    let Some(at) = item_of(place, ty, shape, docs) else {
        return Err(PrimitiveFault::Fails(Cause::Place));
    };
    let links = linked_of(alloc, before, docs)?;
    let old = inner_of(alloc, &links, at)?;
    match inside(alloc, ty, word, docs.get(at), &old) {
        Ok(made) => Ok(with_item(alloc, shape, docs, &links, at, made)?),
        Err(fault) => Err(fault),
    }
}

// Edits the shape of a container.
fn shaped(
    alloc: Global,
    ty: &Ty,
    primitive: &Primitive,
    edit: &ShapeEdit,
    doc: &Doc,
    before: &Bridge,
) -> Result<Made, PrimitiveFault>
    requires well_formed { is_well_formed (ty_tree ty.now) ≡ true }
    requires typed { has (ty_tree ty.now) (doc_tree doc.now) ≡ true }
    requires is { primitive_tree primitive.now ≡ shape edit.now }
    ensures value { MatchResult result
        (λ m. act_primitive (ty_tree ty.now) (shape edit.now) (doc_tree doc.now) ≡ Ok (doc_tree m.value))
        (λ fault. IsPrimitiveRefusal (act_primitive (ty_tree ty.now) (shape edit.now) (doc_tree doc.now)) fault) }
    ensures bridge { IfOk result (λ m. bridge_tree m.bridge ≡ bridge_primitive (ty_tree ty.now) (shape edit.now)
        (doc_tree doc.now) (bridge_tree before.now)) }
{
    let Ty::List(_) = ty else {
        return acted(alloc, ty, primitive, doc, Bridge::Lost);
    };
    let Doc::Hold(_, docs) = doc else {
        return acted(alloc, ty, primitive, doc, Bridge::Lost);
    };
    let next = after_shape(alloc, before, docs, edit)?;
    acted(alloc, ty, primitive, doc, next)
}
