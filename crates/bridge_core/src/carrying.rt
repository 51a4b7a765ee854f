//! A word that was made for the near document, carried to the far one.
//!
//! A word is walked primitive by primitive, each with the bridge that the one before has left.
ghost use Rattle.std.specs.Prelude.{◌≡◌, Ok, IfOk, IfErr, MatchResult};
ghost use Rattle.doc_values.specs.Documents.{DocTree};
ghost use Rattle.doc_values.specs.Types.{TyTree, ty_tree};
ghost use Rattle.hold_shapes.specs.declared.edit.Place.TheVariants.{Index};
ghost use Rattle.edit_module.specs.Views.{primitive_tree, word_tree};
ghost use Rattle.edit_module.specs.Action.{act, inner};
ghost use Rattle.bridge_core.specs.Bridges.{bridge_tree, bridges_tree, parts, arm, away, linked};
ghost use Rattle.bridge_core.specs.Carried.{carry, carry_primitive, carry_text};
ghost use Rattle.bridge_core.specs.Carried.{carry_stay, carry_item};
ghost use Rattle.bridge_core.specs.Refusals.{carried_tree, IsNotCarried, IsGone};
ghost use Rattle.bridge_core.specs.Spans.{Spans};
ghost use Rattle.bridge_core.specs.Laws.{BeginsAt, LeadsTo};

use crate::bridge::{Bridge, Bridges};
use crate::carried_word::{
    CarriedWord, followed, left, nothing, on_lost, on_other, passed, spliced, switched, with_field,
    with_item, with_tag,
};
use crate::fault::CarryFault;
use crate::laws::{a_carried_word_acts, only_what_is_gone_is_refused};
use crate::list_carrying::reshaped;
use bridge_lists::ListBridge;
use bridge_texts::TextBridge;
use doc_values::Ty;
use edit_module::Cause;
use edit_module::word::{Primitive, Word};
use hold_shapes::Place;
use std::alloc::Global;
use std::rc::Rc;
use texts::Name;

/// A word that was made for the near document, carried to the far one.
///
/// - `exact`: it is what the definition `carry` has.
/// - `refused`: a word that acts on the near document is refused with `Gone`, or since memory ran out. What it changes
///   is gone in the far document: a text that was set, an item of a list that was deleted, a keyed map or a tree that
///   was edited, or a tag that was left.
/// - `acts`: if the word acts on the near document, the carried one acts on the far one, unless a sum does not fit
///   there, and the bridge leads from the one value to the other.
pub fn carry(
    alloc: Global,
    ty: &Ty,
    bridge: &Bridge,
    word: &Word,
) -> Result<CarriedWord, CarryFault>
    ensures exact { MatchResult result
        (λ it. carry (ty_tree ty.now) (bridge_tree bridge.now) (word_tree word.now) ≡ Ok (carried_tree it))
        (λ fault. IsNotCarried (carry (ty_tree ty.now) (bridge_tree bridge.now) (word_tree word.now)) fault) }
    ensures refused { IfErr result (λ fault. (s v : DocTree) → BeginsAt (bridge_tree bridge.now) (ty_tree ty.now) s
        → act (ty_tree ty.now) (word_tree word.now) s ≡ Ok v → IsGone fault) }
    ensures acts { IfOk result (λ it. (s u v : DocTree) → Spans (bridge_tree bridge.now) (ty_tree ty.now) s u
        → act (ty_tree ty.now) (word_tree word.now) s ≡ Ok v
        → LeadsTo (bridge_tree it.bridge) (ty_tree ty.now) v (inner (act (ty_tree ty.now) (word_tree it.word) u))) }
{
    a_carried_word_acts();
    only_what_is_gone_is_refused();
    walk(alloc, ty, bridge, word)
}

// ---- words

// The word for the far document, and the bridge behind it.
#[cycle(walk)]
fn walk(alloc: Global, ty: &Ty, bridge: &Bridge, word: &Word) -> Result<CarriedWord, CarryFault>
    ensures { MatchResult result
        (λ it. carry (ty_tree ty.now) (bridge_tree bridge.now) (word_tree word.now) ≡ Ok (carried_tree it))
        (λ fault. IsNotCarried (carry (ty_tree ty.now) (bridge_tree bridge.now) (word_tree word.now)) fault) }
{
    let primitives = word.as_slice();
    let mut current = nothing(alloc, bridge)?;
    for i in 0..primitives.len() {
        match step(alloc, ty, &current.bridge, &primitives[i]) {
            Ok(next) => current = followed(current, next)?,
            Err(fault) => return Err(fault),
        }
    }
    Ok(current)
}

// ---- primitives

// What a primitive is for the far document, and the bridge behind it.
#[cycle(walk)]
fn step(
    alloc: Global,
    ty: &Ty,
    bridge: &Bridge,
    primitive: &Primitive,
) -> Result<CarriedWord, CarryFault>
    ensures { MatchResult result
        (λ it. carry_primitive (ty_tree ty.now) (bridge_tree bridge.now) (primitive_tree primitive.now)
        ≡ Ok (carried_tree it))
        (λ fault. IsNotCarried
        (carry_primitive (ty_tree ty.now) (bridge_tree bridge.now) (primitive_tree primitive.now)) fault) }
{
    match bridge {
        Bridge::Same => Ok(passed(alloc, primitive, Bridge::Same)?),
        Bridge::Other => on_other(alloc, primitive),
        Bridge::Lost => on_lost(alloc, primitive),
        Bridge::Text(runs) => on_text(alloc, runs, primitive),
        Bridge::Rec(bridges) => on_record(alloc, ty, bridges, primitive),
        Bridge::Arm(tag, inner) => on_arm(alloc, ty, tag, inner, primitive),
        Bridge::Away(old, new) => on_away(alloc, old, new, primitive),
        Bridge::List(links, bridges) => on_list(alloc, ty, links, bridges, primitive),
    }
}

// ---- texts

fn on_text(
    alloc: Global,
    runs: &TextBridge,
    primitive: &Primitive,
) -> Result<CarriedWord, CarryFault>
    ensures { MatchResult result
        (λ it. carry_text runs.now (primitive_tree primitive.now) ≡ Ok (carried_tree it))
        (λ fault. IsNotCarried (carry_text runs.now (primitive_tree primitive.now)) fault) }
{
    match primitive {
        Primitive::Set(_) => Ok(passed(alloc, primitive, Bridge::Same)?),
        Primitive::Splice(from, count, text) => { Ok(spliced(alloc, runs, *from, *count, text)?) }
        _ => Err(CarryFault::NoApply(Cause::Kind)),
    }
}

// ---- records

#[cycle(walk)]
fn on_record(
    alloc: Global,
    ty: &Ty,
    bridges: &Bridges,
    primitive: &Primitive,
) -> Result<CarriedWord, CarryFault>
    ensures { MatchResult result
        (λ it. carry_primitive (ty_tree ty.now) (parts (bridges_tree bridges.now)) (primitive_tree primitive.now)
        ≡ Ok (carried_tree it))
        (λ fault. IsNotCarried
        (carry_primitive (ty_tree ty.now) (parts (bridges_tree bridges.now)) (primitive_tree primitive.now)) fault) }
{
    let Primitive::At(name, word) = primitive else {
        return Err(CarryFault::NoApply(Cause::Kind));
    };
    let Ty::Rec(fields) = ty else {
        return Err(CarryFault::NoApply(Cause::Kind));
    };
    let Some((place, inner)) = fields.find(name.as_str()) else {
        return Err(CarryFault::NoApply(Cause::Place));
    };
    let bridge = bridges.at(alloc, place)?;
    match walk(alloc, inner, &bridge, word) {
        Ok(made) => Ok(with_field(alloc, bridges, place, name, made)?),
        Err(fault) => Err(fault),
    }
}

// ---- alternatives

#[cycle(walk)]
fn on_arm(
    alloc: Global,
    ty: &Ty,
    tag: &Name,
    bridge: &Bridge,
    primitive: &Primitive,
) -> Result<CarriedWord, CarryFault>
    ensures { MatchResult result
        (λ it. carry_primitive (ty_tree ty.now) (arm tag.now (bridge_tree bridge.now)) (primitive_tree primitive.now)
        ≡ Ok (carried_tree it))
        (λ fault. IsNotCarried (carry_primitive (ty_tree ty.now) (arm tag.now (bridge_tree bridge.now))
        (primitive_tree primitive.now)) fault) }
{
    match primitive {
        Primitive::Stay(held, word) => stayed(alloc, ty, tag, bridge, held, word),
        Primitive::Switch(from, to, word) => switched(alloc, tag, tag, from, to, word),
        _ => Err(CarryFault::NoApply(Cause::Kind)),
    }
}

// An edit of the content of a tag, where both documents have a tag.
#[cycle(walk)]
fn stayed(
    alloc: Global,
    ty: &Ty,
    tag: &Name,
    bridge: &Bridge,
    held: &Name,
    word: &Word,
) -> Result<CarriedWord, CarryFault>
    ensures { MatchResult result
        (λ it. carry_stay (ty_tree ty.now) tag.now (bridge_tree bridge.now) held.now
        (λ t b. carry t b (word_tree word.now)) ≡ Ok (carried_tree it))
        (λ fault. IsNotCarried (carry_stay (ty_tree ty.now) tag.now (bridge_tree bridge.now) held.now
        (λ t b. carry t b (word_tree word.now))) fault) }
{
    let Ty::Alt(tags) = ty else {
        return Err(CarryFault::NoApply(Cause::Kind));
    };
    if !held.is_same(tag) {
        return Err(CarryFault::NoApply(Cause::Tag));
    }
    let Some((_, inner)) = tags.find(tag.as_str()) else {
        return Err(CarryFault::NoApply(Cause::Tag));
    };
    match walk(alloc, inner, bridge, word) {
        Ok(made) => Ok(with_tag(alloc, tag, made)?),
        Err(fault) => Err(fault),
    }
}

// Where the far document has been switched to another tag.
fn on_away(
    alloc: Global,
    old: &Name,
    new: &Name,
    primitive: &Primitive,
) -> Result<CarriedWord, CarryFault>
    ensures { (t : TyTree) → MatchResult result
        (λ it. carry_primitive t (away old.now new.now) (primitive_tree primitive.now) ≡ Ok (carried_tree it))
        (λ fault. IsNotCarried (carry_primitive t (away old.now new.now) (primitive_tree primitive.now)) fault) }
{
    match primitive {
        Primitive::Stay(held, _) => Err(left(held, old)),
        Primitive::Switch(from, to, word) => switched(alloc, old, new, from, to, word),
        _ => Err(CarryFault::NoApply(Cause::Kind)),
    }
}

// ---- lists

#[cycle(walk)]
fn on_list(
    alloc: Global,
    ty: &Ty,
    links: &Rc<ListBridge>,
    bridges: &Bridges,
    primitive: &Primitive,
) -> Result<CarriedWord, CarryFault>
    ensures { MatchResult result
        (λ it. carry_primitive (ty_tree ty.now) (linked links.now.value.0 links.now.value.1 (bridges_tree bridges.now))
        (primitive_tree primitive.now) ≡ Ok (carried_tree it))
        (λ fault. IsNotCarried (carry_primitive (ty_tree ty.now)
        (linked links.now.value.0 links.now.value.1 (bridges_tree bridges.now)) (primitive_tree primitive.now)) fault) }
{
    match primitive {
        Primitive::Mod(place, word) => on_item(alloc, ty, links, bridges, place, word),
        Primitive::Shape(edit) => reshaped(alloc, links, bridges, edit),
        _ => Err(CarryFault::NoApply(Cause::Kind)),
    }
}

// An edit of an item.
#[cycle(walk)]
fn on_item(
    alloc: Global,
    ty: &Ty,
    links: &Rc<ListBridge>,
    bridges: &Bridges,
    place: &Place,
    word: &Word,
) -> Result<CarriedWord, CarryFault>
    ensures { MatchResult result
        (λ it. carry_item (ty_tree ty.now) links.now.value.0 links.now.value.1 (bridges_tree bridges.now) place.now
        (λ t b. carry t b (word_tree word.now)) ≡ Ok (carried_tree it))
        (λ fault. IsNotCarried (carry_item (ty_tree ty.now) links.now.value.0 links.now.value.1
        (bridges_tree bridges.now) place.now (λ t b. carry t b (word_tree word.now))) fault) }
{
    let Ty::List(inner) = ty else {
        return Err(CarryFault::NoApply(Cause::Kind));
    };
    let Place::Index(index) = place else {
        return Err(CarryFault::NoApply(Cause::Kind));
    };
    if *index >= links.links().len() {
        return Err(CarryFault::NoApply(Cause::Place));
    }
    let Some(far) = links.far_place(*index) else {
        return Err(CarryFault::Gone);
    };
    let bridge = bridges.at(alloc, *index as usize)?;
    match walk(alloc, inner, &bridge, word) {
        Ok(made) => Ok(with_item(alloc, links, bridges, *index, far, made)?),
        Err(fault) => Err(fault),
    }
}
