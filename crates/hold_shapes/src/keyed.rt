//! Plans of keyed maps.
ghost use Rattle.std.specs.Prelude.{◌≡◌, ℕ, List, Ok, None, MatchResult, ◌≤◌, ◌<◌, length, true};
ghost use Rattle.std.specs.List.{insert, remove};
ghost use Rattle.hold_shapes.specs.declared.shape.Shape.TheVariants.{Keyed as KeyedOf};
ghost use Rattle.hold_shapes.specs.declared.edit.ShapeEdit.TheVariants.{PutKey, DropKey, RenameKey};
ghost use Rattle.hold_shapes.specs.declared.origins.Origin.TheVariants.{Old};
ghost use Rattle.texts.specs.Keys.{key_place, is_rising, key_rank};
ghost use Rattle.hold_shapes.specs.declared.plan.PlanFault.TheVariants.{NoMemory};
ghost use Rattle.hold_shapes.specs.Causes.{IsRefusal};
ghost use Rattle.hold_shapes.specs.Plans.{plan_keyed, add_key, rename_to, old_places};

use crate::keys::{is_at, place, rank};
use crate::origins::Origins;
use crate::parts::{with_item, without_item};
use crate::plan::{Plan, PlanFault};
use crate::plan_origins::{move_one, old_places, with_fresh, without_one};
use crate::shape::KeyedShape;
use shared_lists::SharedList;
use std::alloc::Global;
use texts::{Name, Twin};

// One more key among names in byte order.
#[tactic(auto, using(texts::proofs::KeyOrder::rising_rules))]
fn with_key(
    alloc: Global,
    names: &SharedList<Name>,
    at: usize,
    name: &Name,
    from: Origins,
) -> Result<Plan<KeyedShape>, PlanFault>
    requires rising { is_rising names.now ≡ true }
    requires absent { key_place name.now names.now ≡ None }
    requires place { at ≡ key_rank name.now names.now }
    requires within { at ≤ length names.now }
    ensures { MatchResult result
        (λ p. (p.shape ≡ insert names.now at name.now) × (p.from ≡ from))
        (λ fault. fault ≡ NoMemory) }
{
    let names = with_item(alloc, names, at, name.twin(alloc)?)?;
    Ok(Plan {
        shape: KeyedShape::of_rising(names),
        from,
    })
}

// A new key with fresh content.
pub(crate) fn put(
    alloc: Global,
    keys: &KeyedShape,
    name: &Name,
) -> Result<Plan<KeyedShape>, PlanFault>
    ensures { MatchResult result
        (λ p. plan_keyed keys.now (PutKey name.now) ≡ Ok (KeyedOf p.shape, p.from))
        (λ fault. IsRefusal (plan_keyed keys.now (PutKey name.now)) fault) }
{
    let names = keys.names();
    let at = rank(names, name);
    if is_at(names, at, name) {
        return Err(PlanFault::Present);
    }
    let from = with_fresh(alloc, names.len() as u64, at as u64)?;
    with_key(alloc, names, at, name, from)
}

// A key is removed with its content.
#[tactic(auto, using(texts::proofs::KeyOrder::rising_rules))]
pub(crate) fn drop_key(
    alloc: Global,
    keys: &KeyedShape,
    name: &Name,
) -> Result<Plan<KeyedShape>, PlanFault>
    ensures { MatchResult result
        (λ p. plan_keyed keys.now (DropKey name.now) ≡ Ok (KeyedOf p.shape, p.from))
        (λ fault. IsRefusal (plan_keyed keys.now (DropKey name.now)) fault) }
{
    let names = keys.names();
    let Some(at) = place(names, name) else {
        return Err(PlanFault::Place);
    };
    let from = without_one(alloc, names.len() as u64, at)?;
    let left = without_item(alloc, names, at as usize)?;
    Ok(Plan {
        shape: KeyedShape::of_rising(left),
        from,
    })
}

// The keys as they are, each with its content.
fn unchanged(alloc: Global, keys: &KeyedShape) -> Result<Plan<KeyedShape>, PlanFault>
    ensures { MatchResult result
        (λ p. (p.shape ≡ keys.now) × (p.from ≡ old_places (length keys.now)))
        (λ fault. fault ≡ NoMemory) }
{
    let from = old_places(alloc, keys.names().len() as u64)?;
    Ok(Plan {
        shape: keys.twin(alloc)?,
        from,
    })
}

// A name that is not a key in place of the key at a place.
#[tactic(auto, using(texts::proofs::KeyOrder::rising_rules))]
fn rename_to(
    alloc: Global,
    names: &SharedList<Name>,
    new: &Name,
    at: u64,
) -> Result<Plan<KeyedShape>, PlanFault>
    requires rising { is_rising names.now ≡ true }
    requires absent { key_place new.now names.now ≡ None }
    requires within { at < length names.now }
    ensures { MatchResult result
        (λ p. rename_to names.now new.now at None ≡ Ok (KeyedOf p.shape, p.from))
        (λ fault. fault ≡ NoMemory) }
{
    let left = without_item(alloc, names, at as usize)?;
    let to = rank(&left, new);
    let from = move_one(alloc, names.len() as u64, at, to as u64)?;
    with_key(alloc, &left, to, new, from)
}

// The content of one key under another.
pub(crate) fn rename(
    alloc: Global,
    keys: &KeyedShape,
    old: &Name,
    new: &Name,
) -> Result<Plan<KeyedShape>, PlanFault>
    ensures { MatchResult result
        (λ p. plan_keyed keys.now (RenameKey old.now new.now) ≡ Ok (KeyedOf p.shape, p.from))
        (λ fault. IsRefusal (plan_keyed keys.now (RenameKey old.now new.now)) fault) }
{
    let names = keys.names();
    let Some(at) = place(names, old) else {
        return Err(PlanFault::Place);
    };
    if old.is_same(new) {
        return unchanged(alloc, keys);
    }
    if place(names, new).is_some() {
        return Err(PlanFault::Present);
    }
    rename_to(alloc, names, new, at)
}
