//! Calls on shapes: plans, places, and what is moved by a plan.

ghost use Rattle.std.specs.Prelude.{IsTrue, All};
ghost use Rattle.hold_shapes.specs.Gather.{IsBelow};

use crate::answers::{fault, pair, text};
use crate::arguments;
use crate::case::Case;
use crate::shape_trees::{origin_items, origins_of, place_of, shape_of, shape_tree};
use crate::word_trees::primitive_of;
use anyhow::{Result, bail};
use edit_module::word::Primitive;
use hold_shapes::{
    Held, KeyedShape, Origin, Origins, Plan, PlanFault, Shape, ShapeEdit, SharedList, TreeShape,
    gather,
};
use serde_json::Value;
use std::alloc::Global;
use texts::Str;

/// Runs `plan`: the new shape with the origins of its places, or the cause.
pub fn run_plan(alloc: Global, case: &Case<'_>) -> Result<Value> {
    let primitive = primitive_of(alloc, case.argument("edit")?)?;
    let planned = plan_of(alloc, &primitive, case);
    drop(primitive);
    planned
}

fn plan_of(alloc: Global, primitive: &Primitive, case: &Case<'_>) -> Result<Value> {
    match primitive {
        Primitive::Shape(edit) => plan_or_fault(alloc, edit, case),
        _ => bail!("not an edit of a shape"),
    }
}

fn plan_or_fault(alloc: Global, edit: &ShapeEdit, case: &Case<'_>) -> Result<Value> {
    let shape = shape_of(alloc, case, "shape")?;
    match shape.plan(alloc, edit) {
        Ok(plan) => {
            let tree = plan_tree(alloc, &plan);
            drop(plan);
            tree
        }
        Err(refusal) => plan_fault(alloc, &refusal),
    }
}

fn plan_tree(alloc: Global, plan: &Plan<Shape>) -> Result<Value> {
    let shape = shape_tree(alloc, &plan.shape)?;
    let from = origin_items(alloc, &plan.from)?;
    pair(alloc, ("shape", shape), ("from", from))
}

fn plan_fault(alloc: Global, refusal: &PlanFault) -> Result<Value> {
    match refusal {
        PlanFault::Kind => fault(alloc, "kind"),
        PlanFault::Place => fault(alloc, "place"),
        PlanFault::Range => fault(alloc, "range"),
        PlanFault::Present => fault(alloc, "present"),
        PlanFault::Length => fault(alloc, "length"),
        PlanFault::Deep => fault(alloc, "deep"),
        PlanFault::NoMemory => bail!("out of memory"),
    }
}

/// Runs `size`: the number of places.
pub fn run_size(alloc: Global, case: &Case<'_>) -> Result<Value> {
    let shape = shape_of(alloc, case, "shape")?;
    Ok(Value::from(shape.size()))
}

/// Runs `place`: the number of the place, or null.
pub fn run_place(alloc: Global, case: &Case<'_>) -> Result<Value> {
    let shape = shape_of(alloc, case, "shape")?;
    let at = place_of(alloc, case.argument("at")?)?;
    Ok(Value::from(shape.place(&at)))
}

/// Runs `is_same_shape`.
pub fn run_is_same(alloc: Global, case: &Case<'_>) -> Result<Value> {
    let left = shape_of(alloc, case, "left")?;
    let right = shape_of(alloc, case, "right")?;
    Ok(Value::Bool(left.is_same(&right)))
}

/// Runs `from_names`: whether the names are the keys of a keyed map.
pub fn run_from_names(alloc: Global, case: &Case<'_>) -> Result<Value> {
    let names = arguments::shared_names(alloc, case.argument("names")?)?;
    Ok(Value::Bool(KeyedShape::from_names(names).is_some()))
}

/// Runs `from_depths`: whether the numbers are the depths of an ordered tree.
pub fn run_from_depths(alloc: Global, case: &Case<'_>) -> Result<Value> {
    let depths = arguments::shared_depths(alloc, case.argument("depths")?)?;
    Ok(Value::Bool(TreeShape::from_depths(depths).is_some()))
}

/// Runs `gather`: the texts at the new places. It is refused if an origin is not a place.
pub fn run_gather(alloc: Global, case: &Case<'_>) -> Result<Value> {
    let from = origins_of(alloc, case)?;
    gathered_items(alloc, &from, case)
}

fn gathered_items(alloc: Global, from: &Origins, case: &Case<'_>) -> Result<Value> {
    let items = texts_of(alloc, case.items("items")?)?;
    let gathered = gathered_texts(alloc, from, &items, case)?;
    text_items(alloc, &gathered)
}

fn gathered_texts(
    alloc: Global,
    from: &Origins,
    items: &SharedList<Str>,
    case: &Case<'_>,
) -> Result<SharedList<Str>> {
    let fresh = arguments::text(alloc, case.argument("fresh")?)?;
    if !are_below(from, items.len()) {
        bail!("an origin is not a place");
    }
    Ok(gather(alloc, from, items, &fresh)?)
}

fn texts_of(alloc: Global, trees: &[Value]) -> Result<SharedList<Str>> {
    let mut texts = Vec::new(alloc);
    for tree in trees {
        texts.push(arguments::text(alloc, tree)?)?;
    }
    Ok(SharedList::from_vec(alloc, texts)?)
}

fn text_items(alloc: Global, texts: &SharedList<Str>) -> Result<Value> {
    let mut items = Vec::new(alloc);
    for each in texts {
        items.push(text(alloc, each.as_str())?)?;
    }
    Ok(Value::Array(items))
}

/// Whether each origin is fresh or below the number of places.
pub fn are_below(origins: &Origins, places: usize) -> bool
    ensures { IsTrue result → All (IsBelow places) origins.now }
{
    origins.iter().all(|origin| is_below(&origin, places))
}

// Whether an origin is fresh or below the number of places.
fn is_below(origin: &Origin, places: usize) -> bool
    ensures { IsTrue result → IsBelow places origin.now }
{
    match origin {
        Origin::Old(place) => *place < places as u64,
        Origin::Fresh => true,
    }
}

/// Runs `splice`: the new text, or null if the range is beyond the text.
pub fn run_splice(alloc: Global, case: &Case<'_>) -> Result<Value> {
    let old = arguments::text(alloc, case.argument("text")?)?;
    match spliced(alloc, &old, case)? {
        Some(new) => text(alloc, new.as_str()),
        None => Ok(Value::Null),
    }
}

fn spliced(alloc: Global, old: &Str, case: &Case<'_>) -> Result<Option<Str>> {
    let with = arguments::text(alloc, case.argument("with")?)?;
    Ok(old.splice(alloc, case.count("at")?, case.count("count")?, &with)?)
}

/// Runs `character_count`.
pub fn run_character_count(alloc: Global, case: &Case<'_>) -> Result<Value> {
    let text = arguments::text(alloc, case.argument("text")?)?;
    Ok(Value::from(text.character_count() as u64))
}
