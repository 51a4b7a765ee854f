//! Shapes, origins and places as JSON trees.

use crate::answers::{object, text};
use crate::arguments::{as_count, counts, name, shared_depths, shared_names};
use crate::case::Case;
use anyhow::{Context, Result, bail};
use hold_shapes::{Held, KeyedShape, ListShape, Origin, Origins, Path, Place, Shape, TreeShape};
use serde_json::Value;
use std::alloc::Global;
use value_json::{only_member, read_count};

/// Returns the shape that a member is, in a box. It is refused if there is no such member, or if it is not a shape.
pub fn shape_of(alloc: Global, case: &Case<'_>, member: &str) -> Result<Box<Shape>> {
    let shape = read_shape(alloc, case.argument(member)?)?;
    Ok(Box::new(alloc, shape)?)
}

// The shape that a tree is: an object with one of the members `list`, `keyed` and `tree`. It is refused if it is not a
// shape.
fn read_shape(alloc: Global, tree: &Value) -> Result<Shape> {
    let (kind, content) = only_member(tree).context("not a shape")?;
    match kind {
        "list" => list_shape(content),
        "keyed" => keyed_shape(alloc, content),
        "tree" => tree_shape(alloc, content),
        _ => bail!("not a kind of shape"),
    }
}

fn list_shape(content: &Value) -> Result<Shape> {
    let count = as_count(content)?;
    Ok(Shape::List(ListShape { count }))
}

fn keyed_shape(alloc: Global, content: &Value) -> Result<Shape> {
    match KeyedShape::from_names(shared_names(alloc, content)?) {
        Some(keys) => Ok(keys.into_shape()),
        None => bail!("the names are not keys"),
    }
}

fn tree_shape(alloc: Global, content: &Value) -> Result<Shape> {
    match TreeShape::from_depths(shared_depths(alloc, content)?) {
        Some(nodes) => Ok(nodes.into_shape()),
        None => bail!("the depths are not a tree"),
    }
}

/// Returns the tree of a shape.
pub fn shape_tree(alloc: Global, shape: &Shape) -> Result<Value> {
    match shape {
        Shape::List(list) => object(alloc, "list", Value::from(list.count)),
        Shape::Keyed(keys) => keyed_tree(alloc, keys),
        Shape::Tree(nodes) => nodes_tree(alloc, nodes),
    }
}

fn keyed_tree(alloc: Global, keys: &KeyedShape) -> Result<Value> {
    let mut items = Vec::new(alloc);
    for key in keys.names() {
        items.push(text(alloc, key.as_str())?)?;
    }
    object(alloc, "keyed", Value::Array(items))
}

fn nodes_tree(alloc: Global, nodes: &TreeShape) -> Result<Value> {
    let mut items = Vec::new(alloc);
    for depth in nodes.depths() {
        items.push(Value::from(*depth))?;
    }
    object(alloc, "tree", Value::Array(items))
}

/// Returns the origins that the member `from` has: numbers, and null for fresh ones. It is refused if it is not an
/// array, or if an item is neither.
pub fn origins_of(alloc: Global, case: &Case<'_>) -> Result<Origins> {
    let items = case.items("from")?;
    let mut origins = Vec::new(alloc);
    for item in items {
        origins.push(origin_of(item)?)?;
    }
    Ok(Origins::from_vec(alloc, origins)?)
}

fn origin_of(tree: &Value) -> Result<Origin> {
    if tree.is_null() {
        return Ok(Origin::Fresh);
    }
    Ok(Origin::Old(as_count(tree)?))
}

/// Returns the array of origins, with null for a fresh one.
pub fn origin_items(alloc: Global, origins: &Origins) -> Result<Value> {
    let mut items = Vec::new(alloc);
    for origin in origins {
        items.push(origin_tree(&origin))?;
    }
    Ok(Value::Array(items))
}

fn origin_tree(origin: &Origin) -> Value {
    match origin {
        Origin::Old(place) => Value::from(*place),
        Origin::Fresh => Value::Null,
    }
}

/// Returns the place that a tree is: of a list a number, of a keyed map a text, of an ordered tree an array of numbers.
/// It is refused if it is none of these.
pub fn place_of(alloc: Global, tree: &Value) -> Result<Place> {
    if let Some(index) = read_count(tree) {
        return Ok(Place::Index(index));
    }
    if tree.is_string() {
        return Ok(Place::Key(name(alloc, tree)?));
    }
    Ok(Place::Node(Path::from_vec(counts(alloc, tree)?)))
}
