//! Arguments of any call, read from their trees: texts, names, numbers, sides.

use anyhow::{Context, Result, bail};
use hold_shapes::{DepthSeq, SharedList};
use serde_json::Value;
use std::alloc::Global;
use texts::{Name, Names, Side, Str};
use value_json::{read_count, read_counts};

/// Returns the text that a tree is. It is refused if it is not one.
pub fn as_text(tree: &Value) -> Result<&str> {
    tree.as_str().context("not a text")
}

/// Returns the number that a tree is, from 0 below 2^64. It is refused if it is not one.
pub fn as_count(tree: &Value) -> Result<u64> {
    read_count(tree).context("not a number from 0 below 2^64")
}

/// Returns the items of the array that a tree is. It is refused if it is not one.
pub fn as_items(tree: &Value) -> Result<&[Value]> {
    match tree.as_array() {
        Some(items) => Ok(items.as_slice()),
        None => bail!("not an array"),
    }
}

/// Returns a copy of the text that a tree is. It is refused if it is not one.
pub fn text(alloc: Global, tree: &Value) -> Result<Str> {
    let text = as_text(tree)?;
    Ok(Str::from_string(String::from_str(alloc, text)?))
}

/// Returns the name that a tree is. It is refused if it is not a text.
pub fn name(alloc: Global, tree: &Value) -> Result<Name> {
    let text = as_text(tree)?;
    Ok(Name::from_string(String::from_str(alloc, text)?))
}

/// Returns the names that an array has. It is refused if an item is not a text.
pub fn names(alloc: Global, tree: &Value) -> Result<Names> {
    Ok(Names::from_vec(name_items(alloc, tree)?))
}

/// Returns the names that an array has, as a list whose copies share them. It is refused if an item is not a text.
pub fn shared_names(alloc: Global, tree: &Value) -> Result<SharedList<Name>> {
    let names = name_items(alloc, tree)?;
    Ok(SharedList::from_vec(alloc, names)?)
}

fn name_items(alloc: Global, tree: &Value) -> Result<Vec<Name>> {
    let mut names = Vec::new(alloc);
    for item in as_items(tree)? {
        names.push(name(alloc, item)?)?;
    }
    Ok(names)
}

/// Returns the numbers that an array has. It is refused if an item is not a number from 0 below 2^64.
pub fn counts(alloc: Global, tree: &Value) -> Result<Vec<u64>> {
    match read_counts(alloc, as_items(tree)?)? {
        Some(counts) => Ok(counts),
        None => bail!("an item is not a number"),
    }
}

/// Returns the depths that an array has, as a list whose copies share them. It is refused as by `counts`.
pub fn shared_depths(alloc: Global, tree: &Value) -> Result<DepthSeq> {
    let depths = counts(alloc, tree)?;
    Ok(DepthSeq::from_vec(alloc, depths)?)
}

/// Returns the side that a tree names. It is refused if it is neither `left` nor `right`.
pub fn side(tree: &Value) -> Result<Side> {
    match as_text(tree)? {
        "left" => Ok(Side::Left),
        "right" => Ok(Side::Right),
        _ => bail!("not a side"),
    }
}
