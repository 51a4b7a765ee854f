//! Answers as JSON trees.

use anyhow::Result;
use serde_json::{Map, Value, put};
use std::alloc::Global;
use value_json::write_text;

/// Returns the object with this member alone.
pub fn object(alloc: Global, name: &str, value: Value) -> Result<Value> {
    let members = with_member(alloc, Map::new(alloc), name, value)?;
    Ok(Value::Object(members))
}

/// Returns the object with these two members.
pub fn pair(alloc: Global, first: (&str, Value), second: (&str, Value)) -> Result<Value> {
    let members = with_member(alloc, Map::new(alloc), first.0, first.1)?;
    let members = with_member(alloc, members, second.0, second.1)?;
    Ok(Value::Object(members))
}

/// Returns the members with one more.
pub fn with_member(
    alloc: Global,
    mut members: Map<String, Value>,
    name: &str,
    value: Value,
) -> Result<Map<String, Value>> {
    put(&mut members, alloc, name, value)?;
    Ok(members)
}

/// Returns the text as a tree.
pub fn text(alloc: Global, text: &str) -> Result<Value> {
    Ok(write_text(alloc, text)?)
}

/// Returns the object whose member `ok` is the value.
pub fn ok(alloc: Global, value: Value) -> Result<Value> {
    object(alloc, "ok", value)
}

/// Returns the object whose member `ok` is whether something holds.
pub fn ok_bool(alloc: Global, holds: bool) -> Result<Value> {
    object(alloc, "ok", Value::Bool(holds))
}

/// Returns the object whose member has this text.
pub fn labelled(alloc: Global, name: &str, content: &str) -> Result<Value> {
    object(alloc, name, text(alloc, content)?)
}

/// Returns the object whose member `fault` has this text.
pub fn fault(alloc: Global, reason: &str) -> Result<Value> {
    labelled(alloc, "fault", reason)
}
