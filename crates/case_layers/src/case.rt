//! A case: the call that is made, its arguments, and the answer that is wanted.

use crate::arguments::{as_count, as_items, as_text};
use anyhow::{Result, bail};
use serde_json::{Map, Value, put};
use std::alloc::Global;

/// A line of a file of cases.
#[derive(Clone, Copy)]
pub struct Case<'a> {
    row: &'a Value,
}

impl<'a> Case<'a> {
    /// Returns the case of a row. It is refused if the row is not an object.
    pub fn from_row(row: &'a Value) -> Result<Case<'a>> {
        if !row.is_object() {
            bail!("the row is not an object");
        }
        Ok(Case { row })
    }

    /// Whether the row has a member of this name.
    pub fn has(&self, name: &str) -> bool {
        self.row.get(name).is_some()
    }

    /// Returns the member of this name. It is refused if there is none.
    pub fn argument(&self, name: &str) -> Result<&'a Value> {
        match self.row.get(name) {
            Some(value) => Ok(value),
            None => bail!("no member {name}"),
        }
    }

    /// Returns the text that the member is. It is refused if there is none.
    pub fn text(&self, name: &str) -> Result<&'a str> {
        as_text(self.argument(name)?)
    }

    /// Returns the number that the member is, from 0 below 2^64. It is refused if there is none.
    pub fn count(&self, name: &str) -> Result<u64> {
        as_count(self.argument(name)?)
    }

    /// Returns the items of the array that the member is. It is refused if there is none.
    pub fn items(&self, name: &str) -> Result<&'a [Value]> {
        as_items(self.argument(name)?)
    }

    /// Returns what is wanted: the member `answer`, or an object of the members `ok`, `then`, `fault`, `cause` and `at`
    /// that the row has. It is refused if the row has `answer` and one of the first four, or none of these five.
    pub fn wanted(&self, alloc: Global) -> Result<Value> {
        match self.row.get("answer") {
            Some(_) if self.has_outcome() => bail!("a case has one answer"),
            Some(answer) => Ok(answer.clone()?),
            None if self.has_outcome() => self.outcome(alloc),
            None => bail!("a case has an answer"),
        }
    }

    // Whether the row has one of the members `ok`, `then`, `fault` and `cause`.
    fn has_outcome(&self) -> bool {
        self.has("ok") || self.has("then") || self.has("fault") || self.has("cause")
    }

    // The object of the members that say how the call ends.
    fn outcome(&self, alloc: Global) -> Result<Value> {
        let mut members = Map::new(alloc);
        for name in ["ok", "then", "fault", "cause", "at"] {
            self.copy_member(alloc, &mut members, name)?;
        }
        Ok(Value::Object(members))
    }

    // Puts a copy of the member of this name among the others, if the row has it.
    fn copy_member(
        &self,
        alloc: Global,
        members: &mut Map<String, Value>,
        name: &str,
    ) -> Result<()> {
        if let Some(value) = self.row.get(name) {
            put(members, alloc, name, value.clone()?)?;
        }
        Ok(())
    }
}
