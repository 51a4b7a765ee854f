//! A case: a lens program, a triple, and the answer that is wanted.

use anyhow::{Context, Result, bail};
use serde_json::Value;

/// A line of a file of cases.
#[derive(Clone, Copy)]
pub struct Case<'a> {
    row: &'a Value,
}

impl<'a> Case<'a> {
    /// Returns the case of a row. It is refused if the row is not an object.
    pub fn from_row(row: &'a Value) -> Result<Case<'a>> {
        if !row.is_object() {
            bail!("the row is not an object");
        }
        Ok(Case { row })
    }

    /// Returns the text of the lens program. It is refused if the case has none.
    pub fn program(&self) -> Result<&'a str> {
        self.part("program")?
            .as_str()
            .context("the program is not a text")
    }

    /// Returns the tree at one of the members `left`, `complement` and `right`. It is refused if the case has none.
    pub fn part(&self, name: &str) -> Result<&'a Value> {
        match self.row.get(name) {
            Some(value) => Ok(value),
            None => bail!("no member {name}"),
        }
    }

    /// Returns the answer that is wanted. It is refused if the case has none.
    pub fn wanted(&self) -> Result<&'a str> {
        self.part("answer")?
            .as_str()
            .context("the answer is not a text")
    }
}
