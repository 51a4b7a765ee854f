//! A case: a lens program, and the entries of a journal.

use anyhow::{Context, Result, bail};
use edit_json::{EditFault, read_word};
use edit_module::Entry;
use lens_syntax::{Program, read_program};
use lens_types::{Typed, check};
use serde_json::Value;
use std::alloc::Global;
use texts::Side;

/// A line of a file of cases.
#[derive(Clone, Copy)]
pub struct Case<'a> {
    row: &'a Value,
}

impl<'a> Case<'a> {
    /// Returns the case of a row. It is refused if the row is not an object.
    pub fn from_row(row: &'a Value) -> Result<Case<'a>> {
        if !row.is_object() {
            bail!("the row is not an object");
        }
        Ok(Case { row })
    }

    /// Returns the lens of the program. It is refused if the case has none, and if it is not accepted.
    pub fn lens(&self, alloc: Global) -> Result<Typed> {
        let program = self
            .part("program")?
            .as_str()
            .context("the program is not a text")?;
        match read_program(alloc, program.as_bytes()) {
            Ok(program) => checked(alloc, &program),
            Err(fault) => bail!("the program is not read: {fault:?}"),
        }
    }

    /// Returns the texts of the entries. It is refused if the case has none.
    pub fn entries(&self) -> Result<&'a Vec<Value>> {
        self.part("entries")?
            .as_array()
            .context("the entries are not an array")
    }

    fn part(&self, name: &str) -> Result<&'a Value> {
        match self.row.get(name) {
            Some(value) => Ok(value),
            None => bail!("no member {name}"),
        }
    }
}

fn checked(alloc: Global, program: &Program) -> Result<Typed> {
    match check(alloc, program) {
        Ok(lens) => Ok(lens),
        Err(_) => bail!("the program is not a lens"),
    }
}

/// The entry that a text is, or `None` if it is not one. It is refused if memory runs out while the edit is read.
pub fn entry_of(alloc: Global, text: &Value) -> Result<Option<Entry>> {
    let text = text.as_str().context("an entry is not a text")?;
    match Value::from_str(alloc, text) {
        Ok(tree) => entry_of_tree(alloc, &tree),
        Err(_) => Ok(None),
    }
}

fn entry_of_tree(alloc: Global, tree: &Value) -> Result<Option<Entry>> {
    let Some(side) = side_of(tree) else {
        return Ok(None);
    };
    let Some(edit) = tree.get("edit") else {
        return Ok(None);
    };
    match read_word(alloc, edit) {
        Ok(word) => Ok(Some(Entry { side, word })),
        Err(EditFault::NoMemory) => bail!("out of memory"),
        Err(EditFault::NotAnEdit) => Ok(None),
    }
}

fn side_of(tree: &Value) -> Option<Side> {
    match tree.get("side")?.as_str()? {
        "left" => Some(Side::Left),
        "right" => Some(Side::Right),
        _ => None,
    }
}
