//! A case: the payloads of a store, and the answer that is wanted.

use anyhow::{Context, Result, bail};
use lens_io::Payloads;
use serde_json::Value;
use std::alloc::Global;
use texts::Bytes;

/// A line of a file of cases.
#[derive(Clone, Copy)]
pub struct Case<'a> {
    row: &'a Value,
}

impl<'a> Case<'a> {
    /// Returns the case of a row. It is refused if the row is not an object.
    pub fn from_row(row: &'a Value) -> Result<Case<'a>> {
        if !row.is_object() {
            bail!("the row is not an object");
        }
        Ok(Case { row })
    }

    /// Returns the payloads, each the bytes of a text. It is refused if the case has none.
    pub fn payloads(&self, alloc: Global) -> Result<Payloads> {
        let texts = self
            .part("payloads")?
            .as_array()
            .context("the payloads are not an array")?;
        let mut payloads = Vec::new(alloc);
        for text in texts {
            let text = text.as_str().context("a payload is not a text")?;
            payloads.push(Bytes::from_vec(Vec::from_slice(alloc, text.as_bytes())?))?;
        }
        Ok(Payloads::from_vec(payloads))
    }

    /// Returns the answer that is wanted. It is refused if the case has none.
    pub fn wanted(&self) -> Result<&'a str> {
        self.part("answer")?
            .as_str()
            .context("the answer is not a text")
    }

    // The tree at a member. It is refused if the case has none.
    fn part(&self, name: &str) -> Result<&'a Value> {
        match self.row.get(name) {
            Some(value) => Ok(value),
            None => bail!("no member {name}"),
        }
    }
}
