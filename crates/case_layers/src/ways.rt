//! The lines, words and documents of the rows, read by their tokens and as trees.

use crate::bytes::bytes;
use crate::case::Case;
use crate::type_trees::ty_of;
use anyhow::Result;
use both_ways::{BothWays, Documents, Lines, Rows};
use serde_json::Value;
use std::alloc::Global;

// How many damaged copies of a text are read.
const COPIES_OF_LINES: u64 = 40;

const COPIES_OF_DOCUMENTS: u64 = 6;

/// How the lines and the documents of rows were read. A word is read as the edit of a line.
#[derive(Drop)]
pub struct RowWays {
    lines: BothWays,
    documents: BothWays,
}

impl RowWays {
    /// No rows yet.
    pub fn new(alloc: Global) -> RowWays {
        RowWays {
            lines: BothWays::new(alloc, COPIES_OF_LINES),
            documents: BothWays::new(alloc, COPIES_OF_DOCUMENTS),
        }
    }

    fn take_row(&mut self, alloc: Global, row: &Value) -> Result<()> {
        let case = Case::from_row(row)?;
        match case.text("call")? {
            "read_entry" | "is_blank" => self.take_line(alloc, &case),
            "read_word" if case.has("tree") => self.take_word(alloc, case.argument("tree")?),
            "read_doc" => self.take_doc(alloc, &case, "tree"),
            "act" | "inverse" => self.take_edited(alloc, &case),
            "construct" => self.take_doc(alloc, &case, "doc"),
            _ => Ok(()),
        }
    }

    // Reads an edit and the document that it is made on.
    fn take_edited(&mut self, alloc: Global, case: &Case<'_>) -> Result<()> {
        self.take_word(alloc, case.argument("edit")?)?;
        self.take_doc(alloc, case, "doc")
    }

    fn take_line(&mut self, alloc: Global, case: &Case<'_>) -> Result<()> {
        let line = bytes(alloc, case)?;
        self.lines.take(alloc, &Lines, line.as_slice())
    }

    fn take_word(&mut self, alloc: Global, word: &Value) -> Result<()> {
        let word = word.to_string(alloc)?;
        let line = format!(in alloc; "{{\"edit\":{word},\"side\":\"left\"}}")?;
        self.lines.take(alloc, &Lines, line.as_bytes())
    }

    // Reads the document that a member is, or that the bytes of the row are.
    fn take_doc(&mut self, alloc: Global, case: &Case<'_>, member: &str) -> Result<()> {
        let text = doc_text(alloc, case, member)?;
        self.take_doc_text(alloc, case, text.as_slice())
    }

    fn take_doc_text(&mut self, alloc: Global, case: &Case<'_>, text: &[u8]) -> Result<()> {
        let ty = ty_of(alloc, case, "type")?;
        self.documents.take(alloc, &Documents { ty: &ty }, text)
    }
}

impl Rows for RowWays {
    fn take(&mut self, alloc: Global, row: &str) -> Result<()> {
        let row = Value::from_str(alloc, row)?;
        let taken = self.take_row(alloc, &row);
        drop(row);
        taken
    }

    fn report(&self, alloc: Global) -> Result<String> {
        let lines = self.lines.lines(alloc, "lines in both ways")?;
        let documents = self.documents.lines(alloc, "documents in both ways")?;
        Ok(format!(in alloc; "{lines}\n{documents}")?)
    }
}

// The text of the document that a member is, or that the bytes of the row are.
fn doc_text(alloc: Global, case: &Case<'_>, member: &str) -> Result<Vec<u8>> {
    if case.has(member) {
        let text = case.argument(member)?.to_string(alloc)?;
        return Ok(text.into_bytes());
    }
    bytes(alloc, case)
}
