//! The documents and complements of the rows, read by their tokens and as trees.

use crate::case::Case;
use crate::decision::lens_of;
use anyhow::Result;
use both_ways::{BothWays, Complements, Documents, Rows};
use doc_values::Ty;
use lens_types::Typed;
use serde_json::Value;
use std::alloc::Global;

// How many damaged copies of a text are read.
const COPIES_OF_DOCUMENTS: u64 = 6;

const COPIES_OF_COMPLEMENTS: u64 = 12;

/// How the documents and the complements of rows were read.
#[derive(Drop)]
pub struct RowWays {
    documents: BothWays,
    complements: BothWays,
}

impl RowWays {
    /// No rows yet.
    pub fn new(alloc: Global) -> RowWays {
        RowWays {
            documents: BothWays::new(alloc, COPIES_OF_DOCUMENTS),
            complements: BothWays::new(alloc, COPIES_OF_COMPLEMENTS),
        }
    }

    // Reads the triple of a row.
    fn take_row(&mut self, alloc: Global, row: &Value) -> Result<()> {
        let case = Case::from_row(row)?;
        let lens = Box::new(alloc, lens_of(alloc, case.program()?)?)?;
        self.take_triple(alloc, &lens, &case)
    }

    fn take_triple(&mut self, alloc: Global, lens: &Typed, case: &Case<'_>) -> Result<()> {
        self.take_doc(alloc, lens.left(), case.part("left")?)?;
        self.take_doc(alloc, lens.right(), case.part("right")?)?;
        self.take_comp(alloc, lens, case.part("complement")?)
    }

    fn take_doc(&mut self, alloc: Global, ty: &Ty, tree: &Value) -> Result<()> {
        let text = tree.to_string(alloc)?;
        self.documents
            .take(alloc, &Documents { ty }, text.as_bytes())
    }

    fn take_comp(&mut self, alloc: Global, lens: &Typed, tree: &Value) -> Result<()> {
        let text = tree.to_string(alloc)?;
        self.complements
            .take(alloc, &Complements { lens }, text.as_bytes())
    }
}

impl Rows for RowWays {
    fn take(&mut self, alloc: Global, row: &str) -> Result<()> {
        let row = Value::from_str(alloc, row)?;
        let taken = self.take_row(alloc, &row);
        drop(row);
        taken
    }

    fn report(&self, alloc: Global) -> Result<String> {
        let documents = self.documents.lines(alloc, "documents in both ways")?;
        let complements = self.complements.lines(alloc, "complements in both ways")?;
        Ok(format!(in alloc; "{documents}\n{complements}")?)
    }
}
