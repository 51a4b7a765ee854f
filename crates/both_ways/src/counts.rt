//! How texts were read, counted.

use std::alloc::{AllocError, Global};

/// How a text was read.
#[derive(Clone, Copy)]
pub enum Way {
    /// By its tokens, and alike as a tree.
    Tokens,
    /// As a tree alone: its tokens said nothing.
    Tree,
    /// It was refused.
    Refused,
}

/// How many texts were read in each way.
#[derive(Clone, Copy)]
pub(crate) struct Counts {
    by_tokens: u64,
    as_trees: u64,
    refused: u64,
}

impl Counts {
    pub(crate) fn new() -> Counts {
        Counts {
            by_tokens: 0,
            as_trees: 0,
            refused: 0,
        }
    }

    pub(crate) fn count(&mut self, way: Way) {
        match way {
            Way::Tokens => self.by_tokens = self.by_tokens.saturating_add(1),
            Way::Tree => self.as_trees = self.as_trees.saturating_add(1),
            Way::Refused => self.refused = self.refused.saturating_add(1),
        }
    }

    /// A line that says how many texts there were, and how they were read.
    pub(crate) fn line(&self, alloc: Global) -> Result<String, AllocError> {
        let (by_tokens, as_trees, refused) = (self.by_tokens, self.as_trees, self.refused);
        let all = by_tokens.saturating_add(as_trees).saturating_add(refused);
        format!(in alloc;
            "{all} alike, {by_tokens} by tokens, {as_trees} as trees alone, {refused} refused"
        )
    }
}
