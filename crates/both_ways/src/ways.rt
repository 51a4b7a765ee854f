//! Texts read in both ways, as they are and damaged.

use crate::counts::{Counts, Way};
use crate::damage::damaged;
use anyhow::{Result, bail};
use json::Scratch;
use rand_pcg::Pcg32;
use std::alloc::{AllocError, Global};
use std::str;

// The most bytes of a text that is damaged. A longer one is read as it is.
const MOST_BYTES: usize = 4096;

/// What texts are read as.
pub trait Texts {
    /// Reads a text by its tokens and a text as a tree, and returns how it was read, or `None` if the two are read as
    /// something else. It is refused if memory runs out.
    fn way(&self, alloc: Global, both: &Pair<'_>, scratch: &mut Scratch) -> Result<Option<Way>>;
}

/// A text that is read by its tokens, and one that is read as a tree.
#[derive(Clone, Copy)]
pub struct Pair<'a> {
    pub by_tokens: &'a [u8],
    pub as_tree: &'a [u8],
}

/// How texts of one kind were read in both ways.
#[derive(Drop)]
pub struct BothWays {
    copies: u64,
    scratch: Scratch,
    chance: Pcg32,
    whole: Counts,
    damaged: Counts,
    told_apart: u64,
}

impl BothWays {
    /// No texts yet. This many damaged copies of each text will be read. The damage is the same each time.
    pub fn new(alloc: Global, copies: u64) -> BothWays {
        BothWays {
            copies,
            scratch: Scratch::new(alloc),
            chance: Pcg32::new(14, 7),
            whole: Counts::new(),
            damaged: Counts::new(),
            told_apart: 0,
        }
    }

    /// Reads a text and damaged copies of it in both ways. It is refused if the two ways differ, or if memory runs out.
    pub fn take<T: Texts>(&mut self, alloc: Global, texts: &T, text: &[u8]) -> Result<()> {
        let way = way_of(alloc, texts, text, &mut self.scratch)?;
        self.whole.count(way);
        if text.len() > MOST_BYTES {
            return Ok(());
        }
        for _ in 0..self.copies {
            self.take_copy(alloc, texts, text)?;
        }
        Ok(())
    }

    // Reads a damaged copy of a text in both ways. A copy that is as the text was is passed over.
    fn take_copy<T: Texts>(&mut self, alloc: Global, texts: &T, text: &[u8]) -> Result<()> {
        let copy = damaged(alloc, &mut self.chance, text)?;
        if copy.as_slice() == text {
            return Ok(());
        }
        self.take_damaged(alloc, texts, text, copy.as_slice())
    }

    // Reads a damaged copy in both ways. Then the text itself is read by its tokens, and compared with the copy.
    fn take_damaged<T: Texts>(
        &mut self,
        alloc: Global,
        texts: &T,
        text: &[u8],
        copy: &[u8],
    ) -> Result<()> {
        let way = way_of(alloc, texts, copy, &mut self.scratch)?;
        self.damaged.count(way);
        let pair = Pair {
            by_tokens: text,
            as_tree: copy,
        };
        if texts.way(alloc, &pair, &mut self.scratch)?.is_none() {
            self.told_apart = self.told_apart.saturating_add(1);
        }
        Ok(())
    }

    /// Two lines that say how many texts and damaged copies there were, and how they were read.
    pub fn lines(&self, alloc: Global, name: &str) -> Result<String, AllocError> {
        let whole = self.whole.line(alloc)?;
        let damaged = self.damaged.line(alloc)?;
        let told_apart = self.told_apart;
        format!(in alloc;
            "{name}: {whole}\n{name} with damage: {damaged}, {told_apart} told apart from the text"
        )
    }
}

// How a text was read. It is refused if the two ways differ.
fn way_of<T: Texts>(alloc: Global, texts: &T, text: &[u8], scratch: &mut Scratch) -> Result<Way> {
    let pair = Pair {
        by_tokens: text,
        as_tree: text,
    };
    match texts.way(alloc, &pair, scratch)? {
        Some(way) => Ok(way),
        None => differ(alloc, text),
    }
}

fn differ(alloc: Global, text: &[u8]) -> Result<Way> {
    let shown = shown(alloc, text)?;
    bail!("read differently by its tokens and as a tree: {shown}")
}

// A text with its escapes, or the numbers of its bytes if it is not UTF-8.
fn shown(alloc: Global, text: &[u8]) -> Result<String, AllocError> {
    match str::from_utf8(text) {
        Ok(text) => format!(in alloc; "{text:?}"),
        Err(_) => format!(in alloc; "{text:?}"),
    }
}
