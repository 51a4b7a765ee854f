//! Complements of a lens, read in both ways.

use crate::counts::Way;
use crate::ways::{Pair, Texts};
use anyhow::{Result, bail};
use complement_file::{CompFault, read_comp, write_comp};
use edit_journal::{EntryFault, read_tree};
use json::Scratch;
use lens_check::conforms;
use lens_core::Comp;
use lens_tokens::complement_of_tokens;
use lens_types::Typed;
use serde_json::Value;
use std::alloc::Global;

/// Complements of a lens.
#[derive(Clone, Copy)]
pub struct Complements<'a> {
    pub lens: &'a Typed,
}

impl<'a> Texts for Complements<'a> {
    fn way(&self, alloc: Global, both: &Pair<'_>, scratch: &mut Scratch) -> Result<Option<Way>> {
        let as_tree = comp_as_tree(alloc, self.lens, both.as_tree)?;
        let by_tokens = comp_by_tokens(alloc, self.lens, both.by_tokens, scratch);
        comp_way(alloc, self.lens, &by_tokens, &as_tree)
    }
}

// How a complement was read. `None` if one was read by tokens, and the tree is not one or is another. Complements of a
// lens that differ have trees that differ.
fn comp_way(
    alloc: Global,
    lens: &Typed,
    by_tokens: &Option<Box<Comp>>,
    as_tree: &Option<Value>,
) -> Result<Option<Way>> {
    match (by_tokens, as_tree) {
        (Some(comp), Some(tree)) => Ok(is_comp_of(alloc, lens, comp, tree)?.then_some(Way::Tokens)),
        (Some(_), None) => Ok(None),
        (None, Some(_)) => Ok(Some(Way::Tree)),
        (None, None) => Ok(Some(Way::Refused)),
    }
}

// Whether a tree is that of a complement, which fits the lens.
pub(crate) fn is_comp_of(alloc: Global, lens: &Typed, comp: &Comp, tree: &Value) -> Result<bool> {
    if !conforms(lens, comp) {
        return Ok(false);
    }
    let written = write_comp(alloc, lens, comp)?;
    Ok(written == *tree)
}

// The complement of the lens that a text is by its tokens. `None` says nothing of the text.
fn comp_by_tokens(
    alloc: Global,
    lens: &Typed,
    text: &[u8],
    scratch: &mut Scratch,
) -> Option<Box<Comp>> {
    let comp = complement_of_tokens(alloc, lens, text, scratch)?;
    Box::new(alloc, comp).ok()
}

// The tree of a text, if it is that of a complement of the lens.
fn comp_as_tree(alloc: Global, lens: &Typed, text: &[u8]) -> Result<Option<Value>> {
    match read_tree(alloc, text) {
        Ok(tree) => if_comp(alloc, lens, tree),
        Err(EntryFault::NoMemory) => bail!("out of memory"),
        Err(_) => Ok(None),
    }
}

fn if_comp(alloc: Global, lens: &Typed, tree: Value) -> Result<Option<Value>> {
    if is_comp(alloc, lens, &tree)? {
        Ok(Some(tree))
    } else {
        Ok(None)
    }
}

// Whether a tree is that of a complement of the lens.
pub(crate) fn is_comp(alloc: Global, lens: &Typed, tree: &Value) -> Result<bool> {
    match read_comp(alloc, lens, tree) {
        Ok(_) => Ok(true),
        Err(CompFault::NotAComplement) => Ok(false),
        Err(CompFault::NoMemory) => bail!("out of memory"),
    }
}
