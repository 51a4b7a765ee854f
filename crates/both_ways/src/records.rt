//! Payloads of the records of a store, read in both ways.

use crate::complements::{is_comp, is_comp_of};
use crate::counts::Way;
use crate::documents::{doc_of_tree, is_doc};
use crate::ways::{Pair, Texts};
use anyhow::Result;
use doc_values::{Doc, Ty};
use edit_journal::append_change;
use edit_module::Change;
use edit_session::Triple;
use json::Scratch;
use lens_types::Typed;
use serde_json::Value;
use std::alloc::{AllocError, Global};
use store_records::{
    change_by_tokens, change_in, opening_by_tokens, opening_in, read_tree, snapshot_by_tokens,
    snapshot_in,
};

// ---- the first payload

/// First payloads of stores: the text of a program, and a version.
#[derive(Clone, Copy)]
pub struct Openings;

impl Texts for Openings {
    fn way(&self, alloc: Global, both: &Pair<'_>, scratch: &mut Scratch) -> Result<Option<Way>> {
        let tree = read_tree(alloc, both.as_tree)?;
        let by_tokens = opening_by_tokens(both.by_tokens, scratch);
        Ok(opening_way(by_tokens, opening_of(&tree)))
    }
}

fn opening_of(tree: &Option<Value>) -> Option<(&str, u64)> {
    match tree {
        Some(tree) => opening_in(tree),
        None => None,
    }
}

// How an opening was read. `None` if one was read by tokens, and not the same one as a tree.
fn opening_way(by_tokens: Option<(&str, u64)>, as_tree: Option<(&str, u64)>) -> Option<Way> {
    match (by_tokens, as_tree) {
        (Some(one), Some(other)) if is_same_opening(one, other) => Some(Way::Tokens),
        (Some(_), _) => None,
        (None, Some(_)) => Some(Way::Tree),
        (None, None) => Some(Way::Refused),
    }
}

fn is_same_opening(one: (&str, u64), other: (&str, u64)) -> bool {
    one.0 == other.0 && one.1 == other.1
}

// ---- changes

/// Payloads of changes.
#[derive(Clone, Copy)]
pub struct Changes;

impl Texts for Changes {
    fn way(&self, alloc: Global, both: &Pair<'_>, scratch: &mut Scratch) -> Result<Option<Way>> {
        let as_tree = change_as_tree(alloc, both.as_tree)?;
        let by_tokens = change_by_tokens(alloc, both.by_tokens, scratch);
        let by_tokens = text_of_change(alloc, by_tokens)?;
        Ok(change_way(&by_tokens, &as_tree))
    }
}

// The text of the change that a payload is as a tree.
fn change_as_tree(alloc: Global, payload: &[u8]) -> Result<Option<Vec<u8>>, AllocError> {
    match read_tree(alloc, payload)? {
        Some(tree) => text_of_change(alloc, change_in(alloc, &tree)?),
        None => Ok(None),
    }
}

fn text_of_change(alloc: Global, change: Option<Change>) -> Result<Option<Vec<u8>>, AllocError> {
    match change {
        Some(change) => Ok(Some(append_change(Vec::new(alloc), &change)?)),
        None => Ok(None),
    }
}

// How a change was read. `None` if one was read by tokens, and not the same one as a tree.
fn change_way(by_tokens: &Option<Vec<u8>>, as_tree: &Option<Vec<u8>>) -> Option<Way> {
    match (by_tokens, as_tree) {
        (Some(one), Some(other)) if one.as_slice() == other.as_slice() => Some(Way::Tokens),
        (Some(_), _) => None,
        (None, Some(_)) => Some(Way::Tree),
        (None, None) => Some(Way::Refused),
    }
}

// ---- snapshots

/// Payloads of snapshots, in the store of a lens.
#[derive(Clone, Copy)]
pub struct Snapshots<'a> {
    pub lens: &'a Typed,
}

impl<'a> Texts for Snapshots<'a> {
    fn way(&self, alloc: Global, both: &Pair<'_>, scratch: &mut Scratch) -> Result<Option<Way>> {
        let tree = read_tree(alloc, both.as_tree)?;
        let by_tokens = triple_by_tokens(alloc, self.lens, both.by_tokens, scratch);
        match parts_of(&tree) {
            Some(parts) => way_of_parts(alloc, self.lens, &by_tokens, &parts),
            None => Ok(by_tokens.is_none().then_some(Way::Refused)),
        }
    }
}

// The trees of a snapshot.
#[derive(Clone, Copy)]
struct Parts<'a> {
    comp: &'a Value,
    left: &'a Value,
    right: &'a Value,
}

fn parts_of(tree: &Option<Value>) -> Option<Parts<'_>> {
    match tree {
        Some(tree) => {
            let (comp, left, right) = snapshot_in(tree)?;
            Some(Parts { comp, left, right })
        }
        None => None,
    }
}

// The triple of the payload of a snapshot by its tokens. `None` says nothing of the payload.
fn triple_by_tokens(
    alloc: Global,
    lens: &Typed,
    payload: &[u8],
    scratch: &mut Scratch,
) -> Option<Box<Triple>> {
    let triple = snapshot_by_tokens(alloc, lens, payload, scratch)?;
    Box::new(alloc, triple).ok()
}

// How a snapshot was read. `None` if one was read by tokens, and the trees are none or another.
fn way_of_parts(
    alloc: Global,
    lens: &Typed,
    by_tokens: &Option<Box<Triple>>,
    parts: &Parts<'_>,
) -> Result<Option<Way>> {
    match by_tokens {
        Some(triple) => Ok(is_triple_of(alloc, lens, triple, parts)?.then_some(Way::Tokens)),
        None => Ok(Some(way_as_tree(alloc, lens, parts)?)),
    }
}

fn way_as_tree(alloc: Global, lens: &Typed, parts: &Parts<'_>) -> Result<Way> {
    if is_snapshot(alloc, lens, parts)? {
        Ok(Way::Tree)
    } else {
        Ok(Way::Refused)
    }
}

// Whether the trees are a complement and documents of the lens.
fn is_snapshot(alloc: Global, lens: &Typed, parts: &Parts<'_>) -> Result<bool> {
    Ok(
        is_comp(alloc, lens, parts.comp)?
            && is_doc(alloc, lens.left(), parts.left)?
            && is_doc(alloc, lens.right(), parts.right)?,
    )
}

// Whether the trees are those of a triple of the lens.
fn is_triple_of(alloc: Global, lens: &Typed, triple: &Triple, parts: &Parts<'_>) -> Result<bool> {
    Ok(
        is_comp_of(alloc, lens, &triple.comp, parts.comp)?
            && is_doc_of(alloc, lens.left(), &triple.left, parts.left)?
            && is_doc_of(alloc, lens.right(), &triple.right, parts.right)?,
    )
}

fn is_doc_of(alloc: Global, ty: &Ty, doc: &Doc, tree: &Value) -> Result<bool> {
    match doc_of_tree(alloc, ty, tree)? {
        Some(other) => Ok(other.is_same(doc)),
        None => Ok(false),
    }
}
