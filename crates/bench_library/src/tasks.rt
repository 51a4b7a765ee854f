//! The tasks, each of which is repeated.

use crate::values::{complement_in, document_in, document_of, first_line, tree_in, words_in};
use anyhow::{Context, Result, bail};
use doc_values::{Doc, Ty};
use edit_module::{Word, act};
use lens_check::consistent;
use lens_core::Comp;
use lens_types::Typed;
use serde_json::Value;
use std::alloc::Global;
use value_json::write_doc;

/// What the last word makes of the document on the first line. Each word of the lines behind it is applied to that
/// document, `times` times.
pub fn acted(alloc: Global, ty: &Ty, values: &str, times: u64) -> Result<String> {
    let (document, words) = first_line(values)?;
    let words = words_in(alloc, words)?;
    acted_by(alloc, ty, document, &words, times)
}

fn acted_by(alloc: Global, ty: &Ty, line: &str, words: &[Word], times: u64) -> Result<String> {
    let doc = document_in(alloc, ty, line)?;
    acted_on(alloc, ty, &doc, words, times)
}

fn acted_on(alloc: Global, ty: &Ty, doc: &Doc, words: &[Word], times: u64) -> Result<String> {
    if !ty.is_well_formed() || !doc.has_type(ty) {
        bail!("the document has another type");
    }
    let mut last = Doc::Unit;
    for _ in 0..times {
        for word in words {
            let after = act(alloc, ty, word, doc);
            last = after.ok().context("a word does not act")?;
        }
    }
    effect(alloc, doc, &last)
}

fn effect(alloc: Global, before: &Doc, after: &Doc) -> Result<String> {
    let count = part_count(after);
    let is_same = after.is_same(before);
    let change = if is_same { "the same" } else { "changed" };
    Ok(format!(in alloc; "{count} parts, {change}")?)
}

fn part_count(doc: &Doc) -> usize {
    match doc {
        Doc::Rec(contents) => contents.len(),
        Doc::Hold(_, contents) => contents.len(),
        _ => 0,
    }
}

/// What is read of the document on the first line, `times` times from its tree.
pub fn read_often(alloc: Global, ty: &Ty, values: &str, times: u64) -> Result<String> {
    let tree = tree_in(alloc, first_line(values)?.0)?;
    let mut count = 0;
    for _ in 0..times {
        count = part_count(&document_of(alloc, ty, &tree)?);
    }
    Ok(format!(in alloc; "{count} parts")?)
}

/// What is written of the document on the first line, `times` times.
pub fn write_often(alloc: Global, ty: &Ty, values: &str, times: u64) -> Result<String> {
    let doc = document_in(alloc, ty, first_line(values)?.0)?;
    written(alloc, ty, &doc, times)
}

fn written(alloc: Global, ty: &Ty, doc: &Doc, times: u64) -> Result<String> {
    if !ty.is_well_formed() || !doc.has_type(ty) {
        bail!("the document has another type");
    }
    let mut count = 0;
    for _ in 0..times {
        count = member_count(&write_doc(alloc, ty, doc)?);
    }
    Ok(format!(in alloc; "{count} parts")?)
}

fn member_count(tree: &Value) -> usize {
    match tree {
        Value::Array(items) => items.len(),
        Value::Object(members) => members.len(),
        _ => 0,
    }
}

/// Whether a left document, a complement and a right document, each on a line, are consistent. It is decided `times`
/// times, and `no` where it is never decided.
pub fn decided(alloc: Global, lens: &Typed, values: &str, times: u64) -> Result<String> {
    let (left, others) = first_line(values)?;
    let left = document_in(alloc, lens.left(), left)?;
    decided_of(alloc, lens, &left, others, times)
}

fn decided_of(alloc: Global, lens: &Typed, left: &Doc, lines: &str, times: u64) -> Result<String> {
    let (comp, right) = first_line(lines)?;
    let comp = complement_in(alloc, lens, comp)?;
    decided_with(alloc, lens, left, &comp, right, times)
}

fn decided_with(
    alloc: Global,
    lens: &Typed,
    left: &Doc,
    comp: &Comp,
    line: &str,
    times: u64,
) -> Result<String> {
    let right = document_in(alloc, lens.right(), line)?;
    let mut is_consistent = false;
    for _ in 0..times {
        is_consistent = consistent(alloc, lens, left, comp, &right)?;
    }
    let answer = if is_consistent { "yes" } else { "no" };
    Ok(String::from_str(alloc, answer)?)
}
