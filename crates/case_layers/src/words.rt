//! Calls on words of edits, and on sides.

use crate::answers::{fault, labelled, ok, ok_bool, pair, text};
use crate::arguments::side;
use crate::bytes::tree;
use crate::case::Case;
use crate::type_trees::{doc_of, ok_doc, ty_of};
use crate::word_trees::{ok_word, word_of};
use anyhow::{Result, bail};
use doc_values::{Doc, Ty};
use edit_inverse::{construct, inverse};
use edit_journal::side_text;
use edit_json::{EditFault, has_tree, read_word};
use edit_module::{ActFault, Cause, Word, act};
use serde_json::Value;
use std::alloc::Global;

/// Runs `act`: the document after the word, or the number and the cause. It is refused if the type is ill formed.
pub fn run_act(alloc: Global, case: &Case<'_>) -> Result<Value> {
    let ty = ty_of(alloc, case, "type")?;
    let doc = doc_of(alloc, &ty, case, "doc")?;
    act_on(alloc, &ty, &doc, case)
}

fn act_on(alloc: Global, ty: &Ty, doc: &Doc, case: &Case<'_>) -> Result<Value> {
    let word = word_of(alloc, case.argument("edit")?)?;
    after(alloc, ty, &word, doc)
}

fn after(alloc: Global, ty: &Ty, word: &Word, doc: &Doc) -> Result<Value> {
    if !ty.is_well_formed() || !doc.has_type(ty) {
        bail!("the type is ill formed");
    }
    match act(alloc, ty, word, doc) {
        Ok(after) => {
            let written = ok_doc(alloc, ty, &after);
            drop(after);
            written
        }
        Err(fault) => act_fault(alloc, &fault),
    }
}

fn act_fault(alloc: Global, fault: &ActFault) -> Result<Value> {
    match fault {
        ActFault::NoApply { at, cause } => no_apply(alloc, *at, *cause),
        ActFault::NoMemory => bail!("out of memory"),
    }
}

fn no_apply(alloc: Global, at: u64, cause: Cause) -> Result<Value> {
    let cause = text(alloc, cause_text(cause))?;
    pair(alloc, ("at", Value::from(at)), ("cause", cause))
}

fn cause_text(cause: Cause) -> &'static str {
    match cause {
        Cause::Kind => "kind",
        Cause::Place => "place",
        Cause::Tag => "tag",
        Cause::Range => "range",
        Cause::Overflow => "overflow",
        Cause::Value => "value",
        Cause::Present => "present",
        Cause::Length => "length",
        Cause::Deep => "deep",
    }
}

/// Runs `construct`: the word. It is refused if the document has not the type.
pub fn run_construct(alloc: Global, case: &Case<'_>) -> Result<Value> {
    let ty = ty_of(alloc, case, "type")?;
    let doc = doc_of(alloc, &ty, case, "doc")?;
    if !doc.has_type(&ty) {
        bail!("the document has another type");
    }
    ok_word(alloc, &construct(alloc, &ty, &doc)?)
}

/// Runs `inverse`: the word, or the number and the cause. It is refused if the type is ill formed.
pub fn run_inverse(alloc: Global, case: &Case<'_>) -> Result<Value> {
    let ty = ty_of(alloc, case, "type")?;
    let doc = doc_of(alloc, &ty, case, "doc")?;
    let word = word_of(alloc, case.argument("edit")?)?;
    taken_back(alloc, &ty, &word, &doc)
}

fn taken_back(alloc: Global, ty: &Ty, word: &Word, doc: &Doc) -> Result<Value> {
    if !ty.is_well_formed() || !doc.has_type(ty) {
        bail!("the type is ill formed");
    }
    match inverse(alloc, ty, word, doc) {
        Ok(back) => {
            let written = ok_word(alloc, &back);
            drop(back);
            written
        }
        Err(fault) => act_fault(alloc, &fault),
    }
}

/// Runs `read_word`: the tree of the word that was read, or the fault.
pub fn run_read_word(alloc: Global, case: &Case<'_>) -> Result<Value> {
    let tree = tree(alloc, case)?;
    let read = word_or_fault(alloc, &tree);
    drop(tree);
    read
}

fn word_or_fault(alloc: Global, tree: &Value) -> Result<Value> {
    match read_word(alloc, tree) {
        Ok(word) => ok_word(alloc, &word),
        Err(EditFault::NotAnEdit) => fault(alloc, "not-an-edit"),
        Err(EditFault::NoMemory) => bail!("out of memory"),
    }
}

/// Runs `has_tree`.
pub fn run_has_tree(alloc: Global, case: &Case<'_>) -> Result<Value> {
    let word = word_of(alloc, case.argument("edit")?)?;
    ok_bool(alloc, has_tree(&word))
}

/// Runs `len`: the number of primitives.
pub fn run_len(alloc: Global, case: &Case<'_>) -> Result<Value> {
    let word = word_of(alloc, case.argument("edit")?)?;
    ok(alloc, Value::from(word.len()))
}

/// Runs `joined`.
pub fn run_joined(alloc: Global, case: &Case<'_>) -> Result<Value> {
    let first = word_of(alloc, case.argument("first")?)?;
    let second = word_of(alloc, case.argument("second")?)?;
    ok_word(alloc, &first.joined(second)?)
}

/// Runs `other`: the other side.
pub fn run_other(alloc: Global, case: &Case<'_>) -> Result<Value> {
    let side = side(case.argument("side")?)?;
    labelled(alloc, "ok", side_text(side.other()))
}
