//! The calls by their names. Each is one function, which reads the arguments of the call from the case, makes the call
//! and returns what came.

use crate::case::Case;
use crate::{checks, documents, lines, programs, shapes, tokens, words};
use anyhow::{Result, bail};
use serde_json::Value;
use std::alloc::Global;

/// Returns what comes of the call of a case. It is refused if the call does not exist, or if an argument is missing or
/// has another form.
pub fn outcome(alloc: Global, case: &Case<'_>) -> Result<Value> {
    let call = case.text("call")?;
    match call {
        "plan" => shapes::run_plan(alloc, case),
        "size" => shapes::run_size(alloc, case),
        "place" => shapes::run_place(alloc, case),
        "is_same_shape" => shapes::run_is_same(alloc, case),
        "from_names" => shapes::run_from_names(alloc, case),
        "from_depths" => shapes::run_from_depths(alloc, case),
        "gather" => shapes::run_gather(alloc, case),
        "splice" => shapes::run_splice(alloc, case),
        "character_count" => shapes::run_character_count(alloc, case),
        _ => document_outcome(alloc, call, case),
    }
}

// The same for calls on types and documents, and on those above.
fn document_outcome(alloc: Global, call: &str, case: &Case<'_>) -> Result<Value> {
    match call {
        "read_doc" => documents::run_read_doc(alloc, case),
        "init" => documents::run_init(alloc, case),
        "is_same" => documents::run_is_same(alloc, case),
        "is_same_doc" => documents::run_is_same_doc(alloc, case),
        "is_well_formed" => documents::run_is_well_formed(alloc, case),
        "is_within" => documents::run_is_within(alloc, case),
        "has_type" => documents::run_has_type(alloc, case),
        "find" => documents::run_find(alloc, case),
        "set" => documents::run_set(alloc, case),
        "gathered" => documents::run_gathered(alloc, case),
        "read_counts" => documents::run_read_counts(alloc, case),
        "write_counts" => documents::run_write_counts(alloc, case),
        _ => word_outcome(alloc, call, case),
    }
}

// The same for calls on words and lines, and on those above.
fn word_outcome(alloc: Global, call: &str, case: &Case<'_>) -> Result<Value> {
    match call {
        "act" => words::run_act(alloc, case),
        "construct" => words::run_construct(alloc, case),
        "inverse" => words::run_inverse(alloc, case),
        "read_word" => words::run_read_word(alloc, case),
        "has_tree" => words::run_has_tree(alloc, case),
        "len" => words::run_len(alloc, case),
        "joined" => words::run_joined(alloc, case),
        "other" => words::run_other(alloc, case),
        "read_entry" => lines::run_read_entry(alloc, case),
        "is_blank" => lines::run_is_blank(alloc, case),
        "is_too_long" => lines::run_is_too_long(alloc, case),
        _ => program_outcome(alloc, call, case),
    }
}

// The same for calls on programs.
fn program_outcome(alloc: Global, call: &str, case: &Case<'_>) -> Result<Value> {
    match call {
        "read_program" => programs::run_read_program(alloc, case),
        "read_unbounded" => programs::run_read_unbounded(alloc, case),
        "tokens" => tokens::run_tokens(alloc, case),
        "write_type" => programs::run_write_type(alloc, case),
        "write_name" => programs::run_write_name(alloc, case),
        "is_name" => programs::run_is_name(case),
        "is_text" => programs::run_is_text(case),
        "check" => checks::run_check(alloc, case),
        _ => bail!("no call {call}"),
    }
}
