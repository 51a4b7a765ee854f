//! Calls on texts of programs, and on what is written of them.

use crate::answers::{fault, labelled, pair, text};
use crate::arguments::name;
use crate::bytes::bytes;
use crate::case::Case;
use crate::documents::ty_text;
use crate::type_trees::ty_of;
use anyhow::{Context, Result, bail};
use lens_syntax::{ProgramFault, read_program, read_unbounded, write_name, write_program};
use lens_types::{Typed, check};
use program_terms::Program;
use program_tokens::{is_name, is_text};
use serde_json::Value;
use std::alloc::Global;
use texts::Str;

/// Runs `read_program`: the canonical text of the program that was read, or the fault.
pub fn run_read_program(alloc: Global, case: &Case<'_>) -> Result<Value> {
    let bytes = bytes(alloc, case)?;
    canonical_or_fault(alloc, read_program(alloc, bytes.as_slice()))
}

/// Runs `read_unbounded`: the same without a bound on the length of the text.
pub fn run_read_unbounded(alloc: Global, case: &Case<'_>) -> Result<Value> {
    let bytes = bytes(alloc, case)?;
    canonical_or_fault(alloc, read_unbounded(alloc, bytes.as_slice()))
}

fn canonical_or_fault(alloc: Global, read: Result<Program, ProgramFault>) -> Result<Value> {
    match read {
        Ok(program) => {
            let text = canonical(alloc, &program);
            drop(program);
            text
        }
        Err(fault) => program_fault(alloc, &fault),
    }
}

// The canonical text of a program. It is refused if it does not read back as a program with this text.
fn canonical(alloc: Global, program: &Program) -> Result<Value> {
    let written = write_program(alloc, program)?;
    if !reads_back(alloc, &written)? {
        bail!("the canonical text does not read back");
    }
    labelled(alloc, "canonical", written.as_str())
}

// Whether a text is the canonical text of the program that it is read as.
fn reads_back(alloc: Global, text: &Str) -> Result<bool> {
    match read_unbounded(alloc, text.as_str().as_bytes()) {
        Ok(program) => {
            let is_same = is_written_as(alloc, &program, text);
            drop(program);
            is_same
        }
        Err(_) => Ok(false),
    }
}

fn is_written_as(alloc: Global, program: &Program, text: &Str) -> Result<bool> {
    let written = write_program(alloc, program)?;
    Ok(written.is_same(text))
}

/// Returns the fault of a text, with its offset if it has one.
pub fn program_fault(alloc: Global, refusal: &ProgramFault) -> Result<Value> {
    match refusal {
        ProgramFault::ProgramTooLong => fault(alloc, "program-too-long"),
        ProgramFault::NotAProgram { at } => placed_fault(alloc, "not-a-program", *at),
        ProgramFault::UnknownName { at } => placed_fault(alloc, "unknown-name", *at),
        ProgramFault::RepeatedName { at } => placed_fault(alloc, "repeated-name", *at),
        ProgramFault::NoMemory => bail!("out of memory"),
    }
}

fn placed_fault(alloc: Global, reason: &str, at: u64) -> Result<Value> {
    let reason = text(alloc, reason)?;
    pair(alloc, ("fault", reason), ("at", Value::from(at)))
}

/// Returns the program of a text, checked. It is refused if the text is not a program or is not accepted.
pub fn typed(alloc: Global, text: &str) -> Result<Typed> {
    match read_unbounded(alloc, text.as_bytes()) {
        Ok(program) => {
            let typed = accepted(alloc, &program);
            drop(program);
            typed
        }
        Err(fault) => bail!("not a program: {fault:?}"),
    }
}

fn accepted(alloc: Global, program: &Program) -> Result<Typed> {
    let typed = check(alloc, program).ok();
    typed.context("the program is not accepted")
}

/// Runs `write_type`.
pub fn run_write_type(alloc: Global, case: &Case<'_>) -> Result<Value> {
    let ty = ty_of(alloc, case, "type")?;
    ty_text(alloc, &ty)
}

/// Runs `write_name`.
pub fn run_write_name(alloc: Global, case: &Case<'_>) -> Result<Value> {
    let name = name(alloc, case.argument("name")?)?;
    let written = write_name(alloc, &name)?;
    text(alloc, written.as_str())
}

/// Runs `is_name`.
pub fn run_is_name(case: &Case<'_>) -> Result<Value> {
    let text = case.text("text")?;
    Ok(Value::Bool(is_name(text.as_bytes())))
}

/// Runs `is_text`.
pub fn run_is_text(case: &Case<'_>) -> Result<Value> {
    let text = case.text("text")?;
    Ok(Value::Bool(is_text(text)))
}
