//! The call that checks a program.

use crate::answers::{fault, pair, text, with_member};
use crate::bytes::bytes;
use crate::case::Case;
use crate::documents::ty_text;
use crate::programs::program_fault;
use anyhow::{Result, bail};
use doc_values::Ty;
use lens_syntax::read_program;
use lens_types::{TypeFault, check};
use program_terms::Program;
use serde_json::{Map, Value};
use std::alloc::Global;
use texts::Name;

/// Runs `check` on the program of a text: the two types, or the fault of the text or of the typing.
pub fn run_check(alloc: Global, case: &Case<'_>) -> Result<Value> {
    let bytes = bytes(alloc, case)?;
    read_and_checked(alloc, bytes.as_slice())
}

fn read_and_checked(alloc: Global, text: &[u8]) -> Result<Value> {
    match read_program(alloc, text) {
        Ok(program) => {
            let types = types_or_fault(alloc, &program);
            drop(program);
            types
        }
        Err(fault) => program_fault(alloc, &fault),
    }
}

fn types_or_fault(alloc: Global, program: &Program) -> Result<Value> {
    match check(alloc, program) {
        Ok(typed) => {
            let types = two_types(alloc, typed.left(), typed.right());
            drop(typed);
            types
        }
        Err(refusal) => {
            let fault = type_fault(alloc, &refusal);
            drop(refusal);
            fault
        }
    }
}

fn two_types(alloc: Global, left: &Ty, right: &Ty) -> Result<Value> {
    let left = ty_text(alloc, left)?;
    let right = ty_text(alloc, right)?;
    pair(alloc, ("left", left), ("right", right))
}

fn type_fault(alloc: Global, refusal: &TypeFault) -> Result<Value> {
    match refusal {
        TypeFault::MiddleDiffers { left, right } => middle_differs(alloc, left, right),
        TypeFault::RepeatedField { name } => named(alloc, "repeated-field", name),
        TypeFault::RepeatedTag { name } => named(alloc, "repeated-tag", name),
        TypeFault::RepeatedMember { name } => named(alloc, "repeated-member", name),
        TypeFault::NotAMember { name } => named(alloc, "not-a-member", name),
        TypeFault::TooLarge => fault(alloc, "too-large"),
        TypeFault::TooDeep => fault(alloc, "too-deep"),
        TypeFault::NoMemory => bail!("out of memory"),
    }
}

fn middle_differs(alloc: Global, left: &Ty, right: &Ty) -> Result<Value> {
    let reason = text(alloc, "middle-differs")?;
    let members = with_member(alloc, Map::new(alloc), "fault", reason)?;
    let members = with_type(alloc, members, "left", left)?;
    let members = with_type(alloc, members, "right", right)?;
    Ok(Value::Object(members))
}

fn with_type(
    alloc: Global,
    members: Map<String, Value>,
    name: &str,
    ty: &Ty,
) -> Result<Map<String, Value>> {
    with_member(alloc, members, name, ty_text(alloc, ty)?)
}

fn named(alloc: Global, reason: &str, name: &Name) -> Result<Value> {
    let reason = text(alloc, reason)?;
    let name = text(alloc, name.as_str())?;
    pair(alloc, ("fault", reason), ("name", name))
}
