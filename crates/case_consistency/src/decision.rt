//! What is decided of a case.

use crate::case::Case;
use anyhow::{Result, bail};
use complement_file::{CompFault, read_comp};
use doc_values::{Doc, Ty};
use lens_check::{Pattern, conforms, consistent, image, matches, pattern_of};
use lens_core::Comp;
use lens_syntax::{Program, read_program};
use lens_types::{Typed, check};
use std::alloc::Global;
use texts::Side;
use value_json::{DocFault, read_doc};

/// Returns what is decided of the triple of a case: `consistent`, `not-consistent`, or the first of
/// `not-a-left-document`, `not-a-complement` and `not-a-right-document` that holds. It is refused if the case has no
/// lens program, if a part of the triple is missing, and if the two sides decide differently.
pub fn decided(alloc: Global, case: &Case<'_>) -> Result<&'static str> {
    let lens = lens_of(alloc, case.program()?)?;
    decided_by(alloc, &lens, case)
}

// What is decided by a lens of the triple of a case.
fn decided_by(alloc: Global, lens: &Typed, case: &Case<'_>) -> Result<&'static str> {
    match document(alloc, lens.left(), case, "left")? {
        Some(left) => decided_from(alloc, lens, &left, case),
        None => Ok("not-a-left-document"),
    }
}

// The same, where the left document was read.
fn decided_from(alloc: Global, lens: &Typed, left: &Doc, case: &Case<'_>) -> Result<&'static str> {
    match complement(alloc, lens, case)? {
        Some(comp) => decided_with(alloc, lens, left, &comp, case),
        None => Ok("not-a-complement"),
    }
}

// The same, where the left document and the complement were read.
fn decided_with(
    alloc: Global,
    lens: &Typed,
    left: &Doc,
    comp: &Comp,
    case: &Case<'_>,
) -> Result<&'static str> {
    match document(alloc, lens.right(), case, "right")? {
        Some(right) => consistency(alloc, lens, left, comp, &right),
        None => Ok("not-a-right-document"),
    }
}

// Whether a triple is consistent, decided from both sides.
fn consistency(
    alloc: Global,
    lens: &Typed,
    left: &Doc,
    comp: &Comp,
    right: &Doc,
) -> Result<&'static str> {
    let is_consistent = consistent(alloc, lens, left, comp, right)?;
    if is_reached_from_right(alloc, lens, left, comp, right)? != is_consistent {
        bail!("the two sides decide differently");
    }
    Ok(if is_consistent {
        "consistent"
    } else {
        "not-consistent"
    })
}

// Whether the left document is in the image of the right one. It is refused if the complement does not fit the lens, or
// the right document has not its type: what was read has both.
fn is_reached_from_right(
    alloc: Global,
    lens: &Typed,
    left: &Doc,
    comp: &Comp,
    right: &Doc,
) -> Result<bool> {
    if !conforms(lens, comp) {
        bail!("a complement that was read does not fit");
    }
    if !right.has_type(lens.right()) {
        bail!("a document that was read has another type");
    }
    let pattern = pattern_of(alloc, right)?;
    let reached = image(alloc, lens, Side::Right, comp, &pattern)?;
    Ok(is_in(reached, left))
}

// Whether a document is in an image, if there is one.
fn is_in(image: Option<Pattern>, document: &Doc) -> bool {
    match image {
        Some(pattern) => matches(&pattern, document),
        None => false,
    }
}

/// Returns the lens of a program. It is refused if the program is.
pub fn lens_of(alloc: Global, program: &str) -> Result<Typed> {
    match read_program(alloc, program.as_bytes()) {
        Ok(program) => checked(alloc, &program),
        Err(fault) => bail!("the program is not read: {fault:?}"),
    }
}

fn checked(alloc: Global, program: &Program) -> Result<Typed> {
    match check(alloc, program) {
        Ok(lens) => Ok(lens),
        Err(_) => bail!("the program is not a lens"),
    }
}

// The document of a type that a member of the case is, if it is one.
fn document(alloc: Global, ty: &Ty, case: &Case<'_>, name: &str) -> Result<Option<Doc>> {
    match read_doc(alloc, ty, case.part(name)?) {
        Ok(doc) => Ok(Some(doc)),
        Err(DocFault::NotOfType) => Ok(None),
        Err(DocFault::NoMemory) => bail!("out of memory"),
    }
}

// The complement of the lens that the member `complement` of the case is, if it is one.
fn complement(alloc: Global, lens: &Typed, case: &Case<'_>) -> Result<Option<Comp>> {
    match read_comp(alloc, lens, case.part("complement")?) {
        Ok(comp) => Ok(Some(comp)),
        Err(CompFault::NotAComplement) => Ok(None),
        Err(CompFault::NoMemory) => bail!("out of memory"),
    }
}
