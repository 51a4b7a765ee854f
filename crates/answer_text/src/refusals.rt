//! The refusals of programs.
ghost use Rattle.std.specs.Prelude.{◌≡◌, ◌≢◌, ◌++◌, codes, decimal, Result, Some, IfOk, IfSome};
ghost use Rattle.program_accepted.specs.Program.{Refusal};
ghost use Rattle.program_accepted.specs.Refused.{IsKnown, IsProgramRefusal};
ghost use Rattle.doc_values.specs.Types.{ty_tree};
ghost use Rattle.lens_forms.specs.Forms.{FormTree};
ghost use Rattle.lens_syntax.specs.Programs.{program_fault_cause};
ghost use Rattle.lens_types.specs.Checking.{Failure, middle_differs};
ghost use Rattle.lens_types.specs.Faults.{IsFaultOf};
ghost use Rattle.program_writing.specs.Canonical.{canonical_name};
ghost use Rattle.answer_text.specs.Lines.{program_refused_line, syntax_line, typing_line};
ghost use Rattle.answer_text.specs.RefusalLines.{IsLineOf};

use crate::words::bytes_of;
use doc_values::Ty;
use lens_syntax::{ProgramFault, write_name, write_type};
use lens_types::TypeFault;
use program_accepted::Refused;
use std::alloc::{AllocError, Global};
use texts::{Bytes, Name};

/// `program refused: REASON` and a line feed: a program part is refused, as `syntax_line` or `typing_line` says it.
///
/// Running out of memory is not a refusal, and the only error.
pub fn refused_part_line(alloc: Global, refused: &Refused) -> Result<Bytes, AllocError>
    requires has_line { IsKnown refused.now }
    ensures line { IfOk result (λ line. (outcome : Result FormTree Refusal)
        → IsProgramRefusal outcome refused.now → IsLineOf outcome line) }
{
    match refused {
        Refused::Syntax(fault) => syntax_line(alloc, fault),
        Refused::Typing(fault) => typing_line(alloc, fault),
        Refused::NoMemory => Err(AllocError),
    }
}

/// `program refused: REASON` and a line feed: a text is not a program.
///
/// The reasons are `program-too-long`, and `not-a-program AT`, `unknown-name AT` and
/// `repeated-name AT` with an offset in bytes. The fault is not that memory ran out, which says
/// nothing of the text. The only error is running out of memory.
pub fn syntax_line(alloc: Global, fault: &ProgramFault) -> Result<Bytes, AllocError>
    requires of_the_text { fault.now ≢ ProgramFault.NoMemory }

    // The line is that of the cause that the fault says.
    ensures line { IfOk result (λ line. IfSome (program_fault_cause fault.now) (λ cause. line ≡ syntax_line cause)) }
{
    match fault {
        ProgramFault::ProgramTooLong => program_refused_line(alloc, "program-too-long"),
        ProgramFault::NotAProgram { at } => offset_line(alloc, "not-a-program", *at),
        ProgramFault::UnknownName { at } => offset_line(alloc, "unknown-name", *at),
        ProgramFault::RepeatedName { at } => offset_line(alloc, "repeated-name", *at),
        ProgramFault::NoMemory => unreachable!(),
    }
}

/// `program refused: REASON` and a line feed: a program has no type.
///
/// The reasons are `middle-differs TYPE TYPE` with types in canonical text, which shows their
/// declared initial values; `repeated-field NAME`, `repeated-tag NAME`, `repeated-member NAME` and
/// `not-a-member NAME` with a name as a field is written in canonical text; `too-large`; and
/// `too-deep`. The fault is not that memory ran out, which says nothing of the program. The only
/// error is running out of memory.
pub fn typing_line(alloc: Global, fault: &TypeFault) -> Result<Bytes, AllocError>
    requires of_the_program { fault.now ≢ TypeFault.NoMemory }

    // The line is that of the failure that the fault says.
    ensures line { IfOk result (λ line. (failure : Failure)
        → IsFaultOf (Some failure) fault.now → line ≡ typing_line failure) }
{
    match fault {
        TypeFault::MiddleDiffers { left, right } => middle_line(alloc, left, right),
        TypeFault::RepeatedField { name } => name_line(alloc, "repeated-field", name),
        TypeFault::RepeatedTag { name } => name_line(alloc, "repeated-tag", name),
        TypeFault::RepeatedMember { name } => name_line(alloc, "repeated-member", name),
        TypeFault::NotAMember { name } => name_line(alloc, "not-a-member", name),
        TypeFault::TooLarge => program_refused_line(alloc, "too-large"),
        TypeFault::TooDeep => program_refused_line(alloc, "too-deep"),
        TypeFault::NoMemory => unreachable!(),
    }
}

/// The line `program refused: REASON`, for a reason that is given as text. The only error is running
/// out of memory.
pub fn program_refused_line(alloc: Global, reason: &str) -> Result<Bytes, AllocError>
    ensures { IfOk result (λ line. line ≡ program_refused_line reason.now) }
{
    let line = format!(in alloc; "program refused: {reason}\n")?;
    Ok(bytes_of(line))
}

// A reason with the offset where it is seen.
fn offset_line(alloc: Global, reason: &str, at: u64) -> Result<Bytes, AllocError>
    ensures { IfOk result (λ line. line ≡ program_refused_line (reason.now ++ codes " " ++ decimal at)) }
{
    let reason = format!(in alloc; "{reason} {at}")?;
    program_refused_line(alloc, reason.as_str())
}

// A reason with the name that it is about.
fn name_line(alloc: Global, reason: &str, name: &Name) -> Result<Bytes, AllocError>
    ensures { IfOk result
        (λ line. line ≡ program_refused_line (reason.now ++ codes " " ++ canonical_name name.now)) }
{
    let name = write_name(alloc, name)?;
    let name = name.as_str();
    let reason = format!(in alloc; "{reason} {name}")?;
    program_refused_line(alloc, reason.as_str())
}

// The two types in the middle of a composition.
fn middle_line(alloc: Global, left: &Ty, right: &Ty) -> Result<Bytes, AllocError>
    ensures { IfOk result
        (λ line. line ≡ typing_line (middle_differs (ty_tree left.now) (ty_tree right.now))) }
{
    let left = write_type(alloc, left)?;
    let right = write_type(alloc, right)?;
    two_types_line(alloc, left.as_str(), right.as_str())
}

// The line of two types, which are given as text.
fn two_types_line(alloc: Global, left: &str, right: &str) -> Result<Bytes, AllocError>
    ensures { IfOk result (λ line. line
        ≡ program_refused_line (codes "middle-differs " ++ left.now ++ codes " " ++ right.now)) }
{
    let line = format!(in alloc; "program refused: middle-differs {left} {right}\n")?;
    Ok(bytes_of(line))
}
