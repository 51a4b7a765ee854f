//! Why something is refused, as numbers.
ghost use Rattle.std.specs.Prelude.{◌≡◌};
ghost use Rattle.editlens_c.specs.Reasons.{no_place, item_cause, line_cause, syntax_cause, typing_cause, program_cause};
ghost use Rattle.editlens_c.specs.Reasons.{program_offset, state_cause, record_reason, closed_reason, reason_of};

use crate::codes::*;
use edit_journal::EntryFault;
use edit_module::Cause;
use embed_session::{EmbeddedSession, Outcome, StateFault};
use lens_syntax::ProgramFault;
use lens_types::TypeFault;
use program_accepted::Refused;
use store_records::RecordFault;

/// The number of a cause, and two places.
#[derive(Clone, Copy, Drop)]
pub struct Reason {
    pub cause: u32,
    pub part: u64,
    pub at: u64,
}

// Why a call ended so.
pub(crate) fn reason_of(outcome: Outcome, embedded: &EmbeddedSession) -> Reason
    ensures { result ≡ reason_of outcome embedded.now }
{
    match outcome {
        Outcome::NoApply { part, at, cause } => Reason {
            cause: item_cause(cause),
            part,
            at,
        },
        Outcome::NotAChange(fault) => alone(line_cause(fault)),
        Outcome::NoSession => closed_reason(embedded),
        Outcome::Done
        | Outcome::Blank
        | Outcome::LineFeed
        | Outcome::Full
        | Outcome::NoChange
        | Outcome::NoMemory => alone(NO_CAUSE),
    }
}

// Why there is no session.
pub(crate) fn closed_reason(embedded: &EmbeddedSession) -> Reason
    ensures { result ≡ closed_reason embedded.now }
{
    match embedded {
        EmbeddedSession::Refused(refused, _) => Reason {
            cause: program_cause(refused),
            part: 0,
            at: program_offset(refused),
        },
        EmbeddedSession::StateRefused(fault) => alone(state_cause(*fault)),
        EmbeddedSession::RecordsRefused(fault) => record_reason(*fault),
        EmbeddedSession::Open(_) | EmbeddedSession::NoMemory => alone(NO_CAUSE),
    }
}

// A cause that names no place.
pub(crate) fn alone(cause: u32) -> Reason
    ensures { result ≡ no_place cause }
{
    Reason {
        cause,
        part: 0,
        at: 0,
    }
}

pub(crate) fn item_cause(cause: Cause) -> u32
    ensures { result ≡ item_cause cause }
{
    match cause {
        Cause::Kind => KIND,
        Cause::Place => PLACE,
        Cause::Tag => TAG,
        Cause::Range => RANGE,
        Cause::Overflow => OVERFLOW,
        Cause::Value => VALUE,
        Cause::Present => PRESENT,
        Cause::Length => LENGTH,
        Cause::Deep => DEEP,
    }
}

pub(crate) fn line_cause(fault: EntryFault) -> u32
    ensures { result ≡ line_cause fault }
{
    match fault {
        EntryFault::LineTooLong => LINE_TOO_LONG,
        EntryFault::NotJson => NOT_JSON,
        EntryFault::NotAnEntry => NOT_AN_ENTRY,
        EntryFault::NotAnEdit => NOT_AN_EDIT,
        EntryFault::NoMemory => NO_CAUSE,
    }
}

pub(crate) fn program_cause(refused: &Refused) -> u32
    ensures { result ≡ program_cause refused.now }
{
    match refused {
        Refused::Syntax(fault) => syntax_cause(fault),
        Refused::Typing(fault) => typing_cause(fault),
        Refused::NoMemory => NO_CAUSE,
    }
}

fn syntax_cause(fault: &ProgramFault) -> u32
    ensures { result ≡ syntax_cause fault.now }
{
    match fault {
        ProgramFault::ProgramTooLong => PROGRAM_TOO_LONG,
        ProgramFault::NotAProgram { .. } => NOT_A_PROGRAM,
        ProgramFault::UnknownName { .. } => UNKNOWN_NAME,
        ProgramFault::RepeatedName { .. } => REPEATED_NAME,
        ProgramFault::NoMemory => NO_CAUSE,
    }
}

fn typing_cause(fault: &TypeFault) -> u32
    ensures { result ≡ typing_cause fault.now }
{
    match fault {
        TypeFault::MiddleDiffers { .. } => MIDDLE_DIFFERS,
        TypeFault::RepeatedField { .. } => REPEATED_FIELD,
        TypeFault::RepeatedTag { .. } => REPEATED_TAG,
        TypeFault::RepeatedMember { .. } => REPEATED_MEMBER,
        TypeFault::NotAMember { .. } => NOT_A_MEMBER,
        TypeFault::TooLarge => TOO_LARGE,
        TypeFault::TooDeep => TOO_DEEP,
        TypeFault::NoMemory => NO_CAUSE,
    }
}

// The offset in the program that a refusal names, or 0.
pub(crate) fn program_offset(refused: &Refused) -> u64
    ensures { result ≡ program_offset refused.now }
{
    match refused {
        Refused::Syntax(ProgramFault::NotAProgram { at }) => *at,
        Refused::Syntax(ProgramFault::UnknownName { at }) => *at,
        Refused::Syntax(ProgramFault::RepeatedName { at }) => *at,
        Refused::Syntax(_) | Refused::Typing(_) | Refused::NoMemory => 0,
    }
}

fn state_cause(fault: StateFault) -> u32
    ensures { result ≡ state_cause fault }
{
    match fault {
        StateFault::NotLeft => NOT_LEFT,
        StateFault::NotComplement => NOT_COMPLEMENT,
        StateFault::NotRight => NOT_RIGHT,
        StateFault::NotConsistent => NOT_CONSISTENT,
        StateFault::NoMemory => NO_CAUSE,
    }
}

// Why the records of a log are refused, with the number of the record.
fn record_reason(fault: RecordFault) -> Reason
    ensures { result ≡ record_reason fault }
{
    match fault {
        RecordFault::BadRecord { number } => Reason {
            cause: BAD_RECORD,
            part: 0,
            at: number,
        },
        RecordFault::NotConsistent { number } => Reason {
            cause: RECORD_NOT_CONSISTENT,
            part: 0,
            at: number,
        },
        RecordFault::NoMemory => alone(NO_CAUSE),
    }
}
