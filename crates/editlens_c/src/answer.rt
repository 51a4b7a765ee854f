//! What a call answers.
ghost use Rattle.std.specs.Prelude.{◌≡◌};
ghost use Rattle.editlens_c.specs.Answers.{IsAnswer, IsNotOpen, IsUntouched, IsWritten};
ghost use Rattle.editlens_c.specs.Answers.{closed_status, status_of, part_of, number_of};
ghost use Rattle.editlens_c.specs.Reasons.{no_place, closed_reason, reason_of};

use crate::codes::*;
use crate::reasons::{Reason, closed_reason, reason_of};
use embed_session::{EmbeddedSession, Outcome, Part};

/// A status with its numbers, and the number of bytes of the text.
#[repr(C)]
#[derive(Clone, Copy, Drop)]
pub struct Answer {
    /// How the call ended: one of the constants of `editlens.h`.
    pub status: u32,
    /// The cause of a refusal, or 0.
    pub cause: u32,
    /// How many items the session was given.
    pub number: u64,
    /// The number of the entry of a group that does not apply, from 0, or 0.
    pub part: u64,
    /// The number, from 0, of the first primitive that fails; or the offset in a program that its refusal names; or the
    /// number, from 1, of the record that is refused; or 0.
    pub at: u64,
    /// How many bytes the text has that answers the last call.
    pub len: usize,
    /// How many bytes of the answer have a meaning: those up to this member, and this one.
    pub size: u64,
    /// Room for later members, which is 0.
    pub spare_1: u64,
    /// The same.
    pub spare_2: u64,
}

// The answer of a call that finds nothing open.
pub(crate) fn not_open() -> Answer
    ensures { IsNotOpen result }
{
    Answer {
        status: NOT_OPEN,
        cause: NO_CAUSE,
        number: 0,
        part: 0,
        at: 0,
        len: 0,
        size: ANSWER_SIZE,
        spare_1: 0,
        spare_2: 0,
    }
}

// The answer to a call that ended so.
pub(crate) fn answer_to(outcome: Outcome, embedded: &EmbeddedSession) -> Answer
    ensures { IsAnswer (status_of outcome embedded.now) (reason_of outcome embedded.now) embedded.now result }
{
    answer_with(
        status_of(outcome, embedded),
        reason_of(outcome, embedded),
        embedded,
    )
}

// The answer to the question of whether there is a session.
pub(crate) fn standing_of(embedded: &EmbeddedSession) -> Answer
    ensures { IsAnswer (closed_status embedded.now) (closed_reason embedded.now) embedded.now result }
{
    answer_with(closed_status(embedded), closed_reason(embedded), embedded)
}

// An answer with no cause.
pub(crate) fn plain_answer(status: u32, embedded: &EmbeddedSession) -> Answer
    ensures { IsAnswer status (no_place NO_CAUSE) embedded.now result }
{
    let none = Reason {
        cause: NO_CAUSE,
        part: 0,
        at: 0,
    };
    answer_with(status, none, embedded)
}

// The same, with a buffer that stays as it was.
pub(crate) fn untouched(out: &mut [u8]) -> Answer
    ensures { IsUntouched result out.old out.new }
{
    not_open()
}

fn answer_with(status: u32, reason: Reason, embedded: &EmbeddedSession) -> Answer
    ensures { IsAnswer status reason embedded.now result }
{
    Answer {
        status,
        cause: reason.cause,
        number: number_of(embedded),
        part: reason.part,
        at: reason.at,
        len: embedded.text().len(),
        size: ANSWER_SIZE,
        spare_1: 0,
        spare_2: 0,
    }
}

fn status_of(outcome: Outcome, embedded: &EmbeddedSession) -> u32
    ensures { result ≡ status_of outcome embedded.now }
{
    match outcome {
        Outcome::Done => DONE,
        Outcome::Blank => BLANK,
        Outcome::NoApply { .. } | Outcome::NotAChange(_) => REFUSED,
        Outcome::LineFeed => LINE_FEED,
        Outcome::Full => FULL,
        Outcome::NoChange => NO_CHANGE,
        Outcome::NoMemory => NO_MEMORY,
        Outcome::NoSession => closed_status(embedded),
    }
}

// Why there is no session, or that there is one.
pub(crate) fn closed_status(embedded: &EmbeddedSession) -> u32
    ensures { result ≡ closed_status embedded.now }
{
    match embedded {
        EmbeddedSession::Open(_) => DONE,
        EmbeddedSession::Refused(_, _) => PROGRAM_REFUSED,
        EmbeddedSession::StateRefused(_) => STATE_REFUSED,
        EmbeddedSession::RecordsRefused(_) => RECORDS_REFUSED,
        EmbeddedSession::NoMemory => NO_SESSION,
    }
}

// How many items were given.
fn number_of(embedded: &EmbeddedSession) -> u64
    ensures { result ≡ number_of embedded.now }
{
    match embedded {
        EmbeddedSession::Open(running) => running.number,
        EmbeddedSession::Refused(_, _)
        | EmbeddedSession::StateRefused(_)
        | EmbeddedSession::RecordsRefused(_)
        | EmbeddedSession::NoMemory => 0,
    }
}

// The part of the state that has this number.
pub(crate) fn part_of(number: u32) -> Option<Part>
    ensures { result ≡ part_of number }
{
    if number == STATE {
        Some(Part::State)
    } else if number == LEFT {
        Some(Part::Left)
    } else if number == COMPLEMENT {
        Some(Part::Complement)
    } else if number == RIGHT {
        Some(Part::Right)
    } else if number == LEFT_TYPE {
        Some(Part::LeftType)
    } else if number == RIGHT_TYPE {
        Some(Part::RightType)
    } else if number == SNAPSHOT {
        Some(Part::Snapshot)
    } else if number == CHANGE {
        Some(Part::Change)
    } else if number == UNDO_LEFT {
        Some(Part::UndoLeft)
    } else if number == UNDO_RIGHT {
        Some(Part::UndoRight)
    } else {
        None
    }
}

// Copies a text to the head of a buffer that has room for it, and says so.
pub(crate) fn is_written(text: &[u8], out: &mut [u8]) -> bool
    ensures { IsWritten text.now out.old result out.new }
{
    let len = text.len();
    if out.len() < len {
        return false;
    }
    out[..len].copy_from_slice(text);
    true
}
