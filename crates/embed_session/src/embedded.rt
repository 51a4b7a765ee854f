//! What a caller keeps.
ghost use Rattle.std.specs.Prelude.{◌≡◌};
ghost use Rattle.std.specs.List.{list_any};
ghost use Rattle.edit_journal.specs.Pieces.{texts_of};
ghost use Rattle.embed_session.specs.Embedded.{IsOpened, IsImported, IsResumed, IsReopened, IsStepped, IsShown, text_of};
ghost use Rattle.embed_session.specs.Steps.{has_line_feed};

use crate::importing::import;
use crate::opening::open;
use crate::outcome::{Outcome, Part, StateFault};
use crate::reopening::reopen;
use crate::resuming::resume;
use crate::running::Running;
use program_accepted::Refused;
use std::alloc::Global;
use store_records::RecordFault;
use texts::Side;

/// A session, or why there is none.
#[derive(Drop)]
pub enum EmbeddedSession {
    /// A session.
    Open(Running),
    /// The program is refused, for this cause and with this line.
    Refused(Refused, Vec<u8>),
    /// The texts of the state are refused, for this cause, which is not that memory ran out.
    StateRefused(StateFault),
    /// The records of the log are refused, for this cause, which is not that memory ran out.
    RecordsRefused(RecordFault),
    /// Memory ran out.
    NoMemory,
}

impl EmbeddedSession {
    /// A session over a program, with its initial documents, or why there is none. The text is the payload of the first
    /// record of a log: a caller that keeps a log stores it first.
    ///
    /// - `Refused`: if and only if the program is not accepted, for the cause that `lens_of` has.
    /// - `NoMemory`: only if memory ran out.
    pub fn open(alloc: Global, program: &[u8]) -> EmbeddedSession
        ensures opened { IsOpened program.now result }
    {
        open(alloc, program)
    }

    /// A session over a program of which one document is given, as JSON, and the other one is made: the word that makes
    /// the given document from the initial one is translated for the other side. Or why there is none. The text is the
    /// payload of the first record of a log, and a snapshot is the second one. Items are numbered from 1 on.
    ///
    /// - `Refused`: if and only if the program is not accepted, for the cause that `lens_of` has.
    /// - `StateRefused`: if and only if the program is accepted, and the text is not the JSON of a document of the
    ///   side's type. The fault is `NotLeft` or `NotRight`, after the side.
    /// - `NoMemory`: only if memory ran out.
    pub fn import(alloc: Global, program: &[u8], side: Side, document: &[u8]) -> EmbeddedSession
        ensures imported { IsImported program.now side document.now result }
    {
        import(alloc, program, side, document)
    }

    /// A session over a program that goes on from a state: the JSON of a left document, of a complement and of a right
    /// document, as [`EmbeddedSession::show`] shows them. Or why there is none. The text is the payload of the first record of a
    /// log, and a snapshot is the second one. Items are numbered from 1 on.
    ///
    /// - `Refused`: if and only if the program is not accepted, for the cause that `lens_of` has.
    /// - `StateRefused`: if and only if the program is accepted, and a text is not one of its lens, or the three are
    ///   not consistent. The cause is the first one of [`StateFault`] that holds.
    /// - `NoMemory`: only if memory ran out.
    pub fn resume(
        alloc: Global,
        program: &[u8],
        left: &[u8],
        comp: &[u8],
        right: &[u8],
    ) -> EmbeddedSession
        ensures resumed { IsResumed program.now left.now comp.now right.now result }
    {
        resume(alloc, program, left, comp, right)
    }

    /// The session for which the records of a log stand, or why there is none. An LF ends each record; no record that
    /// this library makes has an LF in it. Items are numbered from 1 on. The text is empty; or it is the version
    /// record, if the log is one of version 1, and then a caller stores it next.
    ///
    /// - `RecordsRefused`: if and only if the records stand for no session. `BadRecord` and `NotConsistent` have the
    ///   number of the first record that is at fault, from 1 on.
    /// - `NoMemory`: only if memory ran out.
    pub fn reopen(alloc: Global, records: &[u8]) -> EmbeddedSession
        ensures reopened { IsReopened (texts_of records.now) result }
    {
        reopen(alloc, records)
    }

    /// Takes a line of a journal, which is without its LF.
    ///
    /// After `Done`, `NoApply` and `NotAChange` the text is the answer line, and after `Blank` it is empty. After each
    /// other outcome the text is the one from before. After `Done` the line is remembered as the last change, and after
    /// `NoApply`, `NotAChange` and `Blank` there is none.
    ///
    /// - `LineFeed`: if and only if there is a session and an LF is in the line.
    /// - `Full`: only if `u64::MAX` items were given.
    /// - `NoMemory`: only if memory ran out. The documents, the complement, the number and the last change are as
    ///   before, also where the session had stepped and its answer found no room.
    /// - `NoSession`: if and only if there is no session.
    pub fn step(&mut self, alloc: Global, line: &[u8]) -> Outcome
        ensures stepped { IsStepped self.old line.now result self.new }
    {
        match self {
            EmbeddedSession::Open(running) => {
                if has_line_feed(line) {
                    return Outcome::LineFeed;
                }
                if running.number == u64::MAX {
                    return Outcome::Full;
                }
                match running.step(alloc, line) {
                    Ok(outcome) => outcome,
                    Err(_) => Outcome::NoMemory,
                }
            }
            EmbeddedSession::Refused(_, _)
            | EmbeddedSession::StateRefused(_)
            | EmbeddedSession::RecordsRefused(_)
            | EmbeddedSession::NoMemory => Outcome::NoSession,
        }
    }

    /// Shows a part of the state or of the last change: after `Done` it is the text. The documents, the complement, the
    /// number and the last change stay.
    ///
    /// - `NoChange`: if and only if there is a session, the part is one of the last change, and the last line was not a
    ///   change that was accepted. Nothing changed.
    /// - `NoMemory`: only if memory ran out. Nothing changed.
    /// - `NoSession`: if and only if there is no session.
    pub fn show(&mut self, alloc: Global, part: Part) -> Outcome
        ensures shown { IsShown self.old part result self.new }
    {
        match self {
            EmbeddedSession::Open(running) => match running.show(alloc, part) {
                Ok(true) => Outcome::Done,
                Ok(false) => Outcome::NoChange,
                Err(_) => Outcome::NoMemory,
            },
            EmbeddedSession::Refused(_, _)
            | EmbeddedSession::StateRefused(_)
            | EmbeddedSession::RecordsRefused(_)
            | EmbeddedSession::NoMemory => Outcome::NoSession,
        }
    }

    /// The text that answers the last call: an answer line, what was shown, the record that a caller stores first, or
    /// the line of a program that is refused.
    pub fn text(&self) -> &[u8]
        ensures text { result.now ≡ text_of self.now }
    {
        match self {
            EmbeddedSession::Open(running) => &running.text,
            EmbeddedSession::Refused(_, line) => line,
            EmbeddedSession::StateRefused(_)
            | EmbeddedSession::RecordsRefused(_)
            | EmbeddedSession::NoMemory => &[],
        }
    }
}

// Whether a byte is an LF.
fn has_line_feed(line: &[u8]) -> bool
    ensures { result ≡ has_line_feed line.now }
{
    line.iter().any(|byte| *byte == b'\n')
}
