//! How a call ends, what can be shown, and why a state is refused.
ghost use Rattle.std.specs.Prelude.{◌≡◌, IfSome};
ghost use Rattle.run_answers.specs.AnswerLines.{HasAnswerLine};
ghost use Rattle.run_answers.specs.ItemViews.{answer_tree};
ghost use Rattle.embed_session.specs.Steps.{outcome_of};

use edit_journal::EntryFault;
use edit_module::Cause;
use run_answers::PairAnswer;
use std::alloc::{AllocError, AllocFailed};

/// How a call ended.
#[derive(Clone, Copy, Debug, PartialEq, Eq, Drop)]
pub enum Outcome {
    /// The part is shown; the item was accepted.
    Done,
    /// The line is blank, and so it is not an item.
    Blank,
    /// The item is a change that does not apply, and the documents are as before.
    NoApply {
        /// The number of the entry that does not apply: 0 for an entry alone, and counted from 0 in a group.
        part: u64,
        /// The number, from 0, of the first primitive of that entry that fails.
        at: u64,
        /// Its cause.
        cause: Cause,
    },
    /// The item is not a change, for this fault, which is not that memory ran out. The documents are as before.
    NotAChange(EntryFault),
    /// A line feed is in the line, and nothing changed.
    LineFeed,
    /// No further item has a number, and nothing changed.
    Full,
    /// The part is one of the last change, and no change was accepted by the last line. Nothing changed.
    NoChange,
    /// Memory ran out, and the session is as before.
    NoMemory,
    /// There is no session.
    NoSession,
}

// How a step ends that has this answer.
pub(crate) fn outcome_of(answer: &PairAnswer) -> Outcome
    requires has_line { HasAnswerLine answer.now }
    ensures { IfSome (answer_tree answer.now) (λ answer. result ≡ outcome_of answer) }
{
    match answer {
        PairAnswer::Carried(_, _) | PairAnswer::GroupCarried(_, _) => Outcome::Done,
        PairAnswer::NoApply { at, cause } => Outcome::NoApply {
            part: 0,
            at: *at,
            cause: *cause,
        },
        PairAnswer::GroupNoApply { part, at, cause } => Outcome::NoApply {
            part: *part,
            at: *at,
            cause: *cause,
        },
        PairAnswer::NoEntry(fault) => Outcome::NotAChange(*fault),
    }
}

/// What a session can show.
#[derive(Clone, Copy, Debug, PartialEq, Eq, Drop)]
pub enum Part {
    /// The three state lines, as a run ends with them.
    State,
    /// The left document, as JSON.
    Left,
    /// The complement, as JSON.
    Complement,
    /// The right document, as JSON.
    Right,
    /// The left type, in canonical text.
    LeftType,
    /// The right type, in canonical text.
    RightType,
    /// The payload of a snapshot of the state: a record for a log.
    Snapshot,
    /// The payload of the change that the last line was: a record for a log.
    Change,
    /// The word that takes the left document back over that change, as JSON.
    UndoLeft,
    /// The word that takes the right document back over that change, as JSON.
    UndoRight,
}

/// Why the texts of a state are refused. They are tested in the order of these variants.
#[derive(Clone, Copy, Debug, PartialEq, Eq, Drop)]
pub enum StateFault {
    /// The first text is not the JSON of a document of the left type.
    NotLeft,
    /// The second text is not the JSON of a complement of the lens.
    NotComplement,
    /// The third text is not the JSON of a document of the right type.
    NotRight,
    /// The three are not consistent.
    NotConsistent,
    /// Memory ran out, which says nothing of the texts.
    NoMemory,
}

impl From<AllocError> for StateFault {
    ghost use Rattle.std.specs.Prelude.{◌≡◌};
    ghost use Rattle.embed_session.specs.declared.outcome.StateFault.TheVariants.{NoMemory};

    ghost from_gives = { λ _ fault. fault ≡ NoMemory };

    fn from(_: AllocError) -> StateFault {
        StateFault::NoMemory
    }
}

impl<T: Drop> From<AllocFailed<T>> for StateFault {
    ghost use Rattle.std.specs.Prelude.{◌≡◌};
    ghost use Rattle.embed_session.specs.declared.outcome.StateFault.TheVariants.{NoMemory};

    ghost from_gives = { λ _ fault. fault ≡ NoMemory };

    fn from(_: AllocFailed<T>) -> StateFault {
        StateFault::NoMemory
    }
}
