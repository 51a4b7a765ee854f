//! How a call ends, and what can be shown.

ghost use Rattle.std.specs.Prelude.{IfSome};
ghost use Rattle.hub_run.specs.AnswerLines.{HasAnswerLine};
ghost use Rattle.hub_run.specs.Views.{answer_tree};
ghost use Rattle.embed_hub.specs.Steps.{EndsWith};

use edit_journal::EntryFault;
use edit_module::Cause;
use hub_run::HubAnswer;
use std::alloc::{AllocError, AllocFailed};

/// How a call ended.
#[derive(Clone, Copy, Debug, PartialEq, Eq, Drop)]
pub enum HubOutcome {
    /// The part is shown; the item was accepted.
    Done,
    /// The line is blank, and so it is not an item.
    Blank,
    /// The item, or the part, names a view that does not exist. Nothing changed but the text of an item.
    NoView,
    /// The item is an edit that does not apply, and the documents are as before.
    NoApply {
        /// The number, from 0, of the first primitive that fails.
        at: u64,
        /// Its cause.
        cause: Cause,
    },
    /// The item is not an edit, for this fault, which is not that memory ran out. The documents are as before.
    NotAnEdit(EntryFault),
    /// A line feed is in the line, and nothing changed.
    LineFeed,
    /// No further item has a number, and nothing changed.
    Full,
    /// Memory ran out, and the hub is as before.
    NoMemory,
    /// There is no hub.
    NoHub,
}

// How a step ends that has this answer.
pub(crate) fn outcome_of(answer: &HubAnswer) -> HubOutcome
    requires has_line { HasAnswerLine answer.now }
    ensures { IfSome (answer_tree answer.now) (λ answer. EndsWith answer result) }
{
    match answer {
        HubAnswer::Carried(_) => HubOutcome::Done,
        HubAnswer::NoView => HubOutcome::NoView,
        HubAnswer::NoApply { at, cause } => HubOutcome::NoApply {
            at: *at,
            cause: *cause,
        },
        HubAnswer::NoEdit(fault) => HubOutcome::NotAnEdit(*fault),
    }
}

/// What a hub can show.
#[derive(Clone, Copy, Debug, PartialEq, Eq, Drop)]
pub enum HubPart {
    /// The state lines, as a run ends with them.
    State,
    /// The hub's document, as JSON.
    Document,
    /// The document of the view with this number, from 0, as JSON.
    ViewDocument(u64),
    /// The complement of the view with this number, from 0, as JSON.
    ViewComplement(u64),
}

/// Why no hub goes on from the texts of a state.
#[derive(Clone, Copy, Debug, PartialEq, Eq, Drop)]
pub enum HubStateFault {
    /// There is not one text of the hub and two of each view.
    OtherCount,
    /// The first text is of no document of the hub.
    NotHub,
    /// The first text of the view with this number is of no document of it.
    NotView(u64),
    /// The second text of the view with this number is of no complement of its lens.
    NotComplement(u64),
    /// The view with this number is not in its lens's consistency relation with the hub.
    NotConsistent(u64),
    /// Memory ran out.
    NoMemory,
}

impl From<AllocError> for HubStateFault {
    ghost use Rattle.std.specs.Prelude.{◌≡◌};
    ghost use Rattle.embed_hub.specs.declared.outcome.HubStateFault.TheVariants.{NoMemory};

    ghost from_gives = { λ _ fault. fault ≡ NoMemory };

    fn from(_: AllocError) -> HubStateFault {
        HubStateFault::NoMemory
    }
}

impl<T: Drop> From<AllocFailed<T>> for HubStateFault {
    ghost use Rattle.std.specs.Prelude.{◌≡◌};
    ghost use Rattle.embed_hub.specs.declared.outcome.HubStateFault.TheVariants.{NoMemory};

    ghost from_gives = { λ _ fault. fault ≡ NoMemory };

    fn from(_: AllocFailed<T>) -> HubStateFault {
        HubStateFault::NoMemory
    }
}
