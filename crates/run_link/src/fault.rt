//! Why a line was not read.

use edit_journal::EntryFault;
use std::alloc::{AllocError, AllocFailed};

/// Why a line was not read as an event. A line is tested in the order of these variants.
#[derive(Clone, Copy, Debug, PartialEq, Eq, Drop)]
pub enum EventFault {
    /// The line is too long.
    LineTooLong,
    /// The text of the line is not JSON.
    NotJson,
    /// The tree of the line has not the form of an event.
    NotAnEvent,
    /// The tree has the form of an edit, but its edit is not a word.
    NotAnEdit,
    /// Memory ran out, which says nothing of the line.
    NoMemory,
}

impl From<AllocError> for EventFault {
    ghost use Rattle.std.specs.Prelude.{◌≡◌};
    ghost use Rattle.run_link.specs.declared.fault.EventFault.TheVariants.{NoMemory};

    ghost from_gives = { λ _ fault. fault ≡ NoMemory };

    fn from(_: AllocError) -> EventFault {
        EventFault::NoMemory
    }
}

impl<T: Drop> From<AllocFailed<T>> for EventFault {
    ghost use Rattle.std.specs.Prelude.{◌≡◌};
    ghost use Rattle.run_link.specs.declared.fault.EventFault.TheVariants.{NoMemory};

    ghost from_gives = { λ _ fault. fault ≡ NoMemory };

    fn from(_: AllocFailed<T>) -> EventFault {
        EventFault::NoMemory
    }
}

impl From<EntryFault> for EventFault {
    ghost use Rattle.std.specs.Prelude.{◌≡◌};
    ghost use Rattle.run_link.specs.Reading.{event_fault};

    ghost from_gives = { λ entry fault. fault ≡ event_fault entry };

    fn from(fault: EntryFault) -> EventFault {
        match fault {
            EntryFault::LineTooLong => EventFault::LineTooLong,
            EntryFault::NotJson => EventFault::NotJson,
            EntryFault::NotAnEntry => EventFault::NotAnEvent,
            EntryFault::NotAnEdit => EventFault::NotAnEdit,
            EntryFault::NoMemory => EventFault::NoMemory,
        }
    }
}
