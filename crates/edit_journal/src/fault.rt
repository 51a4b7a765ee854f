//! Why a line was not read.

use std::alloc::{AllocError, AllocFailed, Global};
use texts::Twin;

/// Why a line was not read as a change. A line is tested in the order of these variants.
#[derive(Clone, Copy, Debug, PartialEq, Eq, Drop)]
pub enum EntryFault {
    /// The line is too long.
    LineTooLong,
    /// The text of the line is not JSON.
    NotJson,
    /// The tree of the line has not the form of an entry or of a group of entries.
    NotAnEntry,
    /// The tree has such a form, but an edit in it is not a word.
    NotAnEdit,
    /// Memory ran out, which says nothing of the line.
    NoMemory,
}

impl From<AllocError> for EntryFault {
    ghost use Rattle.std.specs.Prelude.{◌≡◌};
    ghost use Rattle.edit_journal.specs.declared.fault.EntryFault.TheVariants.{NoMemory};

    ghost from_gives = { λ _ fault. fault ≡ NoMemory };

    fn from(_: AllocError) -> EntryFault {
        EntryFault::NoMemory
    }
}

impl<T: Drop> From<AllocFailed<T>> for EntryFault {
    ghost use Rattle.std.specs.Prelude.{◌≡◌};
    ghost use Rattle.edit_journal.specs.declared.fault.EntryFault.TheVariants.{NoMemory};

    ghost from_gives = { λ _ fault. fault ≡ NoMemory };

    fn from(_: AllocFailed<T>) -> EntryFault {
        EntryFault::NoMemory
    }
}

impl Twin for EntryFault {
    ghost use Rattle.edit_journal.specs.declared.fault.EntryFault.{EntryFault};

    ghost Meaning = { EntryFault };

    ghost meaning = { λ f. f };

    fn twin(&self, _alloc: Global) -> Result<Self, AllocError> {
        Ok(*self)
    }
}
