//! Why payloads stand for no session.

use std::alloc::{AllocError, AllocFailed, Global};
use texts::Twin;

/// Why payloads stand for no session. Records are numbered from 1 on, and the fault is that of the first record that
/// has one.
#[derive(Clone, Copy, Debug, PartialEq, Eq, Drop)]
pub enum RecordFault {
    /// The record is not one that may stand there.
    BadRecord {
        /// The number of the record.
        number: u64,
    },
    /// The record is a snapshot whose triple is not consistent.
    NotConsistent {
        /// The number of the record.
        number: u64,
    },
    /// Memory ran out, which says nothing of the payloads.
    NoMemory,
}

impl From<AllocError> for RecordFault {
    ghost use Rattle.std.specs.Prelude.{◌≡◌};
    ghost use Rattle.store_records.specs.declared.record_fault.RecordFault.TheVariants.{NoMemory};

    ghost from_gives = { λ _ fault. fault ≡ NoMemory };

    fn from(_: AllocError) -> RecordFault {
        RecordFault::NoMemory
    }
}

impl<T: Drop> From<AllocFailed<T>> for RecordFault {
    ghost use Rattle.std.specs.Prelude.{◌≡◌};
    ghost use Rattle.store_records.specs.declared.record_fault.RecordFault.TheVariants.{NoMemory};

    ghost from_gives = { λ _ fault. fault ≡ NoMemory };

    fn from(_: AllocFailed<T>) -> RecordFault {
        RecordFault::NoMemory
    }
}

impl Twin for RecordFault {
    ghost use Rattle.store_records.specs.declared.record_fault.RecordFault.{RecordFault};

    ghost Meaning = { RecordFault };

    ghost meaning = { λ f. f };

    fn twin(&self, _alloc: Global) -> Result<Self, AllocError> {
        Ok(*self)
    }
}
