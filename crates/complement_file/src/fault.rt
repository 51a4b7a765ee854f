//! Why a tree was not read.

use std::alloc::{AllocError, AllocFailed, Global};
use texts::Twin;

/// Why a tree was not read as a complement.
#[derive(Clone, Copy, Debug, PartialEq, Eq, Drop)]
pub enum CompFault {
    /// No complement that fits the lens has this tree.
    NotAComplement,
    /// Memory ran out, which says nothing of the tree.
    NoMemory,
}

impl From<AllocError> for CompFault {
    ghost use Rattle.std.specs.Prelude.{◌≡◌};
    ghost use Rattle.complement_file.specs.declared.fault.CompFault.TheVariants.{NoMemory};

    ghost from_gives = { λ _ fault. fault ≡ NoMemory };

    fn from(_: AllocError) -> CompFault {
        CompFault::NoMemory
    }
}

impl<T: Drop> From<AllocFailed<T>> for CompFault {
    ghost use Rattle.std.specs.Prelude.{◌≡◌};
    ghost use Rattle.complement_file.specs.declared.fault.CompFault.TheVariants.{NoMemory};

    ghost from_gives = { λ _ fault. fault ≡ NoMemory };

    fn from(_: AllocFailed<T>) -> CompFault {
        CompFault::NoMemory
    }
}

impl Twin for CompFault {
    ghost use Rattle.complement_file.specs.declared.fault.CompFault.{CompFault};

    ghost Meaning = { CompFault };

    ghost meaning = { λ f. f };

    fn twin(&self, _alloc: Global) -> Result<Self, AllocError> {
        Ok(*self)
    }
}
