//! Why a tree was not read.

use std::alloc::{AllocError, AllocFailed, Global};
use texts::Twin;

/// Why a tree was not read as a document.
#[derive(Clone, Copy, Debug, PartialEq, Eq, Drop)]
pub enum DocFault {
    /// No document of the type has this tree.
    NotOfType,
    /// Memory ran out, which says nothing of the tree.
    NoMemory,
}

impl From<AllocError> for DocFault {
    ghost use Rattle.std.specs.Prelude.{◌≡◌};
    ghost use Rattle.value_json.specs.declared.fault.DocFault.TheVariants.{NoMemory};

    ghost from_gives = { λ _ fault. fault ≡ NoMemory };

    fn from(_: AllocError) -> DocFault {
        DocFault::NoMemory
    }
}

impl<T: Drop> From<AllocFailed<T>> for DocFault {
    ghost use Rattle.std.specs.Prelude.{◌≡◌};
    ghost use Rattle.value_json.specs.declared.fault.DocFault.TheVariants.{NoMemory};

    ghost from_gives = { λ _ fault. fault ≡ NoMemory };

    fn from(_: AllocFailed<T>) -> DocFault {
        DocFault::NoMemory
    }
}

impl Twin for DocFault {
    ghost use Rattle.value_json.specs.declared.fault.DocFault.{DocFault};

    ghost Meaning = { DocFault };

    ghost meaning = { λ f. f };

    fn twin(&self, _alloc: Global) -> Result<Self, AllocError> {
        Ok(*self)
    }
}
