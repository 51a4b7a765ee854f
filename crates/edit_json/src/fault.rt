//! Why a tree was not read as a word.

use std::alloc::{AllocError, AllocFailed, Global};
use texts::Twin;

/// Why a tree was not read as a word of edits.
#[derive(Clone, Copy, Debug, PartialEq, Eq, Drop)]
pub enum EditFault {
    /// No word has this tree.
    NotAnEdit,
    /// Memory ran out, which says nothing of the tree.
    NoMemory,
}

impl From<AllocError> for EditFault {
    ghost use Rattle.std.specs.Prelude.{◌≡◌};
    ghost use Rattle.edit_json.specs.declared.fault.EditFault.TheVariants.{NoMemory};

    ghost from_gives = { λ _ fault. fault ≡ NoMemory };

    fn from(_: AllocError) -> EditFault {
        EditFault::NoMemory
    }
}

impl<T: Drop> From<AllocFailed<T>> for EditFault {
    ghost use Rattle.std.specs.Prelude.{◌≡◌};
    ghost use Rattle.edit_json.specs.declared.fault.EditFault.TheVariants.{NoMemory};

    ghost from_gives = { λ _ fault. fault ≡ NoMemory };

    fn from(_: AllocFailed<T>) -> EditFault {
        EditFault::NoMemory
    }
}

impl Twin for EditFault {
    ghost use Rattle.edit_json.specs.declared.fault.EditFault.{EditFault};

    ghost Meaning = { EditFault };

    ghost meaning = { λ f. f };

    fn twin(&self, _alloc: Global) -> Result<Self, AllocError> {
        Ok(*self)
    }
}
