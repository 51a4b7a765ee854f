//! Why a step is refused.

use edit_module::Cause;
use std::alloc::{AllocError, AllocFailed, Global};
use texts::Twin;

/// Why a step is refused. The session is then as it was.
#[derive(Clone, Copy, Debug, PartialEq, Eq)]
pub enum StepFault {
    /// The word does not apply to the document of its side.
    NoApply {
        /// The number, from 0, of the first primitive of the word that fails.
        at: u64,
        /// Its cause; where a word inside it fails, the cause inside.
        cause: Cause,
    },
    /// Memory ran out.
    NoMemory,
}

impl Twin for StepFault {
    ghost use Rattle.edit_session.specs.declared.fault.StepFault.{StepFault};

    ghost Meaning = { StepFault };

    ghost meaning = { λ fault. fault };

    fn twin(&self, _alloc: Global) -> Result<Self, AllocError> {
        Ok(*self)
    }
}

/// Why a change is refused. The session is then as it was, also where other entries of the change come before the one
/// that is refused.
#[derive(Clone, Copy, Debug, PartialEq, Eq)]
pub enum GroupFault {
    /// An entry of the change does not apply to the document of its side when its turn comes.
    NoApply {
        /// The number of that entry in the group, from 0; for a single entry it is 0.
        part: u64,
        /// The number, from 0, of the first primitive of its word that fails.
        at: u64,
        /// Its cause; where a word inside it fails, the cause inside.
        cause: Cause,
    },
    /// Memory ran out.
    NoMemory,
}

impl From<AllocError> for GroupFault {
    ghost use Rattle.std.specs.Prelude.{◌≡◌};
    ghost use Rattle.edit_session.specs.declared.fault.GroupFault.TheVariants.{NoMemory};

    ghost from_gives = { λ _ fault. fault ≡ NoMemory };

    fn from(_: AllocError) -> GroupFault {
        GroupFault::NoMemory
    }
}

impl<T: Drop> From<AllocFailed<T>> for GroupFault {
    ghost use Rattle.std.specs.Prelude.{◌≡◌};
    ghost use Rattle.edit_session.specs.declared.fault.GroupFault.TheVariants.{NoMemory};

    ghost from_gives = { λ _ fault. fault ≡ NoMemory };

    fn from(_: AllocFailed<T>) -> GroupFault {
        GroupFault::NoMemory
    }
}

impl Twin for GroupFault {
    ghost use Rattle.edit_session.specs.declared.fault.GroupFault.{GroupFault};

    ghost Meaning = { GroupFault };

    ghost meaning = { λ fault. fault };

    fn twin(&self, _alloc: Global) -> Result<Self, AllocError> {
        Ok(*self)
    }
}
