//! Why a hub refuses a step.

ghost use Rattle.std.specs.Prelude.{◌≡◌};
ghost use Rattle.view_hub.specs.Views.{of_action};

use edit_module::{ActFault, Cause};
use std::alloc::{AllocError, AllocFailed, Global};
use texts::Twin;

/// Why a hub refuses a step. The hub is then as it was.
#[derive(Clone, Copy, Debug, PartialEq, Eq)]
pub enum HubFault {
    /// There is no such view.
    NoView {
        /// How many views there are.
        views: u64,
    },
    /// The word does not apply to the document that is edited.
    NoApply {
        /// The number, from 0, of the first primitive of the word that fails.
        at: u64,
        /// Its cause; where a word inside it fails, the cause inside.
        cause: Cause,
    },
    /// Memory ran out.
    NoMemory,
}

/// Why a hub refuses a group of edits. The hub is then as it was, also where other edits of the group come before the
/// one that is refused.
#[derive(Clone, Copy, Debug, PartialEq, Eq)]
pub enum HubGroupFault {
    /// There is no view of the number that an edit names.
    NoView {
        /// The number of that edit in the group, from 0.
        part: u64,
        /// How many views there are.
        views: u64,
    },
    /// The word of an edit does not apply to the document that is edited, when its turn comes.
    NoApply {
        /// The number of that edit in the group, from 0.
        part: u64,
        /// The number, from 0, of the first primitive of its word that fails.
        at: u64,
        /// Its cause; where a word inside it fails, the cause inside.
        cause: Cause,
    },
    /// Memory ran out.
    NoMemory,
}

impl From<AllocError> for HubFault {
    ghost use Rattle.std.specs.Prelude.{◌≡◌};
    ghost use Rattle.view_hub.specs.declared.fault.HubFault.TheVariants.{NoMemory};

    ghost from_gives = { λ _ fault. fault ≡ NoMemory };

    fn from(_: AllocError) -> HubFault {
        HubFault::NoMemory
    }
}

impl<T: Drop> From<AllocFailed<T>> for HubFault {
    ghost use Rattle.std.specs.Prelude.{◌≡◌};
    ghost use Rattle.view_hub.specs.declared.fault.HubFault.TheVariants.{NoMemory};

    ghost from_gives = { λ _ fault. fault ≡ NoMemory };

    fn from(_: AllocFailed<T>) -> HubFault {
        HubFault::NoMemory
    }
}

impl From<AllocError> for HubGroupFault {
    ghost use Rattle.std.specs.Prelude.{◌≡◌};
    ghost use Rattle.view_hub.specs.declared.fault.HubGroupFault.TheVariants.{NoMemory};

    ghost from_gives = { λ _ fault. fault ≡ NoMemory };

    fn from(_: AllocError) -> HubGroupFault {
        HubGroupFault::NoMemory
    }
}

impl<T: Drop> From<AllocFailed<T>> for HubGroupFault {
    ghost use Rattle.std.specs.Prelude.{◌≡◌};
    ghost use Rattle.view_hub.specs.declared.fault.HubGroupFault.TheVariants.{NoMemory};

    ghost from_gives = { λ _ fault. fault ≡ NoMemory };

    fn from(_: AllocFailed<T>) -> HubGroupFault {
        HubGroupFault::NoMemory
    }
}

impl Twin for HubFault {
    ghost use Rattle.view_hub.specs.declared.fault.HubFault.{HubFault};

    ghost Meaning = { HubFault };

    ghost meaning = { λ fault. fault };

    fn twin(&self, _alloc: Global) -> Result<Self, AllocError> {
        Ok(*self)
    }
}

// The hub's fault for an action's.
pub(crate) fn of_action(fault: ActFault) -> HubFault
    ensures { result ≡ of_action fault }
{
    match fault {
        ActFault::NoApply { at, cause } => HubFault::NoApply { at, cause },
        ActFault::NoMemory => HubFault::NoMemory,
    }
}
