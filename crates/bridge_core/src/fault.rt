//! Why a word is not carried.
use edit_module::Cause;
use std::alloc::AllocError;

/// Why a word that was made for the near document is not carried to the far one.
#[derive(Clone, Copy, Debug, PartialEq, Eq)]
pub enum CarryFault {
    /// What the word changes is gone in the far document.
    Gone,
    /// The word does not act on the near document, for this cause.
    NoApply(Cause),
    /// Memory ran out.
    NoMemory,
}

impl From<AllocError> for CarryFault {
    ghost use Rattle.std.specs.Prelude.{◌≡◌};
    ghost use Rattle.bridge_core.specs.declared.fault.CarryFault.TheVariants.{NoMemory};

    ghost from_gives = { λ _ fault. fault ≡ NoMemory };

    fn from(_: AllocError) -> CarryFault {
        CarryFault::NoMemory
    }
}
