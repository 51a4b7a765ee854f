//! Why a word with a base is refused.

use edit_module::Cause;
use std::alloc::AllocError;

/// Why a word with a base is refused. The session is then as it was.
#[derive(Clone, Copy, Debug, PartialEq, Eq)]
pub enum BaseFault {
    /// The number of changes is the last one, 2^64 - 1.
    Full,
    /// The base is above the number of changes, or older than the kept bridges.
    Base,
    /// What the word changes is gone since its base.
    Gone,
    /// The word does not act on the document of its base, for this cause.
    Unfit(Cause),
    /// The word, as it was carried, does not apply to the present document of its side.
    NoApply {
        /// The number, from 0, of the first primitive of the carried word that fails.
        at: u64,
        /// Its cause; where a word inside it fails, the cause inside.
        cause: Cause,
    },
    /// Memory ran out.
    NoMemory,
}

impl From<AllocError> for BaseFault {
    ghost use Rattle.std.specs.Prelude.{◌≡◌};
    ghost use Rattle.based_session.specs.declared.fault.BaseFault.TheVariants.{NoMemory};

    ghost from_gives = { λ _ fault. fault ≡ NoMemory };

    fn from(_: AllocError) -> BaseFault {
        BaseFault::NoMemory
    }
}
