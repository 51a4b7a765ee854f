//! Why a text is not a program.

use std::alloc::{AllocError, Global};
use texts::Twin;

/// Why a text is not a program. Offsets count bytes from the first of the text.
#[derive(Clone, Copy, Debug, PartialEq, Eq, Drop)]
pub enum ProgramFault {
    /// The text has more than 65,536 bytes.
    ProgramTooLong,
    /// The grammar does not have the text: this is the offset of the unexpected token, the first that cannot continue.
    NotAProgram { at: u64 },
    /// The first fault of the names: no earlier definition of the wanted sort has the name at this offset.
    UnknownName { at: u64 },
    /// The first fault of the names: an earlier definition has the defined name at this offset.
    RepeatedName { at: u64 },
    /// Memory ran out, which says nothing of the text.
    NoMemory,
}

impl From<AllocError> for ProgramFault {
    ghost use Rattle.std.specs.Prelude.{◌≡◌};
    ghost use Rattle.lens_syntax.specs.declared.fault.ProgramFault.TheVariants.{NoMemory};

    ghost from_gives = { λ _ fault. fault ≡ NoMemory };

    fn from(_: AllocError) -> ProgramFault {
        ProgramFault::NoMemory
    }
}

impl Twin for ProgramFault {
    ghost use Rattle.lens_syntax.specs.declared.fault.ProgramFault.{ProgramFault};

    ghost Meaning = { ProgramFault };

    ghost meaning = { λ x. x };

    fn twin(&self, _alloc: Global) -> Result<Self, AllocError> {
        Ok(*self)
    }
}
