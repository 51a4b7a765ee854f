//! Why tokens are not a program.
ghost use Rattle.std.specs.Prelude.{◌≡◌};

use program_grammar::NameFault;
use std::alloc::{AllocError, AllocFailed, Global};
use texts::Twin;

/// Why the tokens of a text are not a program. An offset counts the bytes of the text before a token.
#[derive(Clone, Copy, Debug, PartialEq, Eq, Drop)]
pub enum ProgramReadFault {
    /// The tokens fit, but run out before the end. No text has such tokens: its last one is its end or a bad one.
    Ended,
    /// The token at this offset is the unexpected one: the first that cannot continue.
    NotAProgram { at: u64 },
    /// No earlier definition of the wanted sort has the name at this offset.
    UnknownName { at: u64 },
    /// An earlier definition, of either sort, has the name that is defined at this offset.
    RepeatedName { at: u64 },
    /// Memory ran out.
    NoMemory,
}

impl Twin for ProgramReadFault {
    ghost use Rattle.program_reader.specs.declared.fault.ProgramReadFault.{ProgramReadFault};

    ghost Meaning = { ProgramReadFault };

    ghost meaning = { λ x. x };

    fn twin(&self, _alloc: Global) -> Result<Self, AllocError> {
        Ok(*self)
    }
}

/// Why a part of a program is not read.
#[derive(Clone, Copy, Debug, PartialEq, Eq, Drop)]
pub(crate) enum ReadFault {
    /// Memory ran out.
    NoMemory,
    /// The tokens run out.
    Ended,
    /// The token at this offset does not fit.
    At(u64),
}

impl From<AllocError> for ReadFault {
    ghost use Rattle.program_reader.specs.declared.fault.ReadFault.TheVariants.{NoMemory};

    ghost from_gives = { λ _ fault. fault ≡ NoMemory };

    fn from(_: AllocError) -> ReadFault {
        ReadFault::NoMemory
    }
}

impl<T: Drop> From<AllocFailed<T>> for ReadFault {
    ghost use Rattle.program_reader.specs.declared.fault.ReadFault.TheVariants.{NoMemory};

    ghost from_gives = { λ _ fault. fault ≡ NoMemory };

    fn from(_: AllocFailed<T>) -> ReadFault {
        ReadFault::NoMemory
    }
}

impl From<ReadFault> for ProgramReadFault {
    ghost use Rattle.program_reader.specs.Causes.{public_fault};

    ghost from_gives = { λ found fault. fault ≡ public_fault found };

    fn from(found: ReadFault) -> ProgramReadFault {
        match found {
            ReadFault::NoMemory => ProgramReadFault::NoMemory,
            ReadFault::Ended => ProgramReadFault::Ended,
            ReadFault::At(at) => ProgramReadFault::NotAProgram { at },
        }
    }
}

impl From<NameFault> for ProgramReadFault {
    ghost use Rattle.program_reader.specs.Causes.{public_name_fault};

    ghost from_gives = { λ found fault. fault ≡ public_name_fault found };

    fn from(found: NameFault) -> ProgramReadFault {
        match found {
            NameFault::Unknown { at } => ProgramReadFault::UnknownName { at },
            NameFault::Repeated { at } => ProgramReadFault::RepeatedName { at },
        }
    }
}
