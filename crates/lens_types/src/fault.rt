//! Why a program is refused.

use crate::made::both;
use doc_values::Ty;
use std::alloc::{AllocError, AllocFailed, Global};
use texts::{Name, Twin};

/// Why a program is refused. docs/LANGUAGE.md has the condition of each, with an example, and their order.
#[derive(Drop)]
pub enum TypeFault {
    /// The right type of the first lens of a composition is not the left type of the second.
    MiddleDiffers {
        /// The right type of the first lens.
        left: Ty,
        /// The left type of the second lens.
        right: Ty,
    },
    /// A field of a record appears twice on one side.
    RepeatedField {
        /// The first field, in written order, that equals an earlier one of its side.
        name: Name,
    },
    /// A tag of alternatives or of a partition appears twice on one side.
    RepeatedTag {
        /// The first tag, in written order, that equals an earlier one of its side.
        name: Name,
    },
    /// A member of an enum or of a bijection appears twice on one side.
    RepeatedMember {
        /// The first member, in written order, that equals an earlier one of its side.
        name: Name,
    },
    /// A definition has more than 4,096 parts, names expanded.
    TooLarge,
    /// A lens, a type written in it, or the type of a side is higher than 32.
    TooDeep,
    /// There was not enough memory.
    NoMemory,
    /// The initial value of an enum is not one of its members, or that of a bijection is not one of its left members.
    NotAMember {
        /// The initial value.
        name: Name,
    },
}

impl From<AllocError> for TypeFault {
    ghost use Rattle.std.specs.Prelude.{◌≡◌};
    ghost use Rattle.lens_types.specs.declared.fault.TypeFault.TheVariants.{NoMemory};

    ghost from_gives = { λ _ fault. fault ≡ NoMemory };

    fn from(_: AllocError) -> TypeFault {
        TypeFault::NoMemory
    }
}

impl<T: Drop> From<AllocFailed<T>> for TypeFault {
    ghost use Rattle.std.specs.Prelude.{◌≡◌};
    ghost use Rattle.lens_types.specs.declared.fault.TypeFault.TheVariants.{NoMemory};

    ghost from_gives = { λ _ fault. fault ≡ NoMemory };

    fn from(_: AllocFailed<T>) -> TypeFault {
        TypeFault::NoMemory
    }
}

impl Twin for TypeFault {
    ghost use Rattle.std.specs.Prelude.{Option};
    ghost use Rattle.lens_types.specs.Checking.{Failure};
    ghost use Rattle.lens_types.specs.Faults.{failure_of};

    ghost Meaning = { Option Failure };

    ghost meaning = { failure_of };

    fn twin(&self, alloc: Global) -> Result<Self, AllocError> {
        match self {
            TypeFault::MiddleDiffers { left, right } => {
                let (left, right) = both(left.twin(alloc), right.twin(alloc))?;
                Ok(TypeFault::MiddleDiffers { left, right })
            }
            TypeFault::RepeatedField { name } => Ok(TypeFault::RepeatedField {
                name: name.twin(alloc)?,
            }),
            TypeFault::RepeatedTag { name } => Ok(TypeFault::RepeatedTag {
                name: name.twin(alloc)?,
            }),
            TypeFault::RepeatedMember { name } => Ok(TypeFault::RepeatedMember {
                name: name.twin(alloc)?,
            }),
            TypeFault::NotAMember { name } => Ok(TypeFault::NotAMember {
                name: name.twin(alloc)?,
            }),
            TypeFault::TooLarge => Ok(TypeFault::TooLarge),
            TypeFault::TooDeep => Ok(TypeFault::TooDeep),
            TypeFault::NoMemory => Ok(TypeFault::NoMemory),
        }
    }
}
