//! The result of a translation, and why it has failed.

use crate::comp::Comp;
use edit_module::Word;
use std::alloc::{AllocError, AllocFailed, Global};
use texts::Twin;

/// The result of a translation.
#[derive(Drop)]
pub struct Carried {
    /// The word of the other side.
    pub word: Word,
    /// The complement after it.
    pub comp: Comp,
}

/// How the translation of one primitive begins.
#[derive(Drop)]
pub enum Begun {
    /// It is finished.
    Done(Carried),
    /// A word is to be translated by a lens inside, and the result put in its place.
    Inner {
        /// The number of the lens inside, among those of the form in written order, from 0.
        part: u64,
        /// The complement of that lens.
        comp: Comp,
        /// The word to translate.
        word: Word,
    },
}

/// Why a word has no translation.
#[derive(Clone, Copy, Debug, PartialEq, Eq)]
pub enum CarryFault {
    /// The translation has no value: the complement does not fit the form, or a primitive does not fit the side's type.
    Unfit,
    /// Memory ran out.
    NoMemory,
}

impl Twin for Carried {
    ghost use Rattle.lens_core.specs.Translation.{Translated, carried_tree};

    ghost Meaning = { Translated };

    ghost meaning = { carried_tree };

    fn twin(&self, alloc: Global) -> Result<Self, AllocError> {
        Ok(Carried {
            word: self.word.twin(alloc)?,
            comp: self.comp.twin(alloc)?,
        })
    }
}

impl Twin for Begun {
    ghost use Rattle.lens_core.specs.Beginnings.{Beginning, begun_tree};

    ghost Meaning = { Beginning };

    ghost meaning = { begun_tree };

    fn twin(&self, alloc: Global) -> Result<Self, AllocError> {
        match self {
            Begun::Done(carried) => Ok(Begun::Done(carried.twin(alloc)?)),
            Begun::Inner { part, comp, word } => {
                let comp = comp.twin(alloc)?;
                Ok(Begun::Inner {
                    part: *part,
                    comp,
                    word: word.twin(alloc)?,
                })
            }
        }
    }
}

impl Twin for CarryFault {
    ghost use Rattle.lens_core.specs.declared.carry.CarryFault.{CarryFault};

    ghost Meaning = { CarryFault };

    ghost meaning = { λ fault. fault };

    fn twin(&self, _alloc: Global) -> Result<Self, AllocError> {
        Ok(*self)
    }
}

impl From<AllocError> for CarryFault {
    ghost use Rattle.std.specs.Prelude.{◌≡◌};
    ghost use Rattle.lens_core.specs.declared.carry.CarryFault.TheVariants.{NoMemory};

    ghost from_gives = { λ _ fault. fault ≡ NoMemory };

    fn from(_: AllocError) -> CarryFault {
        CarryFault::NoMemory
    }
}

impl<T: Drop> From<AllocFailed<T>> for CarryFault {
    ghost use Rattle.std.specs.Prelude.{◌≡◌};
    ghost use Rattle.lens_core.specs.declared.carry.CarryFault.TheVariants.{NoMemory};

    ghost from_gives = { λ _ fault. fault ≡ NoMemory };

    fn from(_: AllocFailed<T>) -> CarryFault {
        CarryFault::NoMemory
    }
}
