//! Why a patch is not made a word.

use file_patches::Cause;
use file_values::FileMisfit;
use std::alloc::AllocError;

/// Why a patch is not made a word.
#[derive(Debug, Drop)]
pub enum WordFault {
    /// No file of the form shows the document.
    NoFile,
    /// The operation of this number, from 0, cannot be done, for this cause.
    NotDone(usize, Cause),
    /// After the operation of this number, from 0, and after each later one the file is not as the form has it. This is
    /// the first part of the file after that operation that is not, and why.
    NotRead(usize, FileMisfit),
    /// Memory ran out, which says nothing of what was given.
    NoMemory,
}

impl From<AllocError> for WordFault {
    ghost use Rattle.std.specs.Prelude.{◌≡◌};
    ghost use Rattle.patch_words.specs.declared.fault.WordFault.TheVariants.{NoMemory};

    ghost from_gives = { λ _ fault. fault ≡ NoMemory };

    fn from(_: AllocError) -> WordFault {
        WordFault::NoMemory
    }
}
