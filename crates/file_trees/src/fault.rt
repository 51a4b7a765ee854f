//! Why a file was not read.

use std::alloc::AllocError;

/// Why a file was not read as a tree.
#[derive(Clone, Copy, Debug, PartialEq, Eq, Drop)]
pub enum FileFault {
    /// The bytes are not UTF-8.
    NotUtf8,
    /// The text is not JSON, or it nests deeper than 128 levels.
    NotJson,
    /// An object has two members of one name.
    NameTwice,
    /// Memory ran out, which says nothing of the file.
    NoMemory,
}

impl From<AllocError> for FileFault {
    ghost use Rattle.std.specs.Prelude.{◌≡◌};
    ghost use Rattle.file_trees.specs.declared.fault.FileFault.TheVariants.{NoMemory};

    ghost from_gives = { λ _ fault. fault ≡ NoMemory };

    fn from(_: AllocError) -> FileFault {
        FileFault::NoMemory
    }
}
