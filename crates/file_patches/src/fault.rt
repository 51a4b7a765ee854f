//! Why a patch was not read, and why it was not made.

use std::alloc::{AllocError, AllocFailed};

/// Why a call has no result.
#[derive(Clone, Copy, Debug, PartialEq, Eq, Drop)]
pub enum Fault<C: Drop> {
    /// It is refused for this cause.
    Refused(C),
    /// Memory ran out, which says nothing of what was given.
    NoMemory,
}

/// Why an operation cannot be done.
#[derive(Clone, Copy, Debug, PartialEq, Eq, Drop)]
pub enum Cause {
    /// An object has no member of the name, or an array no item at the index.
    NoPlace,
    /// A part leads into what is no array or object, or is not an index of an array.
    NotAPlace,
    /// The content of the place is not equal to the value of the test.
    TestFailed,
    /// A content would be moved into itself.
    IntoItself,
    /// The complete tree would be removed.
    WholeFile,
    /// A value would nest deeper than a file may: 128 levels, with those around it.
    TooDeep,
}

/// Why a tree is not an operation of a patch.
#[derive(Clone, Copy, Debug, PartialEq, Eq, Drop)]
pub enum Misread {
    /// It is not an object.
    NotAnObject,
    /// It has no member `op`, or that is not a text.
    NoKind,
    /// `op` is not one of the six kinds.
    UnknownKind,
    /// It has no member `path`, or that is not a text.
    NoPath,
    /// `path` is not a JSON Pointer.
    BadPath,
    /// It has no member `from`, or that is not a text.
    NoFrom,
    /// `from` is not a JSON Pointer.
    BadFrom,
    /// It has no member `value`.
    NoValue,
}

/// Why a tree is not a patch.
#[derive(Clone, Copy, Debug, PartialEq, Eq, Drop)]
pub enum ReadRefusal {
    /// It is not an array.
    NotAList,
    /// The item of this number, from 0, is not an operation.
    At(usize, Misread),
}

impl<C: Drop> From<AllocError> for Fault<C> {
    ghost use Rattle.std.specs.Prelude.{◌≡◌};
    ghost use Rattle.file_patches.specs.declared.fault.Fault.TheVariants.{NoMemory};

    ghost from_gives = { λ _ fault. fault ≡ NoMemory };

    fn from(_: AllocError) -> Fault<C> {
        Fault::NoMemory
    }
}

impl<C: Drop, T: Drop> From<AllocFailed<T>> for Fault<C> {
    ghost use Rattle.std.specs.Prelude.{◌≡◌};
    ghost use Rattle.file_patches.specs.declared.fault.Fault.TheVariants.{NoMemory};

    ghost from_gives = { λ _ fault. fault ≡ NoMemory };

    fn from(_: AllocFailed<T>) -> Fault<C> {
        Fault::NoMemory
    }
}

impl From<Cause> for Fault<Cause> {
    ghost use Rattle.std.specs.Prelude.{◌≡◌};
    ghost use Rattle.file_patches.specs.declared.fault.Fault.TheVariants.{Refused};

    ghost from_gives = { λ cause fault. fault ≡ Refused cause };

    fn from(cause: Cause) -> Fault<Cause> {
        Fault::Refused(cause)
    }
}

impl From<Misread> for Fault<Misread> {
    ghost use Rattle.std.specs.Prelude.{◌≡◌};
    ghost use Rattle.file_patches.specs.declared.fault.Fault.TheVariants.{Refused};

    ghost from_gives = { λ cause fault. fault ≡ Refused cause };

    fn from(cause: Misread) -> Fault<Misread> {
        Fault::Refused(cause)
    }
}
