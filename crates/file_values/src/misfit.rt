//! Where a file is not as its form has it, and why.

ghost use Rattle.std.specs.Prelude.{◌≡◌, [], Some};
ghost use Rattle.file_values.specs.Reading.{Deepens, fault_view};
ghost use Rattle.file_values.specs.declared.misfit.FileStep.TheVariants.{Member, Item};
ghost use Rattle.file_values.specs.declared.misfit.ReadFault;

use std::alloc::{AllocError, AllocFailed, Global};
use texts::Name;

/// Why a part of a file is not as its form has it.
#[derive(Clone, Copy, Debug, PartialEq, Eq, Drop)]
pub enum ReadCause {
    /// A member is not there.
    Missing,
    /// Another sort of JSON is there.
    OtherSort,
    /// Something else than the literal is there, or than that of false or of true.
    OtherLiteral,
    /// The number is not an i64 as it is written in decimal digits.
    NotAnInt,
    /// The letters of a number are not those of one.
    NotANumber,
    /// A member of the enum is not written so.
    NotAMember,
    /// No field of the record has this member.
    NoField,
    /// The object does not have exactly one member, a tag.
    NotOneTag,
    /// No tag has a content that is written so.
    NoTag,
}

/// A step from a part of a file to a part of that.
#[derive(Debug, Drop)]
pub enum FileStep {
    /// To the member of this name.
    Member(Name),
    /// To the item at this place, from 0.
    Item(u64),
}

/// Where a file is not as its form has it, and why.
#[derive(Debug, Drop)]
pub struct FileMisfit {
    /// The steps from the file to the part.
    pub place: Vec<FileStep>,
    /// Why the part is not as its form has it.
    pub cause: ReadCause,
}

/// Why a file was not read as a document.
#[derive(Debug, Drop)]
pub enum ReadFault {
    /// A part of the file is not as its form has it.
    Misfit(FileMisfit),
    /// Memory ran out, which says nothing of the file.
    NoMemory,
}

impl ReadFault {
    // The part itself is not as its form has it.
    pub(crate) fn here(alloc: Global, cause: ReadCause) -> ReadFault
        ensures { fault_view result ≡ Some ([], cause) }
    {
        ReadFault::Misfit(FileMisfit {
            place: Vec::new(alloc),
            cause,
        })
    }

    // The same fault of the content of a member, seen from the object.
    pub(crate) fn in_member(self, alloc: Global, name: &str) -> ReadFault
        ensures { Deepens (Member name.now) self result }
    {
        match String::from_str(alloc, name) {
            Ok(text) => self.inside(FileStep::Member(Name::from_string(text))),
            Err(_) => ReadFault::NoMemory,
        }
    }

    // The same fault of an item, seen from the array.
    pub(crate) fn in_item(self, place: u64) -> ReadFault
        ensures { Deepens (Item place) self result }
    {
        self.inside(FileStep::Item(place))
    }

    fn inside(self, step: FileStep) -> ReadFault
        ensures { Deepens step self result }
    {
        match self {
            ReadFault::Misfit(misfit) => misfit.inside(step),
            ReadFault::NoMemory => ReadFault::NoMemory,
        }
    }
}

impl FileMisfit {
    // The same misfit, seen from one step further out.
    fn inside(self, step: FileStep) -> ReadFault
        ensures { Deepens step (ReadFault.Misfit self) result }
    {
        let mut place = self.place;
        match place.insert(0, step) {
            Ok(()) => ReadFault::Misfit(FileMisfit {
                place,
                cause: self.cause,
            }),
            Err(_) => ReadFault::NoMemory,
        }
    }
}

impl From<AllocError> for ReadFault {
    ghost use Rattle.std.specs.Prelude.{◌≡◌};
    ghost use Rattle.file_values.specs.declared.misfit.ReadFault.TheVariants.{NoMemory};

    ghost from_gives = { λ _ fault. fault ≡ NoMemory };

    fn from(_: AllocError) -> ReadFault {
        ReadFault::NoMemory
    }
}

impl<T: Drop> From<AllocFailed<T>> for ReadFault {
    ghost use Rattle.std.specs.Prelude.{◌≡◌};
    ghost use Rattle.file_values.specs.declared.misfit.ReadFault.TheVariants.{NoMemory};

    ghost from_gives = { λ _ fault. fault ≡ NoMemory };

    fn from(_: AllocFailed<T>) -> ReadFault {
        ReadFault::NoMemory
    }
}
