//! The names that a program mentions, and what can be wrong with them.
ghost use Rattle.std.specs.Prelude.{◌≡◌};
ghost use Rattle.program_grammar.specs.Mentions.{mention};

use std::alloc::{AllocError, Global};
use texts::{Name, Twin};

/// The two sorts of definitions.
#[derive(Clone, Copy, Debug, PartialEq, Eq)]
pub enum Sort {
    Type,
    Lens,
}

/// A name that stands for a definition, the sort that is wanted, and the offset of its first byte in the text.
#[derive(Drop)]
pub struct Mention {
    pub sort: Sort,
    pub name: Name,
    pub at: u64,
}

impl Mention {
    /// A name of this sort, mentioned at this offset. Does not allocate.
    pub fn new(sort: Sort, name: Name, at: u64) -> Mention
        ensures { result ≡ mention sort name at }
    {
        Mention { sort, name, at }
    }
}

/// What is wrong with the names of a program, with the offset of the name in the text.
#[derive(Clone, Copy, Debug, PartialEq, Eq)]
pub enum NameFault {
    /// No earlier definition of the wanted sort has the name.
    Unknown { at: u64 },
    /// An earlier definition of either sort has the name that is defined.
    Repeated { at: u64 },
}

impl Twin for Sort {
    ghost use Rattle.program_grammar.specs.declared.mention.Sort.{Sort};

    ghost Meaning = { Sort };

    ghost meaning = { λ x. x };

    fn twin(&self, _alloc: Global) -> Result<Self, AllocError> {
        Ok(*self)
    }
}

impl Twin for NameFault {
    ghost use Rattle.program_grammar.specs.declared.mention.NameFault.{NameFault};

    ghost Meaning = { NameFault };

    ghost meaning = { λ x. x };

    fn twin(&self, _alloc: Global) -> Result<Self, AllocError> {
        Ok(*self)
    }
}

impl Twin for Mention {
    ghost use Rattle.program_grammar.specs.declared.mention.Mention.{Mention};

    ghost Meaning = { Mention };

    ghost meaning = { λ x. x };

    fn twin(&self, alloc: Global) -> Result<Self, AllocError> {
        Ok(Mention {
            sort: self.sort,
            name: self.name.twin(alloc)?,
            at: self.at,
        })
    }
}
