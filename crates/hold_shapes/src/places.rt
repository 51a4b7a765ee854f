//! Places of a list, as a reorder gives them.
ghost use Rattle.std.specs.Prelude.{◌≡◌, ◌↔◌, IsTrue};

use std::alloc::{AllocError, Global};
use std::marker::Model;
use texts::Twin;

/// A list of places: a reorder gives for each new place the old one.
#[derive(Debug, Drop)]
pub struct Places {
    items: Vec<u64>,
}

impl Model for Places {
    ghost use Rattle.std.specs.Prelude.{List, ℕ};

    ghost Value = { List ℕ };

    ghost view = { λ n. n.items.items };
}

impl Places {
    /// The places of a vector, in its order. Does not allocate.
    pub fn from_vec(items: Vec<u64>) -> Self
        ensures { result ≡ items.items }
    {
        Places { items }
    }

    /// The places in order.
    pub fn as_slice(&self) -> &[u64]
        ensures { result.now ≡ self.now }
    {
        self.items.as_slice()
    }

    /// The places as a vector, in order. Does not allocate.
    pub fn into_vec(self) -> Vec<u64>
        ensures { result.items ≡ self }
    {
        self.items
    }

    /// Whether both have the same places in the same order.
    pub fn is_same(&self, other: &Places) -> bool
        ensures { IsTrue result ↔ (self.now ≡ other.now) }
    {
        self.as_slice() == other.as_slice()
    }
}

impl Twin for Places {
    ghost use Rattle.std.specs.Prelude.{List, ℕ};

    ghost Meaning = { List ℕ };

    ghost meaning = { λ n. n };

    fn twin(&self, alloc: Global) -> Result<Self, AllocError> {
        Ok(Places {
            items: Vec::from_slice(alloc, self.items.as_slice())?,
        })
    }
}
