//! The path of a node in a tree.
ghost use Rattle.std.specs.Prelude.{◌≡◌, ◌↔◌, IsTrue};

use std::alloc::{AllocError, Global};
use std::marker::Model;
use texts::Twin;

/// A path from the root of a tree: at each step the number of the child that is taken, from 0.
/// The empty path is the root.
#[derive(Debug, Drop)]
pub struct Path {
    items: Vec<u64>,
}

impl Model for Path {
    ghost use Rattle.std.specs.Prelude.{List, ℕ};

    ghost Value = { List ℕ };

    ghost view = { λ n. n.items.items };
}

impl Path {
    /// The child numbers of a vector, in its order. Does not allocate.
    pub fn from_vec(items: Vec<u64>) -> Self
        ensures { result ≡ items.items }
    {
        Path { items }
    }

    /// The child numbers in order.
    pub fn as_slice(&self) -> &[u64]
        ensures { result.now ≡ self.now }
    {
        self.items.as_slice()
    }

    /// The child numbers as a vector, in order. Does not allocate.
    pub fn into_vec(self) -> Vec<u64>
        ensures { result.items ≡ self }
    {
        self.items
    }

    /// Whether both have the same child numbers in the same order.
    pub fn is_same(&self, other: &Path) -> bool
        ensures { IsTrue result ↔ (self.now ≡ other.now) }
    {
        self.as_slice() == other.as_slice()
    }
}

impl Twin for Path {
    ghost use Rattle.std.specs.Prelude.{List, ℕ};

    ghost Meaning = { List ℕ };

    ghost meaning = { λ n. n };

    fn twin(&self, alloc: Global) -> Result<Self, AllocError> {
        Ok(Path {
            items: Vec::from_slice(alloc, self.items.as_slice())?,
        })
    }
}
