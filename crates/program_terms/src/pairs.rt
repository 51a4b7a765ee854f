//! Pairs of names.

ghost use Rattle.std.specs.Prelude.{◌≡◌};

use std::alloc::{AllocError, Global};
use std::marker::Model;
use texts::{Name, Twin};

/// A list of two names each, the left one first, with or without repeats: the members that a bijection joins.
///
/// Contracts see it as the list of the pairs.
#[derive(Drop)]
pub struct Pairs {
    items: Vec<(Name, Name)>,
}

impl Model for Pairs {
    ghost use Rattle.std.specs.Prelude.{List, ℕ};

    ghost Value = { List (List ℕ × List ℕ) };

    ghost view = { λ p. p.items.items };
}

impl Pairs {
    /// These pairs, in this order. Does not allocate.
    pub fn from_vec(items: Vec<(Name, Name)>) -> Pairs
        ensures { result ≡ items.items }
    {
        Pairs { items }
    }

    /// The pairs in order.
    pub fn as_slice(&self) -> &[(Name, Name)]
        ensures { result.now ≡ self.now }
    {
        self.items.as_slice()
    }

    /// The pairs in order. Does not allocate.
    pub fn into_vec(self) -> Vec<(Name, Name)>
        ensures { result.items ≡ self }
    {
        self.items
    }
}

impl Twin for Pairs {
    ghost use Rattle.std.specs.Prelude.{List, ℕ};

    ghost Meaning = { List (List ℕ × List ℕ) };

    ghost meaning = { λ p. p };

    fn twin(&self, alloc: Global) -> Result<Self, AllocError> {
        let mut items = Vec::new(alloc);
        for pair in &self.items {
            let left = pair.0.twin(alloc)?;
            let right = pair.1.twin(alloc)?;
            items.push((left, right))?;
        }
        Ok(Pairs { items })
    }
}
