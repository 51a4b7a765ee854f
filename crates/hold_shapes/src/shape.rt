//! Shapes of containers: a list's length, a keyed map's names, a tree's depths.
ghost use Rattle.std.specs.Prelude.{◌≡◌, ◌↔◌, true, false, IsTrue, MatchOption};
ghost use Rattle.texts.specs.Keys.{is_rising};
ghost use Rattle.hold_shapes.specs.Trees.{is_valid};

use crate::{keys, trees};
use depth_seq::DepthSeq;
use shared_lists::SharedList;
use std::alloc::{AllocError, Global};
use std::marker::Model;
use texts::{Name, Twin};

/// The shape of a list.
#[derive(Clone, Copy, Debug, PartialEq, Eq)]
pub struct ListShape {
    /// How many items the list has.
    pub count: u64,
}

/// The shape of a keyed map: its names, each before the next one in byte order. Copies share the names.
#[derive(Drop)]
pub struct KeyedShape {
    names: SharedList<Name>,
}

impl Model for KeyedShape {
    ghost use Rattle.std.specs.Prelude.{List, ℕ, IsTrue};

    ghost Value = { List (List ℕ) };

    ghost use Rattle.texts.specs.Keys.{is_rising};

    ghost view = { λ s. s.names };

    ghost invariant = { λ s. IsTrue (is_rising s.names) };
}

/// The shape of an ordered tree: the depths of its nodes in preorder, the root's 0, none above 15. Copies
/// share the depths.
#[derive(Drop)]
pub struct TreeShape {
    depths: DepthSeq,
}

impl Model for TreeShape {
    ghost use Rattle.std.specs.Prelude.{List, ℕ, IsTrue};

    ghost Value = { List ℕ };

    ghost use Rattle.hold_shapes.specs.Trees.{is_valid};

    ghost view = { λ s. s.depths };

    ghost invariant = { λ s. IsTrue (is_valid s.depths) };
}

/// The shape of a container. A copy takes constant time, whatever the size.
#[derive(Drop)]
pub enum Shape {
    /// Of a list.
    List(ListShape),
    /// Of a keyed map.
    Keyed(KeyedShape),
    /// Of an ordered tree.
    Tree(TreeShape),
}

impl Shape {
    /// Whether both are the same shape of the same kind.
    pub fn is_same(&self, other: &Shape) -> bool
        ensures { IsTrue result ↔ (self.now ≡ other.now) }
    {
        match (self, other) {
            (Shape::List(list), Shape::List(other)) => list.count == other.count,
            (Shape::Keyed(keyed), Shape::Keyed(other)) => keys::are_same(
                keyed.names(),
                other.names(),
            ),
            (Shape::Tree(tree), Shape::Tree(other)) => trees::are_same(
                tree.depths(),
                other.depths(),
            ),
            _ => false,
        }
    }
}

impl KeyedShape {
    /// The names as a shape. Does not allocate.
    ///
    /// Returns None if and only if a name is not before the next one in byte order; the names are
    /// then dropped.
    pub fn from_names(names: SharedList<Name>) -> Option<KeyedShape>
        ensures { MatchOption result (is_rising names ≡ false) (λ s. (is_rising names ≡ true) × (s ≡ names)) }
    {
        if keys::is_rising(&names) {
            Some(KeyedShape { names })
        } else {
            None
        }
    }

    // The names as a shape.
    pub(crate) fn of_rising(names: SharedList<Name>) -> KeyedShape
        requires { is_rising names ≡ true }
        ensures { result ≡ names }
    {
        KeyedShape { names }
    }

    /// The names of the keys, in byte order.
    pub fn names(&self) -> &SharedList<Name>
        ensures value { result.now ≡ self.now }
        ensures rising { is_rising self.now ≡ true }
    {
        &self.names
    }
}

impl TreeShape {
    /// The depths as a shape. Does not allocate.
    ///
    /// Returns None if and only if the list is not a valid depth list, which is not empty, begins with 0,
    /// and in which each later number is from 1 to the number before it plus 1, and at most 15.
    /// The list is then dropped.
    pub fn from_depths(depths: DepthSeq) -> Option<TreeShape>
        ensures { MatchOption result (is_valid depths ≡ false) (λ s. (is_valid depths ≡ true) × (s ≡ depths)) }
    {
        if trees::is_valid(&depths) {
            Some(TreeShape { depths })
        } else {
            None
        }
    }

    // The depths of a tree as a shape.
    pub(crate) fn of_valid(depths: DepthSeq) -> TreeShape
        requires { is_valid depths ≡ true }
        ensures { result ≡ depths }
    {
        TreeShape { depths }
    }

    /// The depths of the nodes, in preorder.
    pub fn depths(&self) -> &DepthSeq
        ensures value { result.now ≡ self.now }
        ensures valid { is_valid self.now ≡ true }
    {
        &self.depths
    }
}

impl Twin for ListShape {
    ghost use Rattle.hold_shapes.specs.declared.shape.ListShape.{ListShape};

    ghost Meaning = { ListShape };

    ghost meaning = { λ s. s };

    fn twin(&self, _alloc: Global) -> Result<Self, AllocError> {
        Ok(ListShape { count: self.count })
    }
}

impl Twin for KeyedShape {
    ghost use Rattle.std.specs.Prelude.{List, ℕ};

    ghost Meaning = { List (List ℕ) };

    ghost meaning = { λ s. s };

    fn twin(&self, alloc: Global) -> Result<Self, AllocError> {
        Ok(KeyedShape {
            names: self.names.copy(alloc)?,
        })
    }
}

impl Twin for TreeShape {
    ghost use Rattle.std.specs.Prelude.{List, ℕ};

    ghost Meaning = { List ℕ };

    ghost meaning = { λ s. s };

    fn twin(&self, _alloc: Global) -> Result<Self, AllocError> {
        Ok(TreeShape {
            depths: self.depths.copy()?,
        })
    }
}

impl Twin for Shape {
    ghost use Rattle.hold_shapes.specs.declared.shape.Shape.{Shape};

    ghost Meaning = { Shape };

    ghost meaning = { λ s. s };

    fn twin(&self, alloc: Global) -> Result<Self, AllocError> {
        match self {
            Shape::List(list) => Ok(Shape::List(list.twin(alloc)?)),
            Shape::Keyed(keyed) => Ok(Shape::Keyed(keyed.twin(alloc)?)),
            Shape::Tree(tree) => Ok(Shape::Tree(tree.twin(alloc)?)),
        }
    }
}
