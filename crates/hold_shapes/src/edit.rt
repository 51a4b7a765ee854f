//! Places of a shape, and edits of a shape.
ghost use Rattle.std.specs.Prelude.{◌≡◌, ◌↔◌, IsTrue};

use crate::path::Path;
use crate::places::Places;
use std::alloc::{AllocError, Global};
use texts::{Name, Twin};

/// A place in a container, by the kind of the container. Which shape has it: `Held::place`.
#[derive(Debug, Drop)]
pub enum Place {
    /// The item of a list with this index, from 0.
    Index(u64),
    /// The content of a keyed map under this key.
    Key(Name),
    /// The node of a tree that this path names.
    Node(Path),
}

/// An edit of a shape. What each does and why it may be refused: docs/EDITS.md.
#[derive(Debug, Drop)]
pub enum ShapeEdit {
    /// Adds this number of fresh items at the end of a list, from 1 to 65,536.
    Ins(u32),
    /// Removes this number of items at the end of a list, from 1 to 65,536.
    Del(u32),
    /// Moves the item at the first place to the second place of the result.
    MoveItem(u64, u64),
    /// Item j of the result is the old item at the place that the list has at j.
    Reorder(Places),
    /// Adds a key with fresh content.
    PutKey(Name),
    /// Removes a key with its content.
    DropKey(Name),
    /// Renames the first key to the second; it keeps its content.
    RenameKey(Name, Name),
    /// Adds a fresh node as the last child of the node.
    Graft(Path),
    /// Removes the last child of the node with its subtree.
    Prune(Path),
    /// Makes the child of the first number the child of the second number, with its subtree.
    Shift(Path, u64, u64),
    /// Makes the subtree of the first node the last child of the second node. The path to the second
    /// node is read in the tree that remains without the subtree.
    Hang(Path, Path),
}

impl Place {
    /// Whether both are the same place of the same kind.
    pub fn is_same(&self, other: &Place) -> bool
        ensures { IsTrue result ↔ (self.now ≡ other.now) }
    {
        match (self, other) {
            (Place::Index(index), Place::Index(other)) => *index == *other,
            (Place::Key(name), Place::Key(other)) => name.is_same(other),
            (Place::Node(path), Place::Node(other)) => path.is_same(other),
            _ => false,
        }
    }
}

impl Twin for Place {
    ghost use Rattle.hold_shapes.specs.declared.edit.Place.{Place};

    ghost Meaning = { Place };

    ghost meaning = { λ p. p };

    fn twin(&self, alloc: Global) -> Result<Self, AllocError> {
        Ok(match self {
            Place::Index(index) => Place::Index(*index),
            Place::Key(name) => Place::Key(name.twin(alloc)?),
            Place::Node(path) => Place::Node(path.twin(alloc)?),
        })
    }
}

impl Twin for ShapeEdit {
    ghost use Rattle.hold_shapes.specs.declared.edit.ShapeEdit.{ShapeEdit};

    ghost Meaning = { ShapeEdit };

    ghost meaning = { λ e. e };

    fn twin(&self, alloc: Global) -> Result<Self, AllocError> {
        match self {
            ShapeEdit::Ins(count) => Ok(ShapeEdit::Ins(*count)),
            ShapeEdit::Del(count) => Ok(ShapeEdit::Del(*count)),
            ShapeEdit::MoveItem(from, to) => Ok(ShapeEdit::MoveItem(*from, *to)),
            ShapeEdit::Reorder(places) => Ok(ShapeEdit::Reorder(places.twin(alloc)?)),
            ShapeEdit::PutKey(name) => Ok(ShapeEdit::PutKey(name.twin(alloc)?)),
            ShapeEdit::DropKey(name) => Ok(ShapeEdit::DropKey(name.twin(alloc)?)),
            ShapeEdit::RenameKey(old, new) => Ok(ShapeEdit::RenameKey(
                old.twin(alloc)?,
                new.twin(alloc)?,
            )),
            ShapeEdit::Graft(path) => Ok(ShapeEdit::Graft(path.twin(alloc)?)),
            ShapeEdit::Prune(path) => Ok(ShapeEdit::Prune(path.twin(alloc)?)),
            ShapeEdit::Shift(path, from, to) => Ok(ShapeEdit::Shift(path.twin(alloc)?, *from, *to)),
            ShapeEdit::Hang(part, below) => Ok(ShapeEdit::Hang(
                part.twin(alloc)?,
                below.twin(alloc)?,
            )),
        }
    }
}
