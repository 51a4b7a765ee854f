//! The operations of a patch.

use file_trees::FileTree;
use texts::Names;

/// An operation of a patch. A place is the parts of a pointer, without their escapes.
#[derive(Debug, Drop)]
pub enum Operation {
    /// Adds a value: a member of an object, in the place of the one that has the name; or an item of an array, in front
    /// of the one at the index.
    Add(Names, FileTree),
    /// Removes the content of a place.
    Remove(Names),
    /// Puts a value in the place of a content.
    Replace(Names, FileTree),
    /// Removes the content of the first place, and adds it at the second.
    Move(Names, Names),
    /// Adds the content of the first place at the second.
    Copy(Names, Names),
    /// Asks that the content of a place is equal to a value.
    Test(Names, FileTree),
}
