//! A word of each side.

ghost use Rattle.std.specs.Prelude.{◌≡◌, IfOk, OnOk, map};
ghost use Rattle.edit_module.specs.Views.{primitive_tree, word_tree};
ghost use Rattle.edit_module.specs.Words.{WordTree, word_of, joined};
ghost use Rattle.edit_undo.specs.Stepping.{joined_all};
ghost use Rattle.edit_undo.specs.Undone.{on_sides};
ghost use Rattle.edit_undo.specs.UndoneViews.{both_tree, both_trees};

use edit_module::word::{Primitive, Word};
use std::alloc::{AllocError, Global};
use texts::Side;

/// A word of the left document, and one of the right document.
#[derive(Drop)]
pub struct BothWords {
    /// The word of the left document.
    pub left: Word,
    /// The word of the right document.
    pub right: Word,
}

impl BothWords {
    // A word of a side and one of the other side.
    pub(crate) fn on_sides(side: Side, own: Word, far: Word) -> BothWords
        ensures { both_tree result ≡ on_sides side (word_tree own) (word_tree far) }
    {
        match side {
            Side::Left => BothWords {
                left: own,
                right: far,
            },
            Side::Right => BothWords {
                left: far,
                right: own,
            },
        }
    }
}

// On each side the words from the last to the first, as one.
pub(crate) fn join_all(alloc: Global, parts: Vec<BothWords>) -> Result<BothWords, AllocError>
    ensures { IfOk result (λ w. both_tree w ≡ joined_all (both_trees parts.items)) }
{
    let mut parts = parts;
    let mut left = Vec::new(alloc);
    let mut right = Vec::new(alloc);
    'words: while let Some(part) = parts.pop() {
        append(&mut left, part.left)?;
        append(&mut right, part.right)?;
    }
    Ok(BothWords {
        left: Word::from_vec(left),
        right: Word::from_vec(right),
    })
}

// Appends the primitives of a word.
fn append(out: &mut Vec<Primitive>, word: Word) -> Result<(), AllocError>
    ensures { OnOk result ((rest : WordTree) → joined (word_of (map primitive_tree out.new.items)) rest
        ≡ joined (word_of (map primitive_tree out.old.items)) (joined (word_tree word) rest)) }
{
    let mut primitives = word.into_vec();
    out.append(&mut primitives)?;
    Ok(())
}
