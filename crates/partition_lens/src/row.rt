//! What a row gives: a word of the other side, and the tags after it.

ghost use Rattle.std.specs.Prelude.{◌≡◌, IfOk};
ghost use Rattle.edit_module.specs.Words.{no_primitives, joined};
ghost use Rattle.edit_module.specs.Views.{word_tree};
ghost use Rattle.lens_core.specs.Translation.{tagged, carried_tree};
ghost use Rattle.partition_lens.specs.Rows.{row_of};

use edit_module::Word;
use lens_core::{Carried, Comp};
use std::alloc::{AllocError, Global};
use tag_seq::TagSeq;

/// A word of the other side, and the tags of the items after it.
#[derive(Drop)]
pub(crate) struct Row {
    pub(crate) word: Word,
    pub(crate) tags: TagSeq,
}

impl Row {
    /// The empty word, with these tags.
    pub(crate) fn empty(alloc: Global, tags: &TagSeq) -> Result<Row, AllocError>
        ensures word { IfOk result (λ r. word_tree r.word ≡ no_primitives) }
        ensures tags { IfOk result (λ r. r.tags ≡ tags.now) }
    {
        Ok(Row {
            word: Word::from_vec(Vec::new(alloc)),
            tags: tags.twin()?,
        })
    }

    /// This word and then the one of a later row, with the tags of that row.
    pub(crate) fn followed_by(self, next: Row) -> Result<Row, AllocError>
        ensures word { IfOk result (λ r. word_tree r.word ≡ joined (word_tree self.word) (word_tree next.word)) }
        ensures tags { IfOk result (λ r. r.tags ≡ next.tags) }
    {
        Ok(Row {
            word: self.word.joined(next.word)?,
            tags: next.tags,
        })
    }

    /// The tags as a complement.
    pub(crate) fn into_carried(self) -> Carried
        ensures { carried_tree result ≡ tagged (row_of self) }
    {
        Carried {
            word: self.word,
            comp: Comp::Tags(self.tags),
        }
    }
}
