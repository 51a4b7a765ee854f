//! Changes: one entry, or a group of entries.

ghost use Rattle.std.specs.Prelude.{◌≡◌, ◌↔◌, IsTrue, length};
ghost use Rattle.edit_module.specs.Changes.{entries_of};
ghost use Rattle.edit_module.specs.Views.{entry_trees, change_tree};

use crate::entry::Entry;
use crate::word::Word;
use hold_shapes::Twin;
use std::alloc::{AllocError, Global};
use std::marker::Model;
use std::slice;
use texts::twin_all;

/// What one line of a journal asks for.
#[derive(Drop)]
pub enum Change {
    /// One entry.
    One(Entry),
    /// Entries of either side, one after another, which are accepted together or not at all. There
    /// may be any number of them.
    Group(Entries),
}

/// A list of entries, one after another.
///
/// Contracts see it as the list of its entries.
#[derive(Drop)]
pub struct Entries {
    items: Vec<Entry>,
}

/// A list of words, as a group of entries is carried to: one for each entry, in their order.
///
/// Contracts see it as the list of its words.
#[derive(Drop)]
pub struct Words {
    items: Vec<Word>,
}

impl Change {
    /// The entries of the change, in order: the single one, or those of the group. Does not allocate.
    pub fn entries(&self) -> &[Entry]
        ensures { entry_trees result.now ≡ entries_of (change_tree self.now) }
    {
        match self {
            Change::One(entry) => slice::from_ref(entry),
            Change::Group(entries) => entries.as_slice(),
        }
    }
}

impl Model for Entries {
    ghost use Rattle.std.specs.Prelude.{List};
    ghost use Rattle.std.specs.Coded.{coded_list};
    ghost use Rattle.edit_module.specs.declared.entry.Entry.{Entry};
    ghost use Rattle.edit_module.specs.contracts.entry.Entry as entry_type;

    ghost Value = { List Entry };

    ghost coded = { coded_list entry_type.the_row.coded };

    ghost view = { λ entries. entries.items.items };
}

impl Entries {
    /// These entries, in this order. Does not allocate.
    pub fn from_vec(items: Vec<Entry>) -> Entries
        ensures { result ≡ items.items }
    {
        Entries { items }
    }

    /// The entries, in order.
    pub fn as_slice(&self) -> &[Entry]
        ensures { result.now ≡ self.now }
    {
        self.items.as_slice()
    }

    /// The entries as a vector. Does not allocate.
    pub fn into_vec(self) -> Vec<Entry>
        ensures { result.items ≡ self }
    {
        self.items
    }

    /// How many entries there are.
    pub fn len(&self) -> usize
        ensures { result ≡ length self.now }
    {
        self.items.len()
    }

    /// Whether there are no entries.
    pub fn is_empty(&self) -> bool
        ensures { IsTrue result ↔ (length self.now ≡ 0) }
    {
        self.items.len() == 0
    }
}

impl Model for Words {
    ghost use Rattle.std.specs.Prelude.{List};
    ghost use Rattle.std.specs.Coded.{coded_list};
    ghost use Rattle.edit_module.specs.declared.word.Word.{Word};
    ghost use Rattle.edit_module.specs.contracts.word.Word as word_type;

    ghost Value = { List Word };

    ghost coded = { coded_list word_type.the_row.coded };

    ghost view = { λ words. words.items.items };
}

impl Words {
    /// These words, in this order. Does not allocate.
    pub fn from_vec(items: Vec<Word>) -> Words
        ensures { result ≡ items.items }
    {
        Words { items }
    }

    /// The words, in order.
    pub fn as_slice(&self) -> &[Word]
        ensures { result.now ≡ self.now }
    {
        self.items.as_slice()
    }

    /// The words as a vector. Does not allocate.
    pub fn into_vec(self) -> Vec<Word>
        ensures { result.items ≡ self }
    {
        self.items
    }

    /// How many words there are; the primitives in them do not count.
    pub fn len(&self) -> usize
        ensures { result ≡ length self.now }
    {
        self.items.len()
    }

    /// Whether there are no words.
    pub fn is_empty(&self) -> bool
        ensures { IsTrue result ↔ (length self.now ≡ 0) }
    {
        self.items.len() == 0
    }
}

impl Twin for Entries {
    ghost use Rattle.std.specs.Prelude.{List};
    ghost use Rattle.texts.specs.declared.side.Side.{Side};
    ghost use Rattle.edit_module.specs.Words.{WordTree};
    ghost use Rattle.edit_module.specs.Views.{entry_trees};

    ghost Meaning = { List (Side × WordTree) };

    ghost meaning = { entry_trees };

    fn twin(&self, alloc: Global) -> Result<Self, AllocError> {
        Ok(Entries {
            items: twin_all(alloc, self.items.as_slice())?,
        })
    }
}

impl Twin for Words {
    ghost use Rattle.std.specs.Prelude.{List};
    ghost use Rattle.edit_module.specs.Words.{WordTree};
    ghost use Rattle.edit_module.specs.Views.{word_trees};

    ghost Meaning = { List WordTree };

    ghost meaning = { word_trees };

    fn twin(&self, alloc: Global) -> Result<Self, AllocError> {
        Ok(Words {
            items: twin_all(alloc, self.items.as_slice())?,
        })
    }
}

impl Twin for Change {
    ghost use Rattle.edit_module.specs.Changes.{ChangeTree};
    ghost use Rattle.edit_module.specs.Views.{change_tree};

    ghost Meaning = { ChangeTree };

    ghost meaning = { change_tree };

    fn twin(&self, alloc: Global) -> Result<Self, AllocError> {
        match self {
            Change::One(entry) => Ok(Change::One(entry.twin(alloc)?)),
            Change::Group(entries) => Ok(Change::Group(entries.twin(alloc)?)),
        }
    }
}
