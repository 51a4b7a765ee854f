//! The words that rows emit. What has no effect is left out.

ghost use Rattle.std.specs.Prelude.{◌≡◌, IfOk};
ghost use Rattle.hold_shapes.specs.declared.edit.Place.TheVariants.{Index};
ghost use Rattle.edit_module.specs.Words.{no_primitives};
ghost use Rattle.edit_module.specs.Views.{word_tree, primitive_tree};
ghost use Rattle.lens_core.specs.Emitted.{one, at_word, stay_word, mod_word, shape_word};
ghost use Rattle.lens_core.specs.Partition.{mv, del, reorder, is_identity};

use edit_module::Word;
use edit_module::word::Primitive;
use hold_shapes::{Place, Places, ShapeEdit};
use std::alloc::{AllocError, Global};
use texts::Name;

/// The empty word.
pub(crate) fn nothing(alloc: Global) -> Word
    ensures { word_tree result ≡ no_primitives }
{
    Word::from_vec(Vec::new(alloc))
}

/// A word of one primitive.
#[tactic(auto, using(crate::proofs::EmittedWords::word_rules))]
pub(crate) fn one(alloc: Global, primitive: Primitive) -> Result<Word, AllocError>
    ensures { IfOk result (λ w. word_tree w ≡ one (primitive_tree primitive)) }
{
    Ok(Word::from_vec(vec![in alloc; primitive]?))
}

/// An At of a field, or nothing if its word is empty.
#[tactic(auto, using(crate::proofs::EmittedWords::left_out_rules))]
pub(crate) fn at_word(alloc: Global, field: Name, word: Word) -> Result<Word, AllocError>
    ensures { IfOk result (λ w. word_tree w ≡ at_word field (word_tree word)) }
{
    if word.len() == 0 {
        return Ok(word);
    }
    one(alloc, Primitive::At(field, word))
}

/// A Stay at a tag, or nothing if its word is empty.
#[tactic(auto, using(crate::proofs::EmittedWords::left_out_rules))]
pub(crate) fn stay_word(alloc: Global, tag: Name, word: Word) -> Result<Word, AllocError>
    ensures { IfOk result (λ w. word_tree w ≡ stay_word tag (word_tree word)) }
{
    if word.len() == 0 {
        return Ok(word);
    }
    one(alloc, Primitive::Stay(tag, word))
}

/// A Mod of an item, or nothing if its word is empty.
#[tactic(auto, using(crate::proofs::EmittedWords::left_out_rules))]
pub(crate) fn mod_word(alloc: Global, index: u64, word: Word) -> Result<Word, AllocError>
    ensures { IfOk result (λ w. word_tree w ≡ mod_word (Index index) (word_tree word)) }
{
    if word.len() == 0 {
        return Ok(word);
    }
    one(alloc, Primitive::Mod(Place::Index(index), word))
}

/// An edit of the list.
pub(crate) fn shape_word(alloc: Global, edit: ShapeEdit) -> Result<Word, AllocError>
    ensures { IfOk result (λ w. word_tree w ≡ shape_word edit) }
{
    one(alloc, Primitive::Shape(edit))
}

/// An item moves from one place to another, if these differ.
pub(crate) fn move_word(alloc: Global, from: u64, to: u64) -> Result<Word, AllocError>
    ensures { IfOk result (λ w. word_tree w ≡ mv from to) }
{
    if from == to {
        return Ok(nothing(alloc));
    }
    shape_word(alloc, ShapeEdit::MoveItem(from, to))
}

/// The last items are deleted, if there are any.
pub(crate) fn delete_word(alloc: Global, count: u32) -> Result<Word, AllocError>
    ensures { IfOk result (λ w. word_tree w ≡ del count) }
{
    if count == 0 {
        return Ok(nothing(alloc));
    }
    shape_word(alloc, ShapeEdit::Del(count))
}

/// All items take another order, if it differs from the one that they have.
pub(crate) fn reorder_word(alloc: Global, order: Vec<u64>) -> Result<Word, AllocError>
    ensures { IfOk result (λ w. word_tree w ≡ reorder order.items) }
{
    if is_identity(&order) {
        return Ok(nothing(alloc));
    }
    shape_word(alloc, ShapeEdit::Reorder(Places::from_vec(order)))
}

// Whether an order leaves each item at its place.
#[tactic(auto, using(crate::proofs::EmittedWords::identity_rules))]
fn is_identity(order: &[u64]) -> bool
    ensures { result ≡ is_identity 0 order.now }
{
    for place in 0..order.len() {
        if order[place] != place as u64 {
            return false;
        }
    }
    true
}
