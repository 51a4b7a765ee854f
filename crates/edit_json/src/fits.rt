//! Which words have a tree.

ghost use Rattle.std.specs.Prelude.{◌≡◌};
ghost use Rattle.edit_module.specs.Views.{primitive_tree, word_tree};
ghost use Rattle.edit_json.specs.WordJson.{counts_fit, primitive_counts_fit, edit_counts_fit};

use edit_module::Word;
use edit_module::word::Primitive;
use hold_shapes::{MOST_ITEMS, ShapeEdit};

/// Whether the word has a JSON tree: whether each insertion and each deletion in it, inner words
/// included, is of 1 to 65,536 items. Does not allocate.
#[cycle(fits)]
#[tactic(auto, using(crate::proofs::Counts::count_rules))]
pub fn has_tree(word: &Word) -> bool
    ensures { result ≡ counts_fit (word_tree word.now) }
{
    for primitive in word.as_slice() {
        if !counts_fit(primitive) {
            return false;
        }
    }
    true
}

#[cycle(fits)]
fn counts_fit(primitive: &Primitive) -> bool
    ensures { result ≡ primitive_counts_fit (primitive_tree primitive.now) }
{
    match primitive {
        Primitive::At(_, word) => has_tree(word),
        Primitive::Stay(_, word) => has_tree(word),
        Primitive::Switch(_, _, word) => has_tree(word),
        Primitive::Mod(_, word) => has_tree(word),
        Primitive::Shape(edit) => edit_counts_fit(edit),
        Primitive::Set(_) | Primitive::Add(_) | Primitive::Splice(_, _, _) => true,
    }
}

fn edit_counts_fit(edit: &ShapeEdit) -> bool
    ensures { result ≡ edit_counts_fit edit.now }
{
    match edit {
        ShapeEdit::Ins(count) => *count >= 1 && *count <= MOST_ITEMS,
        ShapeEdit::Del(count) => *count >= 1 && *count <= MOST_ITEMS,
        _ => true,
    }
}
