//! Reading a word from a JSON tree.

ghost use Rattle.std.specs.Prelude.{◌≡◌, true, IfOk, IsErrOf};
ghost use Rattle.serde_json.specs.View.{view, items_view};
ghost use Rattle.edit_module.specs.Words.{WordTree};
ghost use Rattle.edit_module.specs.Views.{primitive_tree, word_tree};
ghost use Rattle.edit_json.specs.WordJson.{tree_of_word, primitive_of, content_of, word_of_tree, word_of_items};
ghost use Rattle.edit_json.specs.WordJson.{counts_fit, numbers_fit};
ghost use Rattle.edit_json.specs.Reading.{Gives};
ghost use Rattle.edit_json.specs.declared.fault.EditFault;
ghost use Rattle.edit_json.specs.declared.kind.Kind.TheVariants as kinds;

use crate::fault::EditFault;
use crate::kind::{Kind, kind_of};
use crate::leaves::{
    read_add, read_del, read_drop, read_graft, read_hang, read_ins, read_move, read_prune,
    read_put, read_rename, read_reorder, read_set, read_shift, read_splice,
};
use crate::parts::{three_items, two_items};
use crate::values::{read_name, read_place};
use edit_module::Word;
use edit_module::word::Primitive;
use serde_json::Value;
use std::alloc::Global;
use value_json::only_member;

/// The word that has this tree.
///
/// `NotAnEdit` if and only if no word has the tree; the page docs/FORMATS.md says which tree a word
/// has. The tree may be any tree. Nothing of it is copied but its texts.
pub fn read_word(alloc: Global, tree: &Value) -> Result<Word, EditFault>
    // The word and the refusal are the definition's, both ways.
    ensures word { Gives word_tree result (word_of_tree (view tree.now)) }

    // What is read has a tree, and has this tree.
    ensures fits { IfOk result (λ word. counts_fit (word_tree word) ≡ true) }
    ensures tree { IfOk result (λ word. tree_of_word (word_tree word) ≡ view tree.now) }

    // Where it is refused, no word has this tree.
    ensures refused { IsErrOf result EditFault.NotAnEdit → (word : WordTree)
        → counts_fit word ≡ true → numbers_fit word ≡ true
        → tree_of_word word ≡ view tree.now → ⊥ }
{
    read(alloc, tree)
}

#[cycle(read)]
#[tactic(auto, using(crate::proofs::PrimitiveOf::array_rules))]
fn read(alloc: Global, tree: &Value) -> Result<Word, EditFault>
    ensures { Gives word_tree result (word_of_tree (view tree.now)) }
{
    match tree.as_array() {
        Some(items) => read_items(alloc, items),
        None => Err(EditFault::NotAnEdit),
    }
}

// The word of an array's items.
#[cycle(read)]
fn read_items(alloc: Global, items: &[Value]) -> Result<Word, EditFault>
    ensures { Gives word_tree result (word_of_items (items_view items.now)) }
{
    let mut primitives = Vec::new(alloc);
    for item in items {
        primitives.push(read_primitive(alloc, item)?)?;
    }
    Ok(Word::from_vec(primitives))
}

// The primitive of an object with exactly one member.
#[cycle(read)]
#[tactic(auto, using(crate::proofs::PrimitiveOf::primitive_rules))]
fn read_primitive(alloc: Global, tree: &Value) -> Result<Primitive, EditFault>
    ensures { Gives primitive_tree result (primitive_of (view tree.now)) }
{
    let Some((name, content)) = only_member(tree) else {
        return Err(EditFault::NotAnEdit);
    };
    let Some(kind) = kind_of(name) else {
        return Err(EditFault::NotAnEdit);
    };
    read_content(alloc, kind, content)
}

// The primitive that does this, by the content of its member.
#[cycle(read)]
#[tactic(auto, unfolding(crate::specs::WordJson::primitive_of))]
fn read_content(alloc: Global, kind: Kind, content: &Value) -> Result<Primitive, EditFault>
    ensures { Gives primitive_tree result (content_of kind (view content.now)) }
{
    match kind {
        Kind::At => read_at(alloc, content),
        Kind::Stay => read_stay(alloc, content),
        Kind::Switch => read_switch(alloc, content),
        Kind::Mod => read_mod(alloc, content),
        Kind::Set => read_set(alloc, content),
        Kind::Add => read_add(content),
        Kind::Splice => read_splice(alloc, content),
        Kind::Ins => read_ins(content),
        Kind::Del => read_del(content),
        Kind::Move => read_move(content),
        Kind::Reorder => read_reorder(alloc, content),
        Kind::Put => read_put(alloc, content),
        Kind::Drop => read_drop(alloc, content),
        Kind::Rename => read_rename(alloc, content),
        Kind::Graft => read_graft(alloc, content),
        Kind::Prune => read_prune(alloc, content),
        Kind::Shift => read_shift(alloc, content),
        Kind::Hang => read_hang(alloc, content),
    }
}

// ---- primitives with an inner word

#[cycle(read)]
#[tactic(auto, using(crate::proofs::PrimitiveOf::at_rules))]
fn read_at(alloc: Global, content: &Value) -> Result<Primitive, EditFault>
    ensures { Gives primitive_tree result (content_of kinds.At (view content.now)) }
{
    let Some((field, word)) = two_items(content) else {
        return Err(EditFault::NotAnEdit);
    };
    let field = read_name(alloc, field)?;
    let word = read(alloc, word)?;
    Ok(Primitive::At(field, word))
}

#[cycle(read)]
#[tactic(auto, using(crate::proofs::PrimitiveOf::stay_rules))]
fn read_stay(alloc: Global, content: &Value) -> Result<Primitive, EditFault>
    ensures { Gives primitive_tree result (content_of kinds.Stay (view content.now)) }
{
    let Some((tag, word)) = two_items(content) else {
        return Err(EditFault::NotAnEdit);
    };
    let tag = read_name(alloc, tag)?;
    let word = read(alloc, word)?;
    Ok(Primitive::Stay(tag, word))
}

#[cycle(read)]
#[tactic(auto, using(crate::proofs::PrimitiveOf::switch_rules))]
fn read_switch(alloc: Global, content: &Value) -> Result<Primitive, EditFault>
    ensures { Gives primitive_tree result (content_of kinds.Switch (view content.now)) }
{
    let Some((old, new, word)) = three_items(content) else {
        return Err(EditFault::NotAnEdit);
    };
    let old = read_name(alloc, old)?;
    let new = read_name(alloc, new)?;
    let word = read(alloc, word)?;
    Ok(Primitive::Switch(old, new, word))
}

#[cycle(read)]
#[tactic(auto, using(crate::proofs::PrimitiveOf::mod_rules))]
fn read_mod(alloc: Global, content: &Value) -> Result<Primitive, EditFault>
    ensures { Gives primitive_tree result (content_of kinds.Mod (view content.now)) }
{
    let Some((place, word)) = two_items(content) else {
        return Err(EditFault::NotAnEdit);
    };
    let place = read_place(alloc, place)?;
    let word = read(alloc, word)?;
    Ok(Primitive::Mod(place, word))
}
