//! Words, read from the tokens of a text, without a tree.

ghost use Rattle.std.specs.Prelude.{◌≡◌, ◌<◌, ◌≤◌, Some, IfSome};
ghost use Rattle.json_tokens.specs.TreesAt.{read_at, read_items_at};
ghost use Rattle.edit_module.specs.Views.{primitive_tree, word_tree};
ghost use Rattle.edit_json.specs.WordJson.{primitive_of, content_of, word_of_tree, word_of_items};
ghost use Rattle.edit_json.specs.declared.kind.Kind.TheVariants as kinds;

use crate::leaf_tokens::{
    take_add, take_del, take_drop, take_graft, take_hang, take_ins, take_move, take_prune,
    take_put, take_rename, take_reorder, take_set, take_shift, take_splice,
};
use crate::value_tokens::{take_name, take_place};
use edit_json::kind::{Kind, kind_of};
use edit_module::Word;
use edit_module::word::Primitive;
use json::Reader;
use json_tokens::{closes_object, opens_array, opens_object, take_key};
use std::alloc::Global;

// Each function here returns `None` where the next value has not the form that is read, where its text is out of the
// ordinary, and where memory ran out. The reader is then of no more use.

/// The word that the next value is, which nests no deeper than the number.
///
/// `None` says nothing of the value, and the reader is of no more use.
#[cycle(take)]
pub fn take_word<'a>(alloc: Global, reader: &mut Reader<'a>, depth: usize) -> Option<Word>
    ensures { IfSome result (λ word. read_at word_of_tree depth reader.old ≡ Some (word_tree word, reader.new)) }
{
    if depth < 4 || !opens_array(reader) {
        return None;
    }
    take_primitives(alloc, reader, depth - 1)
}

// The word of the items up to the bracket that closes an array.
#[cycle(take)]
fn take_primitives<'a>(alloc: Global, reader: &mut Reader<'a>, depth: usize) -> Option<Word>
    requires { 3 ≤ depth }
    ensures { IfSome result (λ word. read_items_at word_of_items depth reader.old
        ≡ Some (word_tree word, reader.new)) }
{
    let mut primitives = Vec::new(alloc);
    while !reader.take_end_array() {
        let primitive = take_primitive(alloc, reader, depth)?;
        let Ok(()) = primitives.push(primitive) else {
            return None;
        };
    }
    Some(Word::from_vec(primitives))
}

// The primitive of an object with exactly one member.
#[cycle(take)]
fn take_primitive<'a>(alloc: Global, reader: &mut Reader<'a>, depth: usize) -> Option<Primitive>
    requires { 3 ≤ depth }
    ensures { IfSome result (λ p. read_at primitive_of depth reader.old ≡ Some (primitive_tree p, reader.new)) }
{
    if !opens_object(reader) {
        return None;
    }
    let name = take_key(reader)?;
    let kind = kind_of(name)?;
    let primitive = take_content(alloc, reader, kind, depth - 1)?;
    if !closes_object(reader) {
        return None;
    }
    Some(primitive)
}

// The primitive that does this, by the content of its member.
#[cycle(take)]
#[tactic(auto, unfolding(edit_json::specs::WordJson::primitive_of))]
fn take_content<'a>(
    alloc: Global,
    reader: &mut Reader<'a>,
    kind: Kind,
    depth: usize,
) -> Option<Primitive>
    requires { 2 ≤ depth }
    ensures { IfSome result (λ p. read_at (content_of kind) depth reader.old
        ≡ Some (primitive_tree p, reader.new)) }
{
    match kind {
        Kind::At => take_at(alloc, reader, depth),
        Kind::Stay => take_stay(alloc, reader, depth),
        Kind::Switch => take_switch(alloc, reader, depth),
        Kind::Mod => take_mod(alloc, reader, depth),
        Kind::Set => take_set(alloc, reader),
        Kind::Add => take_add(reader),
        Kind::Splice => take_splice(alloc, reader),
        Kind::Ins => take_ins(reader),
        Kind::Del => take_del(reader),
        Kind::Move => take_move(reader),
        Kind::Reorder => take_reorder(alloc, reader),
        Kind::Put => take_put(alloc, reader),
        Kind::Drop => take_drop(alloc, reader),
        Kind::Rename => take_rename(alloc, reader),
        Kind::Graft => take_graft(alloc, reader),
        Kind::Prune => take_prune(alloc, reader),
        Kind::Shift => take_shift(alloc, reader),
        Kind::Hang => take_hang(alloc, reader),
    }
}

// ---- primitives with an inner word

#[cycle(take)]
fn take_at<'a>(alloc: Global, reader: &mut Reader<'a>, depth: usize) -> Option<Primitive>
    requires { 2 ≤ depth }
    ensures { IfSome result (λ p. read_at (content_of kinds.At) depth reader.old
        ≡ Some (primitive_tree p, reader.new)) }
{
    if !opens_array(reader) {
        return None;
    }
    let field = take_name(alloc, reader)?;
    let word = take_word(alloc, reader, depth - 1)?;
    if !reader.take_end_array() {
        return None;
    }
    Some(Primitive::At(field, word))
}

#[cycle(take)]
fn take_stay<'a>(alloc: Global, reader: &mut Reader<'a>, depth: usize) -> Option<Primitive>
    requires { 2 ≤ depth }
    ensures { IfSome result (λ p. read_at (content_of kinds.Stay) depth reader.old
        ≡ Some (primitive_tree p, reader.new)) }
{
    if !opens_array(reader) {
        return None;
    }
    let tag = take_name(alloc, reader)?;
    let word = take_word(alloc, reader, depth - 1)?;
    if !reader.take_end_array() {
        return None;
    }
    Some(Primitive::Stay(tag, word))
}

#[cycle(take)]
fn take_switch<'a>(alloc: Global, reader: &mut Reader<'a>, depth: usize) -> Option<Primitive>
    requires { 2 ≤ depth }
    ensures { IfSome result (λ p. read_at (content_of kinds.Switch) depth reader.old
        ≡ Some (primitive_tree p, reader.new)) }
{
    if !opens_array(reader) {
        return None;
    }
    let old = take_name(alloc, reader)?;
    let new = take_name(alloc, reader)?;
    let word = take_word(alloc, reader, depth - 1)?;
    if !reader.take_end_array() {
        return None;
    }
    Some(Primitive::Switch(old, new, word))
}

#[cycle(take)]
fn take_mod<'a>(alloc: Global, reader: &mut Reader<'a>, depth: usize) -> Option<Primitive>
    requires { 2 ≤ depth }
    ensures { IfSome result (λ p. read_at (content_of kinds.Mod) depth reader.old
        ≡ Some (primitive_tree p, reader.new)) }
{
    if !opens_array(reader) {
        return None;
    }
    let place = take_place(alloc, reader)?;
    let word = take_word(alloc, reader, depth - 1)?;
    if !reader.take_end_array() {
        return None;
    }
    Some(Primitive::Mod(place, word))
}
