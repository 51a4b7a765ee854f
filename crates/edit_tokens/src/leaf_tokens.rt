//! Primitives without an inner word, read from the tokens of a text, without a tree.

ghost use Rattle.std.specs.Prelude.{◌≡◌, ◌<◌, ℕ, Some, IfSome};
ghost use Rattle.json_tokens.specs.TreesAt.{read_at};
ghost use Rattle.edit_module.specs.Views.{primitive_tree};
ghost use Rattle.edit_json.specs.Values.{numbers_of};
ghost use Rattle.edit_json.specs.WordJson.{leaf_of};
ghost use Rattle.edit_json.specs.declared.kind.Kind.TheVariants as kinds;

use crate::value_tokens::{take_atom, take_item_count, take_name, take_numbers, take_str};
use doc_tokens::{take_number, take_whole};
use edit_module::word::Primitive;
use hold_shapes::{Path, Places, ShapeEdit};
use json::Reader;
use json_tokens::opens_array;
use std::alloc::Global;

// Each function here reads the content of the member that its own name says. It returns `None` where that is not such a
// content, where its text is out of the ordinary, and where memory ran out. The reader is then of no more use.

pub(crate) fn take_set<'a>(alloc: Global, reader: &mut Reader<'a>) -> Option<Primitive>
    ensures { IfSome result (λ p. (depth : ℕ) → 1 < depth
        → read_at (leaf_of kinds.Set) depth reader.old ≡ Some (primitive_tree p, reader.new)) }
{
    Some(Primitive::Set(take_atom(alloc, reader)?))
}

pub(crate) fn take_add<'a>(reader: &mut Reader<'a>) -> Option<Primitive>
    ensures { IfSome result (λ p. (depth : ℕ) → 1 < depth
        → read_at (leaf_of kinds.Add) depth reader.old ≡ Some (primitive_tree p, reader.new)) }
{
    Some(Primitive::Add(take_whole(reader)?))
}

pub(crate) fn take_splice<'a>(alloc: Global, reader: &mut Reader<'a>) -> Option<Primitive>
    ensures { IfSome result (λ p. (depth : ℕ) → 1 < depth
        → read_at (leaf_of kinds.Splice) depth reader.old ≡ Some (primitive_tree p, reader.new)) }
{
    if !opens_array(reader) {
        return None;
    }
    let from = take_number(reader)?;
    let count = take_number(reader)?;
    let text = take_str(alloc, reader)?;
    if !reader.take_end_array() {
        return None;
    }
    Some(Primitive::Splice(from, count, text))
}

pub(crate) fn take_ins<'a>(reader: &mut Reader<'a>) -> Option<Primitive>
    ensures { IfSome result (λ p. (depth : ℕ) → 1 < depth
        → read_at (leaf_of kinds.Ins) depth reader.old ≡ Some (primitive_tree p, reader.new)) }
{
    Some(Primitive::Shape(ShapeEdit::Ins(take_item_count(reader)?)))
}

pub(crate) fn take_del<'a>(reader: &mut Reader<'a>) -> Option<Primitive>
    ensures { IfSome result (λ p. (depth : ℕ) → 1 < depth
        → read_at (leaf_of kinds.Del) depth reader.old ≡ Some (primitive_tree p, reader.new)) }
{
    Some(Primitive::Shape(ShapeEdit::Del(take_item_count(reader)?)))
}

pub(crate) fn take_move<'a>(reader: &mut Reader<'a>) -> Option<Primitive>
    ensures { IfSome result (λ p. (depth : ℕ) → 1 < depth
        → read_at (leaf_of kinds.Move) depth reader.old ≡ Some (primitive_tree p, reader.new)) }
{
    if !opens_array(reader) {
        return None;
    }
    let from = take_number(reader)?;
    let to = take_number(reader)?;
    if !reader.take_end_array() {
        return None;
    }
    Some(Primitive::Shape(ShapeEdit::MoveItem(from, to)))
}

pub(crate) fn take_reorder<'a>(alloc: Global, reader: &mut Reader<'a>) -> Option<Primitive>
    ensures { IfSome result (λ p. (depth : ℕ) → 1 < depth
        → read_at (leaf_of kinds.Reorder) depth reader.old ≡ Some (primitive_tree p, reader.new)) }
{
    let places = Places::from_vec(take_numbers(alloc, reader)?);
    Some(Primitive::Shape(ShapeEdit::Reorder(places)))
}

pub(crate) fn take_put<'a>(alloc: Global, reader: &mut Reader<'a>) -> Option<Primitive>
    ensures { IfSome result (λ p. (depth : ℕ) → 1 < depth
        → read_at (leaf_of kinds.Put) depth reader.old ≡ Some (primitive_tree p, reader.new)) }
{
    Some(Primitive::Shape(ShapeEdit::PutKey(take_name(alloc, reader)?)))
}

pub(crate) fn take_drop<'a>(alloc: Global, reader: &mut Reader<'a>) -> Option<Primitive>
    ensures { IfSome result (λ p. (depth : ℕ) → 1 < depth
        → read_at (leaf_of kinds.Drop) depth reader.old ≡ Some (primitive_tree p, reader.new)) }
{
    Some(Primitive::Shape(ShapeEdit::DropKey(take_name(alloc, reader)?)))
}

pub(crate) fn take_rename<'a>(alloc: Global, reader: &mut Reader<'a>) -> Option<Primitive>
    ensures { IfSome result (λ p. (depth : ℕ) → 1 < depth
        → read_at (leaf_of kinds.Rename) depth reader.old ≡ Some (primitive_tree p, reader.new)) }
{
    if !opens_array(reader) {
        return None;
    }
    let old = take_name(alloc, reader)?;
    let new = take_name(alloc, reader)?;
    if !reader.take_end_array() {
        return None;
    }
    Some(Primitive::Shape(ShapeEdit::RenameKey(old, new)))
}

pub(crate) fn take_graft<'a>(alloc: Global, reader: &mut Reader<'a>) -> Option<Primitive>
    ensures { IfSome result (λ p. (depth : ℕ) → 1 < depth
        → read_at (leaf_of kinds.Graft) depth reader.old ≡ Some (primitive_tree p, reader.new)) }
{
    let path = Path::from_vec(take_numbers(alloc, reader)?);
    Some(Primitive::Shape(ShapeEdit::Graft(path)))
}

pub(crate) fn take_prune<'a>(alloc: Global, reader: &mut Reader<'a>) -> Option<Primitive>
    ensures { IfSome result (λ p. (depth : ℕ) → 1 < depth
        → read_at (leaf_of kinds.Prune) depth reader.old ≡ Some (primitive_tree p, reader.new)) }
{
    let path = Path::from_vec(take_numbers(alloc, reader)?);
    Some(Primitive::Shape(ShapeEdit::Prune(path)))
}

pub(crate) fn take_shift<'a>(alloc: Global, reader: &mut Reader<'a>) -> Option<Primitive>
    ensures { IfSome result (λ p. (depth : ℕ) → 1 < depth
        → read_at (leaf_of kinds.Shift) depth reader.old ≡ Some (primitive_tree p, reader.new)) }
{
    if !opens_array(reader) {
        return None;
    }
    let path = take_path(alloc, reader)?;
    let from = take_number(reader)?;
    let to = take_number(reader)?;
    if !reader.take_end_array() {
        return None;
    }
    Some(Primitive::Shape(ShapeEdit::Shift(path, from, to)))
}

pub(crate) fn take_hang<'a>(alloc: Global, reader: &mut Reader<'a>) -> Option<Primitive>
    ensures { IfSome result (λ p. (depth : ℕ) → 1 < depth
        → read_at (leaf_of kinds.Hang) depth reader.old ≡ Some (primitive_tree p, reader.new)) }
{
    if !opens_array(reader) {
        return None;
    }
    let from = take_path(alloc, reader)?;
    let to = take_path(alloc, reader)?;
    if !reader.take_end_array() {
        return None;
    }
    Some(Primitive::Shape(ShapeEdit::Hang(from, to)))
}

fn take_path<'a>(alloc: Global, reader: &mut Reader<'a>) -> Option<Path>
    ensures { IfSome result (λ path. (depth : ℕ) → 0 < depth
        → read_at numbers_of depth reader.old ≡ Some (path, reader.new)) }
{
    Some(Path::from_vec(take_numbers(alloc, reader)?))
}
