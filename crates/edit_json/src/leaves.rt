//! Reading primitives without an inner word, by the content of their member.

ghost use Rattle.std.specs.Prelude.{◌≡◌};
ghost use Rattle.serde_json.specs.View.{view};
ghost use Rattle.edit_module.specs.Views.{primitive_tree};
ghost use Rattle.edit_json.specs.WordJson.{leaf_of};
ghost use Rattle.edit_json.specs.Reading.{Gives};
ghost use Rattle.edit_json.specs.declared.kind.Kind.TheVariants as kinds;

use crate::fault::EditFault;
use crate::parts::{three_items, two_items};
use crate::values::{
    read_atom, read_item_count, read_name, read_number, read_numbers, read_text, read_whole,
};
use edit_module::word::Primitive;
use hold_shapes::{Path, Places, ShapeEdit};
use serde_json::Value;
use std::alloc::Global;

// Each function here reads the content of the member that its own name says.

pub(crate) fn read_set(alloc: Global, content: &Value) -> Result<Primitive, EditFault>
    ensures { Gives primitive_tree result (leaf_of kinds.Set (view content.now)) }
{
    Ok(Primitive::Set(read_atom(alloc, content)?))
}

pub(crate) fn read_add(content: &Value) -> Result<Primitive, EditFault>
    ensures { Gives primitive_tree result (leaf_of kinds.Add (view content.now)) }
{
    Ok(Primitive::Add(read_whole(content)?))
}

#[tactic(auto, using(crate::proofs::PrimitiveOf::splice_of))]
pub(crate) fn read_splice(alloc: Global, content: &Value) -> Result<Primitive, EditFault>
    ensures { Gives primitive_tree result (leaf_of kinds.Splice (view content.now)) }
{
    let Some((from, count, text)) = three_items(content) else {
        return Err(EditFault::NotAnEdit);
    };
    let from = read_number(from)?;
    let count = read_number(count)?;
    let text = read_text(alloc, text)?;
    Ok(Primitive::Splice(from, count, text))
}

pub(crate) fn read_ins(content: &Value) -> Result<Primitive, EditFault>
    ensures { Gives primitive_tree result (leaf_of kinds.Ins (view content.now)) }
{
    Ok(Primitive::Shape(ShapeEdit::Ins(read_item_count(content)?)))
}

pub(crate) fn read_del(content: &Value) -> Result<Primitive, EditFault>
    ensures { Gives primitive_tree result (leaf_of kinds.Del (view content.now)) }
{
    Ok(Primitive::Shape(ShapeEdit::Del(read_item_count(content)?)))
}

#[tactic(auto, using(crate::proofs::PrimitiveOf::move_of))]
pub(crate) fn read_move(content: &Value) -> Result<Primitive, EditFault>
    ensures { Gives primitive_tree result (leaf_of kinds.Move (view content.now)) }
{
    let Some((from, to)) = two_items(content) else {
        return Err(EditFault::NotAnEdit);
    };
    let from = read_number(from)?;
    let to = read_number(to)?;
    Ok(Primitive::Shape(ShapeEdit::MoveItem(from, to)))
}

pub(crate) fn read_reorder(alloc: Global, content: &Value) -> Result<Primitive, EditFault>
    ensures { Gives primitive_tree result (leaf_of kinds.Reorder (view content.now)) }
{
    let places = Places::from_vec(read_numbers(alloc, content)?);
    Ok(Primitive::Shape(ShapeEdit::Reorder(places)))
}

pub(crate) fn read_put(alloc: Global, content: &Value) -> Result<Primitive, EditFault>
    ensures { Gives primitive_tree result (leaf_of kinds.Put (view content.now)) }
{
    Ok(Primitive::Shape(ShapeEdit::PutKey(read_name(alloc, content)?)))
}

pub(crate) fn read_drop(alloc: Global, content: &Value) -> Result<Primitive, EditFault>
    ensures { Gives primitive_tree result (leaf_of kinds.Drop (view content.now)) }
{
    Ok(Primitive::Shape(ShapeEdit::DropKey(read_name(alloc, content)?)))
}

#[tactic(auto, using(crate::proofs::PrimitiveOf::rename_of))]
pub(crate) fn read_rename(alloc: Global, content: &Value) -> Result<Primitive, EditFault>
    ensures { Gives primitive_tree result (leaf_of kinds.Rename (view content.now)) }
{
    let Some((old, new)) = two_items(content) else {
        return Err(EditFault::NotAnEdit);
    };
    let old = read_name(alloc, old)?;
    let new = read_name(alloc, new)?;
    Ok(Primitive::Shape(ShapeEdit::RenameKey(old, new)))
}

pub(crate) fn read_graft(alloc: Global, content: &Value) -> Result<Primitive, EditFault>
    ensures { Gives primitive_tree result (leaf_of kinds.Graft (view content.now)) }
{
    let path = Path::from_vec(read_numbers(alloc, content)?);
    Ok(Primitive::Shape(ShapeEdit::Graft(path)))
}

pub(crate) fn read_prune(alloc: Global, content: &Value) -> Result<Primitive, EditFault>
    ensures { Gives primitive_tree result (leaf_of kinds.Prune (view content.now)) }
{
    let path = Path::from_vec(read_numbers(alloc, content)?);
    Ok(Primitive::Shape(ShapeEdit::Prune(path)))
}

#[tactic(auto, using(crate::proofs::PrimitiveOf::shift_of))]
pub(crate) fn read_shift(alloc: Global, content: &Value) -> Result<Primitive, EditFault>
    ensures { Gives primitive_tree result (leaf_of kinds.Shift (view content.now)) }
{
    let Some((path, from, to)) = three_items(content) else {
        return Err(EditFault::NotAnEdit);
    };
    let path = Path::from_vec(read_numbers(alloc, path)?);
    let from = read_number(from)?;
    let to = read_number(to)?;
    Ok(Primitive::Shape(ShapeEdit::Shift(path, from, to)))
}

#[tactic(auto, using(crate::proofs::PrimitiveOf::hang_of))]
pub(crate) fn read_hang(alloc: Global, content: &Value) -> Result<Primitive, EditFault>
    ensures { Gives primitive_tree result (leaf_of kinds.Hang (view content.now)) }
{
    let Some((from, to)) = two_items(content) else {
        return Err(EditFault::NotAnEdit);
    };
    let from = Path::from_vec(read_numbers(alloc, from)?);
    let to = Path::from_vec(read_numbers(alloc, to)?);
    Ok(Primitive::Shape(ShapeEdit::Hang(from, to)))
}
