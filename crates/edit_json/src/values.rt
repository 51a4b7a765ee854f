//! The values that primitives hold, read from JSON trees: names, texts, numbers, paths and places.

ghost use Rattle.std.specs.Prelude.{◌≡◌};
ghost use Rattle.serde_json.specs.View.{view};
ghost use Rattle.serde_json.specs.Find.{as_str};
ghost use Rattle.value_json.specs.Numbers.{int_of, count_of};
ghost use Rattle.edit_json.specs.Values.{atom_of, numbers_of, data_place, item_count_of};
ghost use Rattle.edit_json.specs.Reading.{Gives};

use crate::fault::EditFault;
use edit_module::Atom;
use hold_shapes::{MOST_ITEMS, Name, Path, Place, Str};
use serde_json::Value;
use std::alloc::Global;
use value_json::{read_count, read_counts, read_int};

// Each function here fails with `NotAnEdit` if and only if the tree is not such a value.

pub(crate) fn read_name(alloc: Global, tree: &Value) -> Result<Name, EditFault>
    ensures { Gives (λ name. name) result (as_str (view tree.now)) }
{
    match tree.as_str() {
        Some(text) => Ok(Name::from_string(String::from_str(alloc, text)?)),
        None => Err(EditFault::NotAnEdit),
    }
}

pub(crate) fn read_text(alloc: Global, tree: &Value) -> Result<Str, EditFault>
    ensures { Gives (λ text. text) result (as_str (view tree.now)) }
{
    match tree.as_str() {
        Some(text) => Ok(Str::from_string(String::from_str(alloc, text)?)),
        None => Err(EditFault::NotAnEdit),
    }
}

// A number that is an i64.
pub(crate) fn read_whole(tree: &Value) -> Result<i64, EditFault>
    ensures { Gives (λ number. number) result (int_of (view tree.now)) }
{
    read_int(tree).ok_or(EditFault::NotAnEdit)
}

// A number that is a u64.
pub(crate) fn read_number(tree: &Value) -> Result<u64, EditFault>
    ensures { Gives (λ number. number) result (count_of (view tree.now)) }
{
    read_count(tree).ok_or(EditFault::NotAnEdit)
}

// A number of items, from 1 to 65,536.
pub(crate) fn read_item_count(tree: &Value) -> Result<u32, EditFault>
    ensures { Gives (λ number. number) result (item_count_of (view tree.now)) }
{
    let count = read_number(tree)?;
    if count >= 1 && count <= MOST_ITEMS as u64 {
        Ok(count as u32)
    } else {
        Err(EditFault::NotAnEdit)
    }
}

// An array of u64 numbers.
pub(crate) fn read_numbers(alloc: Global, tree: &Value) -> Result<Vec<u64>, EditFault>
    ensures { Gives (λ numbers. numbers.items) result (numbers_of (view tree.now)) }
{
    let Some(items) = tree.as_array() else {
        return Err(EditFault::NotAnEdit);
    };
    match read_counts(alloc, items)? {
        Some(numbers) => Ok(numbers),
        None => Err(EditFault::NotAnEdit),
    }
}

// A bool, an i64 number or a string.
pub(crate) fn read_atom(alloc: Global, tree: &Value) -> Result<Atom, EditFault>
    ensures { Gives (λ atom. atom) result (atom_of (view tree.now)) }
{
    match tree {
        Value::Bool(truth) => Ok(Atom::Truth(*truth)),
        Value::Number(_) => Ok(Atom::Number(read_whole(tree)?)),
        Value::String(_) => Ok(Atom::Letters(read_text(alloc, tree)?)),
        Value::Null | Value::Array(_) | Value::Object(_) => Err(EditFault::NotAnEdit),
    }
}

// A u64 number, a string or a path.
pub(crate) fn read_place(alloc: Global, tree: &Value) -> Result<Place, EditFault>
    ensures { Gives (λ place. place) result (data_place (view tree.now)) }
{
    match tree {
        Value::Number(_) => Ok(Place::Index(read_number(tree)?)),
        Value::String(_) => Ok(Place::Key(read_name(alloc, tree)?)),
        Value::Array(_) => Ok(Place::Node(Path::from_vec(read_numbers(alloc, tree)?))),
        Value::Null | Value::Bool(_) | Value::Object(_) => Err(EditFault::NotAnEdit),
    }
}
