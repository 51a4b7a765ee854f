//! Reading the change that a line is.

ghost use Rattle.std.specs.Prelude.{◌≡◌, ◌≢◌, true, Some, IfOk, IfErr, option_map, ok_or};
ghost use Rattle.serde_json.specs.View.{view, items_view};
ghost use Rattle.edit_module.specs.Views.{word_tree, entry_tree, entry_trees, change_tree};
ghost use Rattle.edit_module.specs.Changes.{ChangeTree};
ghost use Rattle.edit_json.specs.WordJson.{word_of_tree};
ghost use Rattle.edit_journal.specs.EntryJson.{side_of, parts_of, array_items, group_items, are_entries};
ghost use Rattle.edit_journal.specs.EntryJson.{entries_of_items, group_of_items, tree_of_text, tree_of_line};
ghost use Rattle.edit_journal.specs.EntryJson.{tree_of_change, change_counts_fit, change_numbers_fit, entry_of_tree};
ghost use Rattle.edit_journal.specs.EntryJson.{change_of_tree, change_of_text, change_of_line, not_json, not_an_edit};
ghost use Rattle.edit_journal.specs.Reading.{Gives};
ghost use Rattle.edit_journal.specs.declared.fault.EntryFault;

use crate::fault::EntryFault;
use crate::line::Line;
use edit_json::{EditFault, read_word};
use edit_module::{Change, Entries, Entry, Side, Word};
use serde_json::Value;
use std::alloc::Global;
use value_json::{only_member, two_members};

/// The change that a line is: an entry, or a group of entries. The page docs/FORMATS.md has the
/// forms.
///
/// The line may have any bytes. It is refused by the first of these that holds:
///
/// - `LineTooLong`: if and only if it is too long.
/// - `NotJson`: if and only if its bytes are not a text that the reader of JSON has a tree for.
/// - `NotAnEntry`: if and only if the tree is neither an object with exactly the members `edit` and
///   `side` of which `side` is `left` or `right`, nor an object with exactly the member `group`, an
///   array of such objects, of any length.
/// - `NotAnEdit`: if and only if an `edit` in it is not the tree of a word. So one entry of a group
///   without the form of an entry makes the line `NotAnEntry`, whatever the edits in the others are.
///
/// `NoMemory` says nothing of the line.
pub fn read_entry(alloc: Global, line: &Line) -> Result<Change, EntryFault>
    // The change and each refusal are the definition's, both ways.
    ensures change { Gives change_tree result (change_of_line line.now) }

    // What is read has a tree, and it is the tree of this line.
    ensures fits { IfOk result (λ change. change_counts_fit (change_tree change) ≡ true) }
    ensures tree { IfOk result
        (λ change. tree_of_line line.now ≡ Some (tree_of_change (change_tree change))) }

    // If it is refused and memory has not run out, no change has the tree of this line.
    ensures refused { IfErr result (λ fault. fault ≢ EntryFault.NoMemory → (change : ChangeTree)
        → change_counts_fit change ≡ true → change_numbers_fit change ≡ true
        → tree_of_line line.now ≡ Some (tree_of_change change) → ⊥) }
{
    read_line(alloc, line)
}

fn read_line(alloc: Global, line: &Line) -> Result<Change, EntryFault>
    ensures { Gives change_tree result (change_of_line line.now) }
{
    match line {
        Line::Text(bytes) => read_text(alloc, bytes.as_slice()),
        Line::TooLong => Err(EntryFault::LineTooLong),
    }
}

fn read_text(alloc: Global, bytes: &[u8]) -> Result<Change, EntryFault>
    ensures { Gives change_tree result (change_of_text bytes.now) }
{
    let tree = read_tree(alloc, bytes)?;
    read_change(alloc, &tree)
}

/// The tree of a text.
///
/// Refused by `NotJson` if and only if the reader of JSON has no tree for these bytes; by `NoMemory`, which says
/// nothing of them.
pub fn read_tree(alloc: Global, bytes: &[u8]) -> Result<Value, EntryFault>
    ensures { Gives view result (ok_or (tree_of_text bytes.now) not_json) }
{
    match Value::from_slice(alloc, bytes) {
        Ok(tree) => Ok(tree),
        Err(error) => {
            if error.is_memory() {
                Err(EntryFault::NoMemory)
            } else {
                Err(EntryFault::NotJson)
            }
        }
    }
}

/// The change that a tree is; the page docs/FORMATS.md has the forms.
///
/// Refused as by `read_entry`, by `NotAnEntry`, `NotAnEdit` and `NoMemory` alone.
pub fn read_change_tree(alloc: Global, tree: &Value) -> Result<Change, EntryFault>
    // The change and each refusal are the definition's, both ways.
    ensures change { Gives change_tree result (change_of_tree (view tree.now)) }

    // What is read has a tree, and it is this one.
    ensures fits { IfOk result (λ change. change_counts_fit (change_tree change) ≡ true) }
    ensures tree { IfOk result (λ change. tree_of_change (change_tree change) ≡ view tree.now) }

    // If it is refused and memory has not run out, no change has this tree.
    ensures refused { IfErr result (λ fault. fault ≢ EntryFault.NoMemory → (change : ChangeTree)
        → change_counts_fit change ≡ true → change_numbers_fit change ≡ true
        → tree_of_change change ≡ view tree.now → ⊥) }
{
    read_change(alloc, tree)
}

// A group where the tree has the form of one, and otherwise a single entry.
fn read_change(alloc: Global, tree: &Value) -> Result<Change, EntryFault>
    ensures { Gives change_tree result (change_of_tree (view tree.now)) }
{
    match group_items(tree) {
        Some(items) => Ok(Change::Group(read_group(alloc, items)?)),
        None => Ok(Change::One(read_parts(alloc, tree)?)),
    }
}

/// The trees in an object with exactly the member `group`, an array. None of any other tree. Does not allocate.
pub fn group_items(tree: &Value) -> Option<&[Value]>
    ensures { option_map (λ items. items_view items.now) result ≡ group_items (view tree.now) }
{
    let (name, content) = only_member(tree)?;
    if name != "group" {
        return None;
    }
    array_items(content)
}

fn array_items(tree: &Value) -> Option<&[Value]>
    ensures { option_map (λ items. items_view items.now) result ≡ array_items (view tree.now) }
{
    match tree.as_array() {
        Some(items) => Some(items),
        None => None,
    }
}

// The entries of a group of these trees. The form of each is tested before any edit is read.
fn read_group(alloc: Global, items: &[Value]) -> Result<Entries, EntryFault>
    ensures { Gives entry_trees result (group_of_items (items_view items.now)) }
{
    if !are_entries(items) {
        return Err(EntryFault::NotAnEntry);
    }
    read_entries(alloc, items)
}

// Whether each of these trees has the form of an entry.
fn are_entries(items: &[Value]) -> bool
    ensures { result ≡ are_entries (items_view items.now) }
{
    for item in items {
        if side_and_edit(item).is_none() {
            return false;
        }
    }
    true
}

fn read_entries(alloc: Global, items: &[Value]) -> Result<Entries, EntryFault>
    ensures { Gives entry_trees result (entries_of_items (items_view items.now)) }
{
    let mut entries = Vec::with_capacity(alloc, items.len())?;
    for item in items {
        entries.push(read_parts(alloc, item)?)?;
    }
    Ok(Entries::from_vec(entries))
}

// The entry of an object with exactly the members `edit` and `side`.
fn read_parts(alloc: Global, tree: &Value) -> Result<Entry, EntryFault>
    ensures { Gives entry_tree result (entry_of_tree (view tree.now)) }
{
    let Some((side, edit)) = side_and_edit(tree) else {
        return Err(EntryFault::NotAnEntry);
    };
    let word = read_edit(alloc, edit)?;
    Ok(Entry { side, word })
}

// The side and the tree of the edit, of an object with exactly these two members.
fn side_and_edit(tree: &Value) -> Option<(Side, &Value)>
    ensures { option_map (λ p. (p.0, view p.1.now)) result ≡ parts_of (view tree.now) }
{
    let ((first_name, edit), (last_name, side)) = two_members(tree)?;
    if first_name != "edit" || last_name != "side" {
        return None;
    }
    Some((read_side(side.as_str()?)?, edit))
}

fn read_side(text: &str) -> Option<Side>
    ensures { result ≡ side_of text.now }
{
    match text {
        "left" => Some(Side::Left),
        "right" => Some(Side::Right),
        _ => None,
    }
}

/// The word of an edit.
///
/// Refused by `NotAnEdit` if and only if the tree is not the tree of a word; by `NoMemory`, which says nothing of it.
pub fn read_edit(alloc: Global, edit: &Value) -> Result<Word, EntryFault>
    ensures { Gives word_tree result (ok_or (word_of_tree (view edit.now)) not_an_edit) }
{
    match read_word(alloc, edit) {
        Ok(word) => Ok(word),
        Err(EditFault::NotAnEdit) => Err(EntryFault::NotAnEdit),
        Err(EditFault::NoMemory) => Err(EntryFault::NoMemory),
    }
}
