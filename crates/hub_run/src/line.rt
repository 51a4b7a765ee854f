//! Reading the edit that a line of a hub's journal is.

ghost use Rattle.std.specs.Prelude.{◌≡◌, ◌≢◌, true, Some, IfOk, IfErr, option_map};
ghost use Rattle.serde_json.specs.View.{view};
ghost use Rattle.edit_module.specs.Views.{word_tree};
ghost use Rattle.edit_module.specs.Words.{WordTree};
ghost use Rattle.edit_json.specs.WordJson.{counts_fit, numbers_fit};
ghost use Rattle.edit_journal.specs.EntryJson.{tree_of_line};
ghost use Rattle.edit_journal.specs.Reading.{Gives};
ghost use Rattle.edit_journal.specs.declared.fault.EntryFault;
ghost use Rattle.view_hub.specs.Hubs.{Place};
ghost use Rattle.view_hub.specs.Views.{edit_tree, place_of_side};
ghost use Rattle.hub_run.specs.EditJson.{tree_of_edit, hub_place_fits, is_hub, place_of_tree, hub_edit_parts};
ghost use Rattle.hub_run.specs.EditJson.{edit_of_tree};
ghost use Rattle.hub_run.specs.EditJson.{edit_of_text, edit_of_line};

use edit_journal::{EntryFault, Line, read_edit, read_tree};
use edit_module::Word;
use serde_json::Value;
use std::alloc::Global;
use value_json::{read_count, two_members};
use view_hub::HubSide;

/// The edit that a line of a hub's journal is: the document that is edited, and the word. The page
/// docs/FORMATS.md has the form.
///
/// The line may have any bytes. It is refused by the first of these that holds:
///
/// - `LineTooLong`: if and only if it is too long.
/// - `NotJson`: if and only if its bytes are not a text that the reader of JSON has a tree for.
/// - `NotAnEntry`: if and only if the tree is not an object with exactly the members `at` and `edit`
///   of which `at` is `hub` or a u64. Whether there is such a view does not count.
/// - `NotAnEdit`: if and only if `edit` is not the tree of a word.
///
/// `NoMemory` says nothing of the line.
pub fn read_hub_edit(alloc: Global, line: &Line) -> Result<(HubSide, Word), EntryFault>
    // The edit and each refusal are the definition's, both ways.
    ensures edit { Gives edit_tree result (edit_of_line line.now) }

    // What is read has a tree, and it is the tree of this line.
    ensures fits { IfOk result (λ edit. counts_fit (word_tree edit.1) ≡ true) }
    ensures tree { IfOk result
        (λ edit. tree_of_line line.now ≡ Some (tree_of_edit (edit_tree edit))) }

    // If it is refused and memory has not run out, no edit has the tree of this line.
    ensures refused { IfErr result (λ fault. fault ≢ EntryFault.NoMemory → (edit : Place × WordTree)
        → hub_place_fits edit.0 ≡ true → counts_fit edit.1 ≡ true → numbers_fit edit.1 ≡ true
        → tree_of_line line.now ≡ Some (tree_of_edit edit) → ⊥) }
{
    read_line(alloc, line)
}

fn read_line(alloc: Global, line: &Line) -> Result<(HubSide, Word), EntryFault>
    ensures { Gives edit_tree result (edit_of_line line.now) }
{
    match line {
        Line::Text(bytes) => read_text(alloc, bytes.as_slice()),
        Line::TooLong => Err(EntryFault::LineTooLong),
    }
}

fn read_text(alloc: Global, bytes: &[u8]) -> Result<(HubSide, Word), EntryFault>
    ensures { Gives edit_tree result (edit_of_text bytes.now) }
{
    let tree = read_tree(alloc, bytes)?;
    read_edit_tree(alloc, &tree)
}

/// The edit that a tree is: of an object with exactly the members `at` and `edit`.
///
/// Refused as by [`read_hub_edit`], by `NotAnEntry`, `NotAnEdit` and `NoMemory` alone.
pub fn read_edit_tree(alloc: Global, tree: &Value) -> Result<(HubSide, Word), EntryFault>
    ensures { Gives edit_tree result (edit_of_tree (view tree.now)) }
{
    let Some((side, edit)) = side_and_edit(tree) else {
        return Err(EntryFault::NotAnEntry);
    };
    let word = read_edit(alloc, edit)?;
    Ok((side, word))
}

/// The document that is edited and the tree of the edit, of an object with exactly the members `at` and `edit`.
///
/// None if and only if the tree is not such an object, or `at` is neither `hub` nor a u64.
pub fn side_and_edit(tree: &Value) -> Option<(HubSide, &Value)>
    ensures { option_map (λ p. (place_of_side p.0, view p.1.now)) result ≡ hub_edit_parts (view tree.now) }
{
    let ((first_name, at), (last_name, edit)) = two_members(tree)?;
    if first_name != "at" || last_name != "edit" {
        return None;
    }
    Some((read_side(at)?, edit))
}

// The hub, or the view with the number that a tree is.
fn read_side(tree: &Value) -> Option<HubSide>
    ensures { option_map place_of_side result ≡ place_of_tree (view tree.now) }
{
    if is_hub(tree) {
        return Some(HubSide::Hub);
    }
    let number = read_count(tree)?;
    Some(HubSide::View(number))
}

fn is_hub(tree: &Value) -> bool
    ensures { result ≡ is_hub (view tree.now) }
{
    match tree.as_str() {
        Some(text) => text == "hub",
        None => false,
    }
}
