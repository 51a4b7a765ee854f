//! Writing a change as tokens and as compact text, without making its tree.

ghost use Rattle.std.specs.Prelude.{◌≡◌, ◌++◌, true, IfOk, OnOk, length};
ghost use Rattle.serde_json.specs.Written.{compact_text};
ghost use Rattle.edit_module.specs.Changes.{group, carried_to};
ghost use Rattle.edit_module.specs.Views.{word_tree, word_trees, entry_tree, entry_trees, change_tree};
ghost use Rattle.edit_json.specs.Tokens.{tokens_of};
ghost use Rattle.edit_json.specs.WordJson.{numbers_fit};
ghost use Rattle.edit_journal.specs.EntryJson.{side_text, tree_of_entry, tree_of_entries, tree_of_change};
ghost use Rattle.edit_journal.specs.EntryJson.{entries_numbers_fit, change_numbers_fit};

use edit_json::put_word;
use edit_module::change::Words;
use edit_module::{Change, Entries, Entry, Side, Word};
use json::Writer;
use std::alloc::AllocError;

/// These bytes, and behind them the text of a change's tree, with no space between its parts. The
/// page docs/FORMATS.md says which tree this is.
///
/// The text is read back as the change if `edit_json::has_tree` holds of its words and they are not
/// nested too deep for a reader of JSON (`laws`). Fails only if memory runs out; the bytes are then
/// dropped.
pub fn append_change(bytes: Vec<u8>, change: &Change) -> Result<Vec<u8>, AllocError>
    ensures text { IfOk result (λ all. all.items
        ≡ bytes.items ++ compact_text (tree_of_change (change_tree change.now))) }

    // The program can hold every number in its words.
    ensures whole { OnOk result (change_numbers_fit (change_tree change.now) ≡ true) }
{
    let mut out = Writer::new(bytes);
    put_change(&mut out, change)?;
    Ok(out.into_inner())
}

/// Writes the tokens of a change's tree behind those that were written before. The page
/// docs/FORMATS.md says which tree this is.
///
/// Each insertion and each deletion in its words, inner words included, should be of 1 to 65,536 items,
/// which `edit_json::has_tree` tests: else no reader takes the tree for a change. Fails only if memory
/// runs out; a part of the tokens may be written then.
pub fn put_change(out: &mut Writer, change: &Change) -> Result<(), AllocError>
    ensures before { out.new.before ≡ out.old.before }
    ensures tokens { OnOk result
        (out.new.tokens ≡ out.old.tokens ++ tokens_of (tree_of_change (change_tree change.now))) }

    // The program can hold every number in its words.
    ensures whole { OnOk result (change_numbers_fit (change_tree change.now) ≡ true) }
{
    match change {
        Change::One(entry) => put_entry(out, entry),
        Change::Group(entries) => put_group(out, entries.as_slice()),
    }
}

/// Writes the tokens of an entry's tree, as `put_change` those of a change.
///
/// Fails only if memory runs out; a part of the tokens may be written then.
pub fn put_entry(out: &mut Writer, entry: &Entry) -> Result<(), AllocError>
    ensures before { out.new.before ≡ out.old.before }
    ensures tokens { OnOk result
        (out.new.tokens ≡ out.old.tokens ++ tokens_of (tree_of_entry (entry_tree entry.now))) }

    // The program can hold every number in the word.
    ensures whole { OnOk result (numbers_fit (word_tree entry.now.word) ≡ true) }
{
    put_parts(out, entry.side, &entry.word)
}

/// Writes the tokens of the array of the trees of translated words, each an entry of the side to which
/// it was translated: the other side than that of the entry of the group.
///
/// There are as many words as entries. Fails only if memory runs out; a part of the tokens may be
/// written then.
pub fn put_carried(out: &mut Writer, group: &Entries, words: &Words) -> Result<(), AllocError>
    requires one_for_each { length words.now ≡ length group.now }

    ensures before { out.new.before ≡ out.old.before }
    ensures tokens { OnOk result (out.new.tokens ≡ out.old.tokens
        ++ tokens_of (tree_of_entries (carried_to (entry_trees group.now) (word_trees words.now)))) }
{
    let entries = group.as_slice();
    let words = words.as_slice();
    out.begin_array()?;
    for i in 0..words.len() {
        put_parts(out, entries[i].side.other(), &words[i])?;
    }
    out.end_array()
}

// An object with exactly the member `group`, the array of the entries' trees.
fn put_group(out: &mut Writer, entries: &[Entry]) -> Result<(), AllocError>
    ensures before { out.new.before ≡ out.old.before }
    ensures tokens { OnOk result (out.new.tokens
        ≡ out.old.tokens ++ tokens_of (tree_of_change (group (entry_trees entries.now)))) }
    ensures whole { OnOk result (entries_numbers_fit (entry_trees entries.now) ≡ true) }
{
    out.begin_object()?;
    out.key("group")?;
    put_entries(out, entries)?;
    out.end_object()
}

#[tactic(auto, using(crate::proofs::GroupItems::entry_rules))]
fn put_entries(out: &mut Writer, entries: &[Entry]) -> Result<(), AllocError>
    ensures before { out.new.before ≡ out.old.before }
    ensures tokens { OnOk result (out.new.tokens
        ≡ out.old.tokens ++ tokens_of (tree_of_entries (entry_trees entries.now))) }
    ensures whole { OnOk result (entries_numbers_fit (entry_trees entries.now) ≡ true) }
{
    out.begin_array()?;
    for entry in entries {
        put_entry(out, entry)?;
    }
    out.end_array()
}

// An object with exactly the members `edit` and `side`.
fn put_parts(out: &mut Writer, side: Side, word: &Word) -> Result<(), AllocError>
    ensures before { out.new.before ≡ out.old.before }
    ensures tokens { OnOk result (out.new.tokens
        ≡ out.old.tokens ++ tokens_of (tree_of_entry (side, word_tree word.now))) }
    ensures whole { OnOk result (numbers_fit (word_tree word.now) ≡ true) }
{
    out.begin_object()?;
    out.key("edit")?;
    put_word(out, word)?;
    out.key("side")?;
    out.string(side_text(side))?;
    out.end_object()
}

/// The name of a side, as entries and lines of output have it: `left` or `right`.
pub fn side_text(side: Side) -> &'static str
    ensures { result.now ≡ side_text side }
{
    match side {
        Side::Left => "left",
        Side::Right => "right",
    }
}
