//! The answers to changes.
ghost use Rattle.std.specs.Prelude.{◌≡◌, ◌≢◌, ◌++◌, true, Some, IfOk, OnOk, OnErr, length, take};
ghost use Rattle.std.specs.List.{list_all};
ghost use Rattle.serde_json.specs.Written.{compact_text};
ghost use Rattle.edit_module.specs.Changes.{carried_to};
ghost use Rattle.edit_module.specs.Views.{word_tree, word_trees, entry_trees};
ghost use Rattle.edit_json.specs.WordJson.{counts_fit, tree_of_word};
ghost use Rattle.edit_journal.specs.EntryJson.{LineFault, tree_of_entries};
ghost use Rattle.edit_journal.specs.Reading.{cause_of};
ghost use Rattle.answer_text.specs.Lines.{ok_line, no_apply_line, group_line, group_refused_line, fault_line};

use crate::words::{bytes_of, cause_text, fault_text};
use edit_journal::{EntryFault, put_carried, side_text};
use edit_json::put_word;
use edit_module::change::Words;
use edit_module::{Cause, Entries, Word};
use itoa::Buffer;
use json::Writer;
use std::alloc::{AllocError, Global};
use std::mem;
use texts::{Bytes, Side};

// The bytes of most answers, for which room is made at once.
const USUAL: usize = 128;

/// `ok N SIDE WORD` and a line feed: the entry with this number was accepted, and translated to this
/// word of this side. The word is written as compact JSON.
///
/// Each insertion and each deletion in the word is of 1 to 65,536 items, which
/// `edit_json::has_tree` tests. The only error is running out of memory.
pub fn ok_line(alloc: Global, number: u64, side: Side, word: &Word) -> Result<Bytes, AllocError>
    requires counts_fit { counts_fit (word_tree word.now) ≡ true }
    ensures line { IfOk result (λ line. line ≡ ok_line number side (word_tree word.now)) }
{
    let mut line = Vec::with_capacity(alloc, USUAL)?;
    add_ok_line(alloc, &mut line, number, side, word)?;
    Ok(Bytes::from_vec(line))
}

/// Adds the line of [`ok_line`] to a text. The only error is running out of memory, and then the text is as it was.
pub fn add_ok_line(
    alloc: Global,
    text: &mut Vec<u8>,
    number: u64,
    side: Side,
    word: &Word,
) -> Result<(), AllocError>
    requires counts_fit { counts_fit (word_tree word.now) ≡ true }
    ensures line { OnOk result
        (text.new.items ≡ text.old.items ++ ok_line number side (word_tree word.now)) }
    ensures unchanged { OnErr result (text.new.items ≡ text.old.items) }
{
    let before = text.len();
    let added = put_ok_line(alloc, text, number, side, word);
    if added.is_err() {
        text.truncate(before);
    }
    added
}

// The same, but a part of the line may be added before memory runs out.
fn put_ok_line(
    alloc: Global,
    text: &mut Vec<u8>,
    number: u64,
    side: Side,
    word: &Word,
) -> Result<(), AllocError>
    ensures line { OnOk result
        (text.new.items ≡ text.old.items ++ ok_line number side (word_tree word.now)) }
    ensures front { take (length text.old.items) text.new.items ≡ text.old.items }
{
    let mut digits = Buffer::new();
    text.extend_from_slice(b"ok ")?;
    text.extend_from_slice(digits.format(number).as_bytes())?;
    text.extend_from_slice(b" ")?;
    text.extend_from_slice(side_text(side).as_bytes())?;
    text.extend_from_slice(b" ")?;
    put_word_text(alloc, text, word)?;
    text.extend_from_slice(b"\n")?;
    Ok(())
}

// Adds the compact JSON of a word.
fn put_word_text(alloc: Global, text: &mut Vec<u8>, word: &Word) -> Result<(), AllocError>
    ensures added { OnOk result
        (text.new.items ≡ text.old.items ++ compact_text (tree_of_word (word_tree word.now))) }
    ensures front { take (length text.old.items) text.new.items ≡ text.old.items }
{
    let mut out = Writer::new(mem::replace(text, Vec::new(alloc)));
    let put = put_word(&mut out, word);
    *text = out.into_inner();
    put
}

/// `refused N no-apply AT CAUSE` and a line feed: in the entry with this number the primitive with
/// the number `at`, from 0, is the first that does not apply, for this cause.
///
/// The causes are `kind`, `place`, `tag`, `range`, `overflow`, `value`, `present`, `length` and
/// `deep`. The only error is running out of memory.
pub fn no_apply_line(alloc: Global, number: u64, at: u64, cause: Cause) -> Result<Bytes, AllocError>
    ensures line { IfOk result (λ line. line ≡ no_apply_line number at cause) }
{
    let cause = cause_text(cause);
    let line = format!(in alloc; "refused {number} no-apply {at} {cause}\n")?;
    Ok(bytes_of(line))
}

/// `ok N group LIST` and a line feed: the group with this number was accepted. LIST is a compact JSON
/// array, with an object for each entry: `edit` is the word that the entry was translated to, and
/// `side` the side of this word, the other one than the entry's.
///
/// There are as many words as entries. Each insertion and each deletion in the words is of 1 to
/// 65,536 items, which `edit_json::has_tree` tests. The only error is running out of memory.
pub fn group_line(
    alloc: Global,
    number: u64,
    group: &Entries,
    words: &Words,
) -> Result<Bytes, AllocError>
    requires one_for_each { length words.now ≡ length group.now }
    requires counts_fit { list_all counts_fit (word_trees words.now) ≡ true }
    ensures line { IfOk result (λ line. line
        ≡ group_line number (carried_to (entry_trees group.now) (word_trees words.now))) }
{
    let mut line = Vec::with_capacity(alloc, USUAL)?;
    add_group_line(alloc, &mut line, number, group, words)?;
    Ok(Bytes::from_vec(line))
}

/// Adds the line of [`group_line`] to a text. The only error is running out of memory, and then the text is as it was.
pub fn add_group_line(
    alloc: Global,
    text: &mut Vec<u8>,
    number: u64,
    group: &Entries,
    words: &Words,
) -> Result<(), AllocError>
    requires one_for_each { length words.now ≡ length group.now }
    requires counts_fit { list_all counts_fit (word_trees words.now) ≡ true }
    ensures line { OnOk result (text.new.items
        ≡ text.old.items ++ group_line number (carried_to (entry_trees group.now) (word_trees words.now))) }
    ensures unchanged { OnErr result (text.new.items ≡ text.old.items) }
{
    let before = text.len();
    let added = put_group_line(alloc, text, number, group, words);
    if added.is_err() {
        text.truncate(before);
    }
    added
}

// The same, but a part of the line may be added before memory runs out.
fn put_group_line(
    alloc: Global,
    text: &mut Vec<u8>,
    number: u64,
    group: &Entries,
    words: &Words,
) -> Result<(), AllocError>
    requires one_for_each { length words.now ≡ length group.now }
    ensures line { OnOk result (text.new.items
        ≡ text.old.items ++ group_line number (carried_to (entry_trees group.now) (word_trees words.now))) }
    ensures front { take (length text.old.items) text.new.items ≡ text.old.items }
{
    let mut digits = Buffer::new();
    text.extend_from_slice(b"ok ")?;
    text.extend_from_slice(digits.format(number).as_bytes())?;
    text.extend_from_slice(b" group ")?;
    put_carried_text(alloc, text, group, words)?;
    text.extend_from_slice(b"\n")?;
    Ok(())
}

// Adds the text of the array of the trees of translated words, with no space between its parts.
fn put_carried_text(
    alloc: Global,
    text: &mut Vec<u8>,
    group: &Entries,
    words: &Words,
) -> Result<(), AllocError>
    requires one_for_each { length words.now ≡ length group.now }
    ensures added { OnOk result (text.new.items ≡ text.old.items
        ++ compact_text (tree_of_entries (carried_to (entry_trees group.now) (word_trees words.now)))) }
    ensures front { take (length text.old.items) text.new.items ≡ text.old.items }
{
    let mut out = Writer::new(mem::replace(text, Vec::new(alloc)));
    let put = put_carried(&mut out, group, words);
    *text = out.into_inner();
    put
}

/// `refused N group PART no-apply AT CAUSE` and a line feed: in the group with this number the entry
/// with the number `part`, from 0, is the first that does not apply, and in that entry the primitive
/// with the number `at`, from 0, for this cause. So no entry of the group was accepted.
///
/// The causes are those of `no_apply_line`. The only error is running out of memory.
pub fn group_refused_line(
    alloc: Global,
    number: u64,
    part: u64,
    at: u64,
    cause: Cause,
) -> Result<Bytes, AllocError>
    ensures line { IfOk result (λ line. line ≡ group_refused_line number part at cause) }
{
    let cause = cause_text(cause);
    let line = format!(in alloc; "refused {number} group {part} no-apply {at} {cause}\n")?;
    Ok(bytes_of(line))
}

/// `refused N FAULT` and a line feed: the line with this number is not a change.
///
/// The faults are `line-too-long`, `not-json`, `not-an-entry` and `not-an-edit`. The fault is not
/// that memory ran out, which says nothing of the line. The only error is running out of memory.
pub fn fault_line(alloc: Global, number: u64, fault: &EntryFault) -> Result<Bytes, AllocError>
    requires of_the_line { fault.now ≢ EntryFault.NoMemory }

    // The line is that of the cause that the fault says.
    ensures line { IfOk result (λ line. (cause : LineFault)
        → cause_of fault.now ≡ Some cause → line ≡ fault_line number cause) }
{
    let fault = fault_text(*fault);
    let line = format!(in alloc; "refused {number} {fault}\n")?;
    Ok(bytes_of(line))
}
