//! Changes, read from the tokens of a text, without a tree.

ghost use Rattle.std.specs.Prelude.{◌≡◌, ◌<◌, ◌-◌, ◌∷◌, ℕ, List, Some, Ok, IfSome, codes, option_and_then};
ghost use Rattle.json.specs.Json.{read_key};
ghost use Rattle.json.specs.Token.{Token as TokenSpec, begin_object};
ghost use Rattle.serde_json.specs.Find.{as_str};
ghost use Rattle.json_tokens.specs.TreesAt.{read_at, read_items_at};
ghost use Rattle.edit_module.specs.Views.{entry_tree, entry_trees, change_tree};
ghost use Rattle.edit_journal.specs.EntryJson.{side_of, change_of_text};
ghost use Rattle.edit_tokens.specs.Changes.{entry_in, entries_in, change_in, side_in};

use crate::word_tokens::take_word;
use edit_module::{Change, Entries, Entry, Side};
use json::{Reader, Scratch};
use json_tokens::{
    closes_object, is_at_end, opens_array, opens_object, take_key, take_text, takes_key,
};
use std::alloc::Global;

/// How deep a text may nest, as for the tree that serde_json reads.
pub const MOST_DEPTH: usize = 127;

/// The change that a text is. `None` says nothing of the text.
///
/// The scratch may hold anything. Room in it is kept for the next text.
pub fn change_of_tokens(alloc: Global, bytes: &[u8], scratch: &mut Scratch) -> Option<Change>
    ensures { IfSome result (λ change. change_of_text bytes.now ≡ Ok (change_tree change)) }
{
    let Ok(text) = std::str::from_utf8(bytes) else {
        return None;
    };
    let Ok(mut reader) = Reader::new(text, scratch) else {
        return None;
    };
    let change = take_change(alloc, &mut reader)?;
    if !is_at_end(&mut reader) {
        return None;
    }
    Some(change)
}

// Each function below returns `None` where the next value has not the form that is read, where its text is out of the
// ordinary, and where memory ran out. The reader is then of no more use.

// The change that the next value is.
fn take_change<'a>(alloc: Global, reader: &mut Reader<'a>) -> Option<Change>
    ensures { IfSome result (λ change. read_at change_in MOST_DEPTH reader.old
        ≡ Some (change_tree change, reader.new)) }
{
    if !opens_object(reader) {
        return None;
    }
    let name = take_key(reader)?;
    if name == "group" {
        return Some(Change::Group(take_group(alloc, reader)?));
    }
    Some(Change::One(take_entry_behind(alloc, reader, name, MOST_DEPTH)?))
}

/// The entries of a group, behind the name of its one member, which a reader took from the tokens before.
///
/// `None` says nothing of the group, and the reader is of no more use.
pub fn take_group<'a>(alloc: Global, reader: &mut Reader<'a>) -> Option<Entries>
    ensures { IfSome result (λ entries. (before : List TokenSpec)
        → read_key before ≡ Some (Some (codes "group"), reader.old)
        → read_at change_in MOST_DEPTH (begin_object ∷ before)
        ≡ Some (change_tree (Change.Group entries), reader.new)) }
{
    if !opens_array(reader) {
        return None;
    }
    let entries = take_entries(alloc, reader)?;
    if !closes_object(reader) {
        return None;
    }
    Some(entries)
}

// The entries up to the bracket that closes an array.
fn take_entries<'a>(alloc: Global, reader: &mut Reader<'a>) -> Option<Entries>
    ensures { IfSome result (λ entries. read_items_at entries_in (MOST_DEPTH - 2) reader.old
        ≡ Some (entry_trees entries, reader.new)) }
{
    let mut entries = Vec::new(alloc);
    while !reader.take_end_array() {
        let entry = take_entry(alloc, reader, MOST_DEPTH - 2)?;
        let Ok(()) = entries.push(entry) else {
            return None;
        };
    }
    Some(Entries::from_vec(entries))
}

/// The entry that the next value is, which nests no deeper than the number.
///
/// `None` says nothing of the value, and the reader is of no more use.
pub fn take_entry<'a>(alloc: Global, reader: &mut Reader<'a>, depth: usize) -> Option<Entry>
    ensures { IfSome result (λ entry. read_at entry_in depth reader.old ≡ Some (entry_tree entry, reader.new)) }
{
    if depth == 0 || !opens_object(reader) {
        return None;
    }
    let name = take_key(reader)?;
    take_entry_behind(alloc, reader, name, depth)
}

// An entry behind the name of its first member. The two members may come in either order.
fn take_entry_behind<'a>(
    alloc: Global,
    reader: &mut Reader<'a>,
    name: &str,
    depth: usize,
) -> Option<Entry>
    requires { 0 < depth }
    ensures { IfSome result (λ entry. (before : List TokenSpec)
        → read_key before ≡ Some (Some name.now, reader.old)
        → read_at entry_in depth (begin_object ∷ before) ≡ Some (entry_tree entry, reader.new)) }
{
    match name {
        "edit" => take_edit_first(alloc, reader, depth),
        "side" => take_side_first(alloc, reader, depth),
        _ => None,
    }
}

fn take_edit_first<'a>(alloc: Global, reader: &mut Reader<'a>, depth: usize) -> Option<Entry>
    requires { 0 < depth }
    ensures { IfSome result (λ entry. (before : List TokenSpec)
        → read_key before ≡ Some (Some (codes "edit"), reader.old)
        → read_at entry_in depth (begin_object ∷ before) ≡ Some (entry_tree entry, reader.new)) }
{
    let word = take_word(alloc, reader, depth - 1)?;
    if !takes_key(reader, "side") {
        return None;
    }
    let side = take_side(reader)?;
    if !closes_object(reader) {
        return None;
    }
    Some(Entry { side, word })
}

fn take_side_first<'a>(alloc: Global, reader: &mut Reader<'a>, depth: usize) -> Option<Entry>
    requires { 0 < depth }
    ensures { IfSome result (λ entry. (before : List TokenSpec)
        → read_key before ≡ Some (Some (codes "side"), reader.old)
        → read_at entry_in depth (begin_object ∷ before) ≡ Some (entry_tree entry, reader.new)) }
{
    let side = take_side(reader)?;
    if !takes_key(reader, "edit") {
        return None;
    }
    let word = take_word(alloc, reader, depth - 1)?;
    if !closes_object(reader) {
        return None;
    }
    Some(Entry { side, word })
}

// The side whose name the next value is.
fn take_side<'a>(reader: &mut Reader<'a>) -> Option<Side>
    ensures { IfSome result (λ side. (depth : ℕ)
        → read_at side_in depth reader.old ≡ Some (side, reader.new)) }
{
    match take_text(reader)? {
        "left" => Some(Side::Left),
        "right" => Some(Side::Right),
        _ => None,
    }
}
