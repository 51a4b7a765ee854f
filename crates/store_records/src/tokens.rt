//! The records of payloads, read from their tokens, without a tree.
//!
//! Each call here is *sound*: what it returns is what the payload is by its tree. `None` says nothing of the payload. A
//! member may come twice or out of order, it may be another record or none, or memory may have run out. A caller then
//! reads the payload as a tree, which decides.

ghost use Rattle.std.specs.Prelude.{◌≡◌, ◌-◌, ◌∷◌, List, Some, IfSome, codes, option_and_then};
ghost use Rattle.std.specs.Str.{IsUtf8};
ghost use Rattle.json.specs.Json.{read_key};
ghost use Rattle.json.specs.Lex.{tokens};
ghost use Rattle.json.specs.Token.{Token as TokenSpec, begin_object};
ghost use Rattle.edit_journal.specs.EntryJson.{tree_of_text};
ghost use Rattle.edit_module.specs.Views.{change_tree};
ghost use Rattle.json_tokens.specs.TreesAt.{read_at};
ghost use Rattle.lens_forms.specs.Forms.{form_tree};
ghost use Rattle.store_records.specs.RecordJson.{opening_of, change_in};
ghost use Rattle.store_records.specs.StoredLens.{opening_of_payload};
ghost use Rattle.store_records.specs.SnapshotsTaken.{IsSnapshotOf, TakesParts, TakesSnapshot};

use crate::parts::VERSION;
use complement_file::take_comp;
use doc_tokens::{take_doc, take_number};
use edit_module::{Change, Entries, Entry};
use edit_session::Triple;
use edit_tokens::{take_entry, take_group};
use json::{Reader, Scratch};
use json_tokens::{
    closes_object, is_at_end, next_key, opens_object, take_key, take_text, takes_key,
};
use lens_types::Typed;
use std::alloc::Global;

// How deep a text may nest, as for the tree that serde_json reads.
const MOST_DEPTH: usize = 127;

// ---- payloads

/// A reader of a payload, before its first token. `None` says nothing of the payload.
///
/// The scratch may hold anything. Room in it is kept for the next payload.
pub fn reader_of<'a>(payload: &'a [u8], scratch: &'a mut Scratch) -> Option<Reader<'a>>
    ensures utf8 { IfSome result (λ _. IsUtf8 payload.now) }
    ensures tokens { IfSome result (λ reader. reader ≡ tokens payload.now) }
{
    let Ok(text) = std::str::from_utf8(payload) else {
        return None;
    };
    let Ok(reader) = Reader::new(text, scratch) else {
        return None;
    };
    Some(reader)
}

/// The triple of the payload of a snapshot, for a store of the lens. `None` says nothing of the payload.
///
/// The scratch may hold anything. Room in it is kept for the next payload.
pub fn snapshot_by_tokens(
    alloc: Global,
    typed: &Typed,
    payload: &[u8],
    scratch: &mut Scratch,
) -> Option<Triple>
    ensures { IfSome result (λ triple. IsSnapshotOf (form_tree typed.now) payload.now triple) }
{
    let mut reader = reader_of(payload, scratch)?;
    let triple = take_record(alloc, typed, &mut reader)?;
    if !is_at_end(&mut reader) {
        return None;
    }
    Some(triple)
}

/// The change of the payload of an entry or of a group. `None` says nothing of the payload.
///
/// The scratch may hold anything. Room in it is kept for the next payload.
pub fn change_by_tokens(alloc: Global, payload: &[u8], scratch: &mut Scratch) -> Option<Change>
    ensures { IfSome result (λ change. option_and_then change_in (tree_of_text payload.now)
        ≡ Some (change_tree change)) }
{
    let mut reader = reader_of(payload, scratch)?;
    let change = take_change(alloc, &mut reader)?;
    if !is_at_end(&mut reader) {
        return None;
    }
    Some(change)
}

/// The text of the program and the version of a store, of its first payload. `None` says nothing of the payload.
///
/// The scratch may hold anything. Room in it is kept for the next payload.
pub fn opening_by_tokens<'a>(payload: &'a [u8], scratch: &'a mut Scratch) -> Option<(&'a str, u64)>
    ensures { IfSome result (λ o. opening_of_payload payload.now ≡ Some (o.0.now, o.1)) }
{
    let mut reader = reader_of(payload, scratch)?;
    let opening = take_opening(&mut reader)?;
    if !is_at_end(&mut reader) {
        return None;
    }
    Some(opening)
}

// ---- records

// Each function below returns `None` where the next value has not the form that is read, where its text is out of the
// ordinary, and where memory ran out. The reader is then of no more use.

// The program, alone or with the version 2 behind it.
fn take_opening<'a>(reader: &mut Reader<'a>) -> Option<(&'a str, u64)>
    ensures { IfSome result (λ o. read_at opening_of MOST_DEPTH reader.old
        ≡ Some ((o.0.now, o.1), reader.new)) }
{
    if !opens_object(reader) || !takes_key(reader, "program") {
        return None;
    }
    let text = take_text(reader)?;
    match next_key(reader)? {
        None => Some((text, 1)),
        Some("version") => {
            if take_number(reader)? != VERSION || !closes_object(reader) {
                return None;
            }
            Some((text, VERSION))
        }
        Some(_) => None,
    }
}

fn take_change<'a>(alloc: Global, reader: &mut Reader<'a>) -> Option<Change>
    ensures { IfSome result (λ change. read_at change_in MOST_DEPTH reader.old
        ≡ Some (change_tree change, reader.new)) }
{
    if !opens_object(reader) {
        return None;
    }
    let name = take_key(reader)?;
    if name == "entry" {
        return Some(Change::One(take_single(alloc, reader)?));
    }
    if name == "group" {
        return Some(Change::Group(take_many(alloc, reader)?));
    }
    None
}

// The entry of a record, behind the name of its one member.
fn take_single<'a>(alloc: Global, reader: &mut Reader<'a>) -> Option<Entry>
    ensures { IfSome result (λ entry. (before : List TokenSpec)
        → read_key before ≡ Some (Some (codes "entry"), reader.old)
        → read_at change_in MOST_DEPTH (begin_object ∷ before)
        ≡ Some (change_tree (Change.One entry), reader.new)) }
{
    let entry = take_entry(alloc, reader, MOST_DEPTH - 1)?;
    if !closes_object(reader) {
        return None;
    }
    Some(entry)
}

// The entries of a group, behind the name of its one member.
fn take_many<'a>(alloc: Global, reader: &mut Reader<'a>) -> Option<Entries>
    ensures { IfSome result (λ entries. (before : List TokenSpec)
        → read_key before ≡ Some (Some (codes "group"), reader.old)
        → read_at change_in MOST_DEPTH (begin_object ∷ before)
        ≡ Some (change_tree (Change.Group entries), reader.new)) }
{
    let entries = take_group(alloc, reader)?;
    Some(entries)
}

// The record of a snapshot.
fn take_record<'a>(alloc: Global, typed: &Typed, reader: &mut Reader<'a>) -> Option<Triple>
    ensures { IfSome result (λ triple.
        TakesSnapshot (form_tree typed.now) MOST_DEPTH reader.old triple reader.new) }
{
    if !opens_object(reader) || !takes_key(reader, "snapshot") {
        return None;
    }
    let triple = take_snapshot(alloc, typed, reader)?;
    if !closes_object(reader) {
        return None;
    }
    Some(triple)
}

// The object of the three parts.
fn take_snapshot<'a>(alloc: Global, typed: &Typed, reader: &mut Reader<'a>) -> Option<Triple>
    ensures { IfSome result (λ triple.
        TakesParts (form_tree typed.now) (MOST_DEPTH - 1) reader.old triple reader.new) }
{
    // The proof needs that the form is typed, which this call says.
    let _form = typed.form();
    if !opens_object(reader) || !takes_key(reader, "complement") {
        return None;
    }
    let comp = take_comp(alloc, typed, reader, MOST_DEPTH - 2)?;
    if !takes_key(reader, "left") {
        return None;
    }
    let left = take_doc(alloc, typed.left(), reader, MOST_DEPTH - 2)?;
    if !takes_key(reader, "right") {
        return None;
    }
    let right = take_doc(alloc, typed.right(), reader, MOST_DEPTH - 2)?;
    if !closes_object(reader) {
        return None;
    }
    Some(Triple { left, comp, right })
}
