//! The values that primitives hold, read from the tokens of a text, without a tree.

ghost use Rattle.std.specs.Prelude.{◌≡◌, ◌<◌, ℕ, Some, IfSome, option_and_then, option_map};
ghost use Rattle.serde_json.specs.Find.{as_str};
ghost use Rattle.edit_module.specs.declared.atom.Atom.TheVariants.{Number};
ghost use Rattle.serde_json.specs.Read.{number_of};
ghost use Rattle.json_tokens.specs.TreesAt.{read_at, read_items_at};
ghost use Rattle.value_json.specs.Numbers.{int_in, count_in, int_of, count_of, counts_of};
ghost use Rattle.edit_json.specs.Values.{atom_of, numbers_of, data_place, item_count_of};

use doc_tokens::{take_counts, take_number};
use edit_module::Atom;
use hold_shapes::{MOST_ITEMS, Name, Path, Place, Str};
use json::{Reader, Token};
use json_tokens::{count_of, int_of, opens_array, take_text};
use std::alloc::Global;

// Each function here returns `None` where the next value is not such a value, where its text is out of the ordinary, and
// where memory ran out. The reader is then of no more use.

pub(crate) fn take_name<'a>(alloc: Global, reader: &mut Reader<'a>) -> Option<Name>
    ensures { IfSome result (λ name. (depth : ℕ)
        → read_at as_str depth reader.old ≡ Some (name, reader.new)) }
{
    name_of(alloc, take_text(reader)?)
}

pub(crate) fn take_str<'a>(alloc: Global, reader: &mut Reader<'a>) -> Option<Str>
    ensures { IfSome result (λ text. (depth : ℕ)
        → read_at as_str depth reader.old ≡ Some (text, reader.new)) }
{
    str_of(alloc, take_text(reader)?)
}

// A number of items, from 1 to 65,536.
pub(crate) fn take_item_count<'a>(reader: &mut Reader<'a>) -> Option<u32>
    ensures { IfSome result (λ number. (depth : ℕ)
        → read_at item_count_of depth reader.old ≡ Some (number, reader.new)) }
{
    let count = take_number(reader)?;
    if count >= 1 && count <= MOST_ITEMS as u64 {
        Some(count as u32)
    } else {
        None
    }
}

// An array of u64 numbers.
pub(crate) fn take_numbers<'a>(alloc: Global, reader: &mut Reader<'a>) -> Option<Vec<u64>>
    ensures { IfSome result (λ numbers. (depth : ℕ) → 0 < depth
        → read_at numbers_of depth reader.old ≡ Some (numbers.items, reader.new)) }
{
    if !opens_array(reader) {
        return None;
    }
    take_counts(alloc, reader)
}

// A bool, an i64 number or a string.
pub(crate) fn take_atom<'a>(alloc: Global, reader: &mut Reader<'a>) -> Option<Atom>
    ensures { IfSome result (λ atom. (depth : ℕ)
        → read_at atom_of depth reader.old ≡ Some (atom, reader.new)) }
{
    match reader.next() {
        Some(Token::Bool(truth)) => Some(Atom::Truth(truth)),
        Some(Token::Number(text)) => number_atom(text),
        Some(Token::String(text)) => Some(Atom::Letters(str_of(alloc, text)?)),
        _ => None,
    }
}

// A u64 number, a string or a path.
pub(crate) fn take_place<'a>(alloc: Global, reader: &mut Reader<'a>) -> Option<Place>
    ensures { IfSome result (λ place. (depth : ℕ) → 0 < depth
        → read_at data_place depth reader.old ≡ Some (place, reader.new)) }
{
    match reader.next() {
        Some(Token::Number(text)) => Some(Place::Index(number_in(text)?)),
        Some(Token::String(text)) => Some(Place::Key(name_of(alloc, text)?)),
        Some(Token::BeginArray) => Some(Place::Node(Path::from_vec(take_counts(alloc, reader)?))),
        _ => None,
    }
}

fn name_of(alloc: Global, text: &str) -> Option<Name>
    ensures { IfSome result (λ name. name ≡ text.now) }
{
    Some(Name::from_string(String::from_str(alloc, text).ok()?))
}

fn str_of(alloc: Global, text: &str) -> Option<Str>
    ensures { IfSome result (λ letters. letters ≡ text.now) }
{
    Some(Str::from_string(String::from_str(alloc, text).ok()?))
}

// The i64 that a number's text writes, as an atom.
fn number_atom(text: &str) -> Option<Atom>
    ensures { IfSome result (λ atom. option_map Number (option_and_then int_in (number_of text.now)) ≡ Some atom) }
{
    Some(Atom::Number(whole_in(text)?))
}

// The i64 that a number's text writes.
fn whole_in(text: &str) -> Option<i64>
    ensures { IfSome result (λ number. option_and_then int_in (number_of text.now) ≡ Some number) }
{
    int_of(text)
}

// The u64 that a number's text writes.
fn number_in(text: &str) -> Option<u64>
    ensures { IfSome result (λ number. option_and_then count_in (number_of text.now) ≡ Some number) }
{
    count_of(text)
}
