//! Texts, whole numbers, and the brackets that open values.
ghost use Rattle.std.specs.Prelude.{◌≡◌, ◌∷◌, [], ℕ, Some, None, IfSome, IsTrue, option_map};
ghost use Rattle.json.specs.Json.{read_key};
ghost use Rattle.json.specs.Token.{begin_array, begin_object};
ghost use Rattle.serde_json.specs.Data.{string, number, unsigned};
ghost use Rattle.serde_json.specs.Find.{of_integer};
ghost use Rattle.json_tokens.specs.TreesAt.{tree_at};

use crate::numbers::{count_of, int_of};
use json::{Reader, Token};

/// The text that the next value is. `None` says nothing of the value, and the reader is of no more use.
pub fn take_text<'a>(reader: &mut Reader<'a>) -> Option<&'a str>
    ensures { IfSome result (λ text. (depth : ℕ)
        → tree_at depth reader.old ≡ Some (string text.now, reader.new)) }
{
    match reader.next() {
        Some(Token::String(text)) => Some(text),
        _ => None,
    }
}

/// The whole number that the next value is. `None` says nothing of the value, and the reader is of no more use.
pub fn take_int<'a>(reader: &mut Reader<'a>) -> Option<i64>
    ensures { IfSome result (λ z. (depth : ℕ)
        → tree_at depth reader.old ≡ Some (number (of_integer z), reader.new)) }
{
    match reader.next() {
        Some(Token::Number(text)) => int_of(text),
        _ => None,
    }
}

/// The whole number at or above zero that the next value is. `None` says nothing of the value, and the reader is of no
/// more use.
pub fn take_count<'a>(reader: &mut Reader<'a>) -> Option<u64>
    ensures { IfSome result (λ n. (depth : ℕ)
        → tree_at depth reader.old ≡ Some (number (unsigned n), reader.new)) }
{
    match reader.next() {
        Some(Token::Number(text)) => count_of(text),
        _ => None,
    }
}

/// Takes the bracket that opens an array. `false` if something else is next, and the reader is of no more use.
pub fn opens_array<'a>(reader: &mut Reader<'a>) -> bool
    ensures { IsTrue result → reader.old ≡ begin_array ∷ reader.new }
{
    matches!(reader.next(), Some(Token::BeginArray))
}

/// Takes the brace that opens an object. `false` if something else is next, and the reader is of no more use.
pub fn opens_object<'a>(reader: &mut Reader<'a>) -> bool
    ensures { IsTrue result → reader.old ≡ begin_object ∷ reader.new }
{
    matches!(reader.next(), Some(Token::BeginObject))
}

/// Takes the key of the next member of an object. `None` says nothing of the object, and the reader is of no more use.
pub fn take_key<'a>(reader: &mut Reader<'a>) -> Option<&'a str>
    ensures { IfSome result (λ key. read_key reader.old ≡ Some (Some key.now, reader.new)) }
{
    match reader.next_key() {
        Ok(Some(key)) => Some(key),
        _ => None,
    }
}

/// Takes the brace that closes an object. `false` if something else is next, and the reader is of no more use.
pub fn closes_object<'a>(reader: &mut Reader<'a>) -> bool
    ensures { IsTrue result → read_key reader.old ≡ Some (None, reader.new) }
{
    matches!(reader.next_key(), Ok(None))
}

/// Takes the key of the next member of an object, if it has this name. `false` if something else is next, and the reader
/// is of no more use.
pub fn takes_key<'a>(reader: &mut Reader<'a>, name: &str) -> bool
    ensures { IsTrue result → read_key reader.old ≡ Some (Some name.now, reader.new) }
{
    match reader.next_key() {
        Ok(Some(key)) => key == name,
        _ => false,
    }
}

/// Whether no token is left, as it is behind the one value that a text is.
pub fn is_at_end<'a>(reader: &mut Reader<'a>) -> bool
    ensures { IsTrue result → reader.old ≡ [] }
{
    reader.next().is_none()
}

/// Takes the key of the next member of an object, or the brace that closes it, and then gives `Some(None)`. `None` says
/// nothing of the object, and the reader is of no more use.
pub fn next_key<'a>(reader: &mut Reader<'a>) -> Option<Option<&'a str>>
    ensures { IfSome result (λ key. read_key reader.old
        ≡ Some (option_map (λ k. k.now) key, reader.new)) }
{
    reader.next_key().ok()
}
