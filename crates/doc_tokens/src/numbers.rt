//! Whole numbers, read from the tokens of a text, without a tree.
ghost use Rattle.std.specs.Prelude.{◌≡◌, ℕ, Some, IfSome};
ghost use Rattle.json_tokens.specs.TreesAt.{read_at, read_items_at};
ghost use Rattle.value_json.specs.Numbers.{int_of, count_of, counts_of};

use json::Reader;
use json_tokens::{take_count, take_int};
use std::alloc::Global;

/// A number that is an i64. `None` says nothing of the value, and the reader is of no more use.
pub fn take_whole<'a>(reader: &mut Reader<'a>) -> Option<i64>
    ensures { IfSome result (λ number. (depth : ℕ)
        → read_at int_of depth reader.old ≡ Some (number, reader.new)) }
{
    take_int(reader)
}

/// A number that is a u64. `None` says nothing of the value, and the reader is of no more use.
pub fn take_number<'a>(reader: &mut Reader<'a>) -> Option<u64>
    ensures { IfSome result (λ number. (depth : ℕ)
        → read_at count_of depth reader.old ≡ Some (number, reader.new)) }
{
    take_count(reader)
}

/// The u64 numbers up to the bracket that closes an array. `None` says nothing of them, and the reader is of no more
/// use.
pub fn take_counts<'a>(alloc: Global, reader: &mut Reader<'a>) -> Option<Vec<u64>>
    ensures { IfSome result (λ numbers. (depth : ℕ)
        → read_items_at counts_of depth reader.old ≡ Some (numbers.items, reader.new)) }
{
    let mut numbers = Vec::new(alloc);
    while !reader.take_end_array() {
        let number = take_number(reader)?;
        let Ok(()) = numbers.push(number) else {
            return None;
        };
    }
    Some(numbers)
}
