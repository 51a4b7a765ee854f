//! The whole numbers of a tree: which numbers are an i64 and which are a u64.
//!
//! The page docs/FORMATS.md says which JSON numbers these are. A fraction, an exponent and `-0` make
//! a float, which is neither; a whole number from 2^63 on is a u64 alone, and one below zero an i64
//! alone.

ghost use Rattle.std.specs.Prelude.{◌≡◌, IfOk, option_map};
ghost use Rattle.serde_json.specs.View.{view, items_view, number_view};
ghost use Rattle.value_json.specs.Numbers.{int_in, count_in, int_of, count_of, counts_of};

use serde_json::{Number, Value};
use std::alloc::{AllocError, Global};

/// The i64 that a tree is. None if and only if it is not a number, or a number that is not an i64.
pub fn read_int(tree: &Value) -> Option<i64>
    ensures { result ≡ int_of (view tree.now) }
{
    tree.as_number().and_then(int_in)
}

/// The u64 that a tree is. None if and only if it is not a number, or a number that is not a u64.
pub fn read_count(tree: &Value) -> Option<u64>
    ensures { result ≡ count_of (view tree.now) }
{
    tree.as_number().and_then(count_in)
}

/// The i64 that a number is. None if and only if it is not an i64.
#[tactic(auto, using(crate::proofs::Ranges::int_some, crate::proofs::Ranges::int_none))]
pub fn int_in(number: &Number) -> Option<i64>
    ensures { result ≡ int_in (number_view number.now) }
{
    match number.as_i64() {
        Some(number) => Some(number),
        None => None,
    }
}

/// The u64 that a number is. None if and only if it is not a u64.
#[tactic(auto, using(crate::proofs::Ranges::count_some, crate::proofs::Ranges::count_none))]
pub fn count_in(number: &Number) -> Option<u64>
    ensures { result ≡ count_in (number_view number.now) }
{
    match number.as_u64() {
        Some(number) => Some(number),
        None => None,
    }
}

/// The u64 numbers that the items of an array are. None if and only if an item is not a u64.
pub fn read_counts(alloc: Global, items: &[Value]) -> Result<Option<Vec<u64>>, AllocError>
    ensures { IfOk result
        (λ counts. option_map (λ c. c.items) counts ≡ counts_of (items_view items.now)) }
{
    let mut counts = Vec::with_capacity(alloc, items.len())?;
    for item in items {
        let Some(count) = read_count(item) else {
            return Ok(None);
        };
        counts.push(count)?;
    }
    Ok(Some(counts))
}
