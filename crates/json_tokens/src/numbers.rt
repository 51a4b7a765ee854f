//! The whole numbers that texts of numbers write.
ghost use Rattle.std.specs.Prelude.{◌≡◌, ◌<◌, ◌==◌, pos, Some, true, false, IfSome, IsTrue, length, slice_index};
ghost use Rattle.fast_float.specs.Text.{scan};
ghost use Rattle.serde_json.specs.Data.{unsigned};
ghost use Rattle.serde_json.specs.Find.{of_integer};
ghost use Rattle.serde_json.specs.Read.{number_of, number_from};

use fast_float::Numeral;

/// The i64 that a number's text writes with digits alone, or with a minus and digits. `None` says nothing of the text.
pub fn int_of(text: &str) -> Option<i64>
    ensures { IfSome result (λ z. number_of text.now ≡ Some (of_integer z)) }
{
    let bytes = text.as_bytes();
    if has_minus(bytes) {
        return below_zero(&bytes[1..]);
    }
    to_int(at_or_above_zero(bytes)?)
}

// The number as an i64, where it is one.
fn to_int(number: u64) -> Option<i64>
    ensures { IfSome result (λ z. z ≡ pos number) }
{
    if number < 1 << 63 {
        Some(number as i64)
    } else {
        None
    }
}

/// The u64 that a number's text writes with digits alone. `None` says nothing of the text.
pub fn count_of(text: &str) -> Option<u64>
    ensures { IfSome result (λ n. number_of text.now ≡ Some (unsigned n)) }
{
    let bytes = text.as_bytes();
    if has_minus(bytes) {
        return None;
    }
    at_or_above_zero(bytes)
}

// The u64 that these digits write.
fn at_or_above_zero(digits: &[u8]) -> Option<u64>
    ensures { IfSome result (λ n. number_from false (scan digits.now) ≡ Some (unsigned n)) }
{
    Numeral::scan(digits).to_u64()
}

// The i64 below zero that these digits write behind a minus.
fn below_zero(digits: &[u8]) -> Option<i64>
    ensures { IfSome result (λ z. number_from true (scan digits.now) ≡ Some (of_integer z)) }
{
    let number = Numeral::scan(digits).to_i64(true)?;
    if number < 0 { Some(number) } else { None }
}

fn has_minus(bytes: &[u8]) -> bool
    ensures value { result ≡ (slice_index bytes.now 0 == 45) }
    ensures some { IsTrue result → 0 < length bytes.now }
{
    !bytes.is_empty() && bytes[0] == b'-'
}
