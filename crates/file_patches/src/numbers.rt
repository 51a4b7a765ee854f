//! Numbers by value.

ghost use Rattle.std.specs.Prelude.{◌≡◌, ◌<◌, ◌++◌, ◌^◌, IfOk, IfSome, OkIff, option_map, slice_index, ◌==◌};
ghost use Rattle.std.specs.Prelude.{if◌then◌else◌};
ghost use Rattle.std.specs.Prelude.{Some, None, nat_lt};
ghost use Rattle.std.specs.Str.Parse.{AllDigits, digits_value};
ghost use Rattle.fast_float.specs.Text.{Parts};
ghost use Rattle.file_patches.specs.Numbers.{is_negative, number_parts, significant, signed_value, exponent_of};
ghost use Rattle.file_patches.specs.Numbers.{value_with, number_value, all_zeros, same_digits, same_bool, same_value};
ghost use Rattle.file_patches.specs.Numbers.{same_number};
ghost use Rattle.file_patches.specs.NumberViews.{value_view};

use fast_float::Numeral;
use std::alloc::{AllocError, Global};

// A number: 0.DIGITS times ten to the power of its point.
#[derive(Drop)]
struct Value {
    is_below_zero: bool,
    digits: Vec<u8>,
    point: i128,
}

/// Whether two texts of numbers are one text, or have the same value.
///
/// An exponent may have up to 18 digits, zeros in front not counted. A number with a longer one is only the same as its
/// own text. Fails only if memory runs out.
pub(crate) fn is_same_number(alloc: Global, one: &str, other: &str) -> Result<bool, AllocError>
    ensures { IfOk result (λ same. same ≡ same_number one.now other.now) }
{
    if one == other {
        return Ok(true);
    }
    let Some(first) = value_of(alloc, one)? else {
        return Ok(false);
    };
    let Some(second) = value_of(alloc, other)? else {
        return Ok(false);
    };
    Ok(is_same_value(&first, &second))
}

// The value of a number's text. None if and only if its exponent is too long.
fn value_of(alloc: Global, text: &str) -> Result<Option<Value>, AllocError>
    ensures { IfOk result (λ value. option_map value_view value ≡ number_value text.now) }
{
    let bytes = text.as_bytes();
    let is_below_zero = is_negative(bytes);
    let numeral = Numeral::scan(if is_below_zero { &bytes[1..] } else { bytes });
    let Some(exponent) = exponent_of(&numeral) else {
        return Ok(None);
    };
    Ok(Some(value_with(alloc, is_below_zero, &numeral, exponent)?))
}

fn is_negative(bytes: &[u8]) -> bool
    ensures { result ≡ is_negative bytes.now }
{
    !bytes.is_empty() && bytes[0] == b'-'
}

fn exponent_of(numeral: &Numeral<'_>) -> Option<i64>
    ensures { result ≡ exponent_of numeral.now }
{
    let size = small_number(numeral.exponent())?;
    if numeral.is_exponent_negative() {
        Some(-(size as i64))
    } else {
        Some(size as i64)
    }
}

// The number that digits write, where it is below 10^18.
fn small_number(digits: &[u8]) -> Option<u64>
    requires { AllDigits 10 digits.now }
    ensures { result
        ≡ (if nat_lt (digits_value 10 digits.now) (10 ^ 18) then Some (digits_value 10 digits.now) else None) }
{
    let mut number = 0u64;
    for digit in digits {
        number = number * 10 + (*digit - b'0') as u64;
        if number >= 1_000_000_000_000_000_000 {
            return None;
        }
    }
    Some(number)
}

fn value_with(
    alloc: Global,
    is_below_zero: bool,
    numeral: &Numeral<'_>,
    exponent: i64,
) -> Result<Value, AllocError>
    ensures { IfOk result (λ value. value_view value ≡ value_with is_below_zero numeral.now exponent) }
{
    let digits = significant(alloc, numeral.whole(), numeral.fraction())?;
    let point = exponent as i128 + digits.len() as i128 - numeral.fraction().len() as i128;
    Ok(Value {
        is_below_zero,
        digits,
        point,
    })
}

// The digits of both parts without the zeros in front.
#[tactic(auto, using(crate::proofs::NumberDigits::some_digits, crate::proofs::NumberDigits::no_digits))]
fn significant(alloc: Global, whole: &[u8], fraction: &[u8]) -> Result<Vec<u8>, AllocError>
    ensures { IfOk result (λ digits. digits.items ≡ significant (whole.now ++ fraction.now)) }
{
    let front = without_zeros(whole);
    if front.is_empty() {
        return Vec::from_slice(alloc, without_zeros(fraction));
    }
    let mut digits = Vec::from_slice(alloc, front)?;
    digits.extend_from_slice(fraction)?;
    Ok(digits)
}

fn without_zeros(digits: &[u8]) -> &[u8]
    ensures { result.now ≡ significant digits.now }
{
    for i in 0..digits.len() {
        if digits[i] != b'0' {
            return &digits[i..];
        }
    }
    &[]
}

fn is_same_value(one: &Value, other: &Value) -> bool
    ensures { result ≡ same_value (value_view one.now) (value_view other.now) }
{
    if one.digits.is_empty() && other.digits.is_empty() {
        return true;
    }
    one.is_below_zero == other.is_below_zero
        && one.point == other.point
        && has_same_digits(&one.digits, &other.digits)
}

fn has_same_digits(one: &[u8], other: &[u8]) -> bool
    ensures { result ≡ same_digits one.now other.now }
{
    let mut at = 0;
    while at < one.len() && at < other.len() {
        if one[at] != other[at] {
            return false;
        }
        at += 1;
    }
    are_zeros(&one[at..]) && are_zeros(&other[at..])
}

fn are_zeros(digits: &[u8]) -> bool
    ensures { result ≡ all_zeros digits.now }
{
    for digit in digits {
        if *digit != b'0' {
            return false;
        }
    }
    true
}
