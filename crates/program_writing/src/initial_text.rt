//! The text of initial values.
ghost use Rattle.std.specs.Prelude.{◌≡◌, [], ◌++◌, OnOk, string_bytes};
ghost use Rattle.std.specs.Fmt.{signed_decimal};
ghost use Rattle.program_terms.specs.Terms.{initial_member, initial_left};
ghost use Rattle.program_writing.specs.Canonical.{put_initial_number, put_initial_string};
ghost use Rattle.program_writing.specs.Puts.{Puts};

use crate::name_text::{put_string, put_text};
use std::alloc::AllocError;
use texts::Name;

// The initial value of an int, unless it is 0.
pub(crate) fn put_initial_number(out: &mut String, value: i64) -> Result<(), AllocError>
    ensures { OnOk result (Puts (string_bytes out.old) (string_bytes out.new) (put_initial_number value)) }
{
    if value == 0 {
        return Ok(());
    }
    put_text(out, " = ")?;
    put_number(out, value)
}

// An initial value that is a string, unless it is the one that is meant when it is left out.
pub(crate) fn put_initial_string(
    out: &mut String,
    left_out: &str,
    value: &str,
) -> Result<(), AllocError>
    ensures { OnOk result
        (Puts (string_bytes out.old) (string_bytes out.new) (put_initial_string left_out.now value.now)) }
{
    if value == left_out {
        return Ok(());
    }
    put_text(out, " = ")?;
    put_string(out, value)
}

// The initial value of an enum, unless it is the first member.
pub(crate) fn put_initial_member(
    out: &mut String,
    members: &[Name],
    value: &Name,
) -> Result<(), AllocError>
    ensures { OnOk result (Puts (string_bytes out.old) (string_bytes out.new)
        (put_initial_string (initial_member members.now) value.now)) }
{
    match members.first() {
        Some(first) => put_initial_string(out, first.as_str(), value.as_str()),
        None => put_initial_string(out, "", value.as_str()),
    }
}

// The initial value on the left of a bijection, unless it is the first one there.
pub(crate) fn put_initial_left(
    out: &mut String,
    pairs: &[(Name, Name)],
    value: &Name,
) -> Result<(), AllocError>
    ensures { OnOk result (Puts (string_bytes out.old) (string_bytes out.new)
        (put_initial_string (initial_left pairs.now) value.now)) }
{
    match pairs.first() {
        Some(first) => put_initial_string(out, first.0.as_str(), value.as_str()),
        None => put_initial_string(out, "", value.as_str()),
    }
}

// A number in decimal digits.
fn put_number(out: &mut String, number: i64) -> Result<(), AllocError>
    ensures { OnOk result (Puts (string_bytes out.old) (string_bytes out.new) (λ rest. signed_decimal number ++ rest)) }
{
    write!(out, "{number}")
}
