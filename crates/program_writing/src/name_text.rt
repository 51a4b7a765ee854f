//! The text of names and of strings.
ghost use Rattle.std.specs.Prelude.{◌≡◌, [], ◌++◌, IfOk, OnOk, string_bytes};
ghost use Rattle.program_writing.specs.Canonical.{put_string, put_name, put_strings, put_pairs, canonical_name};
ghost use Rattle.program_writing.specs.Puts.{Puts, comma};

use program_tokens::is_name;
use std::alloc::{AllocError, Global};
use texts::{Name, Str};

/// A name by itself, as a field is written in a program: as it is where it is a name of the language, and else as a
/// string. The only error is running out of memory. docs/LANGUAGE.md has the rule.
pub fn write_name(alloc: Global, name: &Name) -> Result<Str, AllocError>
    ensures canonical { IfOk result (λ text. text ≡ canonical_name name.now) }
{
    let mut out = String::new(alloc);
    put_name(&mut out, name)?;
    Ok(Str::from_string(out))
}

// A text as it is.
pub(crate) fn put_text(out: &mut String, text: &str) -> Result<(), AllocError>
    ensures { OnOk result (Puts (string_bytes out.old) (string_bytes out.new) (λ rest. text.now ++ rest)) }
{
    out.push_str(text)
}

// A string between its quotes.
pub(crate) fn put_string(out: &mut String, text: &str) -> Result<(), AllocError>
    ensures { OnOk result (Puts (string_bytes out.old) (string_bytes out.new) (put_string text.now)) }
{
    put_text(out, "\"")?;
    put_text(out, text)?;
    put_text(out, "\"")
}

// A field, a tag or a defined name.
pub(crate) fn put_name(out: &mut String, name: &Name) -> Result<(), AllocError>
    ensures { OnOk result (Puts (string_bytes out.old) (string_bytes out.new) (put_name name.now)) }
{
    if is_name(name.as_str().as_bytes()) {
        put_text(out, name.as_str())
    } else {
        put_string(out, name.as_str())
    }
}

// What separates an element of a list from the one before it, unless it is the first.
pub(crate) fn put_comma(out: &mut String, first: bool) -> Result<(), AllocError>
    ensures { OnOk result (Puts (string_bytes out.old) (string_bytes out.new) (λ rest. comma first ++ rest)) }
{
    if first { Ok(()) } else { put_text(out, ", ") }
}

// Strings with commas between them.
pub(crate) fn put_strings(out: &mut String, names: &[Name]) -> Result<(), AllocError>
    ensures { OnOk result (Puts (string_bytes out.old) (string_bytes out.new) (put_strings [] names.now)) }
{
    let mut first = true;
    for name in names {
        put_comma(out, first)?;
        put_string(out, name.as_str())?;
        first = false;
    }
    Ok(())
}

// Pairs of strings with commas between them.
pub(crate) fn put_pairs(out: &mut String, pairs: &[(Name, Name)]) -> Result<(), AllocError>
    ensures { OnOk result (Puts (string_bytes out.old) (string_bytes out.new) (put_pairs [] pairs.now)) }
{
    let mut first = true;
    for pair in pairs {
        put_comma(out, first)?;
        put_string(out, pair.0.as_str())?;
        put_text(out, "=")?;
        put_string(out, pair.1.as_str())?;
        first = false;
    }
    Ok(())
}
