//! JSON Pointers.

ghost use Rattle.std.specs.Prelude.{◌≡◌, ◌<◌, ◌≤◌, ◌++◌, length, IfOk, IfSome, option_map, option_and_then};
ghost use Rattle.std.specs.Prelude.{string_bytes, MatchOption, Some};
ghost use Rattle.std.specs.List.{slice_split};
ghost use Rattle.file_patches.specs.Pointers.{behind, unescaped, after_tilde, all_unescaped, is_slash, pointer};

use std::alloc::{AllocError, Global};
use texts::{Name, Names};

/// The parts of a pointer (RFC 6901), without their escapes. None if and only if the text is not a pointer.
///
/// The empty text has no parts. Any other pointer begins with a slash, and a tilde in it has a 0 or a 1 behind it.
pub fn read_pointer(alloc: Global, text: &str) -> Result<Option<Names>, AllocError>
    ensures { IfOk result (λ parts. parts ≡ pointer text.now) }
{
    if text.is_empty() {
        return Ok(Some(Names::from_vec(Vec::new(alloc))));
    }
    match behind(text, b'/') {
        Some(rest) => read_parts(alloc, rest),
        None => Ok(None),
    }
}

// The parts of a text that slashes separate.
fn read_parts(alloc: Global, text: &str) -> Result<Option<Names>, AllocError>
    ensures { IfOk result (λ parts. parts ≡ all_unescaped (slice_split is_slash text.now)) }
{
    let mut parts = Vec::new(alloc);
    for part in text.split('/') {
        let Some(name) = unescaped(alloc, part)? else {
            return Ok(None);
        };
        parts.push(name)?;
    }
    Ok(Some(Names::from_vec(parts)))
}

// A part without its escapes. None if and only if a tilde has neither a 0 nor a 1 behind it.
fn unescaped(alloc: Global, part: &str) -> Result<Option<Name>, AllocError>
    ensures { IfOk result (λ name. name ≡ unescaped part.now) }
{
    let mut name = String::new(alloc);
    let mut rest = part;
    while let Some((front, escape)) = at_tilde(rest) {
        name.push_str(front)?;
        let Some(left) = unescape(&mut name, escape)? else {
            return Ok(None);
        };
        rest = left;
    }
    name.push_str(rest)?;
    Ok(Some(Name::from_string(name)))
}

// The text in front of its first tilde, and behind it.
fn at_tilde(text: &str) -> Option<(&str, &str)>
    ensures cut { MatchOption result (unescaped text.now ≡ Some text.now)
        (λ p. unescaped text.now ≡ option_map (λ s. p.0.now ++ s) (after_tilde p.1.now)) }
    ensures shorter { IfSome result (λ p. length p.1.now < length text.now) }
{
    text.split_once('~')
}

// Puts the character of an escape, and returns the text behind it.
fn unescape<'a>(name: &mut String, escape: &'a str) -> Result<Option<&'a str>, AllocError>
    ensures text { IfOk result (λ rest.
        option_map (λ s. string_bytes name.old ++ s) (after_tilde escape.now)
        ≡ option_and_then (λ r. option_map (λ s. string_bytes name.new ++ s) (unescaped r.now)) rest) }
    ensures shorter { IfOk result (λ rest. IfSome rest (λ r. length r.now ≤ length escape.now)) }
{
    if let Some(rest) = behind(escape, b'0') {
        name.push('~')?;
        return Ok(Some(rest));
    }
    if let Some(rest) = behind(escape, b'1') {
        name.push('/')?;
        return Ok(Some(rest));
    }
    Ok(None)
}

// The text behind this ASCII character, where it begins with it.
fn behind(text: &str, first: u8) -> Option<&str>
    requires { first < 128 }
    ensures rest { option_map (λ rest. rest.now) result ≡ behind first text.now }
    ensures shorter { IfSome result (λ rest. length rest.now ≤ length text.now) }
{
    let bytes = text.as_bytes();
    if bytes.is_empty() || bytes[0] != first {
        return None;
    }
    Some(&text[1..])
}
