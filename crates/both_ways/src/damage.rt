//! Texts damaged at random.

ghost use Rattle.std.specs.Prelude.{◌<◌, ◌≤◌, length};

use rand_core::utils::NextWord;
use rand_pcg::Pcg32;
use std::alloc::{AllocError, Global};

// What is put into a text.
const PARTS: [&str; 24] = [
    " ",
    "\t",
    "\n",
    ",",
    "[[[[",
    "null",
    "true",
    "[]",
    "{}",
    "\"\"",
    "\"a\"",
    "\"\\u0061\"",
    "\\ud800",
    "0",
    "-0",
    "1.0",
    "1e0",
    "-9223372036854775808",
    "9223372036854775808",
    "18446744073709551616",
    "\"q\":0",
    "\"side\":\"right\"",
    "\"edit\":[]",
    "\"group\":[]",
];

/// A copy of a text that is damaged at one place, or at two.
pub(crate) fn damaged(
    alloc: Global,
    chance: &mut Pcg32,
    text: &[u8],
) -> Result<Vec<u8>, AllocError> {
    let once = changed(alloc, chance, text)?;
    if below(chance, 3) > 0 {
        return Ok(once);
    }
    changed(alloc, chance, &once)
}

// A copy of a text in which a span is dropped, comes twice, or has something else beside it or in its place.
fn changed(alloc: Global, chance: &mut Pcg32, text: &[u8]) -> Result<Vec<u8>, AllocError> {
    let (start, end) = span(chance, text);
    let (from, to) = span(chance, text);
    let (old, other) = (&text[start..end], &text[from..to]);
    let part = part(chance);
    let mut copy = Vec::from_slice(alloc, &text[..start])?;
    match below(chance, 7) {
        0 => {}
        1 => put_both(&mut copy, old, old)?,
        2 => copy.extend_from_slice(other)?,
        3 => put_both(&mut copy, old, other)?,
        4 => copy.extend_from_slice(part)?,
        5 => put_both(&mut copy, old, part)?,
        _ => copy.push(below(chance, 256) as u8)?,
    }
    copy.extend_from_slice(&text[end..])?;
    Ok(copy)
}

// Appends two parts with a comma between them.
fn put_both(copy: &mut Vec<u8>, first: &[u8], second: &[u8]) -> Result<(), AllocError> {
    copy.extend_from_slice(first)?;
    copy.push(b',')?;
    copy.extend_from_slice(second)
}

fn part(chance: &mut Pcg32) -> &'static [u8] {
    PARTS[below(chance, PARTS.len())].as_bytes()
}

// A few bytes of a text, or those from behind a mark of JSON to the next mark.
fn span(chance: &mut Pcg32, text: &[u8]) -> (usize, usize)
    ensures ordered { result.0 ≤ result.1 }
    ensures inside { result.1 ≤ length text.now }
{
    if text.is_empty() {
        return (0, 0);
    }
    let at = below(chance, text.len());
    if below(chance, 3) > 0 {
        return (begin(text, at), end(text, at));
    }
    let count = below(chance, 4);
    if count < text.len() - at {
        (at, at + count)
    } else {
        (at, text.len())
    }
}

// The place behind the last mark before a place.
fn begin(text: &[u8], at: usize) -> usize
    requires { at ≤ length text.now }
    ensures { result ≤ at }
{
    match text[..at].iter().rposition(|byte| is_mark(*byte)) {
        Some(mark) if mark < at => mark + 1,
        _ => 0,
    }
}

// The first mark at a place or behind it, or the end of the text.
fn end(text: &[u8], at: usize) -> usize
    requires { at ≤ length text.now }
    ensures behind { at ≤ result }
    ensures inside { result ≤ length text.now }
{
    match text[at..].iter().position(|byte| is_mark(*byte)) {
        Some(ahead) if ahead < text.len() - at => at + ahead,
        _ => text.len(),
    }
}

fn is_mark(byte: u8) -> bool {
    matches!(byte, b',' | b'[' | b']' | b'{' | b'}')
}

// A number below a bound.
fn below(chance: &mut Pcg32, bound: usize) -> usize
    requires { 0 < bound }
    ensures { result < bound }
{
    chance.next_word() as usize % bound
}
