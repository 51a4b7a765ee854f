//! The records of a text, which an LF ends.
ghost use Rattle.std.specs.Prelude.{◌≡◌, ◌++◌, ◌∷◌, [], List, ℕ, IfOk, OnOk};
ghost use Rattle.edit_journal.specs.Pieces.{texts_of};
ghost use Rattle.embed_session.specs.Cutting.{onto};

use std::alloc::{AllocError, Global};
use texts::Bytes;

/// The texts of some bytes that are cut at each LF. What is behind the last LF is a text too, if it is not empty.
///
/// The only error is running out of memory.
pub fn cut(alloc: Global, bytes: &[u8]) -> Result<Vec<Bytes>, AllocError>
    ensures { IfOk result (λ texts. texts.items ≡ texts_of bytes.now) }
{
    let mut texts = Vec::new(alloc);
    let mut begun = Vec::new(alloc);
    'bytes: for i in 0..bytes.len() {
        begun = take_byte(alloc, &mut texts, begun, bytes[i])?;
    }
    take_last(&mut texts, begun)?;
    Ok(texts)
}

// One more byte: an LF ends the text that is begun, and any other byte continues it. Returns the text that is begun
// then.
fn take_byte(
    alloc: Global,
    texts: &mut Vec<Bytes>,
    begun: Vec<u8>,
    byte: u8,
) -> Result<Vec<u8>, AllocError>
    ensures { IfOk result (λ now. (rest : List ℕ) → texts.new.items ++ onto now.items (texts_of rest)
        ≡ texts.old.items ++ onto begun.items (texts_of (byte ∷ rest))) }
{
    if byte == b'\n' {
        texts.push(Bytes::from_vec(begun))?;
        return Ok(Vec::new(alloc));
    }
    let mut begun = begun;
    begun.push(byte)?;
    Ok(begun)
}

// The text behind the last LF, if it is not empty.
fn take_last(texts: &mut Vec<Bytes>, begun: Vec<u8>) -> Result<(), AllocError>
    ensures { OnOk result (texts.new.items ≡ texts.old.items ++ onto begun.items []) }
{
    if !begun.is_empty() {
        texts.push(Bytes::from_vec(begun))?;
    }
    Ok(())
}
