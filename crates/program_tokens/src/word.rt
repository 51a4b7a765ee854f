//! Bytes of words, and which words are names.
ghost use Rattle.std.specs.Prelude.{◌≡◌};
ghost use Rattle.std.specs.List.{list_all};
ghost use Rattle.program_tokens.specs.Numbers.{is_digit};
ghost use Rattle.program_tokens.specs.Words.{begins_word, in_word, is_space, is_word, is_name};

use crate::keyword::Keyword;

/// Whether a byte separates tokens: a space, a tab, CR or LF.
#[tactic(auto, unfolding(crate::specs::Words::is_space))]
pub fn is_space(byte: u8) -> bool
    ensures { result ≡ is_space byte }
{
    byte == b' ' || byte == b'\t' || byte == b'\r' || byte == b'\n'
}

/// Whether a word may begin with this byte: an ASCII letter or `_`.
#[tactic(auto, unfolding(crate::specs::Words::begins_word))]
pub fn begins_word(byte: u8) -> bool
    ensures { result ≡ begins_word byte }
{
    (b'A' <= byte && byte <= b'Z') || (b'a' <= byte && byte <= b'z') || byte == b'_'
}

/// Whether a byte is an ASCII digit.
pub fn is_digit(byte: u8) -> bool
    ensures { result ≡ is_digit byte }
{
    b'0' <= byte && byte <= b'9'
}

/// Whether a word may have this byte: an ASCII letter, a digit or `_`.
#[tactic(auto, unfolding(crate::specs::Words::in_word))]
pub fn in_word(byte: u8) -> bool
    ensures { result ≡ in_word byte }
{
    begins_word(byte) || is_digit(byte)
}

/// Whether the bytes are a word of letters, digits and `_`, which begins with no digit.
#[tactic(auto, unfolding(crate::specs::Words::is_word))]
fn is_word(bytes: &[u8]) -> bool
    ensures { result ≡ is_word bytes.now }
{
    match bytes {
        [] => false,
        [first, others @ ..] => begins_word(*first) && all_in_word(others),
    }
}

fn all_in_word(bytes: &[u8]) -> bool
    ensures { result ≡ list_all in_word bytes.now }
{
    bytes.iter().all(|byte| in_word(*byte))
}

/// Whether the bytes are a name: a word of 1 to 64 bytes that is not a keyword.
#[tactic(auto, unfolding(crate::specs::Words::is_name))]
pub fn is_name(bytes: &[u8]) -> bool
    ensures { result ≡ is_name bytes.now }
{
    is_word(bytes) && bytes.len() <= 64 && Keyword::from_bytes(bytes).is_none()
}
