//! The tokens of one byte.
ghost use Rattle.std.specs.Prelude.{◌≡◌};
ghost use Rattle.program_tokens.specs.Words.{mark_byte, mark_of};

use std::alloc::{AllocError, Global};
use texts::Twin;

/// A token of one byte.
#[derive(Clone, Copy, Debug, PartialEq, Eq)]
pub enum Mark {
    Equals,
    Semicolon,
    OpenBrace,
    CloseBrace,
    Less,
    Greater,
    OpenBracket,
    CloseBracket,
    OpenParen,
    CloseParen,
    Colon,
    Comma,
    Tilde,
}

impl Mark {
    /// The byte of the mark.
    pub fn byte(self) -> u8
        ensures { result ≡ mark_byte self }
    {
        match self {
            Mark::Equals => b'=',
            Mark::Semicolon => b';',
            Mark::OpenBrace => b'{',
            Mark::CloseBrace => b'}',
            Mark::Less => b'<',
            Mark::Greater => b'>',
            Mark::OpenBracket => b'[',
            Mark::CloseBracket => b']',
            Mark::OpenParen => b'(',
            Mark::CloseParen => b')',
            Mark::Colon => b':',
            Mark::Comma => b',',
            Mark::Tilde => b'~',
        }
    }

    /// The mark of this byte, or `None` where the byte is not a mark.
    #[tactic(auto, unfolding(crate::specs::Words::mark_of))]
    pub fn from_byte(byte: u8) -> Option<Mark>
        ensures { result ≡ mark_of byte }
    {
        match byte {
            b'=' => Some(Mark::Equals),
            b';' => Some(Mark::Semicolon),
            b'{' => Some(Mark::OpenBrace),
            b'}' => Some(Mark::CloseBrace),
            b'<' => Some(Mark::Less),
            b'>' => Some(Mark::Greater),
            b'[' => Some(Mark::OpenBracket),
            b']' => Some(Mark::CloseBracket),
            b'(' => Some(Mark::OpenParen),
            b')' => Some(Mark::CloseParen),
            b':' => Some(Mark::Colon),
            b',' => Some(Mark::Comma),
            b'~' => Some(Mark::Tilde),
            _ => None,
        }
    }
}

impl Twin for Mark {
    ghost use Rattle.program_tokens.specs.declared.mark.Mark.{Mark};

    ghost Meaning = { Mark };

    ghost meaning = { λ x. x };

    fn twin(&self, _alloc: Global) -> Result<Self, AllocError> {
        Ok(*self)
    }
}
