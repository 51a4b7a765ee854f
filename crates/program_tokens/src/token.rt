//! Tokens, and where they are.

use crate::keyword::Keyword;
use crate::mark::Mark;
use texts::Name;

/// What the grammar speaks of.
#[derive(Drop)]
pub enum Token {
    /// A word that the language keeps for itself.
    Keyword(Keyword),
    /// A word of 1 to 64 bytes that is not a keyword.
    Name(Name),
    /// A string, without its quotes.
    Text(Name),
    /// A number of 1 to 19 digits, behind a `-` or without.
    Number(i64),
    /// A token of one byte.
    Mark(Mark),
    /// A byte where no token begins that keeps its form; no token follows it.
    Bad,
    /// The end of the text.
    End,
}

/// A token, and the offset of its first byte in the text.
#[derive(Drop)]
pub struct PlacedToken {
    pub token: Token,
    pub at: u64,
}
