//! From a text to its tokens.
ghost use Rattle.std.specs.Prelude.{◌≡◌, IfOk};
ghost use Rattle.program_tokens.specs.Tokens.{tokens_of};

use crate::piece::{Piece, first_piece};
use crate::queue::Tokens;
use crate::token::{PlacedToken, Token};
use std::alloc::{AllocError, Global};

/// The tokens of a text, with the offset of each in bytes.
///
/// The last is the end of the text at the text's length, or a bad token, behind which nothing is
/// read. The only error is running out of memory. docs/LANGUAGE.md has the rule.
pub fn tokens(alloc: Global, text: &[u8]) -> Result<Tokens, AllocError>
    ensures { IfOk result (λ t. t ≡ tokens_of text.now) }
{
    let mut read = Tokens::new(alloc);
    let mut at = 0;
    while at < text.len() {
        let place = at as u64;
        match first_piece(alloc, text[at], &text[at + 1..])? {
            Piece::Gap(others) => at += 1 + others,
            Piece::Token(token, others) => {
                read.push(PlacedToken { token, at: place })?;
                at += 1 + others;
            }
            Piece::Bad => {
                read.push(PlacedToken {
                    token: Token::Bad,
                    at: place,
                })?;
                return Ok(read);
            }
        }
    }
    read.push(PlacedToken {
        token: Token::End,
        at: text.len() as u64,
    })?;
    Ok(read)
}
