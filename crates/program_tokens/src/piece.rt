//! What a text begins with: a gap, a token, or something that keeps no form.
ghost use Rattle.std.specs.Prelude.{◌≡◌, ◌∷◌, ◌<◌, ◌≤◌, true, not, ◌==◌, IfOk, IfSome, IsNone, false, length, position};
ghost use Rattle.std.specs.List.{list_all};
ghost use Rattle.program_tokens.specs.Numbers.{is_digit, number_of};
ghost use Rattle.program_tokens.specs.Words.{begins_word, in_word, is_text, keyword_of, mark_of};
ghost use Rattle.program_tokens.specs.Tokens.{piece_of, word_piece, keyword_or_name, line_run, word_run, digit_run};
ghost use Rattle.program_tokens.specs.Tokens.{text_piece, number_piece, mark_piece, IsWithin};

use crate::keyword::Keyword;
use crate::mark::Mark;
use crate::number::{negative_number, plain_number};
use crate::text::is_text;
use crate::token::Token;
use crate::word::{begins_word, in_word, is_digit, is_space};
use std::alloc::{AllocError, Global};
use texts::Name;

/// A piece of text, with the number of bytes behind its first.
#[derive(Drop)]
pub(crate) enum Piece {
    /// A byte between tokens, or a comment.
    Gap(usize),
    /// A token.
    Token(Token, usize),
    /// Neither: a bad token.
    Bad,
}

/// The piece that begins with this byte, where the rest of the text follows.
#[tactic(auto, unfolding(crate::specs::Tokens::piece_of))]
pub(crate) fn first_piece(alloc: Global, first: u8, rest: &[u8]) -> Result<Piece, AllocError>
    ensures piece { IfOk result (λ p. p ≡ piece_of first rest.now) }
    ensures within { IfOk result (λ p. IsWithin (length rest.now) p) }
{
    if is_space(first) {
        Ok(Piece::Gap(0))
    } else if first == b'#' {
        Ok(Piece::Gap(line_run(rest)))
    } else if begins_word(first) {
        word_piece(alloc, first, &rest[..word_run(rest)])
    } else if first == b'"' {
        text_piece(alloc, rest)
    } else if is_digit(first) {
        Ok(plain_piece(first, &rest[..digit_run(rest)]))
    } else if first == b'-' {
        Ok(negative_piece(&rest[..digit_run(rest)]))
    } else {
        Ok(mark_piece(first))
    }
}

/// How many bytes are before the next LF, or before the end of the text.
fn line_run(rest: &[u8]) -> usize
    ensures run { result ≡ line_run rest.now }
    ensures within { result ≤ length rest.now }
{
    rest.iter().take_while(|b| **b != b'\n').count()
}

/// How many bytes of a word come first.
fn word_run(rest: &[u8]) -> usize
    ensures run { result ≡ word_run rest.now }
    ensures within { result ≤ length rest.now }
{
    rest.iter().take_while(|b| in_word(**b)).count()
}

/// How many digits come first.
fn digit_run(rest: &[u8]) -> usize
    ensures run { result ≡ digit_run rest.now }
    ensures within { result ≤ length rest.now }
{
    rest.iter().take_while(|b| is_digit(**b)).count()
}

/// A digit and those behind it.
fn plain_piece(first: u8, others: &[u8]) -> Piece
    requires digit { is_digit first ≡ true }
    requires digits { list_all is_digit others.now ≡ true }
    ensures { result ≡ number_piece (number_of false (first ∷ others.now)) (length others.now) }
{
    match plain_number(first, others) {
        Some(number) => Piece::Token(Token::Number(number), others.len()),
        None => Piece::Bad,
    }
}

/// A `-` and the digits behind it.
fn negative_piece(digits: &[u8]) -> Piece
    requires { list_all is_digit digits.now ≡ true }
    ensures { result ≡ number_piece (number_of true digits.now) (length digits.now) }
{
    match negative_number(digits) {
        Some(number) => Piece::Token(Token::Number(number), digits.len()),
        None => Piece::Bad,
    }
}

fn word_piece(alloc: Global, first: u8, others: &[u8]) -> Result<Piece, AllocError>
    requires begins { begins_word first ≡ true }
    requires goes_on { list_all in_word others.now ≡ true }
    ensures piece { IfOk result (λ p. p ≡ word_piece (first ∷ others.now) (length others.now)) }
{
    let count = others.len();
    if count >= 64 {
        return Ok(Piece::Bad);
    }
    let mut word = Vec::new(alloc);
    word.push(first)?;
    word.extend_from_slice(others)?;
    Ok(Piece::Token(word_token(word), count))
}

/// A word is a keyword or a name.
#[tactic(auto, using(crate::proofs::WordUtf8::word_utf8))]
fn word_token(word: Vec<u8>) -> Token
    requires { list_all in_word word.items ≡ true }
    ensures { result ≡ keyword_or_name (keyword_of word.items) word.items }
{
    match Keyword::from_bytes(&word) {
        Some(keyword) => Token::Keyword(keyword),
        None => match String::from_utf8(word) {
            Ok(text) => Token::Name(Name::from_string(text)),
            Err(_) => unreachable!(),
        },
    }
}

fn find_quote(rest: &[u8]) -> Option<usize>
    ensures place { result ≡ position (λ b. b == 34) rest.now }
    ensures within { IfSome result (λ place. place < length rest.now) }
{
    rest.iter().position(|b| *b == b'"')
}

fn text_piece(alloc: Global, rest: &[u8]) -> Result<Piece, AllocError>
    ensures piece { IfOk result (λ p. p ≡ text_piece rest.now (position (λ b. b == 34) rest.now)) }
    ensures within { IfOk result (λ p. IsWithin (length rest.now) p) }
{
    match find_quote(rest) {
        Some(end) => match held_text(&rest[..end]) {
            Some(text) => {
                let text = Name::from_string(String::from_str(alloc, text)?);
                Ok(Piece::Token(Token::Text(text), end + 1))
            }
            None => Ok(Piece::Bad),
        },
        None => Ok(Piece::Bad),
    }
}

/// The text between two quotes, where a string may hold it.
fn held_text(bytes: &[u8]) -> Option<&str>
    ensures some { IfSome result (λ text. (text.now ≡ bytes.now) × (is_text bytes.now ≡ true)) }
    ensures none { IsNone result → is_text bytes.now ≡ false }
{
    match str::from_utf8(bytes) {
        Ok(text) => { if is_text(text) { Some(text) } else { None } }
        Err(_) => None,
    }
}

fn mark_piece(byte: u8) -> Piece
    ensures { result ≡ mark_piece (mark_of byte) }
{
    match Mark::from_byte(byte) {
        Some(mark) => Piece::Token(Token::Mark(mark), 0),
        None => Piece::Bad,
    }
}
