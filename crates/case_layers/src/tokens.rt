//! The call that cuts a text into tokens.

use crate::bytes::bytes;
use crate::case::Case;
use anyhow::Result;
use program_tokens::{PlacedToken, Token, Tokens, tokens};
use serde_json::Value;
use std::alloc::Global;

/// Runs `tokens`: the tokens in order, each with its offset.
pub fn run_tokens(alloc: Global, case: &Case<'_>) -> Result<Value> {
    let bytes = bytes(alloc, case)?;
    let left = tokens(alloc, bytes.as_slice())?;
    token_trees(alloc, left)
}

fn token_trees(alloc: Global, mut left: Tokens) -> Result<Value> {
    let mut items = Vec::new(alloc);
    for _ in 0..left.len() {
        let Some(token) = left.pop() else { break };
        let tree = token_tree(alloc, &token);
        drop(token);
        items.push(tree?)?;
    }
    Ok(Value::Array(items))
}

fn token_tree(alloc: Global, token: &PlacedToken) -> Result<Value> {
    let word = token_text(alloc, &token.token)?;
    Ok(Value::Array(vec![in alloc; Value::String(word), Value::from(token.at)]?))
}

// The text of a token. A mark is its character; a name, a string and a number have their sort before them.
fn token_text(alloc: Global, token: &Token) -> Result<String> {
    match token {
        Token::Keyword(word) => copy(alloc, word.text()),
        Token::Name(name) => Ok(format!(in alloc; "name:{}", name.as_str())?),
        Token::Text(text) => Ok(format!(in alloc; "string:{}", text.as_str())?),
        Token::Number(number) => Ok(format!(in alloc; "number:{number}")?),
        Token::Mark(mark) => character(alloc, mark.byte()),
        Token::Bad => copy(alloc, "bad"),
        Token::End => copy(alloc, "end"),
    }
}

fn copy(alloc: Global, text: &str) -> Result<String> {
    Ok(String::from_str(alloc, text)?)
}

fn character(alloc: Global, byte: u8) -> Result<String> {
    let character = char::from(byte);
    Ok(format!(in alloc; "{character}")?)
}
