//! The tokens of a program's text.
//!
//! A lens program is a text, and its grammar speaks of tokens: keywords, names, strings, numbers and marks,
//! each with the offset of its first byte. `tokens` gives the tokens of any bytes, and its contract
//! says exactly which. docs/LANGUAGE.md has the rule.
#![tactic(auto)]

pub mod keyword;
pub mod mark;
mod number;
mod piece;
pub mod queue;
pub mod reading;
pub mod text;
pub mod token;
pub mod word;

pub use crate::keyword::Keyword;
pub use crate::mark::Mark;
pub use crate::queue::Tokens;
pub use crate::reading::tokens;
pub use crate::text::is_text;
pub use crate::token::{PlacedToken, Token};
pub use crate::word::is_name;
