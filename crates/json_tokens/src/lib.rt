//! Values that are read from the tokens of a text, without a tree.
//!
//! What a value is stays what serde_json says of its text: [`take_text`], [`take_int`] and [`take_count`] return a value
//! whose tree is the one that serde_json has for the next tokens (specs/TreesAt.antt), and the lemmas of proofs/ReadParts.antt
//! put such values together. They are *sound*: `None` says
//! nothing of the value. A caller then reads the whole text as a tree, which decides.
#![tactic(auto)]

mod numbers;
mod tokens;

pub use crate::numbers::{count_of, int_of};
pub use crate::tokens::{
    closes_object, is_at_end, next_key, opens_array, opens_object, take_count, take_int, take_key,
    take_text, takes_key,
};
