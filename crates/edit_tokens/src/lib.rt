//! Changes that are read from the tokens of a line, without a tree.
//!
//! [`change_of_tokens`] is the quick way to the change of a line, and *sound*: what it returns is the change that the
//! line is. `None` says nothing: the line may be out of the ordinary (a member that comes twice, more members than an
//! entry has), it may be refused, or memory may have run out. [`read_line`] then reads the line as a tree, which decides,
//! so that each change and each refusal is that of `read_entry`.
//!
//! [`take_entry`], [`take_group`] and [`take_word`] are its parts, for texts that hold changes otherwise.
#![tactic(auto)]

mod changes;
mod leaf_tokens;
mod lines;
mod value_tokens;
mod word_tokens;

pub use crate::changes::{MOST_DEPTH, change_of_tokens, take_entry, take_group};
pub use crate::lines::read_line;
pub use crate::word_tokens::take_word;
