//! Words of edits as JSON trees, both ways.
//!
//! `read_word` returns the word that has a tree. `put_word` writes the tokens of a word's tree, and
//! `append_word` its text; neither makes the tree. Which word a tree is and which tree a word has are
//! defined in specs/WordJson.antt, a line for each primitive, and the two definitions are inverse to
//! each other (`laws`). A word whose insertions and deletions are not all of 1 to 65,536 items has
//! no tree that is read as a word, which `has_tree` tests. The page docs/FORMATS.md has the forms with
//! examples.
#![tactic(auto)]

pub mod compact;
pub mod fault;
pub mod fits;
pub mod kind;
pub mod laws;
mod leaves;
mod parts;
pub mod read;
mod values;

pub use crate::compact::{append_word, put_word};
pub use crate::fault::EditFault;
pub use crate::fits::has_tree;
pub use crate::parts::two_items;
pub use crate::read::read_word;
