//! Documents that are read from the tokens of a text, without a tree.
//!
//! [`take_doc`] is *sound*: what it returns is the document that `read_doc` reads from the tree of these tokens. `None`
//! says nothing of them: a member may come twice or out of order, the document may not have the type, or memory may
//! have run out. A caller then reads the text as a tree, which decides.
#![tactic(auto)]

pub mod docs;
pub mod numbers;

pub use crate::docs::{rises, take_doc};
pub use crate::numbers::{take_counts, take_number, take_whole};
