//! A list of tags that is asked for rank and place at every edit, as a height-balanced tree.
//!
//! A tag is a `u32`. [`TagSeq`] is seen as a list of tags. Its calls take time in the height of the tree, and
//! a copy shares the whole tree. A node of the tree keeps how many tags its left part has, in all and of each
//! tag, so that rank and place walk down one path.
#![tactic(auto)]

mod counts;
pub mod laws;
mod node;
pub mod seq;
pub mod steps;
mod total;
mod walks;

pub use crate::seq::TagSeq;
pub use crate::steps::Steps;
