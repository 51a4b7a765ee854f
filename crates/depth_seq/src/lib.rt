//! The depths of the nodes of an ordered tree, as a height-balanced tree that is asked for ends and children.
//!
//! A [`DepthSeq`] is seen as a list of numbers. Its calls take time in the height of the balanced tree, and a copy
//! shares all of it. Each part of that tree keeps its size, its least depth and how often it has that depth. So a
//! search for a child, or for the end of what is below a node, passes by a part at one look.
#![tactic(auto)]

mod found;
pub mod iter;
mod node;
pub mod seq;
pub mod steps;
mod sum;
mod walks;

pub use crate::found::Found;
pub use crate::iter::Iter;
pub use crate::seq::DepthSeq;
pub use crate::steps::Steps;
