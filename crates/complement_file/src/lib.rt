//! Complements as JSON trees, both ways.
//!
//! [`write_comp`] returns the tree of a complement that fits a lens, and [`read_comp`] the complement that has a tree.
//! The tree is defined in specs/ComplementJson.antt, a line for each form. Two complements of one lens never have the
//! same tree ([`laws`]), so reading a tree and writing it are inverse. The page docs/FORMATS.md has the forms with
//! examples.
#![tactic(auto)]

pub mod fault;
pub mod laws;
mod lookup;
mod numbers;
pub mod read;
mod tags;
pub mod tokens;
mod trees;
mod write;

pub use crate::fault::CompFault;
pub use crate::read::read_comp;
pub use crate::tokens::take_comp;
pub use crate::write::write_comp;
