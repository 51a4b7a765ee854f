//! Documents in users' files, by a form: a document is written as the tree of a file, and read from one.
#![tactic(auto)]

mod fault;
pub mod laws;
mod members;
mod misfit;
mod read;
mod slots;
mod words;
mod write;

pub use crate::fault::WriteFault;
pub use crate::misfit::{FileMisfit, FileStep, ReadCause, ReadFault};
pub use crate::read::read_tree;
pub use crate::write::write_tree;
