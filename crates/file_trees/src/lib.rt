//! The trees of JSON files: read from a file's bytes, and written as a file.
//!
//! A tree keeps each number as its text and the members of an object in their order. What is written is read back as
//! the same tree, and what is read has the same tokens as what is written of it: only spaces and escapes differ.
#![tactic(auto)]

mod fault;
mod lend;
mod read;
mod tree;
mod write;

pub use crate::fault::FileFault;
pub use crate::read::read_file;
pub use crate::tree::FileTree;
pub use crate::write::write_file;
