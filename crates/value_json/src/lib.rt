//! Documents as JSON trees, both ways.
//!
//! `read_doc` returns the document of a type that has a tree, and `write_doc` the tree of a document.
//! Both are defined in specs/DocumentJson.antt, a line for each type, and the two definitions are
//! inverse to each other (`laws`). The words and readers for whole numbers (`numbers`) and for
//! objects with one member and with two (`parts`) serve every crate that reads JSON. The page
//! docs/FORMATS.md has the forms with examples.
#![tactic(auto)]

pub mod fault;
pub mod laws;
pub mod numbers;
pub mod parts;
pub mod read;
pub mod text;
pub mod write;

pub use crate::fault::DocFault;
pub use crate::numbers::{read_count, read_counts, read_int};
pub use crate::parts::{only_member, two_members};
pub use crate::read::read_doc;
pub use crate::text::{write_compact, write_doc_text};
pub use crate::write::{write_counts, write_depths, write_doc, write_text};
