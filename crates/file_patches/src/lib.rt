//! JSON Patch and JSON Pointer over the trees of JSON files.
//!
//! `read_patch` reads a patch (RFC 6902) from the tree of its document, and `patched` says what it makes of a tree. A
//! place in a tree is a JSON Pointer (RFC 6901), which `read_pointer` reads. The first operation that cannot be done is
//! named by its number and a cause.
#![tactic(auto)]

mod changes;
mod copies;
mod equality;
mod fault;
mod kinds;
pub mod laws;
mod numbers;
mod operations;
mod patching;
mod places;
mod pointers;
mod reading;

pub use crate::equality::is_equal;
pub use crate::fault::{Cause, Fault, Misread, ReadRefusal};
pub use crate::operations::Operation;
pub use crate::patching::patched;
pub use crate::places::content_at;
pub use crate::pointers::read_pointer;
pub use crate::reading::read_patch;
