//! Deciding consistency, by patterns.
//!
//! A pattern is a document with holes. The image of a pattern through a lens, with a complement, is the pattern of all
//! documents of the other side that are consistent with some document in the given one: `image` of specs/. The image of
//! a document decides which documents are consistent with it, also where a lens loses information on the way. [`laws`]
//! says so for every typed form.
#![tactic(auto)]

pub mod laws;
mod pattern;

pub use crate::pattern::{Pattern, Patterns};
