//! A lens compiled to a table of nodes, once, before its first edit.
//!
//! [`Flat::compile`] writes the form of a lens as a table: each node is one constructor, and the lenses inside it are
//! nodes before it, which it names by their numbers. Each node has its missing complement ready. [`Flat`] is an
//! `EditLens`: its relation is `IsConsistent` of lens_core, and its translation is `translate`. It goes down the
//! numbers of the nodes.
#![tactic(auto)]

mod compile;
mod flat;
mod node;
mod walk;

pub use crate::flat::{Flat, ReadyForm};
