//! The run of a generated journal.
//!
//! [`generate`] makes entries from a seed, steps a session of one fixed program through them, and returns a
//! [`Summary`]. The entries are `journal` of specs/Journal, and the summary is `summary_of` there. Every entry is
//! accepted.
#![tactic(auto)]

mod choice;
mod entries;
mod journal;
mod program;
mod summary;

pub use crate::journal::generate;
pub use crate::summary::Summary;
