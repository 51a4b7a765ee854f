//! Partitions: a mixed list kept in step with one list for each tag.
//!
//! [`part_left`] translates one primitive of the mixed list, [`part_right`] one of the record of lists. The tags of the
//! items, in order, are the complement. [`laws`] has that a partition keeps the laws of lenses, from both sides.
#![tactic(auto)]

mod emit;
mod items;
pub mod laws;
mod left;
mod list_edits;
mod lookups;
mod occurrences;
mod orders;
mod right;
mod row;
mod tags;

pub use crate::left::part_left;
pub use crate::right::part_right;
