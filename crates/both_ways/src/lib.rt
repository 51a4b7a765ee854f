//! Texts that are read by their tokens and as trees, for the programs that compare the two ways.
//!
//! [`BothWays`] reads a text as it is, and then many copies of it that are damaged at random by a fixed seed. It counts
//! how they were read. A text that the two ways read differently is an error. Each text is also compared with its
//! damaged copies, so the counts show that the comparison tells texts apart. [`read_rows`] does all this with the texts
//! of the rows of files.
#![tactic(auto)]

mod complements;
mod counts;
mod damage;
mod documents;
mod lines;
mod records;
mod rows;
mod ways;

pub use crate::complements::Complements;
pub use crate::counts::Way;
pub use crate::documents::Documents;
pub use crate::lines::Lines;
pub use crate::records::{Changes, Openings, Snapshots};
pub use crate::rows::{Rows, read_rows};
pub use crate::ways::{BothWays, Pair, Texts};
