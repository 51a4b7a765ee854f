//! Files of cases, for the programs that run them: of commands, step by step, and of one case a line. The page
//! reference/CASES.md has the form of each.
#![tactic(auto)]

mod commands;
mod compare;
mod head;
mod rows;
mod step;
mod tally;

pub use crate::commands::{Commands, run_files};
pub use crate::head::{Head, Lengths};
pub use crate::rows::{CaseLine, compare_files};
pub use crate::step::{Step, read_step};
