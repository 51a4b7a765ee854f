//! The commands `run` and `check`: a script over one lens.
//!
//! [`PairRun`] answers the journal of a script by a session, for `run`. [`TypesShown`] answers no line, and ends with
//! the two types of the lens, for `check`. Each command is the call `run_script` of run_scripts over one of them.
//!
//! specs/Runs.antt defines what a line makes of a pair of documents and their complement, and the state lines.
//! specs/Shown.antt is for `check`.
#![tactic(auto)]

pub mod laws;
mod pair;
mod shown;

pub use crate::pair::PairRun;
pub use crate::shown::TypesShown;
