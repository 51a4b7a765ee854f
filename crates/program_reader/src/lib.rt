//! Reading a lens program from the tokens of its text.
//!
//! `read_tokens` returns the program, or the unexpected token, or the first name that is unknown
//! or defined twice. The code reads from left to right and never goes back, as the definition of reading in the crate
//! program_grammar does, and its contract says that the two are the same. docs/LANGUAGE.md has the rules in prose.
#![tactic(auto)]

pub mod fault;
mod initial;
mod lenses;
mod names;
mod programs;
mod reader;
pub mod reading;
mod types;

pub use crate::fault::ProgramReadFault;
pub use crate::reading::read_tokens;
