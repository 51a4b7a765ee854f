//! The words of the command line.
//!
//! `read_words` returns the command that the words name: the program's name, then a command of one
//! word, as `run` or `apply`, or `undo K`, or `gen N SEED`. The words that name a command are defined in
//! specs/Orders.antt. They are read with `clap`, as specs/CommandLine.antt describes the command line to it.
//! `only_reads` tells whether the words name a command that only reads the store. `given_words` are those of the
//! process.
#![tactic(auto)]

mod command_line;
mod given;
mod numbers;
mod orders;
mod reader;

pub use crate::given::given_words;
pub use crate::orders::{Order, WordsFault, read_count};
pub use crate::reader::{only_reads, read_words};
