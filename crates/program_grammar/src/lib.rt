//! The grammar of lens programs.
//!
//! The productions and their viable prefixes (specs/Grammar.antt), the plain productions without the bound on nesting
//! (specs/PlainGrammar.antt), how a program is spelled (specs/Spelling.antt), the names that
//! it mentions and their faults (specs/Names.antt), and reading from left to right (specs/Reading.antt), on which the
//! laws and the reader in the crates above depend. docs/LANGUAGE.md has the rules in prose.
#![tactic(auto)]

pub mod mention;

pub use crate::mention::{Mention, NameFault, Sort};
