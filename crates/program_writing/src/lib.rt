//! The canonical text of programs, of types and of names.
//!
//! `write_program` returns the canonical text of a program, `write_type` a type of documents as a program
//! writes it, and `write_name` a name as a field is written. A program that some text spells is spelled by its
//! canonical text too: the laws of the module `laws` say so. docs/LANGUAGE.md has the rule.
#![tactic(auto)]

mod initial_text;
pub mod laws;
mod lens_text;
mod name_text;
mod program_text;
mod ty_text;
mod type_text;

pub use crate::name_text::write_name;
pub use crate::program_text::write_program;
pub use crate::ty_text::write_type;
