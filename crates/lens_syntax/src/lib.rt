//! The language of lens programs: from a text to its program and back.
//!
//! [`read_program`] returns the program of a text, or the byte at which the text stops being one; [`write_program`]
//! returns a program's canonical text, which [`read_unbounded`] reads back as the same program. `Tells` in specs/ says
//! why a text is refused, in the words of the grammar: the unexpected token, or the first name that is unknown or
//! repeated. The law `reading_follows_the_grammar` says that the results which compute are these. docs/LANGUAGE.md is
//! the reference of the language, with an example for every construct.
#![tactic(auto)]

pub mod fault;
pub mod laws;
pub mod reading;

pub use crate::fault::ProgramFault;
pub use crate::reading::{MOST_PROGRAM_BYTES, read_program, read_unbounded};
pub use program_terms::{Arms, Def, Lens, Pairs, Program, Row, Rows, TyExpr, TyFields};
pub use program_writing::{write_name, write_program, write_type};
