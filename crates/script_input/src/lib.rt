//! The input of a script: pieces of it, the program part, and the lines of the journal.
//!
//! [`Input`] takes pieces from a source and gives the lines that have ended, and [`skip_rest`] reads an input to its
//! end. An input has at most [`MOST_BYTES`] bytes. What a piece adds is defined in specs/Taking.antt.
//!
//! A script is a program part, a separator, and the journal behind it. [`read_head`] reads an input up to the
//! separator, and [`ProgramText`] holds the program part that it found. specs/Lines.antt says what the parts of a
//! script are, specs/Coming.antt what is known of them before the end has come.
#![tactic(auto)]

mod input;
mod limits;
mod rest;
mod script;

pub use input::{Input, piece_buffer};
pub use limits::{MOST_BYTES, MOST_KEPT, PIECE_BYTES};
pub use rest::skip_rest;
pub use script::{Head, ProgramText, accepted_part, read_head};
