//! The lens of a program text, or why the text is refused.
//!
//! [`read_lens`] reads and checks a text, and [`read_accepted`] returns its program too. The definition is `lens_of` in
//! specs/Program.antt: it puts the reader of `lens_syntax` and the checker of `lens_types` together. A text is accepted
//! if `lens_of` gives a form, and the laws say what an accepted text has.
#![tactic(auto)]

pub mod laws;
mod program;

pub use program::{Accepted, Refused, read_accepted, read_lens};
