//! The bytes of each line that the program writes.
//!
//! Answers to entries (`ok_line`, `no_apply_line`), to groups (`group_line`, `group_refused_line`)
//! and to lines that are neither (`fault_line`), refusals of programs (`refused_part_line`,
//! `syntax_line`, `typing_line`), and what a program and a session show (`type_line`,
//! `document_line`, `complement_line`, `tree_line`). Each line ends with its line feed. `add_ok_line` and
//! `add_group_line` add theirs to a text. The lines are defined in specs/Lines.antt and specs/RefusalLines.antt, and
//! the words in them in specs/Reasons.antt. docs/FORMATS.md says what each line means.
#![tactic(auto)]

mod answers;
mod refusals;
mod shown;
mod words;

pub use crate::answers::{
    add_group_line, add_ok_line, fault_line, group_line, group_refused_line, no_apply_line, ok_line,
};
pub use crate::refusals::{program_refused_line, refused_part_line, syntax_line, typing_line};
pub use crate::shown::{complement_line, document_line, tree_line, type_line};
pub use crate::words::{bytes_of, cause_text};
