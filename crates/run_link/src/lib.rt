//! The command `link`: from a script to its answers, over two sites that take turns.
//!
//! [`read_event`] returns the event that a line is, by specs/EventJson.antt. The page docs/FORMATS.md has the forms
//! with examples. [`take_link_item`] makes the event happen, and returns the answer, whose line is
//! [`link_answer_line`]. [`link_state_lines`] are the lines at the end of a run. [`LinkRun`] answers the journal of a
//! script by these; the command is the call `run_script` of run_scripts over it.
//!
//! specs/Runs.antt defines the run of a link over a script, and specs/Answers.antt what is written for it.
#![tactic(auto)]

mod answers;
mod fault;
mod journal;
pub mod laws;
mod read;
mod script;
mod state;

pub use crate::answers::{LinkAnswer, link_answer_line};
pub use crate::fault::EventFault;
pub use crate::journal::take_link_item;
pub use crate::read::read_event;
pub use crate::script::LinkRun;
pub use crate::state::link_state_lines;
