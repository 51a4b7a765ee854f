//! From the line of a journal to its answer and the next state of the session.
//!
//! [`take_item`] is the main call: it steps a session by one line. [`answer_line`] is the line that answers it, which
//! [`add_answer_line`] adds to a text, and [`state_lines`] are the lines of a session. No device is named here: reading
//! and writing are above.
//!
//! Everything is generic over the lens. Where a definition needs the lens's form, the record `IsLensOf` of `lens_core`
//! ties the two. specs/ItemRuns.antt defines the run of a form, from any triple on, and specs/Answers.antt what is
//! written for it. specs/AnswerLines.antt is for the helpers.
#![tactic(auto)]

mod answers;
mod journal;
mod state;

pub use answers::{PairAnswer, add_answer_line, answer_line};
pub use journal::take_item;
pub use state::state_lines;
