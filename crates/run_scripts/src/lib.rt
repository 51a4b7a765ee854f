//! A command over a script: lines that are answered as they come, from the program part to the end.
//!
//! What a program part means, what a line of the journal makes of a state, and which lines say the last state is given
//! by an implementation of [`ScriptState`].
//!
//! [`answer_pieces`] reads an input in pieces, to its end, and writes the answers. [`answer_piece`] is one turn of it,
//! and its contract is the promise of the stream: it takes at most one piece, and when it is called all lines that have
//! ended before are answered, and their answers written. [`handle_last`] handles the last line, which no LF ends. A run
//! that does not come to its end is stopped by one of [`Stopped`]. specs/LineRuns.antt defines the run, and
//! specs/LineEnds.antt what holds at each end.
//!
//! [`answer_part`] answers a journal as it comes, and [`answer_alone`] ends a script without one. [`run_script`] is the
//! complete command for a state that one program opens ([`ProgramScript`]). A command with another program part reads
//! it, makes its first state, and calls one of the two. specs/Report.antt defines the report of an input, and
//! specs/ScriptEnds.antt what holds after each status: `Ended`, which the contracts have.
#![tactic(auto)]

mod journal;
mod part;
mod program;
mod progress;
mod report;
mod script_state;
mod stopped;
mod stream;

pub use crate::part::{answer_alone, answer_part};
pub use crate::program::{ProgramScript, run_script};
pub use crate::progress::{Progress, handle_last, handle_line};
pub use crate::script_state::{NotOpened, ScriptState};
pub use crate::stopped::Stopped;
pub use crate::stream::{answer_piece, answer_pieces};
