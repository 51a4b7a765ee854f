//! A hub over a script: one document that is kept in step with up to 64 views.
//!
//! [`run_hub`] is the main call: it reads a script, whose program part is the views' programs, and answers its journal.
//! [`Pieces`] is the program part, cut into the program of each view, with the lenses of the views or why it is
//! refused. [`HubRun`] is the hub that answers the journal, over `run_scripts`. [`read_hub_edit`] reads a line of the
//! journal.
//!
//! specs/Pieces.antt and specs/Lenses.antt define the program part, specs/EditJson.antt the lines of the journal,
//! specs/Runs.antt what a line makes of a state and the state lines, and specs/Answers.antt the answer lines.
#![tactic(auto)]

mod answers;
mod head;
mod journal;
pub mod laws;
mod line;
mod pieces;
mod run;
mod script;
mod state;
mod views;

pub use crate::answers::{HubAnswer, add_words, hub_answer_line, hub_ok_line, no_view_line};
pub use crate::head::{HubHead, read_hub_head};
pub use crate::journal::take_hub_item;
pub use crate::line::{read_edit_tree, read_hub_edit, side_and_edit};
pub use crate::pieces::{MOST_VIEWS, Pieces};
pub use crate::run::{HubRun, first_hub};
pub use crate::script::run_hub;
pub use crate::state::{hub_line, hub_state_lines, is_in_step, lines_of_view};
pub use crate::views::{AcceptedViews, HubRefused, refusal_line, view_with_left};
