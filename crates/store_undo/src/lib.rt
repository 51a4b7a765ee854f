//! The command `undo` over a store of two documents.
//!
//! [`PairUndo`] takes both documents and the complement back to what they were before the last changes, for the call
//! `undo` of store_run. That stores a snapshot of that triple behind the payloads, and writes words that take each
//! document back. What undoing comes to is `undoing` in specs/Undoing.antt, and the words are `undone` of edit_undo.
#![tactic(auto)]

mod instance;
mod last_changes;
mod making;
mod opening;
mod tree_texts;
mod undo_laws;
mod undo_texts;

pub use instance::PairUndo;
pub use making::making_fault;
pub use opening::kept_before;
pub use undo_laws::{undone_is_in_step, undone_or_refused};
pub use undo_texts::with_word;
