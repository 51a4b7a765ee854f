//! Words that take both documents of a session back over some changes.
//!
//! [`undo_changes`] steps a session through changes, and returns for each side the inverses of the words that acted on
//! it, from the last to the first. The definition is `undone` in specs/Undone.antt.
#![tactic(auto)]

mod both;
mod stepping;
mod undo;

pub use both::BothWords;
pub use undo::undo_changes;
