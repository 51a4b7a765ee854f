//! The command `undo` over the store of a hub.
//!
//! [`HubUndo`] takes the hub and all its views and complements back to what they were before the last changes, for the
//! call `undo` of store_run. That stores a snapshot of that hub behind the payloads, and writes words that take each
//! document back. What undoing comes to is `hub_undoing` in specs/HubUndoing.antt, and the words are `hub_undone` in
//! specs/HubUndone.antt.
#![tactic(auto)]

mod instance;
mod joining;
pub mod laws;
mod making;
mod stepping;
mod undo_lines;

pub use crate::instance::HubUndo;
pub use crate::stepping::undo_changes;
