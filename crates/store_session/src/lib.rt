//! What the payloads of a store represent, and the session of the program that a store has.
//!
//! [`reopen`] returns the session that payloads represent, with the number of changes and the version of the store, or
//! the first record that is at fault. Payloads may come from anywhere: what they represent is in step. The definition
//! is `stands` in specs/Stands.antt. What this program writes stands ([`standing_laws`]). docs/FORMATS.md has the rules
//! with examples.
//!
//! [`StoreSession`] is that session. It is a [`StoredSession`](store_run::StoredSession), so the commands over a store
//! run with it. specs/StoredStates.antt defines its state, what payloads represent, and the answer to a line.
//! [`session_laws`] says what follows: a store of any bytes is refused or in step, and a journal is answered as a run
//! over scripts answers it.
#![tactic(auto)]

mod answering;
mod instance;
mod opening;
mod reopening;
mod session;
pub mod session_laws;
mod showing;
mod snapshot_making;
mod snapshot_reading;
pub mod standing_laws;

pub use crate::opening::stored_fault;
pub use crate::reopening::{OpenedRecords, go_on, reopen, reopen_first};
pub use crate::session::StoreSession;
pub use crate::snapshot_making::snapshot_of;
pub use crate::snapshot_reading::{read_complement, read_document};
