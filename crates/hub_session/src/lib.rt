//! A hub of the program as a store has it.
//!
//! [`HubSession`] is the hub for which the payloads of a store stand. It is a
//! [`StoredSession`](store_run::StoredSession), so the commands over a store run with it. specs/HubStates.antt defines
//! its state and what payloads stand for, and specs/HubAnswers.antt the answer to a line.
#![tactic(auto)]

mod answering;
mod instance;
mod lines;
mod opening;
mod session;

pub use crate::session::HubSession;
