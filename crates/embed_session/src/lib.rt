//! A session that a caller outside keeps from call to call: bytes come in, and the bytes that answer wait to be taken.
//!
//! [`EmbeddedSession::open`] begins with the bytes of a program, [`EmbeddedSession::import`] with those of a program and of one document,
//! [`EmbeddedSession::resume`] with those of a program and of a state, and [`EmbeddedSession::reopen`] with the records of a log.
//! [`EmbeddedSession::step`] takes a line of a journal, and [`EmbeddedSession::show`] shows a part of the state or of the last change.
//! [`EmbeddedSession::text`] is the text that answers the last call. specs/Embedded.antt defines what a caller sees of each call, and
//! [`laws`] says what follows: the lines of a journal are answered as in the report of a run, and the records of a
//! session stand for it. No device, no pointer and no number of a status is named here.
#![tactic(auto)]

mod accepted;
mod beginning;
mod changes;
mod embedded;
mod importing;
pub mod laws;
mod opening;
mod outcome;
mod parts;
mod records;
mod reopening;
mod resuming;
mod running;
mod shared;
mod stepping;

pub use accepted::Accepted;
pub use embedded::EmbeddedSession;
pub use outcome::{Outcome, Part, StateFault};
pub use records::cut;
pub use resuming::{complement_of_text, document_of_text};
pub use running::Running;
pub use shared::SharedLens;
