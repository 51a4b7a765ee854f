//! A hub that a caller outside keeps from call to call: bytes come in, and the bytes that answer wait to be taken.
//!
//! [`EmbeddedHub::open`] begins with the bytes of the views' programs, as they are in a script of the command `hub`, and
//! [`EmbeddedHub::resume`] with those and the texts of a state.
//! [`EmbeddedHub::step`] takes a line of a hub's journal, and [`EmbeddedHub::show`] shows the hub's document, a view's document
//! or complement, or the state lines. [`EmbeddedHub::text`] is the text that answers the last call. specs/Embedded.antt defines
//! what a caller sees of each call, and [`laws`] says that the lines of a journal are answered as in the report of the
//! script. No device, no pointer and no number of a status is named here.
#![tactic(auto)]

mod embedded;
mod form_hub;
pub mod laws;
mod opening;
mod outcome;
mod parts;
mod resuming;
mod running;
mod state_texts;

pub use embedded::EmbeddedHub;
pub use form_hub::FormHub;
pub use outcome::{HubOutcome, HubPart, HubStateFault};
pub use running::RunningHub;
