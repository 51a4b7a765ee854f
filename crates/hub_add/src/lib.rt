//! The command `add` over the store of a hub.
//!
//! [`add`] opens a store, reads a script with the program of one view more, and stores that program behind the
//! payloads. The document of the view is what its lens makes of the hub's document. specs/AddedView.antt says what a
//! program part means to a hub, and specs/AddCall.antt what a call comes to.
#![tactic(auto)]

mod adding;
mod reading;

pub use crate::adding::add;
