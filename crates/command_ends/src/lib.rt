//! How a command of the program ends.
//!
//! [`Status`] is what every command returns. specs/Statuses.antt has the exit codes, and which statuses come to the end
//! of a command.
#![tactic(auto)]

mod status;

pub use status::Status;
