//! The top call of `edithub`: a hub that a store keeps.
//!
//! [`edithub`] is the complete program apart from its real streams. Its contract is the main theorem: a clause for each
//! command, which names the record of what the command promises, in a file of specs/ with the record's name. The
//! commands that a store has for every session are calls of store_run with the hubs of hub_session, and `undo` with
//! those of hub_undo; `init` and `add` are calls of hub_new and hub_add.
//!
//! [`run_program`] is the same over the real streams and the file of the store.
#![tactic(auto)]

pub mod laws;
mod real;
mod stores;
mod top;
mod usage;
mod words;

pub use command_ends::Status;
pub use real::run_program;
pub use top::edithub;
pub use words::{HubOrder, read_order};
