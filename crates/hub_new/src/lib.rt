//! The command that makes the store of a hub: `init`.
//!
//! [`init_hub`] reads the script of a hub as `hub` does, and makes a store on an empty disk. It ends as every command
//! that makes a store (specs/NewEnds.antt of store_new), for what a hub makes of a script: `hub_command` in
//! specs/HubInit.antt. [`read_views`] reads a script up to its programs.
#![tactic(auto)]

mod reading;
mod starting;

pub use crate::reading::{UnreadHub, read_views};
pub use crate::starting::{init_hub, refuse_views};
