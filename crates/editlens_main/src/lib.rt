//! The top call: what the program does with its words, its input and its output.
//!
//! [`editlens`] is the complete program apart from its real streams. Its contract is the main theorem: a clause for
//! each command, which names the record of what the command promises, in a file of specs/ with the record's name
//! (`Runs`), or in specs/Stores.antt. The commands over a script are calls of run_scripts and hub_run, and what the
//! report of a script is, is in specs/Report.antt of run_scripts. The commands over a store are calls of store_run and
//! store_new.
//!
//! [`run_program`] is the same over the real streams and the file of the store, and [`run_sure`] over devices that
//! never fail.
#![tactic(auto)]

mod generated;
pub mod laws;
mod makings;
mod real;
mod scripts;
mod stores;
mod sure;
mod top;
mod usage;

pub use command_ends::Status;
pub use real::run_program;
pub use sure::run_sure;
pub use top::editlens;
