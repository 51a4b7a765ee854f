//! The top call of `editstore`: the store of a pair of documents or of a hub is made anew on another disk.
//!
//! [`editstore`] is the complete program apart from its real streams. Its contract names for each kind of store the
//! record of what is promised, `Remakes` of store_copy, whose calls it makes. specs/StoreOrders.antt has the words of
//! the commands.
//!
//! [`run_program`] is the same over the real output and the real files. [`laws`] say what a caller may do after it.
#![tactic(auto)]

pub mod laws;
mod real;
mod top;
mod usage;
mod words;

pub use command_ends::Status;
pub use real::run_program;
pub use top::editstore;
pub use words::{StoreKind, StoreOrder, Upkeep, read_order};
