//! A word between two documents of a type: it takes the first to the second, and edits only what differs.
#![tactic(auto)]

mod building;
mod keys;
pub mod laws;
mod nodes;
mod words;

pub use crate::building::between;
pub use crate::laws::between_leads;
