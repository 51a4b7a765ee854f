//! Sessions that take words made for an older state, and carry them to the newest one.
//!
//! A [`BasedSession`] counts its changes, and keeps for its last changes the bridges by which they led both documents
//! on. [`BasedSession::step_at`] takes a word with its base, the number of changes that its author knew. The definition
//! is `step_at` in specs/Bases.
#![tactic(auto)]

mod fault;
mod kept;
pub mod laws;
mod rebasing;
mod session;
mod stepping;

pub use crate::fault::BaseFault;
pub use crate::rebasing::Rebased;
pub use crate::session::BasedSession;
