//! Sessions: two documents that a lens keeps in step, edit by edit.
//!
//! A [`Session`] keeps a lens, a left document, a complement and a right document, which the lens relates to each other
//! at all times. [`Session::step`] applies an entry to the document of its side and carries it to the other one, and
//! [`Session::step_all`] applies the entries of a group together or not at all. These are `step` and `step_all` in
//! specs/Step, and a journal of many changes is `run` in specs/Run.
#![tactic(auto)]

mod fault;
mod group;
pub mod laws;
mod session;
mod triple;

pub use crate::fault::{GroupFault, StepFault};
pub use crate::session::Session;
pub use crate::triple::Triple;
