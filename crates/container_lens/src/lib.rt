//! A lens mapped over the items of a list, the contents of a keyed map or the nodes of an ordered tree: its laws, and
//! translating through it round the translation of the lens inside.
//!
//! [`hold_begin`] finishes an edit of the shape; for an edit of one place it says the complement and the word for the
//! lens inside. [`hold_finish`] puts the result of that lens in place. Both are written once for all kinds of shape.
//! [`laws`] says that this is the translation of lens_core, and that the three lenses keep the laws where the lens
//! inside does.
#![tactic(auto)]

pub mod begin;
pub mod finish;
pub mod laws;
mod places;

pub use crate::begin::hold_begin;
pub use crate::finish::hold_finish;
