//! Edits of documents: words of primitives, their action, and changes of one entry or a group of entries.
#![tactic(auto)]

pub mod action;
pub mod atom;
pub mod change;
mod container;
pub mod entry;
pub mod fault;
pub mod laws;
mod leaves;
mod reshape;
pub mod word;

pub use crate::action::act;
pub use crate::atom::Atom;
pub use crate::change::{Change, Entries};
pub use crate::entry::Entry;
pub use crate::fault::{ActFault, Cause, PrimitiveFault};
pub use crate::laws::{
    action_keeps_types, equal_words_act_alike, joined_acts_in_turn, normal_is_merged,
};
pub use crate::word::{Primitive as Prim, Word};
pub use texts::Side;
