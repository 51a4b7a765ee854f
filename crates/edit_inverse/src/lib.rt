//! Undo: a word that makes a document from its type's initial value, and a word that takes a document back to what it
//! was before another word acted on it. Nothing is compared: the first is made from one document, the second from a
//! word that acts.
#![tactic(auto)]

mod construction;
pub mod laws;
mod old_shapes;
mod old_values;
mod walk;
mod words;

pub use crate::construction::construct;
pub use crate::laws::{action_keeps_texts, construct_makes, inverse_takes_back, texts_are_met};
pub use crate::walk::inverse;
pub use edit_module::ActFault as InverseFault;
