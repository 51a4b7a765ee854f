//! Patches of users' files as edits: a JSON Patch of the file of a document becomes a word of the document.
#![tactic(auto)]

mod fault;
pub mod laws;
mod making;
mod walk;

pub use crate::fault::WordFault;
pub use crate::laws::patches_lead;
pub use crate::making::to_word;
