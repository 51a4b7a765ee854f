//! Bridges between two documents: what edits made of a document, and what an edit of the old one is for the new one.
//!
//! Lists are followed item by item. A keyed map or a tree that was edited is one whole here: edits of it that were made
//! for the old document are refused.
#![tactic(auto)]

mod bridge;
mod bridging;
mod carried_word;
mod carrying;
mod fault;
mod laws;
mod list_bridging;
mod list_carrying;
mod made;

pub use crate::bridge::{Bridge, Bridges};
pub use crate::bridging::bridge_of;
pub use crate::carried_word::CarriedWord;
pub use crate::carrying::carry;
pub use crate::fault::CarryFault;
pub use crate::laws::{a_bridge_spans, a_carried_word_acts, only_what_is_gone_is_refused};
pub use bridge_lists::ListBridge;
