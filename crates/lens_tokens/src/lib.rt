//! Documents and complements that are read from the tokens of texts, without trees.
//!
//! [`document_of_tokens`] and [`complement_of_tokens`] are the quick way to the document or the complement that a text
//! is the JSON of, and *sound*: what they return is what the text is. `None` says nothing of the text: it may be out of
//! the ordinary (a member that comes twice or out of order), it may be refused, or memory may have run out. A caller
//! then reads the text as a tree, which decides.
#![tactic(auto)]

mod complement;
mod document;

pub use crate::complement::complement_of_tokens;
pub use crate::document::document_of_tokens;

// How deep a text may nest, as for the tree that serde_json reads.
pub(crate) const MOST_DEPTH: usize = 127;
