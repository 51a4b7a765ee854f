//! The records of a store: their payloads, and the lens of the first one.
//!
//! A store is a list of payloads. The first one has a program; each later one has a change, a snapshot of both
//! documents with the complement, or the version of the store. [`program_payload`], [`version_payload`],
//! [`change_payload`] and [`snapshot_payload`] return the payloads that this program writes. [`stored_lens`] returns
//! the lens of the first payload with the version that it says, and [`read_change`] the change of one. What all
//! payloads of a store stand for is in store_session.
//!
//! Payloads are read from their tokens, without a tree ([`opening_by_tokens`], [`change_by_tokens`],
//! [`snapshot_by_tokens`]). One that is out of the ordinary is read as a tree, which decides.
//!
//! The trees of records, and what a tree is as a record, are in specs/RecordJson.antt; the complement that a tree is is
//! in specs/StoredComplements.antt. The page docs/FORMATS.md has each record with an example.
#![tactic(auto)]

pub mod change;
pub mod opening;
pub mod parts;
pub mod payloads;
pub mod record_fault;
pub mod record_laws;
pub mod text;
pub mod tokens;

pub use crate::change::{change_in, read_change};
pub use crate::opening::{StoredLens, lens_of_text, stored_lens};
pub use crate::parts::{VERSION, is_version_record, opening_in, snapshot_in};
pub use crate::payloads::{
    change_payload, program_payload, record_named, snapshot_payload, version_payload,
};
pub use crate::record_fault::RecordFault;
pub use crate::text::{payload_of, read_tree};
pub use crate::tokens::{change_by_tokens, opening_by_tokens, reader_of, snapshot_by_tokens};
