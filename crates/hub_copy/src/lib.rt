//! Which payloads of the store of a hub stay if others are left out: those that still have all its views.
//!
//! A snapshot of a hub has a view for each lens, and lenses come with records. So the payloads in front of a snapshot
//! must add all views. [`kept_records`] gives the first payloads of a store, and of the others those that add a view.
//! Its definition is in specs/KeptRecords.antt, and [`laws`] says which hub they stand for.
#![tactic(auto)]

mod keeping;
pub mod laws;

pub use crate::keeping::kept_records;
