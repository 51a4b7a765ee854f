//! The commands that make a store anew on another disk.
//!
//! [`compact`] makes a store of the state alone: what gives the lens, and one snapshot. [`copy`] makes one of the same
//! records, and [`back`] one that goes back to the state after a record. They only read the store that is there.
//! specs/Remakes.antt has what they promise, and specs/NewPayloads.antt which payloads the new store has.
//!
//! A session says by [`RemadeSession`] what a new store of it begins with, and which payloads stand for the state to
//! which it goes back. Stores of a pair and those of a hub say so. A view that was added to a hub stays in its store: a
//! store that goes back shows in it what its lens makes of the earlier document.
#![tactic(auto)]

mod hub_stores;
pub mod laws;
mod lines;
mod new_payloads;
mod pair_stores;
mod remaking;
mod session;

pub use remaking::{back, compact, copy};
pub use session::RemadeSession;
