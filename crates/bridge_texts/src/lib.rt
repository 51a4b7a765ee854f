//! Bridges between two texts: what edits made of a text, and where a splice of the one text goes in the other.
#![tactic(auto)]

mod bridge;
mod building;
mod laws;
mod pieces;
mod run;

pub use crate::bridge::{Carried, TextBridge};
pub use crate::laws::{
    a_splice_of_the_far_text_is_spanned, a_splice_of_the_near_text_is_carried, a_text_is_spanned,
};
pub use crate::pieces::Splice;
pub use crate::run::{End, Run};
