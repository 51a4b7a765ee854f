//! Bridges between two lists: where the items of the one are in the other, and what an edit of the one is for the
//! other.
#![tactic(auto)]

mod bridge;
mod carry;
mod far_edits;
mod laws;
mod moves;
mod orders;
mod parking;

pub use crate::bridge::ListBridge;
pub use crate::carry::{CarriedEdits, CarryFault};
pub use crate::laws::{
    a_change_is_carried, a_deletion_is_carried, a_move_is_carried, a_plan_is_followed,
    a_reorder_is_carried, an_edit_is_carried, an_insertion_is_carried, both_ways_lead_to_one_list,
};
pub use bridge_links::{Link, Links};
