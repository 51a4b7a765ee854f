//! Links between the places of two shapes: where each place of the one is in the other, after edits of both.
//!
//! They are kept as runs, so that what an edit costs grows with the number of edits before it and not with the shapes.
#![tactic(auto)]

mod laws;
mod link;
mod links;
mod plans;
mod run;

pub use crate::laws::{
    an_edit_of_both_shapes_keeps_what_is_there, an_edit_of_the_far_shape_keeps_links,
    an_edit_of_the_near_shape_keeps_links,
};
pub use crate::link::Link;
pub use crate::links::Links;
