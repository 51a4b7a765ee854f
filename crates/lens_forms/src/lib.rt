//! Forms of lenses: a lens in which every name is expanded, its two types, and the laws of typing.
//!
//! A [`Form`] contains itself, so contracts see it as a plain tree, `FormTree` through `form_tree`. `IsTyped` of specs/
//! says which forms are lenses between which types, and `left_type` and `right_type` give the two types of a form.
//! docs/LANGUAGE.md has them in words.
#![tactic(auto)]

mod form;
pub mod laws;
mod limits;

pub use crate::form::{Form, FormArms, FormRow, FormRows};
pub use crate::limits::{GREATEST_HEIGHT, MOST_PARTS};
