//! The check of a program: its main lens with its two types, or the first failure.
//!
//! [`check`] returns the form of a program's main lens with its two types, a [`Typed`], or the first failure of the
//! program, a [`TypeFault`]. What a name stands for is `expanded_form` of specs/, and the first failure is
//! `first_failure`. The forms are those of the crate `lens_forms`. docs/LANGUAGE.md has the rules in words.
#![tactic(auto)]

mod checking;
mod earlier;
mod expansion;
mod fault;
mod heights;
mod known;
mod lenses;
mod limits;
mod made;
mod members;
mod names;
mod sides;
mod size;
mod typed;
mod types;

pub use crate::checking::check;
pub use crate::fault::TypeFault;
pub use crate::typed::Typed;
pub use lens_forms::{Form, FormArms, FormRow, FormRows, GREATEST_HEIGHT, MOST_PARTS, laws};
