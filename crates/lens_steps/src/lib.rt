//! What a run through a form takes from its parts, whatever holds the form: the steps that need no lens inside, and the
//! proof that each typed form keeps the laws of lenses.
//!
//! `lens_run` goes down the form itself and `lens_flat` down a table of nodes; both take these steps. [`laws`] says
//! that every typed form keeps the laws, and `IsReady` of specs/ says what a run asks of a form.
#![tactic(auto)]

pub mod kinds;
pub mod laws;
pub mod leaves;
pub mod pairs;
pub mod partition;
pub mod starts;

pub use crate::kinds::{Kind, held_as};
pub use crate::leaves::carry_leaf;
pub use crate::pairs::onward;
pub use crate::partition::carry_part;
pub use crate::starts::arm_starts;
