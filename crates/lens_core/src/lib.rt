//! Lenses: complements, the consistency relation and translation.
//!
//! A `Form` of lens_forms says which documents belong together. A [`Comp`], the complement, is what is remembered
//! beside them. The relation between left document, complement and right document is `IsConsistent` of specs/. A word
//! of one side is translated to a word of the other by `translate`. [`laws`] has what every triple of a lens keeps.
//! [`EditLens`] is what a lens is to its callers, whatever it is made of.
#![tactic(auto)]

pub mod carry;
pub mod comp;
pub mod laws;
mod leaf;
mod lens;
mod missing_comp;

pub use crate::carry::{Begun, Carried, CarryFault};
pub use crate::comp::{Comp, Comps, then_join};
pub use crate::leaf::leaf_step;
pub use crate::lens::EditLens;
pub use crate::missing_comp::missing;
