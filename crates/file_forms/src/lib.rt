//! How a user's file has the documents of a type.
#![tactic(auto)]

mod fit;
mod form;
pub mod laws;
mod literal;
mod misfit;
mod sign;
mod sort;
mod words;

pub use crate::form::FileForm;
pub use crate::literal::Literal;
pub use crate::misfit::{FormFault, FormMisfit, FormStep};
pub use crate::sort::Sort;
