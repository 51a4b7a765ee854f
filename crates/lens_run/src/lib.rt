//! Every form of a lens, run: one translation for all forms, by one recursion over the form.
//!
//! A [`Checked`] is a form that passed the check of lens_types. It is an `EditLens`: its relation is `IsConsistent` of
//! lens_core, and its translation is `translate`.
#![tactic(auto)]

mod checked;
mod run;

pub use crate::checked::Checked;
