//! Records and alternatives: their laws, and translating through them round the translation of a lens inside.
//!
//! [`rec_begin`] and [`alt_begin`] say which lens inside is needed, with its complement and the word to translate.
//! [`row_form`] and [`arm_form`] give that lens. [`rec_finish`] and [`alt_finish`] put its result in place. [`laws`]
//! says that this is the translation of lens_core, and that records and alternatives keep the laws of lenses where
//! their lenses do.
#![tactic(auto)]

pub mod alternatives;
pub mod laws;
pub mod record;

pub use crate::alternatives::{alt_begin, alt_finish, arm_form};
pub use crate::record::{rec_begin, rec_finish, row_form};
