//! Documents and their types.
//!
//! A [`Ty`] says which documents it has, a [`Doc`] is one document. Both hold themselves, so contracts see them
//! as plain trees: `TyTree` through `ty_tree`, and `DocTree` through `doc_tree`.
#![tactic(auto)]

mod condition;
pub mod doc;
pub mod initial;
pub mod iter;
mod layout;
mod levels;
mod light;
pub mod names;
mod same;
pub mod ty;
mod typing;

pub use crate::doc::{Doc, Docs};
pub use crate::initial::init;
pub use crate::iter::Iter;
pub use crate::names::has_text;
pub use crate::ty::{Fields, Ty};
pub use crate::typing::{is_keyed_of, is_list_of, is_tree_of};
