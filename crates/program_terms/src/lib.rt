//! The terms of lens programs: types, lenses, definitions and whole programs, as they are written.
//!
//! A [`TyExpr`] is a type and a [`Lens`] a lens, in which names may refer to what a program defines; a [`Program`]
//! is a list of definitions by name, in written order, and a main lens. Types and lenses hold themselves, so
//! contracts see them as plain trees: `TypeTree` through `type_tree`, `LensTree` through `lens_tree`, and
//! `ProgramTree` through `program_tree`.
//!
//! Nothing here says whether a term is well typed, nor whether its names are defined: any term may be built.
//! docs/LANGUAGE.md has the grammar and the meaning of each term.
#![tactic(auto)]

pub mod definitions;
pub mod lens;
pub mod pairs;
pub mod program;
pub mod types;

pub use crate::definitions::{AddFault, Def, Definitions};
pub use crate::lens::{Arms, Lens, Row, Rows};
pub use crate::pairs::Pairs;
pub use crate::program::Program;
pub use crate::types::{TyExpr, TyFields};
