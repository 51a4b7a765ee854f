//! Shapes of containers, edits of shapes, and plans: the new shape, and for each of its places the
//! old place that it comes from.
//!
//! A container is a list, a keyed map or an ordered tree. What it holds is in a shared list, one item for
//! each place. A plan says where each item of the new container comes from, so that [`gather`] moves
//! documents and complements alike. docs/EDITS.md has the edits with their causes.
//!
//! Copies of shapes share their names and depths. Origins are kept as runs, so that what a plan of most
//! edits costs does not grow with the shape.
#![tactic(auto)]

mod depth_parts;
mod edit;
mod gathering;
mod held;
mod keyed;
mod keys;
mod lists;
mod origin_iter;
mod origins;
mod parts;
mod path;
mod places;
mod plan;
mod plan_origins;
mod run;
mod shape;
mod tree_plans;
pub mod trees;

pub use crate::edit::{Place, ShapeEdit};
pub use crate::gathering::gather;
pub use crate::held::Held;
pub use crate::lists::MOST_ITEMS;
pub use crate::origin_iter::OriginIter;
pub use crate::origins::{Origin, Origins};
pub use crate::path::Path;
pub use crate::places::Places;
pub use crate::plan::{Plan, PlanFault};
pub use crate::shape::{KeyedShape, ListShape, Shape, TreeShape};
pub use depth_seq::DepthSeq;
pub use shared_lists::{Hint, SharedList};
pub use texts::{Name, Names, Str, Twin, twin_all};
