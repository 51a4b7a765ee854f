//! Deciding consistency.
//!
//! [`consistent`] says whether two documents and a complement are consistent. It goes by images: the image of a pattern
//! through a lens is the pattern of all documents of the other side that are consistent with some document in the given
//! one, and [`image`] makes it. [`conforms`] says whether a complement fits a form, [`matches`] whether a document is
//! in a pattern, and [`pattern_of`] makes the pattern of a document. Patterns are those of `law_images`.
#![tactic(auto)]

mod decision;
mod fit;
mod image_arm;
mod image_held;
mod image_leaf;
mod image_part;
mod image_part_left;
mod image_part_lists;
mod image_part_right;
mod image_part_tags;
mod image_record;
mod images;
mod membership;
mod owned;
mod whole;

pub use crate::decision::{consistent, image};
pub use crate::fit::conforms;
pub use crate::membership::matches;
pub use crate::whole::pattern_of;
pub use law_images::{Pattern, Patterns};
