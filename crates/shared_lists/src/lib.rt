//! Lists whose copies share their items.
//!
//! A [`SharedList`] is a balanced tree of chunks. A copy of a list counts one more owner of the tree, and
//! an edit makes new nodes on the path to the edited place alone, so its cost grows with the logarithm
//! of the list's length.
#![tactic(auto)]

mod balance;
mod edge;
mod hint;
pub mod iter;
pub mod list;
mod root;
mod splices;
mod tree;

pub use crate::edge::Test;
pub use crate::hint::Hint;
pub use crate::iter::Iter;
pub use crate::list::SharedList;
