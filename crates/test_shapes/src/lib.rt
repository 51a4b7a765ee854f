//! Tests of `texts`, `bridge_texts`, `bridge_links`, `hold_shapes`, `law_shapes` and `bridge_lists`: each call that
//! allocates, once over ample memory with what it returned compared, and each generic call once at a concrete type.
//! What an edit of a list is for a list that was edited meanwhile is told by rows.
//!
//! They are in a crate of their own, since a crate with tests is proved twice.
#![tactic(auto)]

#[cfg(test)]
mod list_rows;
#[cfg(test)]
mod lists;
#[cfg(test)]
mod tests;
