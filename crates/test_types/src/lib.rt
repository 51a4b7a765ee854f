//! Tests of `lens_forms` and `lens_types`: each call that allocates, once over ample memory with what it returned
//! compared.
//!
//! They are in a crate of their own, since a crate with tests is proved twice.
#![tactic(auto)]

#[cfg(test)]
mod tests;
