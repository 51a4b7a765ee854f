//! Tests of `record_sums`, against sums that are known from elsewhere.
//!
//! They are in a crate of their own, since a crate with tests is proved twice.
#![tactic(auto)]

#[cfg(test)]
mod tests;
