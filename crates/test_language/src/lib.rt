//! Tests of the program language, in a crate of their own so that its crates are proved once.
//!
//! Each call that allocates is made once, and what it returns is compared. The tables of texts with their results are
//! rows of data, which a program crate reads.
#![tactic(auto)]

#[cfg(test)]
mod tests;
