//! Tests of commands over devices that do not fail, and of refusals that no command shows, in a crate of their own so
//! that each of the crates below is proved once.
#![tactic(auto)]

#[cfg(test)]
mod refusals;
#[cfg(test)]
mod tests;
