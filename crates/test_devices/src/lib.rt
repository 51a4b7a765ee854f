//! Tests of the devices of lens_io, in a crate of their own so that lens_io is proved once.
#![tactic(auto)]

#[cfg(test)]
mod tests;
