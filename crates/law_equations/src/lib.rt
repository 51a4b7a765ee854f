//! Words that differ only by where their primitives are joined are translated alike.
//!
//! Two words are equal by the equations if they have the same normal form, `normal` of edit_module. A lens keeps the
//! equations if it translates equal words alike, from each side and at each complement: to equal words that leave the
//! same complement, or both to none. [`laws`] has that each constructor of lenses does so if the lenses inside it do.
#![tactic(auto)]

pub mod laws;
