//! Tests of patches of files: documents with patches, and what these make of them.
#![tactic(auto)]

#[cfg(test)]
mod rows;
#[cfg(test)]
mod tests;
