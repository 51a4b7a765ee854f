//! Tests of documents and edits and their JSON: each call that allocates, once, with its answer compared. What a word
//! that was made for an older document becomes is told by rows.
#![tactic(auto)]

#[cfg(test)]
mod bridged;
#[cfg(test)]
mod bridged_rows;
#[cfg(test)]
mod tests;
