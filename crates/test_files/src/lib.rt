//! Tests of `file_trees`, `file_forms` and `file_values`, with files and forms as rows.
#![tactic(auto)]

#[cfg(test)]
mod tests;
#[cfg(test)]
mod values;
