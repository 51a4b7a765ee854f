//! The summary of a run.

/// What the run of a generated journal came to.
#[derive(Clone, Copy, Debug, PartialEq, Eq)]
pub struct Summary {
    /// How many entries were accepted.
    pub accepted: u64,
    /// How many entries were refused.
    pub refused: u64,
    /// How many texts the right document has in the end.
    pub names: u64,
    /// How many numbers it has in the end.
    pub nums: u64,
    /// The sum of these numbers.
    pub sum: i64,
}
