//! Lets everything that can fail in the commands of a store do so once, and compares what stands afterwards with what
//! docs/FORMATS.md says.
//!
//! The files have the form of reference/CASES.md. Each step is run as it is, and then once for each call of each
//! device, in which this call fails, or gives or takes less. After each the images that a crash may leave are opened.
//! For each step of `verify`, every byte of its store is changed, and its store is cut at every length.
#![tactic(auto)]

mod devices;
mod forge;
mod lines;
mod program;
mod stops;
mod stores;
mod tally;

pub use crate::lines::begins_with;
pub use crate::program::{StorePrograms, run_files};
