//! Journals: their lines, and the changes that lines are.
//!
//! `Line` is a line of a journal, whose bytes may be any, and `Lines` cuts a text that comes in
//! pieces into its lines (specs/Pieces.antt). `read_entry` returns the change that a line is, an
//! entry or a group of entries, or says why it is not one, and `is_blank` tests for the lines that
//! are passed over. `put_change` and `put_entry` write the tokens of their trees, and `append_change`
//! the text; none of them makes the tree. The trees are defined in specs/EntryJson.antt, lines in
//! specs/Lines.antt, and reading inverts writing (`laws`). The page docs/FORMATS.md has the forms with
//! examples.
#![tactic(auto)]

pub mod fault;
pub mod laws;
pub mod line;
pub mod lines;
pub mod read;
pub mod write;

pub use crate::fault::EntryFault;
pub use crate::line::{Line, MOST_LINE_BYTES, is_blank};
pub use crate::lines::Lines;
pub use crate::read::{group_items, read_change_tree, read_edit, read_entry, read_tree};
pub use crate::write::{append_change, put_carried, put_change, put_entry, side_text};
