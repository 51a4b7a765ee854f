//! The change that a session accepted last.
ghost use Rattle.std.specs.Prelude.{◌≡◌, true};
ghost use Rattle.edit_journal.specs.EntryJson.{change_counts_fit};
ghost use Rattle.edit_module.specs.Views.{change_tree};

use crate::shared::SharedLens;
use edit_module::Change;
use edit_session::Session;

/// A change that was accepted, and a session at the documents and the complement from before it.
#[derive(Drop)]
pub struct Accepted {
    pub change: Change,
    pub before: Session<SharedLens>,
    ghost counts_fit: { change_counts_fit (change_tree change) ≡ true },
}
