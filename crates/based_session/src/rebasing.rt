//! A word that goes through the bridges of the changes behind its base.

ghost use Rattle.std.specs.Prelude.{◌≡◌, Ok, length, min, drop, map, MatchResult};
ghost use Rattle.doc_values.specs.Types.{ty_tree};
ghost use Rattle.edit_module.specs.Views.{word_tree};
ghost use Rattle.law_rebase.specs.Through.{carried_through};
ghost use Rattle.based_session.specs.Bases.{bridges_on, over_changes, since};
ghost use Rattle.based_session.specs.KeptViews.{kept_tree, kept_trees};
ghost use Rattle.based_session.specs.Views.{IsNotThrough, IsRefused};

use crate::fault::BaseFault;
use crate::kept::{Kept, Window};
use bridge_core::{CarryFault, carry};
use doc_values::Ty;
use edit_module::Word;
use std::alloc::Global;
use texts::{Side, Twin};

/// The words of a change.
#[derive(Drop)]
pub struct Rebased {
    /// The word that was offered, as it was carried to the present document of its side.
    pub own: Word,
    /// The word of the other side.
    pub other: Word,
}

// What a word of a side, made for a base, is for the present document.
pub(crate) fn for_present(
    alloc: Global,
    ty: &Ty,
    window: &Window,
    base: u64,
    side: Side,
    word: &Word,
) -> Result<Word, BaseFault>
    requires filled { length window.now.kept.items ≡ min window.now.number window.now.width }
    ensures { MatchResult result
        (λ q. over_changes (ty_tree ty.now) side (word_tree word.now)
        (since base window.now.number window.now.width (kept_trees window.now)) ≡ Ok (word_tree q))
        (IsRefused (over_changes (ty_tree ty.now) side (word_tree word.now)
        (since base window.now.number window.now.width (kept_trees window.now)))) }
{
    let from = match window.since(base) {
        Some(from) => from,
        None => return Err(BaseFault::Base),
    };
    match through(alloc, ty, window.kept.as_slice(), from, side, word) {
        Ok(word) => Ok(word),
        Err(CarryFault::Gone) => Err(BaseFault::Gone),
        Err(CarryFault::NoApply(cause)) => Err(BaseFault::Unfit(cause)),
        Err(CarryFault::NoMemory) => Err(BaseFault::NoMemory),
    }
}

// What a word of a side is behind the bridges of the changes from a place on.
fn through(
    alloc: Global,
    ty: &Ty,
    kept: &[Kept],
    from: usize,
    side: Side,
    word: &Word,
) -> Result<Word, CarryFault>
    ensures { MatchResult result
        (λ q. carried_through (ty_tree ty.now) (bridges_on side (drop from (map kept_tree kept.now)))
        (word_tree word.now) ≡ Ok (word_tree q))
        (IsNotThrough (carried_through (ty_tree ty.now) (bridges_on side (drop from (map kept_tree kept.now)))
        (word_tree word.now))) }
{
    let mut current = word.twin(alloc)?;
    for i in from..kept.len() {
        match carry(alloc, ty, kept[i].on(side), &current) {
            Ok(next) => current = next.word,
            Err(fault) => return Err(fault),
        }
    }
    Ok(current)
}
