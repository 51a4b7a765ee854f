//! Laws of edits that are carried from an older state to a newer one, through one bridge after another.
//!
//! A function here does nothing when it runs; its clauses are the laws. `carried_through` in specs/Through is a word
//! behind several bridges, and `Leads` in specs/Chains says what bridges in a row say of documents.
#![tactic(auto)]

ghost use Rattle.law_rebase.specs.Laws.{RebasedMeets, JoinedWordsAreCarried, BridgesAreGoneThrough};
ghost use Rattle.law_rebase.specs.Chains.{ChainsRefuseOnlyGone, ChainsAct};

use bridge_core::{a_carried_word_acts, only_what_is_gone_is_refused};
use edit_inverse::inverse_takes_back;
use edit_module::laws::joined_acts_in_turn;

/// Two words were made for one document, and one of them has acted. The other one's author goes back by the inverse of
/// the own word, then takes the first word and then the own one as it was carried: this leads to what the carried word
/// makes of the newer document, or fails with its cause.
pub fn a_rebased_word_meets()
    ensures { RebasedMeets }
{
    joined_acts_in_turn();
    inverse_takes_back();
}

/// A joined word is carried by carrying its parts, the second one over the bridge that the first one has left.
pub fn joined_words_are_carried()
    ensures { JoinedWordsAreCarried }
{}

/// A word goes through bridges in a row by going through the first of them, and what it is then through the others.
pub fn bridges_are_gone_through()
    ensures { BridgesAreGoneThrough }
{}

/// A word that acts on the document where bridges begin is refused only because what it changes is gone, as long as
/// sums fit on the way.
pub fn chains_refuse_only_gone()
    ensures { ChainsRefuseOnlyGone }
{
    a_carried_word_acts();
    only_what_is_gone_is_refused();
}

/// A word that acts on the document where bridges begin, and goes through them, acts on the document to which they
/// lead, as long as sums fit on the way.
pub fn chains_act()
    ensures { ChainsAct }
{
    a_carried_word_acts();
}
