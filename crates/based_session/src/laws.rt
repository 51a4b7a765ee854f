//! The laws of sessions with bases, as the contracts of functions that do nothing.

ghost use Rattle.based_session.specs.Laws.{NewestIsStep, BasesLeadOn, BasesLeadHere, OnlyGoneIsRefusedAt};
ghost use Rattle.based_session.specs.Laws.{CarriedWordsAct};

use bridge_core::a_bridge_spans;
use law_rebase::{chains_act, chains_refuse_only_gone};

/// A word whose base is the number of changes is not carried: it steps as any word of its side.
pub fn a_current_word_steps()
    ensures { NewestIsStep }
{}

/// After a step, what is kept leads on both sides from a document to the new one.
pub fn bases_lead_on()
    ensures { BasesLeadOn }
{
    a_bridge_spans();
}

/// For each base that is kept there is a document from which the bridges of the changes behind it lead to the present
/// one.
pub fn bases_lead_here()
    ensures { BasesLeadHere }
{}

/// A word that acts on the document of its base is refused only because what it changes is gone, as long as sums fit on
/// the way.
pub fn only_what_is_gone_is_refused_at()
    ensures { OnlyGoneIsRefusedAt }
{
    chains_refuse_only_gone();
}

/// A word that acts on the document of its base, and is carried to the present, acts on the present document, as long
/// as sums fit on the way.
pub fn carried_words_act()
    ensures { CarriedWordsAct }
{
    chains_act();
}
