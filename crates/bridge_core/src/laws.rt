//! What bridges between documents keep, as laws. Each function does nothing: its clauses are the laws.
ghost use Rattle.std.specs.Prelude.{◌≡◌, true};
ghost use Rattle.std.specs.Str.{is_utf8};
ghost use Rattle.bridge_core.specs.Laws.{BridgeSpans, CarriedActs, OnlyGoneIsRefused};

use bridge_texts::{
    a_splice_of_the_far_text_is_spanned, a_splice_of_the_near_text_is_carried, a_text_is_spanned,
};

/// After a word has acted on the far document, the bridge leads from the near document to the value of the word.
pub fn a_bridge_spans()
    ensures { BridgeSpans }
{
    a_text_is_spanned();
    a_splice_of_the_far_text_is_spanned();
}

/// A word that acts on the near document is carried to a word that acts on the far one, unless a sum does not fit
/// there. The bridge behind it leads from the value of the one to the value of the other.
pub fn a_carried_word_acts()
    ensures { CarriedActs }
{
    a_splice_of_the_near_text_is_carried();
}

/// A word that acts on the near document is refused only because what it changes is gone in the far one.
pub fn only_what_is_gone_is_refused()
    ensures { OnlyGoneIsRefused }
{
    a_splice_of_the_near_text_is_carried();
}

// Each text is UTF-8.
#[tactic(auto, using(crate::proofs::Walks::text_rules))]
pub(crate) fn a_text_is_utf8(text: &str)
    ensures { is_utf8 text.now ≡ true }
{}
