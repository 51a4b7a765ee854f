//! What bridges between texts keep, as laws. Each function does nothing: its clauses are the laws.
ghost use Rattle.std.specs.Prelude.{◌≡◌, ℕ, List, [], Some};
ghost use Rattle.std.specs.Str.{IsUtf8};
ghost use Rattle.texts.specs.Characters.{character_count, splice};
ghost use Rattle.bridge_texts.specs.declared.run.Run.{Run};
ghost use Rattle.bridge_texts.specs.Runs.{far_spliced, near_spliced, carried, all_spliced, shortest};
ghost use Rattle.bridge_texts.specs.Laws.{SpansTexts, IsCarriedTo};

/// The bridge of no runs leads from a text to itself.
#[tactic(auto, using(crate::proofs::Bridges::bridge_rules))]
pub fn a_text_is_spanned()
    ensures { (t : List ℕ) → IsUtf8 t → SpansTexts [] t t }
{}

/// After a splice of the far text, the bridge leads from the near text to the new far one.
#[tactic(auto, using(crate::proofs::Bridges::bridge_rules))]
pub fn a_splice_of_the_far_text_is_spanned()
    ensures { (rs : List Run) (i k : ℕ) (x s t u : List ℕ) → IsUtf8 x → SpansTexts rs s t → splice t i k x ≡ Some u
        → SpansTexts (shortest (far_spliced rs i k (character_count x))) s u }
{}

/// A splice that the near text takes is carried to splices that the far text takes, one after another, and afterwards
/// the bridge leads from the new near text to the new far one.
///
/// So both ways to go lead to one text: what was made of the far text is still made of it, with the splice in it at the
/// place that it was made for.
#[tactic(auto, using(crate::proofs::Bridges::bridge_rules))]
pub fn a_splice_of_the_near_text_is_carried()
    ensures { (rs : List Run) (i k : ℕ) (x s t u : List ℕ) → IsUtf8 x → SpansTexts rs s t → splice s i k x ≡ Some u
        → IsCarriedTo (shortest (near_spliced rs i k (character_count x))) (all_spliced (carried rs i k x) t) u }
{}
