//! Which lenses keep the equations. Each law is the contract of a function that does nothing: a caller that proves
//! something about two runs calls it, or cites the lemma that it names.

ghost use Rattle.std.specs.Prelude.{IsTrue, List, ℕ};
ghost use Rattle.doc_values.specs.Types.{TyTree, FieldTrees, are_distinct};
ghost use Rattle.lens_forms.specs.Forms.{FormTree, form_id, form_bij, form_disc, form_then, form_rec, form_alt};
ghost use Rattle.lens_forms.specs.Forms.{form_each, form_keyed, form_ordered, form_part, form_inv, RowTrees, ArmTrees};
ghost use Rattle.lens_forms.specs.Typing.{is_typed, left_arms};
ghost use Rattle.law_equations.specs.Alike.{KeepsEquations, RowsKeepEquations, ArmsKeepEquations};

/// The identity keeps the equations.
#[tactic(auto, using(crate::proofs::KeptByLeaves::identity_keeps))]
pub fn identity_keeps_equations()
    ensures { (t : TyTree) → KeepsEquations (form_id t) }
{}

/// A bijection keeps the equations.
#[tactic(auto, using(crate::proofs::KeptByLeaves::bijection_keeps))]
pub fn bijection_keeps_equations()
    ensures { (pairs : List (List ℕ × List ℕ)) (value : List ℕ) → KeepsEquations (form_bij pairs value) }
{}

/// A disconnection keeps the equations.
#[tactic(auto, using(crate::proofs::KeptByLeaves::disconnection_keeps))]
pub fn disconnection_keeps_equations()
    ensures { (t u : TyTree) → KeepsEquations (form_disc t u) }
{}

/// An inverse keeps the equations if its lens does.
#[tactic(auto, using(crate::proofs::KeptByCompositions::inverse_keeps))]
pub fn inverse_keeps_equations()
    ensures { (l : FormTree) → KeepsEquations l → KeepsEquations (form_inv l) }
{}

/// A composition keeps the equations if its two lenses do.
#[tactic(auto, using(crate::proofs::KeptByCompositions::composition_keeps))]
pub fn composition_keeps_equations()
    ensures { (l k : FormTree) → KeepsEquations l → KeepsEquations k → KeepsEquations (form_then l k) }
{}

/// A record keeps the equations if the lenses of all its paired rows do.
#[tactic(auto, using(crate::proofs::KeptByRecords::record_keeps))]
pub fn record_keeps_equations()
    ensures { (rows : RowTrees) → RowsKeepEquations rows → KeepsEquations (form_rec rows) }
{}

/// Alternatives with distinct left tags keep the equations if the lenses of all their arms do.
#[tactic(auto, using(crate::proofs::KeptByAlternatives::alternatives_keep))]
pub fn alternatives_keep_equations()
    ensures { (arms : ArmTrees) → ArmsKeepEquations arms → IsTrue (are_distinct (left_arms arms))
        → KeepsEquations (form_alt arms) }
{}

/// The map of a lens over a list, a keyed map or an ordered tree keeps the equations if the lens does.
#[tactic(auto, using(crate::proofs::KeptByContainers::container_keep))]
pub fn containers_keep_equations()
    ensures list { (l : FormTree) → KeepsEquations l → KeepsEquations (form_each l) }
    ensures keyed { (l : FormTree) → KeepsEquations l → KeepsEquations (form_keyed l) }
    ensures ordered { (l : FormTree) → KeepsEquations l → KeepsEquations (form_ordered l) }
{}

/// A partition keeps the equations.
#[tactic(auto, using(crate::proofs::KeptByPartitions::partition_keeps))]
pub fn partition_keeps_equations()
    ensures { (fields : FieldTrees) → KeepsEquations (form_part fields) }
{}

/// Every typed form keeps the equations: from each side and at each complement, two words with the same normal form are
/// both translated, to words with the same normal form and with the same next complement, or neither is translated.
#[tactic(auto, using(crate::proofs::EveryForm::typed_keeps))]
pub fn equal_words_translate_alike()
    ensures { (form : FormTree) → IsTrue (is_typed form) → KeepsEquations form }
{}
