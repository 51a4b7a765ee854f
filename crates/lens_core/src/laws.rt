//! The laws of lenses. Each is the contract of a function that does nothing: a caller that proves something about a run
//! calls it, or cites the lemma that it names.

ghost use Rattle.std.specs.Prelude.{◌≡◌, IsTrue, List, ℕ};
ghost use Rattle.texts.specs.declared.side.Side.{Side};
ghost use Rattle.doc_values.specs.Types.{TyTree, is_well_formed};
ghost use Rattle.lens_forms.specs.Forms.{FormTree, form_id, form_bij, form_disc, form_then, form_inv, left_type};
ghost use Rattle.lens_forms.specs.Forms.{right_type};
ghost use Rattle.lens_forms.specs.Typing.{is_typed};
ghost use Rattle.lens_core.specs.Laws.{Laws, StartsConsistent, ConsistentIsTyped, EditsCarry, EmptyStays, WordsCompose};

/// The identity of a well-formed type keeps the laws.
pub fn identity_laws()
    ensures { (t : TyTree) → IsTrue (is_well_formed t) → Laws (form_id t) }
{}

/// A bijection that is typed keeps the laws.
#[tactic(auto, using(crate::proofs::LawsOfLeaves::typed_bij_laws))]
pub fn bijection_laws()
    ensures { (pairs : List (List ℕ × List ℕ)) (value : List ℕ) → IsTrue (is_typed (form_bij pairs value))
        → Laws (form_bij pairs value) }
{}

/// The disconnection of two well-formed types keeps the laws.
#[tactic(auto, using(crate::proofs::LawsOfLeaves::disc_laws))]
pub fn disconnection_laws()
    ensures { (t u : TyTree) → IsTrue (is_well_formed t) → IsTrue (is_well_formed u) → Laws (form_disc t u) }
{}

/// A composition keeps the laws if its lenses do and their middle types are the same.
pub fn composition_laws()
    ensures { (l k : FormTree) → Laws l → Laws k → right_type l ≡ left_type k → Laws (form_then l k) }
{}

/// An inverse keeps the laws if its lens does.
#[tactic(auto, using(crate::proofs::LawsOfCompositions::inv_laws))]
pub fn inverse_laws()
    ensures { (l : FormTree) → Laws l → Laws (form_inv l) }
{}

/// A lens that keeps the laws starts consistent: the initial documents of the two types are consistent with the missing
/// complement.
#[tactic(auto, using(crate::proofs::LawsOfWords::starts_consistent))]
pub fn starts_consistent()
    ensures { (l : FormTree) → Laws l → StartsConsistent l }
{}

/// Consistent documents have their types, and the complement between them fits.
#[tactic(auto, using(crate::proofs::LawsOfWords::consistent_is_typed))]
pub fn consistent_is_typed()
    ensures { (l : FormTree) → ConsistentIsTyped l }
{}

/// A lens that keeps the laws translates each word that acts on the document of a side in a consistent triple. The
/// translated word acts on the other document, and the new triple is consistent.
#[tactic(auto, using(crate::proofs::LawsOfWords::edits_carry))]
pub fn edits_carry()
    ensures { (l : FormTree) → Laws l → (side : Side) → EditsCarry l side }
{}

/// The empty word is translated to the empty word, with the same complement. A joined word is translated by translating
/// its parts one after the other.
#[tactic(auto, using(crate::proofs::LawsOfWords::compose_laws))]
pub fn words_compose()
    ensures empty { (l : FormTree) → EmptyStays l }
    ensures joined { (l : FormTree) → WordsCompose l }
{}
