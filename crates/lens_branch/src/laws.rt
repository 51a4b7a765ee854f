//! The laws of records and alternatives. Each is the contract of a function that does nothing: a caller that proves
//! something about a run calls it, or cites the lemma that it names.

ghost use Rattle.std.specs.Prelude.{◌≡◌, ℕ, List, IsTrue, Some, option_and_then};
ghost use Rattle.texts.specs.declared.side.Side.{Side};
ghost use Rattle.doc_values.specs.Types.{are_distinct};
ghost use Rattle.edit_module.specs.Words.{PrimitiveTree, WordTree};
ghost use Rattle.lens_forms.specs.Forms.{FormTree, RowTrees, form_row_list, form_rec, ArmTrees, form_alt};
ghost use Rattle.lens_forms.specs.Typing.{left_arms, right_arms};
ghost use Rattle.lens_core.specs.Complements.{CompTree, CompTrees, rec_comp, alt_comp};
ghost use Rattle.lens_core.specs.Laws.{Laws};
ghost use Rattle.lens_core.specs.Translation.{translate_one};
ghost use Rattle.lens_branch.specs.Branches.{IsLawfulRecord, AreLawfulAlternatives};
ghost use Rattle.lens_core.specs.Beginnings.{inside, carried_on};
ghost use Rattle.lens_branch.specs.RecordSteps.{begin_record, finish_record, row_lens, row_translation};
ghost use Rattle.lens_branch.specs.AlternativeSteps.{begin_alternatives, finish_alternatives, arm_lens};
ghost use Rattle.lens_branch.specs.AlternativeSteps.{arm_translation};

/// A record keeps the laws if the lenses of its paired rows do, the names of each side are distinct, and both types are
/// well formed.
#[tactic(auto, using(crate::proofs::LawsOfRecords::record_laws))]
pub fn record_laws()
    ensures { (rows : RowTrees) → IsLawfulRecord rows → Laws (form_rec rows) }
{}

/// Alternatives keep the laws if the lenses of their arms do, the tags of each side are distinct, and both types are
/// well formed.
#[tactic(auto, using(crate::proofs::LawsOfAlternatives::alternatives_laws))]
pub fn alternatives_laws()
    ensures { (arms : ArmTrees) → AreLawfulAlternatives arms → Laws (form_alt arms) }
{}

/// The translation of a record is its beginning, the translation of the lens inside, and its finish.
#[tactic(auto, using(crate::proofs::RecordRounds::record_round))]
pub fn record_goes_round()
    ensures { (rows : RowTrees) (side : Side) (cs : CompTrees) (p : PrimitiveTree)
        → translate_one (form_rec rows) side (rec_comp cs) p
        ≡ option_and_then (carried_on (row_translation rows side) (finish_record rows side cs p))
        (begin_record rows side cs p) }
{}

/// Where the beginning in a record needs a lens inside, it is the lens of the paired row of this number, which is
/// there.
#[tactic(auto, using(crate::proofs::RecordRounds::record_begins_in_row))]
pub fn record_begins_in_row()
    ensures { (rows : RowTrees) (side : Side) (cs : CompTrees) (p : PrimitiveTree) (i : ℕ) (c : CompTree) (w : WordTree)
        → begin_record rows side cs p ≡ Some (inside i c w)
        → (l : FormTree) × (row_lens (form_row_list rows) i ≡ Some l) }
{}

/// The translation of alternatives is their beginning, the translation of the lens inside, and their finish, where the
/// tags of each side are distinct.
#[tactic(auto, using(crate::proofs::AlternativeRounds::alternatives_go_round))]
pub fn alternatives_go_round()
    ensures { (arms : ArmTrees) (side : Side) → IsTrue (are_distinct (left_arms arms))
        → IsTrue (are_distinct (right_arms arms))
        → (t : List ℕ) (c : CompTree) (p : PrimitiveTree)
        → translate_one (form_alt arms) side (alt_comp t c) p
        ≡ option_and_then (carried_on (arm_translation arms side) (finish_alternatives arms side p))
        (begin_alternatives arms side t c p) }
{}

/// Where the beginning in alternatives needs a lens inside, it is the lens of the arm of this number.
#[tactic(auto, using(crate::proofs::AlternativeRounds::alternatives_begin_in_arm))]
pub fn alternatives_begin_in_arm()
    ensures { (arms : ArmTrees) (side : Side) (t : List ℕ) (d : CompTree) (p : PrimitiveTree) (i : ℕ) (c : CompTree)
        (w : WordTree)
        → begin_alternatives arms side t d p ≡ Some (inside i c w) → (l : FormTree) × (arm_lens arms i ≡ Some l) }
{}
