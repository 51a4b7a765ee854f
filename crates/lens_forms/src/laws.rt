//! The laws of typing. Each is the contract of a function that does nothing: a caller that proves something about forms
//! calls it, or cites the lemma that it names.

ghost use Rattle.std.specs.Prelude.{◌≡◌, IsTrue};
ghost use Rattle.doc_values.specs.Types.{TyTree, is_well_formed};
ghost use Rattle.lens_forms.specs.Forms.{FormTree, left_type, right_type};
ghost use Rattle.lens_forms.specs.Typing.{IsTyped, is_typed};

/// A form is typed from its left type to its right type and in no other way: so the two types follow from the form.
#[tactic(auto, using(crate::proofs::TypingLaws::typed_types))]
pub fn typing_is_functional()
    ensures { (form : FormTree) (left : TyTree) (right : TyTree) → IsTyped form left right
        → (left ≡ left_type form) × (right ≡ right_type form) }
{}

/// A form is typed if and only if it passes the test.
#[tactic(auto, using(crate::proofs::TypingLaws::test_laws))]
pub fn test_is_typing()
    ensures passes { (form : FormTree) (left : TyTree) (right : TyTree) → IsTyped form left right
        → IsTrue (is_typed form) }
    ensures is { (form : FormTree) → IsTrue (is_typed form) → IsTyped form (left_type form) (right_type form) }
{}

/// Both types of a form that is typed keep the condition on types.
#[tactic(auto, using(crate::proofs::TypingLaws::formed_laws))]
pub fn typed_is_well_formed()
    ensures left { (form : FormTree) → IsTrue (is_typed form) → IsTrue (is_well_formed (left_type form)) }
    ensures right { (form : FormTree) → IsTrue (is_typed form) → IsTrue (is_well_formed (right_type form)) }
{}
