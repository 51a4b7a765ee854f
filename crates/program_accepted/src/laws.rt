//! Laws of accepted programs. Each function here does nothing: its clause is the law.
ghost use Rattle.std.specs.Prelude.{◌≡◌, ℕ, List, Ok};
ghost use Rattle.lens_forms.specs.Forms.{FormTree, left_type, right_type};
ghost use Rattle.lens_forms.specs.Typing.{IsTyped};
ghost use Rattle.program_accepted.specs.Program.{lens_of};

/// The form of an accepted program is typed: it is a lens from its left type to its right type.
#[tactic(auto, using(crate::proofs::AcceptedForms::accepted_lens))]
pub fn accepted_is_typed()
    ensures { (text : List ℕ) (form : FormTree) → lens_of text ≡ Ok form
        → IsTyped form (left_type form) (right_type form) }
{}
