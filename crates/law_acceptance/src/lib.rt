//! Acceptance is typing, both ways.
//!
//! The checker stops at the first failure, in a fixed order. [`acceptance_is_typing`] says which texts it accepts, and
//! speaks of no failure and no order. The definition is `IsAcceptedAs` in specs/Acceptable.antt; docs/LANGUAGE.md has
//! the rules in words. Each function here does nothing: its clauses are the law.
#![tactic(auto)]

ghost use Rattle.std.specs.Prelude.{◌≡◌, ℕ, List, Ok, Err, None};
ghost use Rattle.program_terms.specs.Terms.{ProgramTree};
ghost use Rattle.lens_forms.specs.Forms.{FormTree};
ghost use Rattle.lens_types.specs.Checking.{first_failure};
ghost use Rattle.program_accepted.specs.Program.{Refusal, lens_of};
ghost use Rattle.law_acceptance.specs.Acceptable.{IsAcceptable, IsAcceptedAs};

/// A program has no failure if and only if each of its definitions, used or not, and its main lens are within the
/// limits and typed.
///
/// This is so of every program, also of one that no text has.
pub fn no_failure_is_typing()
    ensures only_acceptable { (program : ProgramTree) → first_failure program ≡ None → IsAcceptable program }
    ensures all_acceptable { (program : ProgramTree) → IsAcceptable program → first_failure program ≡ None }
{}

/// A text is accepted if and only if it is a program that keeps the limits and is typed, definition by definition.
///
/// It has at most 65,536 bytes, the grammar has it as a program, and its names have no fault. Each definition in it,
/// used or not, and its main lens are within the limits and typed. Its form is that of the main lens, all names
/// expanded.
///
/// - `only_typed`: a text that is accepted is so.
/// - `all_typed`: a text that is so is accepted, with this form.
/// - `refused`: a text that is refused is not so, with any form.
pub fn acceptance_is_typing()
    ensures only_typed { (text : List ℕ) (form : FormTree) → lens_of text ≡ Ok form → IsAcceptedAs text form }
    ensures all_typed { (text : List ℕ) (form : FormTree) → IsAcceptedAs text form → lens_of text ≡ Ok form }
    ensures refused { (text : List ℕ) (refusal : Refusal) → lens_of text ≡ Err refusal
        → (form : FormTree) → IsAcceptedAs text form → ⊥ }
{}
