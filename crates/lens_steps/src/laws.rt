//! The law of all forms. It is the contract of a function that does nothing: a caller that proves something about a run
//! calls it, or cites the lemma that it names.

ghost use Rattle.std.specs.Prelude.{IsTrue};
ghost use Rattle.lens_forms.specs.Forms.{FormTree};
ghost use Rattle.lens_forms.specs.Typing.{is_typed};
ghost use Rattle.lens_core.specs.Laws.{Laws};

/// Every form that is typed keeps the laws of lenses.
pub fn typed_forms_are_lawful()
    ensures { (form : FormTree) → IsTrue (is_typed form) → Laws form }
{}
