//! The laws of a partition, as the contract of a function that does nothing. A caller that proves something about a run
//! calls it, or cites the lemma that it names.

ghost use Rattle.std.specs.Prelude.{IsTrue};
ghost use Rattle.doc_values.specs.Types.{FieldTrees};
ghost use Rattle.lens_forms.specs.Forms.{form_part};
ghost use Rattle.lens_forms.specs.Typing.{is_typed};
ghost use Rattle.lens_core.specs.Laws.{Laws};

/// A partition that is typed keeps the laws.
pub fn partition_laws()
    ensures { (fields : FieldTrees) → IsTrue (is_typed (form_part fields)) → Laws (form_part fields) }
{}
