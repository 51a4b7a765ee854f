//! A lens that was compiled.

ghost use Rattle.std.specs.Prelude.{◌≡◌, IfOk, Some, MatchResult};
ghost use Rattle.edit_module.specs.Normal.{normal};
ghost use Rattle.edit_module.specs.Views.{word_tree};
ghost use Rattle.edit_module.specs.Words.{WordTree};
ghost use Rattle.lens_forms.specs.Forms.{form_tree};
ghost use Rattle.lens_core.specs.Complements.{comp_tree};
ghost use Rattle.lens_core.specs.Translation.{translate, carried_tree, IsCarryFault};
ghost use Rattle.law_equations.specs.Alike.{AreAlike};
ghost use Rattle.lens_steps.specs.Ready.{IsReady};

use crate::compile::compile_form;
use crate::node::{Entry, missing_at};
use crate::walk::carry_word;
use doc_values::Ty;
use edit_module::Word;
use lens_core::{Carried, CarryFault, Comp, EditLens};
use lens_types::Typed;
use std::alloc::{AllocError, Global};
use std::marker::Model;
use texts::{Side, Twin};

/// A form that is typed, with what a run asks of it.
#[derive(Drop)]
pub struct ReadyForm {
    typed: Typed,
    ghost ready: { IsReady (form_tree typed) },
}

/// A lens as a table of nodes. Contracts see it as its form.
///
/// Its types are those of the form, its relation is `IsConsistent` of lens_core, and its translation is `translate`.
#[derive(Drop)]
pub struct Flat {
    whole: ReadyForm,
    table: Vec<Entry>,
    root: usize,
}

impl Model for Flat {
    ghost use Rattle.lens_forms.specs.Forms.{form_tree};
    ghost use Rattle.lens_flat.specs.contracts.flat.ReadyForm as ready_form;
    ghost use Rattle.lens_flat.specs.declared.flat.ReadyForm.{ReadyForm};

    ghost Value = { ReadyForm };

    ghost coded = { ready_form.the_row.coded };

    ghost use Rattle.lens_flat.specs.Tables.{IsCompiled};

    ghost view = { λ f. f.whole };

    ghost invariant = { λ f. IsCompiled f.table.items f.root (form_tree f.whole.typed) };
}

impl Flat {
    /// The lens of a form that is typed, as a table of nodes. The form is copied.
    ///
    /// It takes time in proportion to the form and to its height. Fails only if memory runs out.
    pub fn compile(alloc: Global, typed: &Typed) -> Result<Flat, AllocError>
        ensures { IfOk result (λ f. form_tree f.typed ≡ form_tree typed.now) }
    {
        let typed = typed.twin(alloc)?;
        let mut table = Vec::new(alloc);
        let root = compile_form(alloc, &mut table, typed.form())?;
        Ok(Flat {
            whole: ReadyForm { typed },
            table,
            root,
        })
    }

    /// The form with its two types.
    pub fn typed(&self) -> &Typed
        ensures { result.now ≡ self.now.typed }
    {
        &self.whole.typed
    }
}

impl EditLens for Flat {
    ghost use Rattle.texts.specs.declared.side.Side.TheVariants.{Left, Right};
    ghost use Rattle.lens_forms.specs.Forms.{form_tree, left_type, right_type};
    ghost use Rattle.lens_core.specs.Complements.{missing};
    ghost use Rattle.lens_core.specs.Consistency.{IsConsistent};
    ghost use Rattle.lens_core.specs.Translation.{translate};
    ghost use Rattle.lens_steps.specs.LawsOfForms.{formed_types, form_starts, form_documents, form_edits, form_empty};
    ghost use Rattle.lens_steps.specs.LawsOfForms.{form_joined};

    ghost left_type = { λ l. left_type (form_tree l.typed) };

    ghost right_type = { λ l. right_type (form_tree l.typed) };

    ghost start = { λ l. missing (form_tree l.typed) };

    ghost holds = { λ l. IsConsistent (form_tree l.typed) };

    ghost carried = { λ l. translate (form_tree l.typed) };

    ghost types_are_well_formed = { λ l. formed_types (form_tree l.typed) l.ready.0 };

    ghost starts_consistent = { λ l. form_starts (form_tree l.typed) l.ready.0 };

    ghost consistent_is_typed = { λ l. form_documents (form_tree l.typed) };

    ghost left_edits_carry = { λ l. form_edits (form_tree l.typed) l.ready.0 Left };

    ghost right_edits_carry = { λ l. form_edits (form_tree l.typed) l.ready.0 Right };

    ghost empty_stays = { λ l. form_empty (form_tree l.typed) };

    ghost words_compose = { λ l. form_joined (form_tree l.typed) };

    fn ty(&self, side: Side) -> &Ty {
        match side {
            Side::Left => self.whole.typed.left(),
            Side::Right => self.whole.typed.right(),
        }
    }

    /// The missing complement, which is ready: a copy of it, which shares its lists.
    #[tactic(auto, using(crate::proofs::InsideNodes::root_rules))]
    fn missing(&self, alloc: Global) -> Result<Comp, AllocError> {
        missing_at(&self.table, self.root).twin(alloc)
    }

    /// Translates a word of a side, with a complement. Beside what every lens says of it, words that differ only by
    /// where their primitives are joined are carried alike: to words that differ only so, with the same complement, or
    /// not at all.
    #[tactic(auto, using(crate::proofs::InsideNodes::root_rules, law_equations::proofs::EveryForm::typed_keeps))]
    fn carry(
        &self,
        alloc: Global,
        side: Side,
        comp: &Comp,
        word: &Word,
    ) -> Result<Carried, CarryFault>
        ensures translated { MatchResult result
            (λ r. translate (form_tree self.now.typed) side (comp_tree comp.now) (word_tree word.now)
            ≡ Some (carried_tree r))
            (IsCarryFault (translate (form_tree self.now.typed) side (comp_tree comp.now) (word_tree word.now))) }
        ensures equal_words { (other : WordTree) → normal (word_tree word.now) ≡ normal other
            → AreAlike (translate (form_tree self.now.typed) side (comp_tree comp.now) (word_tree word.now))
            (translate (form_tree self.now.typed) side (comp_tree comp.now) other) }
    {
        carry_word(alloc, &self.table, self.root, side, comp, word)
    }
}
