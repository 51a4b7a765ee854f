//! What a lens is to its callers, whatever it is made of.

ghost use Rattle.std.specs.Prelude.{◌≡◌, Some, Option, IfOk, MatchResult};
ghost use Rattle.texts.specs.declared.side.Side.{Side};
ghost use Rattle.texts.specs.declared.side.Side.TheVariants.{Left, Right};
ghost use Rattle.doc_values.specs.Documents.{DocTree};
ghost use Rattle.doc_values.specs.Types.{TyTree, ty_tree};
ghost use Rattle.edit_module.specs.Views.{word_tree};
ghost use Rattle.edit_module.specs.Words.{WordTree};
ghost use Rattle.lens_core.specs.Complements.{CompTree, comp_tree};
ghost use Rattle.lens_core.specs.Sides.{near};
ghost use Rattle.lens_core.specs.Translation.{Translated, carried_tree, IsCarryFault};
ghost use Rattle.lens_core.specs.Laws.{TypesAreWellFormed, StartTogether, TogetherAreTyped, WordsCarry, EmptyIsKept};
ghost use Rattle.lens_core.specs.Laws.{JoinedInTurn};

use crate::carry::{Carried, CarryFault};
use crate::comp::Comp;
use doc_values::Ty;
use edit_module::Word;
use std::alloc::{AllocError, Global};
use texts::Side;

/// A lens: two types, a first complement, a relation of documents and complements, and a translation of words.
pub trait EditLens {
    /// The type of the left documents.
    ghost left_type: { Self → TyTree };

    /// The type of the right documents.
    ghost right_type: { Self → TyTree };

    /// The missing complement, which belongs to the initial documents.
    ghost start: { Self → CompTree };

    /// The consistency relation: which left document, complement and right document belong together.
    ghost holds: { Self → DocTree → CompTree → DocTree → Type 0 };

    /// The translation of a word of a side, with a complement: the word of the other side, and the next complement.
    ghost carried: { Self → Side → CompTree → WordTree → Option Translated };

    /// The type of the documents of a side.
    fn ty(&self, side: Side) -> &Ty
        ensures { ty_tree result.now ≡ near side (left_type self.now) (right_type self.now) };

    /// The missing complement. Fails only if memory runs out.
    fn missing(&self, alloc: Global) -> Result<Comp, AllocError>
        ensures { IfOk result (λ c. comp_tree c ≡ start self.now) };

    /// Translates a word of a side, with a complement.
    ///
    /// - `Unfit`: if and only if the translation has no value.
    /// - `NoMemory`: only if memory ran out.
    ///
    /// The arguments stay as they are.
    fn carry(
        &self,
        alloc: Global,
        side: Side,
        comp: &Comp,
        word: &Word,
    ) -> Result<Carried, CarryFault>
        ensures { MatchResult result
            (λ r. carried self.now side (comp_tree comp.now) (word_tree word.now) ≡ Some (carried_tree r))
            (IsCarryFault (carried self.now side (comp_tree comp.now) (word_tree word.now))) };

    /// Both types are well formed, so each has an initial document.
    ghost types_are_well_formed: { (l : Self) → TypesAreWellFormed (left_type l) (right_type l) };

    /// It starts consistent: the initial documents of the two types belong together, with the missing complement.
    ghost starts_consistent: { (l : Self) → StartTogether (holds l) (left_type l) (right_type l) (start l) };

    /// Documents that belong together have their types.
    ghost consistent_is_typed: { (l : Self) → TogetherAreTyped (holds l) (left_type l) (right_type l) };

    /// Left edits carry.
    ghost left_edits_carry: { (l : Self) → WordsCarry (holds l) (left_type l) (right_type l) Left (carried l Left) };

    /// Right edits carry.
    ghost right_edits_carry: { (l : Self) → WordsCarry (holds l) (right_type l) (left_type l) Right (carried l Right) };

    /// Words compose: the empty word.
    ghost empty_stays: { (l : Self) → EmptyIsKept (carried l) };

    /// Words compose: joined words.
    ghost words_compose: { (l : Self) → JoinedInTurn (carried l) };
}
