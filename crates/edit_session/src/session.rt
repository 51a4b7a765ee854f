//! Two documents that a lens keeps in step.

ghost use Rattle.std.specs.Prelude.{◌≡◌, Some, Ok, IsTrue, IfOk, IfErr, OnErr, MatchResult};
ghost use Rattle.doc_values.specs.Documents.{DocTree, doc_tree};
ghost use Rattle.doc_values.specs.Initial.{initial};
ghost use Rattle.doc_values.specs.Typing.{has};
ghost use Rattle.edit_module.specs.Action.{act};
ghost use Rattle.edit_module.specs.Refusals.{IsRefusal};
ghost use Rattle.edit_module.specs.Changes.{entries_of};
ghost use Rattle.edit_module.specs.Views.{word_tree, word_trees, entry_tree, change_tree};
ghost use Rattle.lens_core.specs.Complements.{comp_tree};
ghost use Rattle.lens_core.specs.Sides.{near};
ghost use Rattle.edit_session.specs.declared.fault.GroupFault.TheVariants as of_groups;
ghost use Rattle.edit_session.specs.declared.fault.StepFault.TheVariants.{NoMemory};
ghost use Rattle.edit_session.specs.Step.{IsInStep, ApplyInTurn, first, document_on, step, step_all};
ghost use Rattle.edit_session.specs.Views.{triple_tree, IsStepFault, IsGroupFault};

use crate::fault::{GroupFault, StepFault};
use crate::group::next_all;
use crate::triple::Triple;
use doc_values::{Doc, init};
use edit_module::change::Words;
use edit_module::{ActFault, Change, Entry, Word, act};
use lens_core::{Carried, CarryFault, Comp, EditLens};
use std::alloc::{AllocError, Global};
use std::marker::Model;
use texts::Side;

/// A lens with a left document, a complement and a right document that it relates to each other.
///
/// There is no session whose three are not in the lens's consistency relation. Contracts see a session as its lens and
/// its triple.
#[derive(Drop)]
pub struct Session<L: EditLens> {
    lens: L,
    triple: Triple,
    alloc: Global,
}

impl<L: EditLens> Model for Session<L> {
    ghost use Rattle.edit_session.specs.contracts.triple.Triple as triple_type;
    ghost use Rattle.edit_session.specs.Sessions.{SessionOf, session_code};

    ghost Value = { SessionOf L };

    ghost coded = { session_code L.code triple_type.the_row.coded };

    ghost use Rattle.edit_session.specs.Step.{IsInStep};
    ghost use Rattle.edit_session.specs.Views.{triple_tree};

    ghost view = { λ s. record { lens = s.lens; triple = s.triple } };

    ghost invariant = { λ s. IsInStep (L.holds s.lens) (triple_tree s.triple) };
}

impl<L: EditLens> Session<L> {
    /// A session with the initial documents of the lens's two types, and its missing complement.
    ///
    /// The session keeps the allocator for its steps. It fails only if memory runs out. The lens is then dropped.
    pub fn start(alloc: Global, lens: L) -> Result<Session<L>, AllocError>
    where
        L: Drop,
        ensures lens { IfOk result (λ s. s.lens ≡ lens) }
        ensures first { IfOk result (λ s. triple_tree s.triple ≡ first (L.left_type lens) (L.right_type lens) (L.start lens)) }
        ensures consistent { IfOk result (λ s. IsInStep (L.holds s.lens) (triple_tree s.triple)) }
    {
        let triple = first_triple(alloc, &lens)?;
        Ok(Session {
            lens,
            triple,
            alloc,
        })
    }

    /// A session with these documents and this complement, which the lens relates to each other.
    ///
    /// It does not allocate. The session keeps the allocator for its steps.
    pub fn resume(alloc: Global, lens: L, left: Doc, comp: Comp, right: Doc) -> Session<L>
        requires consistent { L.holds lens (doc_tree left) (comp_tree comp) (doc_tree right) }
        ensures lens { result.lens ≡ lens }
        ensures left { result.triple.left ≡ left }
        ensures comp { result.triple.comp ≡ comp }
        ensures right { result.triple.right ≡ right }
    {
        let triple = Triple { left, comp, right };
        Session {
            lens,
            triple,
            alloc,
        }
    }

    /// Applies the entry's word to the document of its side, and carries it to the other one. Returns the carried word.
    ///
    /// The new triple is the new document of the side, the carried complement, and what the carried word makes of the
    /// other document.
    ///
    /// - `NoApply`: if and only if the word does not apply to the document of its side; it has the number of the first
    ///   primitive that fails, and the cause.
    /// - `NoMemory`: only if memory ran out.
    ///
    /// After an error the session is as it was. A word that applies to the document of its side is always carried, and
    /// the carried word applies to the other document.
    pub fn step(&mut self, entry: &Entry) -> Result<Word, StepFault>
        ensures steps { MatchResult result
            (λ word. step (L.left_type self.old.lens) (L.right_type self.old.lens) (L.carried self.old.lens)
            (triple_tree self.old.triple) (entry_tree entry.now)
            ≡ Some (Ok (triple_tree self.new.triple, word_tree word)))
            (IsStepFault (step (L.left_type self.old.lens) (L.right_type self.old.lens) (L.carried self.old.lens)
            (triple_tree self.old.triple) (entry_tree entry.now))) }
        ensures applies { IfErr result (λ fault. (x : DocTree)
            → act (near entry.now.side (L.left_type self.old.lens) (L.right_type self.old.lens))
            (word_tree entry.now.word) (document_on entry.now.side (triple_tree self.old.triple)) ≡ Ok x
            → fault ≡ NoMemory) }
        ensures consistent { IsInStep (L.holds self.new.lens) (triple_tree self.new.triple) }
        ensures lens { self.new.lens ≡ self.old.lens }
        ensures unchanged { OnErr result (self.new ≡ self.old) }
    {
        let (triple, word) = next(self.alloc, &self.lens, &self.triple, entry)?;
        self.triple = triple;
        Ok(word)
    }

    /// Applies a change: its entries one after another, all of them or none. Returns the carried words, one for each
    /// entry and in their order.
    ///
    /// Each entry starts from the three that the entry before it left, and is applied and carried as by
    /// [`Session::step`]. A group of no entries leaves the three as they are, and its list of words is empty.
    ///
    /// - `NoApply`: if and only if the word of an entry does not apply to the document of its side when its turn comes;
    ///   it has the number of the first such entry in the group, from 0, the number of the first primitive of its word
    ///   that fails, and the cause. For a single entry the number of the entry is 0.
    /// - `NoMemory`: only if memory ran out.
    ///
    /// After an error the session is as it was: left document, complement and right document are those from before the
    /// change, also where entries of the group come before the one that is refused. A group whose entries apply in turn
    /// is refused only if memory runs out. A copy of the three, which shares their contents, is kept until the end.
    pub fn step_all(&mut self, change: &Change) -> Result<Words, GroupFault>
        ensures steps { MatchResult result
            (λ words. step_all (L.left_type self.old.lens) (L.right_type self.old.lens)
            (L.carried self.old.lens) (triple_tree self.old.triple) (change_tree change.now)
            ≡ Some (Ok (triple_tree self.new.triple, word_trees words)))
            (IsGroupFault (step_all (L.left_type self.old.lens) (L.right_type self.old.lens)
            (L.carried self.old.lens) (triple_tree self.old.triple) (change_tree change.now))) }
        ensures applies { IfErr result (λ fault.
            ApplyInTurn (L.left_type self.old.lens) (L.right_type self.old.lens)
            (L.carried self.old.lens) (triple_tree self.old.triple)
            (entries_of (change_tree change.now))
            → fault ≡ of_groups.NoMemory) }
        ensures consistent { IsInStep (L.holds self.new.lens) (triple_tree self.new.triple) }
        ensures lens { self.new.lens ≡ self.old.lens }
        ensures unchanged { OnErr result (self.new ≡ self.old) }
    {
        let (triple, words) = next_all(self.alloc, &self.lens, &self.triple, change.entries())?;
        self.triple = triple;
        Ok(words)
    }

    /// Puts a left document, a complement and a right document, which the lens relates to each other, in the place of
    /// the session's own.
    ///
    /// The lens stays. It does not allocate.
    pub fn replace(&mut self, triple: Triple)
        requires consistent { IsInStep (L.holds self.old.lens) (triple_tree triple) }
        ensures lens { self.new.lens ≡ self.old.lens }
        ensures triple { self.new.triple ≡ triple }
    {
        self.triple = triple;
    }

    /// The lens.
    pub fn lens(&self) -> &L
        ensures { result.now ≡ self.now.lens }
    {
        &self.lens
    }

    /// The left document. It has the lens's left type.
    pub fn left(&self) -> &Doc
        ensures left { result.now ≡ self.now.triple.left }
        ensures typed { IsTrue (has (L.left_type self.now.lens) (doc_tree result.now)) }
    {
        &self.triple.left
    }

    /// The complement. The lens relates it to the left document and the right document.
    pub fn comp(&self) -> &Comp
        ensures comp { result.now ≡ self.now.triple.comp }
        ensures consistent { IsInStep (L.holds self.now.lens) (triple_tree self.now.triple) }
    {
        &self.triple.comp
    }

    /// The right document. It has the lens's right type.
    pub fn right(&self) -> &Doc
        ensures right { result.now ≡ self.now.triple.right }
        ensures typed { IsTrue (has (L.right_type self.now.lens) (doc_tree result.now)) }
    {
        &self.triple.right
    }
}

// The first triple of a lens.
fn first_triple<L: EditLens>(alloc: Global, lens: &L) -> Result<Triple, AllocError>
    ensures { IfOk result (λ t. triple_tree t ≡ first (L.left_type lens.now) (L.right_type lens.now) (L.start lens.now)) }
{
    let left = initial_document(alloc, lens, Side::Left)?;
    let comp = lens.missing(alloc)?;
    let right = initial_document(alloc, lens, Side::Right)?;
    Ok(Triple { left, comp, right })
}

// The initial document of a side.
fn initial_document<L: EditLens>(alloc: Global, lens: &L, side: Side) -> Result<Doc, AllocError>
    ensures { IfOk result (λ d. doc_tree d ≡ initial (near side (L.left_type lens.now) (L.right_type lens.now))) }
{
    init(alloc, lens.ty(side))
}

// What a word makes of the document of a side of a consistent triple.
fn act_on<L: EditLens>(
    alloc: Global,
    lens: &L,
    triple: &Triple,
    side: Side,
    word: &Word,
) -> Result<Doc, ActFault>
    requires consistent { IsInStep (L.holds lens.now) (triple_tree triple.now) }
    ensures { MatchResult result
        (λ d. act (near side (L.left_type lens.now) (L.right_type lens.now)) (word_tree word.now)
        (document_on side (triple_tree triple.now)) ≡ Ok (doc_tree d))
        (IsRefusal (act (near side (L.left_type lens.now) (L.right_type lens.now)) (word_tree word.now)
        (document_on side (triple_tree triple.now)))) }
{
    act(alloc, lens.ty(side), word, triple.document(side))
}

// The triple after an entry, and the carried word. The triple is consistent, so nothing that comes after the action on
// the document of the entry's side is refused.
pub(crate) fn next<L: EditLens>(
    alloc: Global,
    lens: &L,
    triple: &Triple,
    entry: &Entry,
) -> Result<(Triple, Word), StepFault>
    requires consistent { IsInStep (L.holds lens.now) (triple_tree triple.now) }
    ensures steps { MatchResult result
        (λ r. step (L.left_type lens.now) (L.right_type lens.now) (L.carried lens.now) (triple_tree triple.now)
        (entry_tree entry.now)
        ≡ Some (Ok (triple_tree r.0, word_tree r.1)))
        (IsStepFault (step (L.left_type lens.now) (L.right_type lens.now) (L.carried lens.now) (triple_tree triple.now)
        (entry_tree entry.now))) }
    ensures consistent { IfOk result (λ r. IsInStep (L.holds lens.now) (triple_tree r.0)) }
{
    let side = entry.side;
    let own = match act_on(alloc, lens, triple, side, &entry.word) {
        Ok(own) => own,
        Err(ActFault::NoApply { at, cause }) => return Err(StepFault::NoApply { at, cause }),
        Err(ActFault::NoMemory) => return Err(StepFault::NoMemory),
    };
    let Carried { word, comp } = match lens.carry(alloc, side, &triple.comp, &entry.word) {
        Ok(carried) => carried,
        Err(CarryFault::Unfit) => unreachable!(),
        Err(CarryFault::NoMemory) => return Err(StepFault::NoMemory),
    };
    let other = match act_on(alloc, lens, triple, side.other(), &word) {
        Ok(other) => other,
        Err(ActFault::NoApply { .. }) => unreachable!(),
        Err(ActFault::NoMemory) => return Err(StepFault::NoMemory),
    };
    Ok((Triple::from_side(side, own, comp, other), word))
}
