//! The step of a word that was carried to the present, and the bridges that are kept of it.

ghost use Rattle.std.specs.Prelude.{◌≡◌, ◌<◌, ◌+◌, ◌++◌, ◌∷◌, [], ◌^◌, ◌-◌, Some, Ok, length, min, IfOk, OnOk, OnErr};
ghost use Rattle.std.specs.Prelude.{MatchResult};
ghost use Rattle.edit_module.specs.Views.{word_tree, entry_tree};
ghost use Rattle.bridge_core.specs.Bridges.{bridge_tree, same};
ghost use Rattle.bridge_core.specs.Bridged.{bridge};
ghost use Rattle.lens_core.specs.Sides.{near, far};
ghost use Rattle.edit_session.specs.Step.{IsInStep, document_on};
ghost use Rattle.edit_session.specs.Views.{triple_tree};
ghost use Rattle.based_session.specs.declared.fault.BaseFault.TheVariants.{NoMemory};
ghost use Rattle.based_session.specs.Bases.{changed, kept_by, newest, step_at, stepped_by};
ghost use Rattle.based_session.specs.KeptViews.{KeepsSame, kept_tree, kept_trees};
ghost use Rattle.based_session.specs.Views.{IsBased, IsOfStep, IsStepRefused, based_tree};

use crate::fault::BaseFault;
use crate::kept::{Kept, Window};
use crate::laws::bases_lead_on;
use crate::rebasing::{Rebased, for_present};
use bridge_core::{Bridge, bridge_of};
use edit_module::{ActFault, Entry, Word};
use edit_session::{Session, StepFault, Triple};
use lens_core::EditLens;
use std::alloc::Global;
use texts::{Side, Twin};

// Takes a word of a side that was made for a base. Returns it as it was carried, and the other side's word.
pub(crate) fn step_from<L: EditLens>(
    alloc: Global,
    session: &mut Session<L>,
    window: &mut Window,
    base: u64,
    side: Side,
    word: &Word,
) -> Result<Rebased, BaseFault>
    requires based { IsBased (L.left_type session.old.lens) (L.right_type session.old.lens)
        (based_tree session.old.triple window.old) }
    ensures steps { MatchResult result
        (λ words. step_at (L.left_type session.old.lens) (L.right_type session.old.lens)
        (L.carried session.old.lens) (based_tree session.old.triple window.old) base side
        (word_tree word.now) ≡ Some (Ok (
          based_tree session.new.triple window.new,
          (word_tree words.own, word_tree words.other),
        )))
        (IsStepRefused (step_at (L.left_type session.old.lens) (L.right_type session.old.lens)
        (L.carried session.old.lens) (based_tree session.old.triple window.old) base side
        (word_tree word.now))) }
    ensures based { IsBased (L.left_type session.old.lens) (L.right_type session.old.lens)
        (based_tree session.new.triple window.new) }
    ensures lens { session.new.lens ≡ session.old.lens }
    ensures unchanged { OnErr result
        (based_tree session.new.triple window.new ≡ based_tree session.old.triple window.old) }
{
    if window.number == u64::MAX {
        return Err(BaseFault::Full);
    }
    let word = for_present(alloc, session.lens().ty(side), window, base, side, word)?;
    let entry = Entry { side, word };
    match advance(alloc, session, window, &entry) {
        Ok(other) => Ok(Rebased {
            own: entry.word,
            other,
        }),
        Err(fault) => {
            drop(entry);
            Err(fault)
        }
    }
}

// Steps the session by an entry, and keeps the bridges of both documents. Returns the other side's word.
fn advance<L: EditLens>(
    alloc: Global,
    session: &mut Session<L>,
    window: &mut Window,
    entry: &Entry,
) -> Result<Word, BaseFault>
    requires based { IsBased (L.left_type session.old.lens) (L.right_type session.old.lens)
        (based_tree session.old.triple window.old) }
    requires room { window.old.number < 2 ^ 64 - 1 }
    ensures steps { MatchResult result
        (λ word. stepped_by (L.left_type session.old.lens) (L.right_type session.old.lens)
        (L.carried session.old.lens) (based_tree session.old.triple window.old) entry.now.side
        (word_tree entry.now.word)
        ≡ Some (Ok (based_tree session.new.triple window.new, (word_tree entry.now.word, word_tree word))))
        (IsStepRefused (stepped_by (L.left_type session.old.lens) (L.right_type session.old.lens)
        (L.carried session.old.lens) (based_tree session.old.triple window.old) entry.now.side
        (word_tree entry.now.word))) }
    ensures based { IsBased (L.left_type session.old.lens) (L.right_type session.old.lens)
        (based_tree session.new.triple window.new) }
    ensures lens { session.new.lens ≡ session.old.lens }
    ensures unchanged { OnErr result
        (based_tree session.new.triple window.new ≡ based_tree session.old.triple window.old) }
{
    bases_lead_on();
    let old = copied(alloc, session)?;
    match session.step(entry) {
        Ok(other) => kept_or_back(alloc, session, window, old, entry, other),
        Err(fault) => {
            drop(old);
            Err(of_step(fault))
        }
    }
}

// Keeps the bridges of a step that was made from an old triple. Where memory runs out, the session goes back to it.
fn kept_or_back<L: EditLens>(
    alloc: Global,
    session: &mut Session<L>,
    window: &mut Window,
    old: Triple,
    entry: &Entry,
    other: Word,
) -> Result<Word, BaseFault>
    requires consistent { IsInStep (L.holds session.old.lens) (triple_tree old) }
    requires filled { length window.old.kept.items ≡ min window.old.number window.old.width }
    requires room { window.old.number < 2 ^ 64 - 1 }
    ensures kept { OnOk result (based_tree session.new.triple window.new
        ≡ changed (based_tree old window.old) (triple_tree session.old.triple)
        (kept_by (L.left_type session.old.lens) (L.right_type session.old.lens) (triple_tree old)
        (near entry.now.side (word_tree entry.now.word) (word_tree other))
        (far entry.now.side (word_tree entry.now.word) (word_tree other)))) }
    ensures word { MatchResult result (λ word. word_tree word ≡ word_tree other) (λ fault. fault ≡ NoMemory) }
    ensures filled { OnOk result (length window.new.kept.items ≡ min window.new.number window.new.width) }
    ensures lens { session.new.lens ≡ session.old.lens }
    ensures back { OnErr result (based_tree session.new.triple window.new ≡ based_tree old window.old) }
{
    match keep(alloc, session.lens(), window, &old, entry, &other) {
        Ok(()) => {
            drop(old);
            Ok(other)
        }
        Err(_) => {
            session.replace(old);
            drop(other);
            Err(BaseFault::NoMemory)
        }
    }
}

// Why the step of a carried word is refused.
fn of_step(fault: StepFault) -> BaseFault
    ensures { IsOfStep result fault }
{
    match fault {
        StepFault::NoApply { at, cause } => BaseFault::NoApply { at, cause },
        StepFault::NoMemory => BaseFault::NoMemory,
    }
}

// A copy of the present triple, which shares its contents.
fn copied<L: EditLens>(alloc: Global, session: &Session<L>) -> Result<Triple, BaseFault>
    ensures same { MatchResult result (λ t. triple_tree t ≡ triple_tree session.now.triple)
        (λ fault. fault ≡ NoMemory) }
    ensures consistent { IfOk result (λ t. IsInStep (L.holds session.now.lens) (triple_tree t)) }
{
    let left = session.left().twin(alloc)?;
    let comp = session.comp().twin(alloc)?;
    let right = session.right().twin(alloc)?;
    Ok(Triple { left, comp, right })
}

// Keeps the bridges of a change of a triple, by an entry and the other side's word.
fn keep<L: EditLens>(
    alloc: Global,
    lens: &L,
    window: &mut Window,
    old: &Triple,
    entry: &Entry,
    other: &Word,
) -> Result<(), ActFault>
    requires consistent { IsInStep (L.holds lens.now) (triple_tree old.now) }
    requires filled { length window.old.kept.items ≡ min window.old.number window.old.width }
    requires room { window.old.number < 2 ^ 64 - 1 }
    ensures kept { OnOk result (kept_trees window.new
        ≡ newest window.old.width (kept_trees window.old
        ++ kept_by (L.left_type lens.now) (L.right_type lens.now) (triple_tree old.now)
        (near entry.now.side (word_tree entry.now.word) (word_tree other.now))
        (far entry.now.side (word_tree entry.now.word) (word_tree other.now)) ∷ [])) }
    ensures number { OnOk result (window.new.number ≡ window.old.number + 1) }
    ensures width { OnOk result (window.new.width ≡ window.old.width) }
    ensures filled { OnOk result (length window.new.kept.items ≡ min window.new.number window.new.width) }
    ensures unchanged { OnErr result (KeepsSame window.new window.old) }
{
    let kept = of_entry(alloc, lens, old, entry, other)?;
    window.push(kept)?;
    Ok(())
}

// The bridges of a change of a triple, by an entry and the other side's word.
fn of_entry<L: EditLens>(
    alloc: Global,
    lens: &L,
    old: &Triple,
    entry: &Entry,
    other: &Word,
) -> Result<Kept, ActFault>
    requires consistent { IsInStep (L.holds lens.now) (triple_tree old.now) }
    ensures { IfOk result (λ k. kept_tree k
        ≡ kept_by (L.left_type lens.now) (L.right_type lens.now) (triple_tree old.now)
        (near entry.now.side (word_tree entry.now.word) (word_tree other.now))
        (far entry.now.side (word_tree entry.now.word) (word_tree other.now))) }
{
    match entry.side {
        Side::Left => of_words(alloc, lens, old, &entry.word, other),
        Side::Right => of_words(alloc, lens, old, other, &entry.word),
    }
}

// The bridges of a change of a triple, by a word of the left side and one of the right side.
fn of_words<L: EditLens>(
    alloc: Global,
    lens: &L,
    old: &Triple,
    left: &Word,
    right: &Word,
) -> Result<Kept, ActFault>
    requires consistent { IsInStep (L.holds lens.now) (triple_tree old.now) }
    ensures { IfOk result (λ k. kept_tree k
        ≡ kept_by (L.left_type lens.now) (L.right_type lens.now) (triple_tree old.now)
        (word_tree left.now) (word_tree right.now)) }
{
    let left = of_side(alloc, lens, old, Side::Left, left)?;
    let right = of_side(alloc, lens, old, Side::Right, right)?;
    Ok(Kept { left, right })
}

// The bridge of the document of a side, by a word that acts on it.
fn of_side<L: EditLens>(
    alloc: Global,
    lens: &L,
    old: &Triple,
    side: Side,
    word: &Word,
) -> Result<Bridge, ActFault>
    requires consistent { IsInStep (L.holds lens.now) (triple_tree old.now) }
    ensures { IfOk result (λ b. bridge_tree b
        ≡ bridge (near side (L.left_type lens.now) (L.right_type lens.now)) (word_tree word.now)
        (document_on side (triple_tree old.now)) same) }
{
    bridge_of(alloc, lens.ty(side), word, old.document(side))
}
