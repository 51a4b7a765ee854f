//! A session, and the bridges of its last changes.

ghost use Rattle.std.specs.Prelude.{◌≡◌, ◌≤◌, [], Some, Ok, OnErr, MatchResult};
ghost use Rattle.edit_module.specs.Views.{word_tree};
ghost use Rattle.edit_session.specs.Step.{IsInStep};
ghost use Rattle.edit_session.specs.Views.{triple_tree};
ghost use Rattle.based_session.specs.Bases.{step_at};
ghost use Rattle.based_session.specs.KeptViews.{kept_trees};
ghost use Rattle.based_session.specs.Views.{IsStepRefused, based_tree};

use crate::fault::BaseFault;
use crate::kept::Window;
use crate::rebasing::Rebased;
use crate::stepping::step_from;
use edit_module::Word;
use edit_session::Session;
use lens_core::EditLens;
use std::alloc::Global;
use std::marker::Model;
use texts::Side;

/// A session that counts its changes and keeps the bridges of the last ones.
///
/// Contracts see it as its lens, its triple and what it keeps. At all times the bridges that it keeps lead, on each
/// side, from a document to the present one.
#[derive(Drop)]
pub struct BasedSession<L: EditLens> {
    session: Session<L>,
    window: Window,
    alloc: Global,
}

impl<L: EditLens> Model for BasedSession<L> {
    ghost use Rattle.edit_session.specs.contracts.triple.Triple as triple_type;
    ghost use Rattle.based_session.specs.contracts.kept.Window as window_type;
    ghost use Rattle.based_session.specs.Views.{BasedOf, based_code};

    ghost Value = { BasedOf L };

    ghost coded = { based_code L.code triple_type.the_row.coded window_type.the_row.coded };

    ghost use Rattle.based_session.specs.Views.{IsBased, based_tree};

    ghost view = { λ s. record { lens = s.session.lens; triple = s.session.triple; window = s.window } };

    ghost invariant = { λ s. IsBased (L.left_type s.session.lens) (L.right_type s.session.lens)
        (based_tree s.session.triple s.window) };
}

impl<L: EditLens> BasedSession<L> {
    /// A session that counts its changes from now on, and keeps bridges of at most this many.
    ///
    /// It does not allocate. It keeps the allocator for its steps.
    pub fn over(alloc: Global, session: Session<L>, width: u64) -> BasedSession<L>
        requires narrow { width ≤ 1000 }
        ensures lens { result.lens ≡ session.lens }
        ensures triple { result.triple ≡ session.triple }
        ensures kept { kept_trees result.window ≡ [] }
        ensures number { result.window.number ≡ 0 }
        ensures width { result.window.width ≡ width }
    {
        let window = Window::start(alloc, width);
        BasedSession {
            session,
            window,
            alloc,
        }
    }

    /// Takes a word of a side that was made for the document after `base` changes: carries it over the changes since
    /// then, and steps by what it is for the present document. Returns that word and the other side's word.
    ///
    /// The bridges by which the change led both documents on are kept; those of the oldest change fall out where there
    /// are too many. A word whose base is the number of changes is not carried, and steps as it is.
    ///
    /// - `Full`: if and only if there were 2^64 - 1 changes.
    /// - `Base`: if and only if the base is above the number of changes, or older than the changes of which bridges are
    ///   kept.
    /// - `Gone`: if and only if what the word changes is gone, by the definition `carry` of one bridge after another.
    /// - `Unfit`: if and only if the word does not fit a bridge, by that definition; it has the cause.
    /// - `NoApply`: if and only if the carried word does not apply to the present document; it has the number of the
    ///   first primitive that fails, and the cause.
    /// - `NoMemory`: only if memory ran out.
    ///
    /// The first of these that holds is the answer. After an error the session is as it was.
    pub fn step_at(&mut self, base: u64, side: Side, word: &Word) -> Result<Rebased, BaseFault>
        ensures steps { MatchResult result
            (λ words. step_at (L.left_type self.old.lens) (L.right_type self.old.lens)
            (L.carried self.old.lens) (based_tree self.old.triple self.old.window) base side
            (word_tree word.now) ≡ Some (Ok (
              based_tree self.new.triple self.new.window,
              (word_tree words.own, word_tree words.other),
            )))
            (IsStepRefused (step_at (L.left_type self.old.lens) (L.right_type self.old.lens)
            (L.carried self.old.lens) (based_tree self.old.triple self.old.window) base side
            (word_tree word.now))) }
        ensures lens { self.new.lens ≡ self.old.lens }
        ensures unchanged { OnErr result (based_tree self.new.triple self.new.window
            ≡ based_tree self.old.triple self.old.window) }
    {
        step_from(
            self.alloc,
            &mut self.session,
            &mut self.window,
            base,
            side,
            word,
        )
    }

    /// The session as it is. Its lens relates its three to each other, as after each step of a session.
    pub fn session(&self) -> &Session<L>
        ensures lens { result.now.lens ≡ self.now.lens }
        ensures triple { result.now.triple ≡ self.now.triple }
        ensures consistent { IsInStep (L.holds result.now.lens) (triple_tree result.now.triple) }
    {
        let _comp = self.session.comp();
        &self.session
    }

    /// How many changes there were.
    pub fn number(&self) -> u64
        ensures { result ≡ self.now.window.number }
    {
        self.window.number
    }
}
