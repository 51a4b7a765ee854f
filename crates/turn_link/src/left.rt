//! The left site.

ghost use Rattle.std.specs.Prelude.{◌≡◌, ◌+◌, true, IfOk, OnErr, MatchResult};
ghost use Rattle.std.specs.Option.{option_copied};
ghost use Rattle.texts.specs.declared.side.Side.TheVariants.{Left, Right};
ghost use Rattle.doc_values.specs.Typing.{has};
ghost use Rattle.edit_module.specs.Action.{act};
ghost use Rattle.doc_values.specs.Documents.{doc_tree};
ghost use Rattle.edit_module.specs.Views.{word_tree};
ghost use Rattle.lens_core.specs.Complements.{comp_tree};
ghost use Rattle.turn_link.specs.declared.fault.Received.TheVariants.{Taken};
ghost use Rattle.turn_link.specs.LeftViews.{left_tree, after_tree, IsLeft};
ghost use Rattle.turn_link.specs.Sites.{left_start, left_edit, left_seal, left_receive, left_taking, left_restart};
ghost use Rattle.turn_link.specs.Turns.{is_turn, IsTurnRefusal};
ghost use Rattle.turn_link.specs.Views.{batch_tree, site_refusal, receive_refusal};

use crate::batch::Batch;
use crate::draft::{append, empty_word, put};
use crate::fault::{ReceiveFault, Received, SiteFault};
use crate::turns::{is_last, is_next, is_stale, is_turn};
use doc_values::{Doc, init};
use edit_module::{ActFault, Word, act};
use lens_core::{Carried, CarryFault, Comp, EditLens};
use std::alloc::{AllocError, Global};
use std::marker::Model;
use std::rc::Rc;
use texts::{Side, Twin};

// What a left site holds.
#[derive(Drop)]
pub(crate) struct LeftParts {
    // How many batches it made or took.
    pub(crate) number: u64,
    // The document and the complement without the draft.
    pub(crate) doc: Doc,
    pub(crate) comp: Comp,
    pub(crate) draft: Word,
    // The document after the draft; None where it is the document itself.
    pub(crate) after: Option<Doc>,
    // The last batch that it made.
    pub(crate) last: Option<Batch>,
}

/// The left site: the left document and the complement, with a draft of edits that are not sealed yet.
///
/// Its number counts the batches that it made or took. It is its turn where the number is even. Contracts see a site as
/// its lens and its parts.
#[derive(Drop)]
pub struct LeftSite<L: EditLens> {
    lens: L,
    parts: LeftParts,
    alloc: Global,
}

impl<L: EditLens> Model for LeftSite<L> {
    ghost use Rattle.turn_link.specs.contracts.left.LeftParts as parts_type;
    ghost use Rattle.turn_link.specs.declared.fault.Received.TheVariants.{Taken};
    ghost use Rattle.turn_link.specs.LeftViews.{LeftOf, left_code};

    ghost Value = { LeftOf L };

    ghost coded = { left_code L.code parts_type.the_row.coded };

    ghost use Rattle.turn_link.specs.declared.fault.Received.TheVariants.{Taken};
    ghost use Rattle.turn_link.specs.LeftViews.{IsLeft};

    ghost view = { λ s. record { lens = s.lens; parts = s.parts } };

    ghost invariant = { λ s. IsLeft (L.left_type s.lens) s.parts };
}

impl<L: EditLens> LeftSite<L> {
    /// The site with number 0, the initial document of the lens's left type and its missing complement.
    ///
    /// The site keeps the allocator for its calls. It fails only if memory runs out. The lens is then dropped.
    pub fn start(alloc: Global, lens: L) -> Result<LeftSite<L>, AllocError>
    where
        L: Drop,
        ensures lens { IfOk result (λ s. s.lens ≡ lens) }
        ensures start { IfOk result (λ s. left_tree s.parts ≡ left_start (L.left_type lens)
            (L.start lens)) }
    {
        let parts = first_parts(alloc, &lens)?;
        Ok(LeftSite { lens, parts, alloc })
    }

    /// Joins a word to the draft.
    ///
    /// - `NotTurn`: if and only if it is not the site's turn; it has the site's number.
    /// - `NoApply`: if and only if the word does not apply to the document after the draft.
    /// - `NoMemory`: only if memory ran out.
    ///
    /// After an error the site is as it was.
    pub fn edit(&mut self, word: &Word) -> Result<(), SiteFault>
        ensures edits { MatchResult result
            (λ _. left_edit (L.left_type self.old.lens) (left_tree self.old.parts)
            (word_tree word.now) ≡ Ok (left_tree self.new.parts))
            (λ fault. IsTurnRefusal (left_edit (L.left_type self.old.lens) (left_tree self.old.parts)
            (word_tree word.now)) (site_refusal fault)) }
        ensures unchanged { OnErr result (left_tree self.new.parts ≡ left_tree self.old.parts) }
        ensures lens { self.new.lens ≡ self.old.lens }
    {
        let after = edited(self.alloc, &self.lens, &self.parts, word)?;
        let more = word.twin(self.alloc)?;
        append(self.alloc, &mut self.parts.draft, more)?;
        put(&mut self.parts.after, Some(after));
        Ok(())
    }

    /// Seals the draft: its translation is the batch of the next number, and the draft is empty.
    ///
    /// - `NotTurn`: if and only if it is not the site's turn; it has the site's number.
    /// - `LastNumber`: if and only if the site's number is 2^64 - 1.
    /// - `Unfit`: if and only if the draft has no translation. A batch from elsewhere may lead there.
    /// - `NoMemory`: only if memory ran out.
    ///
    /// After an error the site is as it was.
    pub fn seal(&mut self) -> Result<Batch, SiteFault>
        ensures seals { MatchResult result
            (λ batch. left_seal (L.left_type self.old.lens) (L.carried self.old.lens)
            (left_tree self.old.parts) ≡ Ok (left_tree self.new.parts, batch_tree batch))
            (λ fault. IsTurnRefusal (left_seal (L.left_type self.old.lens) (L.carried self.old.lens)
            (left_tree self.old.parts)) (site_refusal fault)) }
        ensures unchanged { OnErr result (self.new ≡ self.old) }
        ensures lens { self.new.lens ≡ self.old.lens }
    {
        let (parts, batch) = sealed(self.alloc, &self.lens, &self.parts)?;
        self.parts = parts;
        Ok(batch)
    }

    /// Takes a batch of the other site, where it is the next one.
    ///
    /// - `Ahead`: if and only if the batch's number is more than one above the site's, or one above it on the site's
    ///   own turn.
    /// - `BadBatch`: if and only if the batch is the next one and its word has no translation, or the translated word
    ///   does not apply to the document.
    /// - `NoMemory`: only if memory ran out.
    ///
    /// After an error, and after a batch that is stale, the site is as it was.
    pub fn receive(&mut self, batch: &Batch) -> Result<Received, ReceiveFault>
        ensures receives { MatchResult result
            (λ answer. left_receive (L.left_type self.old.lens) (L.carried self.old.lens)
            (left_tree self.old.parts) (batch_tree batch.now) ≡ Ok
            (left_tree self.new.parts, answer))
            (λ fault. IsTurnRefusal (left_receive (L.left_type self.old.lens)
            (L.carried self.old.lens) (left_tree self.old.parts) (batch_tree batch.now))
            (receive_refusal fault)) }
        ensures unchanged { OnErr result (self.new ≡ self.old) }
        ensures lens { self.new.lens ≡ self.old.lens }
    {
        let have = self.parts.number;
        if is_stale(have, batch.number) {
            return Ok(Received::Stale);
        }
        if !is_next(Side::Left, have, batch.number) {
            return Err(ReceiveFault::Ahead {
                have,
                got: batch.number,
            });
        }
        let (doc, comp) = taken_over(self.alloc, &self.lens, &self.parts, &batch.word)?;
        self.parts.number = batch.number;
        put(&mut self.parts.doc, doc);
        put(&mut self.parts.comp, comp);
        put(&mut self.parts.after, None);
        Ok(Received::Taken)
    }

    /// Empties the draft; all else stays. Does not allocate.
    pub fn restart(&mut self)
        ensures restarts { left_tree self.new.parts ≡ left_restart (left_tree self.old.parts) }
        ensures lens { self.new.lens ≡ self.old.lens }
    {
        put(&mut self.parts.draft, empty_word(self.alloc));
        put(&mut self.parts.after, None);
    }

    /// The lens.
    pub fn lens(&self) -> &L
        ensures { result.now ≡ self.now.lens }
    {
        &self.lens
    }

    /// How many batches the site made or took.
    pub fn number(&self) -> u64
        ensures { result ≡ self.now.parts.number }
    {
        self.parts.number
    }

    /// The document without the draft. It has the lens's left type.
    pub fn doc(&self) -> &Doc
        ensures doc { result.now ≡ self.now.parts.doc }
        ensures typed { has (L.left_type self.now.lens) (doc_tree result.now) ≡ true }
    {
        &self.parts.doc
    }

    /// The complement without the draft.
    pub fn comp(&self) -> &Comp
        ensures { result.now ≡ self.now.parts.comp }
    {
        &self.parts.comp
    }

    /// The last batch that the site made, if there is one.
    pub fn last(&self) -> Option<&Batch>
        ensures { option_copied result ≡ self.now.parts.last }
    {
        self.parts.last.as_ref()
    }

    // The draft.
    pub(crate) fn draft(&self) -> &Word
        ensures { result.now ≡ self.now.parts.draft }
    {
        &self.parts.draft
    }
}

// The parts at the start.
fn first_parts<L: EditLens>(alloc: Global, lens: &L) -> Result<LeftParts, AllocError>
    ensures start { IfOk result (λ p. left_tree p ≡ left_start (L.left_type lens.now)
        (L.start lens.now)) }
    ensures kept { IfOk result (λ p. IsLeft (L.left_type lens.now) p) }
{
    let doc = init(alloc, lens.ty(Side::Left))?;
    let comp = lens.missing(alloc)?;
    Ok(LeftParts {
        number: 0,
        doc,
        comp,
        draft: empty_word(alloc),
        after: None,
        last: None,
    })
}

// The document after the draft.
fn after(parts: &LeftParts) -> &Doc
    ensures { doc_tree result.now ≡ after_tree parts.now }
{
    match &parts.after {
        Some(after) => after,
        None => &parts.doc,
    }
}

// The document after the draft and a word.
fn edited<L: EditLens>(
    alloc: Global,
    lens: &L,
    parts: &LeftParts,
    word: &Word,
) -> Result<Doc, SiteFault>
    requires kept { IsLeft (L.left_type lens.now) parts.now }
    ensures edits { MatchResult result
        (λ d. (is_turn Left parts.now.number ≡ true) ×
        (act (L.left_type lens.now) (word_tree word.now) (after_tree parts.now) ≡ Ok
        (doc_tree d)))
        (λ fault. IsTurnRefusal (left_edit (L.left_type lens.now) (left_tree parts.now)
        (word_tree word.now)) (site_refusal fault)) }
    ensures typed { IfOk result (λ d. has (L.left_type lens.now) (doc_tree d) ≡ true) }
{
    if !is_turn(Side::Left, parts.number) {
        return Err(SiteFault::NotTurn {
            number: parts.number,
        });
    }
    match act(alloc, lens.ty(Side::Left), word, after(parts)) {
        Ok(doc) => Ok(doc),
        Err(ActFault::NoApply { at, cause }) => Err(SiteFault::NoApply { at, cause }),
        Err(ActFault::NoMemory) => Err(SiteFault::NoMemory),
    }
}

// The parts after the draft is sealed, and the batch.
fn sealed<L: EditLens>(
    alloc: Global,
    lens: &L,
    parts: &LeftParts,
) -> Result<(LeftParts, Batch), SiteFault>
    requires kept { IsLeft (L.left_type lens.now) parts.now }
    ensures seals { MatchResult result
        (λ r. left_seal (L.left_type lens.now) (L.carried lens.now) (left_tree parts.now) ≡ Ok
        (left_tree r.0, batch_tree r.1))
        (λ fault. IsTurnRefusal (left_seal (L.left_type lens.now) (L.carried lens.now)
        (left_tree parts.now)) (site_refusal fault)) }
    ensures kept { IfOk result (λ r. IsLeft (L.left_type lens.now) r.0) }
{
    if !is_turn(Side::Left, parts.number) {
        return Err(SiteFault::NotTurn {
            number: parts.number,
        });
    }
    if is_last(parts.number) {
        return Err(SiteFault::LastNumber);
    }
    let Carried { word, comp } = match lens.carry(alloc, Side::Left, &parts.comp, &parts.draft) {
        Ok(carried) => carried,
        Err(CarryFault::Unfit) => return Err(SiteFault::Unfit),
        Err(CarryFault::NoMemory) => return Err(SiteFault::NoMemory),
    };
    let number = parts.number + 1;
    let doc = after(parts).twin(alloc)?;
    let word = Rc::new(alloc, word)?;
    let batch = Batch { number, word };
    let last = batch.twin(alloc)?;
    let next = LeftParts {
        number,
        doc,
        comp,
        draft: empty_word(alloc),
        after: None,
        last: Some(last),
    };
    Ok((next, batch))
}

// The document and the complement after a word of the other side.
fn taken_over<L: EditLens>(
    alloc: Global,
    lens: &L,
    parts: &LeftParts,
    word: &Word,
) -> Result<(Doc, Comp), ReceiveFault>
    requires kept { IsLeft (L.left_type lens.now) parts.now }
    ensures takes { MatchResult result
        (λ r. left_taking (L.left_type lens.now) (left_tree parts.now)
        (L.carried lens.now Right (comp_tree parts.now.comp) (word_tree word.now))
        ≡ Ok (
          record
              (left_tree parts.now) { number = parts.now.number + 1; doc = doc_tree r.0; comp = comp_tree r.1 },
          Taken,
        ))
        (λ fault. IsTurnRefusal (left_taking (L.left_type lens.now) (left_tree parts.now)
        (L.carried lens.now Right (comp_tree parts.now.comp) (word_tree word.now)))
        (receive_refusal fault)) }
    ensures typed { IfOk result (λ r. has (L.left_type lens.now) (doc_tree r.0) ≡ true) }
{
    let Carried { word, comp } = match lens.carry(alloc, Side::Right, &parts.comp, word) {
        Ok(carried) => carried,
        Err(CarryFault::Unfit) => return Err(ReceiveFault::BadBatch),
        Err(CarryFault::NoMemory) => return Err(ReceiveFault::NoMemory),
    };
    match act(alloc, lens.ty(Side::Left), &word, &parts.doc) {
        Ok(doc) => Ok((doc, comp)),
        Err(ActFault::NoApply { .. }) => Err(ReceiveFault::BadBatch),
        Err(ActFault::NoMemory) => Err(ReceiveFault::NoMemory),
    }
}
