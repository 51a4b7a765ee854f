//! The right site.

ghost use Rattle.std.specs.Prelude.{◌≡◌, ◌+◌, true, IfOk, OnErr, MatchResult};
ghost use Rattle.std.specs.Option.{option_copied};
ghost use Rattle.texts.specs.declared.side.Side.TheVariants.{Right};
ghost use Rattle.doc_values.specs.Documents.{doc_tree};
ghost use Rattle.doc_values.specs.Types.{ty_tree, is_well_formed};
ghost use Rattle.doc_values.specs.Typing.{has};
ghost use Rattle.edit_module.specs.Action.{act};
ghost use Rattle.edit_module.specs.Views.{word_tree};
ghost use Rattle.turn_link.specs.declared.fault.Received.TheVariants.{Taken};
ghost use Rattle.turn_link.specs.RightViews.{right_tree, right_after, IsRight};
ghost use Rattle.turn_link.specs.Sites.{right_start, right_edit, right_seal, right_receive, right_taking};
ghost use Rattle.turn_link.specs.Sites.{right_restart};
ghost use Rattle.turn_link.specs.Turns.{is_turn, IsTurnRefusal};
ghost use Rattle.turn_link.specs.Views.{batch_tree, site_refusal, receive_refusal};

use crate::batch::Batch;
use crate::draft::{append, empty_word, put};
use crate::fault::{ReceiveFault, Received, SiteFault};
use crate::turns::{is_last, is_next, is_stale, is_turn};
use doc_values::{Doc, Ty, init};
use edit_module::{ActFault, Word, act};
use std::alloc::{AllocError, Global};
use std::marker::Model;
use std::rc::Rc;
use texts::{Side, Twin};

// What a right site holds.
#[derive(Drop)]
pub(crate) struct RightParts {
    // How many batches it made or took.
    pub(crate) number: u64,
    // The document without the draft.
    pub(crate) doc: Doc,
    pub(crate) draft: Word,
    // The document after the draft; None where it is the document itself.
    pub(crate) after: Option<Doc>,
    // The last batch that it made.
    pub(crate) last: Option<Batch>,
}

/// The right site: the right document, with a draft of edits that are not sealed yet.
///
/// Its number counts the batches that it made or took. It is its turn where the number is odd. Contracts see a site as
/// its type and its parts.
#[derive(Drop)]
pub struct RightSite {
    ty: Ty,
    parts: RightParts,
    alloc: Global,
}

impl Model for RightSite {
    ghost use Rattle.doc_values.specs.contracts.ty.Ty as ty_type;
    ghost use Rattle.turn_link.specs.contracts.right.RightParts as parts_type;
    ghost use Rattle.turn_link.specs.RightViews.{RightOf, right_code};

    ghost Value = { RightOf };

    ghost coded = { right_code ty_type.the_row.coded parts_type.the_row.coded };

    ghost use Rattle.doc_values.specs.Types.{ty_tree};
    ghost use Rattle.turn_link.specs.RightViews.{IsRightSite};

    ghost view = { λ s. record { ty = s.ty; parts = s.parts } };

    ghost invariant = { λ s. IsRightSite (ty_tree s.ty) s.parts };
}

impl RightSite {
    /// The site with number 0 and the initial document of a type, which is well formed.
    ///
    /// The site keeps the allocator for its calls. It fails only if memory runs out. The type is then dropped.
    pub fn start(alloc: Global, ty: Ty) -> Result<RightSite, AllocError>
        requires { is_well_formed (ty_tree ty) ≡ true }
        ensures ty { IfOk result (λ s. s.ty ≡ ty) }
        ensures start { IfOk result (λ s. right_tree s.parts ≡ right_start (ty_tree ty)) }
    {
        let doc = init(alloc, &ty)?;
        let parts = RightParts {
            number: 0,
            doc,
            draft: empty_word(alloc),
            after: None,
            last: None,
        };
        Ok(RightSite { ty, parts, alloc })
    }

    /// Joins a word to the draft.
    ///
    /// - `NotTurn`: if and only if it is not the site's turn; it has the site's number.
    /// - `NoApply`: if and only if the word does not apply to the document after the draft.
    /// - `NoMemory`: only if memory ran out.
    ///
    /// After an error the site is as it was.
    pub fn edit(&mut self, word: &Word) -> Result<(), SiteFault>
        ensures edits { MatchResult result
            (λ _. right_edit (ty_tree self.old.ty) (right_tree self.old.parts)
            (word_tree word.now) ≡ Ok (right_tree self.new.parts))
            (λ fault. IsTurnRefusal (right_edit (ty_tree self.old.ty) (right_tree self.old.parts)
            (word_tree word.now)) (site_refusal fault)) }
        ensures unchanged { OnErr result (right_tree self.new.parts ≡ right_tree self.old.parts) }
        ensures ty { self.new.ty ≡ self.old.ty }
    {
        let after = edited(self.alloc, &self.ty, &self.parts, word)?;
        let more = word.twin(self.alloc)?;
        append(self.alloc, &mut self.parts.draft, more)?;
        put(&mut self.parts.after, Some(after));
        Ok(())
    }

    /// Seals the draft: it is the batch of the next number, and the draft is empty.
    ///
    /// - `NotTurn`: if and only if it is not the site's turn; it has the site's number.
    /// - `LastNumber`: if and only if the site's number is 2^64 - 1.
    /// - `NoMemory`: only if memory ran out.
    ///
    /// After an error the site is as it was.
    pub fn seal(&mut self) -> Result<Batch, SiteFault>
        ensures seals { MatchResult result
            (λ batch. right_seal (ty_tree self.old.ty) (right_tree self.old.parts) ≡ Ok
            (right_tree self.new.parts, batch_tree batch))
            (λ fault. IsTurnRefusal (right_seal (ty_tree self.old.ty) (right_tree self.old.parts))
            (site_refusal fault)) }
        ensures unchanged { OnErr result (self.new ≡ self.old) }
        ensures ty { self.new.ty ≡ self.old.ty }
    {
        let (parts, batch) = sealed(self.alloc, &self.ty, &self.parts)?;
        self.parts = parts;
        Ok(batch)
    }

    /// Takes a batch of the other site, where it is the next one.
    ///
    /// - `Ahead`: if and only if the batch's number is more than one above the site's, or one above it on the site's
    ///   own turn.
    /// - `BadBatch`: if and only if the batch is the next one and its word does not apply to the document.
    /// - `NoMemory`: only if memory ran out.
    ///
    /// After an error, and after a batch that is stale, the site is as it was.
    pub fn receive(&mut self, batch: &Batch) -> Result<Received, ReceiveFault>
        ensures receives { MatchResult result
            (λ answer. right_receive (ty_tree self.old.ty) (right_tree self.old.parts)
            (batch_tree batch.now) ≡ Ok (right_tree self.new.parts, answer))
            (λ fault. IsTurnRefusal (right_receive (ty_tree self.old.ty) (right_tree self.old.parts)
            (batch_tree batch.now)) (receive_refusal fault)) }
        ensures unchanged { OnErr result (self.new ≡ self.old) }
        ensures ty { self.new.ty ≡ self.old.ty }
    {
        let have = self.parts.number;
        if is_stale(have, batch.number) {
            return Ok(Received::Stale);
        }
        if !is_next(Side::Right, have, batch.number) {
            return Err(ReceiveFault::Ahead {
                have,
                got: batch.number,
            });
        }
        let doc = taken_over(self.alloc, &self.ty, &self.parts, &batch.word)?;
        self.parts.number = batch.number;
        put(&mut self.parts.doc, doc);
        put(&mut self.parts.after, None);
        Ok(Received::Taken)
    }

    /// Empties the draft; all else stays. Does not allocate.
    pub fn restart(&mut self)
        ensures restarts { right_tree self.new.parts ≡ right_restart (right_tree self.old.parts) }
        ensures ty { self.new.ty ≡ self.old.ty }
    {
        put(&mut self.parts.draft, empty_word(self.alloc));
        put(&mut self.parts.after, None);
    }

    /// How many batches the site made or took.
    pub fn number(&self) -> u64
        ensures { result ≡ self.now.parts.number }
    {
        self.parts.number
    }

    /// The document without the draft. It has the site's type.
    pub fn doc(&self) -> &Doc
        ensures doc { result.now ≡ self.now.parts.doc }
        ensures typed { has (ty_tree self.now.ty) (doc_tree result.now) ≡ true }
    {
        &self.parts.doc
    }

    /// The last batch that the site made, if there is one.
    pub fn last(&self) -> Option<&Batch>
        ensures { option_copied result ≡ self.now.parts.last }
    {
        self.parts.last.as_ref()
    }

    // The draft.
    pub(crate) fn draft(&self) -> &Word
        ensures { result.now ≡ self.now.parts.draft }
    {
        &self.parts.draft
    }
}

// The document after the draft.
fn after(parts: &RightParts) -> &Doc
    ensures { doc_tree result.now ≡ right_after parts.now }
{
    match &parts.after {
        Some(after) => after,
        None => &parts.doc,
    }
}

// The document after the draft and a word.
fn edited(alloc: Global, ty: &Ty, parts: &RightParts, word: &Word) -> Result<Doc, SiteFault>
    requires well_formed { is_well_formed (ty_tree ty.now) ≡ true }
    requires kept { IsRight (ty_tree ty.now) parts.now }
    ensures edits { MatchResult result
        (λ d. (is_turn Right parts.now.number ≡ true) ×
        (act (ty_tree ty.now) (word_tree word.now) (right_after parts.now) ≡ Ok (doc_tree d)))
        (λ fault. IsTurnRefusal (right_edit (ty_tree ty.now) (right_tree parts.now)
        (word_tree word.now)) (site_refusal fault)) }
    ensures typed { IfOk result (λ d. has (ty_tree ty.now) (doc_tree d) ≡ true) }
{
    if !is_turn(Side::Right, parts.number) {
        return Err(SiteFault::NotTurn {
            number: parts.number,
        });
    }
    match act(alloc, ty, word, after(parts)) {
        Ok(doc) => Ok(doc),
        Err(ActFault::NoApply { at, cause }) => Err(SiteFault::NoApply { at, cause }),
        Err(ActFault::NoMemory) => Err(SiteFault::NoMemory),
    }
}

// The parts after the draft is sealed, and the batch.
fn sealed(alloc: Global, ty: &Ty, parts: &RightParts) -> Result<(RightParts, Batch), SiteFault>
    requires kept { IsRight (ty_tree ty.now) parts.now }
    ensures seals { MatchResult result
        (λ r. right_seal (ty_tree ty.now) (right_tree parts.now) ≡ Ok
        (right_tree r.0, batch_tree r.1))
        (λ fault. IsTurnRefusal (right_seal (ty_tree ty.now) (right_tree parts.now))
        (site_refusal fault)) }
    ensures kept { IfOk result (λ r. IsRight (ty_tree ty.now) r.0) }
{
    if !is_turn(Side::Right, parts.number) {
        return Err(SiteFault::NotTurn {
            number: parts.number,
        });
    }
    if is_last(parts.number) {
        return Err(SiteFault::LastNumber);
    }
    let number = parts.number + 1;
    let doc = after(parts).twin(alloc)?;
    let word = parts.draft.twin(alloc)?;
    let word = Rc::new(alloc, word)?;
    let batch = Batch { number, word };
    let last = batch.twin(alloc)?;
    let next = RightParts {
        number,
        doc,
        draft: empty_word(alloc),
        after: None,
        last: Some(last),
    };
    Ok((next, batch))
}

// The document after a word of the other side.
fn taken_over(alloc: Global, ty: &Ty, parts: &RightParts, word: &Word) -> Result<Doc, ReceiveFault>
    requires well_formed { is_well_formed (ty_tree ty.now) ≡ true }
    requires kept { IsRight (ty_tree ty.now) parts.now }
    ensures takes { MatchResult result
        (λ d. right_taking (right_tree parts.now)
        (act (ty_tree ty.now) (word_tree word.now) (doc_tree parts.now.doc))
        ≡ Ok (
          record
              (right_tree parts.now) { number = parts.now.number + 1; doc = doc_tree d },
          Taken,
        ))
        (λ fault. IsTurnRefusal (right_taking (right_tree parts.now)
        (act (ty_tree ty.now) (word_tree word.now) (doc_tree parts.now.doc)))
        (receive_refusal fault)) }
    ensures typed { IfOk result (λ d. has (ty_tree ty.now) (doc_tree d) ≡ true) }
{
    match act(alloc, ty, word, &parts.doc) {
        Ok(doc) => Ok(doc),
        Err(ActFault::NoApply { .. }) => Err(ReceiveFault::BadBatch),
        Err(ActFault::NoMemory) => Err(ReceiveFault::NoMemory),
    }
}
