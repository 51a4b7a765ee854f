//! The session that the payloads of a store represent, opened in two parts.

ghost use Rattle.std.specs.Prelude.{◌≡◌, ◌<◌, ◌≤◌, length, take, Some, Ok, IfOk, MatchResult};
ghost use Rattle.edit_session.specs.Step.{IsInStep};
ghost use Rattle.edit_session.specs.Views.{triple_tree};
ghost use Rattle.lens_core.specs.Consistency.{IsConsistent};
ghost use Rattle.lens_forms.specs.Forms.{form_tree};
ghost use Rattle.store_records.specs.StoredLens.{stored_lens};
ghost use Rattle.store_session.specs.ReopenOutcomes.{IsReopenFault, Reaches};
ghost use Rattle.store_session.specs.Stands.{stands};
ghost use Rattle.store_session.specs.Standings.{standing};
ghost use Rattle.store_undo.specs.Making.{StoodTwice, kept_before};
ghost use Rattle.store_undo.specs.UndoRecords.{version_due};

use edit_session::{Session, Triple};
use lens_flat::Flat;
use lens_io::Payloads;
use lens_types::Typed;
use std::alloc::{AllocError, Global};
use store_records::{RecordFault, StoredLens, stored_lens, version_payload};
use store_session::{OpenedRecords, go_on, reopen_first};
use texts::{Bytes, Twin};

// The version of a store whose version record is still to be stored.
const FIRST_VERSION: u64 = 1;

// A session that was opened, and the triple that it had before the last records.
#[derive(Drop)]
pub(crate) struct OpenedTwice {
    pub(crate) opened: OpenedRecords<Flat>,
    pub(crate) earlier: Triple,
}

// The session that payloads represent, over the lens of the first one, with the triple from before the last `count`
// payloads. If there are not so many behind the first one, the triple is that of all.
pub(crate) fn open(
    alloc: Global,
    count: u64,
    payloads: &Payloads,
) -> Result<OpenedTwice, RecordFault>
    ensures stands { MatchResult result (StoodTwice count payloads.now) (IsReopenFault (stands payloads.now)) }
{
    match stored_lens(alloc, payloads) {
        Ok(stored) => open_with(alloc, &stored, count, payloads),
        Err(fault) => Err(fault),
    }
}

#[tactic(auto, using(lens_flat::proofs::FormLenses::is_lens_of))]
fn open_with(
    alloc: Global,
    stored: &StoredLens,
    count: u64,
    payloads: &Payloads,
) -> Result<OpenedTwice, RecordFault>
    requires stored { stored_lens payloads.now ≡ Some (form_tree stored.now.typed, stored.now.version) }
    ensures stands { MatchResult result (StoodTwice count payloads.now) (IsReopenFault (stands payloads.now)) }
{
    let lens = Flat::compile(alloc, &stored.typed)?;
    let kept = kept_before(count, payloads.as_slice().len());
    let mut opened = reopen_first(alloc, lens, stored, payloads, kept)?;
    let earlier = open_rest(alloc, &stored.typed, payloads, kept, &mut opened)?;
    Ok(OpenedTwice { opened, earlier })
}

// Opens the payloads behind the first ones, which are so many. Returns the triple from before them.
#[tactic(auto, using(lens_flat::proofs::FormLenses::is_lens_of))]
fn open_rest(
    alloc: Global,
    typed: &Typed,
    payloads: &Payloads,
    kept: usize,
    opened: &mut OpenedRecords<Flat>,
) -> Result<Triple, RecordFault>
    requires form { form_tree opened.old.session.lens.typed ≡ form_tree typed.now }
    requires within { kept ≤ length payloads.now }
    requires stood { stands (take kept payloads.now)
        ≡ Ok (standing (form_tree typed.now) (triple_tree opened.old.session.triple) opened.old.count
        opened.old.version) }
    requires count { opened.old.count ≤ kept }
    ensures stands { Reaches result (stands payloads.now)
        (standing (form_tree typed.now) (triple_tree opened.new.session.triple) opened.new.count opened.new.version) }
    ensures earlier { IfOk result (λ t. triple_tree t ≡ triple_tree opened.old.session.triple) }
    ensures in_step { IfOk result (λ t. IsInStep (IsConsistent (form_tree typed.now)) (triple_tree t)) }
    ensures lens { opened.new.session.lens ≡ opened.old.session.lens }
{
    let earlier = triple_of(alloc, &opened.session)?;
    go_on(alloc, typed, payloads, kept, opened)?;
    Ok(earlier)
}

/// How many payloads are before the last ones; all, unless so many are behind the first one. Does not allocate.
pub fn kept_before(count: u64, all: usize) -> usize
    ensures is { result ≡ kept_before count all }
    ensures within { result ≤ all }
    ensures some { 0 < all → 0 < result }
{
    if count < all as u64 {
        return all - count as usize;
    }
    all
}

// A copy of the triple of a session.
pub(crate) fn triple_of(alloc: Global, session: &Session<Flat>) -> Result<Triple, AllocError>
    ensures is { IfOk result (λ t. triple_tree t ≡ triple_tree session.now.triple) }
    ensures consistent { IfOk result (λ t. IsInStep (IsConsistent (form_tree session.now.lens.typed)) (triple_tree t)) }
{
    let left = session.left().twin(alloc)?;
    let comp = session.comp().twin(alloc)?;
    let right = session.right().twin(alloc)?;
    Ok(Triple { left, comp, right })
}

// The version record of a store of version 1; a store of version 2 has it.
pub(crate) fn version_record(alloc: Global, version: u64) -> Result<Option<Bytes>, AllocError>
    ensures { IfOk result (λ payload. payload ≡ version_due version) }
{
    if version == FIRST_VERSION {
        return Ok(Some(version_payload(alloc)?));
    }
    Ok(None)
}
