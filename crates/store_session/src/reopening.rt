//! The session for which payloads stand.

ghost use Rattle.std.specs.Prelude.{◌≡◌, ◌<◌, ◌≤◌, ◌+◌, length, take, Some, Ok, IfOk, MatchResult};
ghost use Rattle.serde_json.specs.View.{view};
ghost use Rattle.edit_module.specs.Views.{change_tree};
ghost use Rattle.lens_core.specs.Consistency.{IsConsistent};
ghost use Rattle.lens_core.specs.LensOf.{IsLensOf};
ghost use Rattle.lens_forms.specs.Forms.{FormTree, form_tree};
ghost use Rattle.edit_session.specs.Step.{IsInStep};
ghost use Rattle.edit_session.specs.Views.{triple_tree};
ghost use Rattle.store_records.specs.RecordJson.{record_of, record_in, version_record, change_record, snapshot_record};
ghost use Rattle.store_records.specs.declared.record_fault.RecordFault;
ghost use Rattle.store_records.specs.StoredLens.{stored_lens};
ghost use Rattle.store_session.specs.ReopenOutcomes.{IsReopenFault, Reaches};
ghost use Rattle.store_session.specs.Stands.{after_record, after_triple, at_start, is_too_new, stands};
ghost use Rattle.store_session.specs.Standings.{standing};

use crate::snapshot_reading::{is_in_step, read_triple};
use edit_module::Change;
use edit_session::{GroupFault, Session, Triple};
use json::Scratch;
use lens_core::EditLens;
use lens_io::Payloads;
use lens_types::Typed;
use serde_json::Value;
use std::alloc::Global;
use store_records::{
    RecordFault, StoredLens, VERSION, change_by_tokens, change_in, is_version_record, read_tree,
    snapshot_by_tokens, snapshot_in,
};
use texts::Bytes;

/// A stored session that was opened.
#[derive(Drop)]
pub struct OpenedRecords<L: EditLens> {
    /// The session, with the triple for which the payloads stand.
    pub session: Session<L>,
    /// How many of the records are changes.
    pub count: u64,
    /// The version of the store: 1 or 2.
    pub version: u64,
}

/// The session for which the payloads of a store stand, the number of its changes, and its version.
///
/// The lens has the meanings of `stored`, which is `stored_lens` of the payloads. A refusal is that of the first record
/// that is at fault, and the lens is then dropped:
/// - `BadRecord`: if and only if the record is not a version, entry, group or snapshot record; or it is a version
///   record in a store that has version 2 by then, or a group record in one that has version 1; or its change is
///   refused, or in its snapshot a document is not of its type or the complement does not fit.
/// - `NotConsistent`: if and only if the record is a snapshot of documents of their types and a complement that fits,
///   which are not consistent.
/// - `NoMemory`: only if memory ran out.
///
/// docs/FORMATS.md has the rules. It takes time in proportion to the payloads, beside what changes and snapshots take.
pub fn reopen<L: EditLens + Drop>(
    alloc: Global,
    lens: L,
    stored: &StoredLens,
    payloads: &Payloads,
) -> Result<OpenedRecords<L>, RecordFault>
    requires means { IsLensOf (L.left_type lens) (L.right_type lens) (L.start lens) (L.holds lens) (L.carried lens)
        (form_tree stored.now.typed) }
    requires stored { stored_lens payloads.now ≡ Some (form_tree stored.now.typed, stored.now.version) }

    ensures stands { MatchResult result
        (λ opened. stands payloads.now
        ≡ Ok (standing (form_tree stored.now.typed) (triple_tree opened.session.triple) opened.count opened.version))
        (IsReopenFault (stands payloads.now)) }
    ensures lens { IfOk result (λ opened. opened.session.lens ≡ lens) }

    // The session is in step, whatever the payloads are.
    ensures consistent { IfOk result (λ opened.
        IsInStep (IsConsistent (form_tree stored.now.typed)) (triple_tree opened.session.triple)) }
{
    let opened = reopen_first(alloc, lens, stored, payloads, payloads.as_slice().len())?;
    // The proof needs that the session is in step, which this call says.
    let _comp = opened.session.comp();
    Ok(opened)
}

/// The session for which the first `kept` payloads of a store stand. [`go_on`] opens the others.
///
/// The lens has the meanings of `stored`, which is `stored_lens` of the payloads. The refusals are those of [`reopen`]
/// over all payloads, if one of the first `kept` is at fault; the lens is then dropped.
pub fn reopen_first<L: EditLens + Drop>(
    alloc: Global,
    lens: L,
    stored: &StoredLens,
    payloads: &Payloads,
    kept: usize,
) -> Result<OpenedRecords<L>, RecordFault>
    requires means { IsLensOf (L.left_type lens) (L.right_type lens) (L.start lens) (L.holds lens) (L.carried lens)
        (form_tree stored.now.typed) }
    requires stored { stored_lens payloads.now ≡ Some (form_tree stored.now.typed, stored.now.version) }
    requires some { 0 < kept }
    requires within { kept ≤ length payloads.now }
    ensures stands { MatchResult result
        (λ opened. stands (take kept payloads.now)
        ≡ Ok (standing (form_tree stored.now.typed) (triple_tree opened.session.triple) opened.count opened.version))
        (IsReopenFault (stands payloads.now)) }
    ensures lens { IfOk result (λ opened. opened.session.lens ≡ lens) }
    ensures count { IfOk result (λ opened. opened.count ≤ kept) }
{
    let records = payloads.as_slice();
    let mut opened = begin(alloc, lens, stored)?;
    take_records(alloc, &stored.typed, records, 1, kept, &mut opened)?;
    Ok(opened)
}

/// Goes on from the session for which the first `kept` payloads of a store stand, to that for which all of them stand.
///
/// The refusals are those of [`reopen`] over all payloads. The session is then that of the payloads before the one at
/// fault.
pub fn go_on<L: EditLens>(
    alloc: Global,
    typed: &Typed,
    payloads: &Payloads,
    kept: usize,
    opened: &mut OpenedRecords<L>,
) -> Result<(), RecordFault>
    requires means { IsLensOf (L.left_type opened.old.session.lens) (L.right_type opened.old.session.lens)
        (L.start opened.old.session.lens) (L.holds opened.old.session.lens) (L.carried opened.old.session.lens)
        (form_tree typed.now) }
    requires within { kept ≤ length payloads.now }
    requires stood { stands (take kept payloads.now)
        ≡ Ok (standing (form_tree typed.now)
        (triple_tree opened.old.session.triple) opened.old.count opened.old.version) }
    requires count { opened.old.count ≤ kept }
    ensures stands { Reaches result (stands payloads.now)
        (standing (form_tree typed.now) (triple_tree opened.new.session.triple) opened.new.count opened.new.version) }
    ensures lens { opened.new.session.lens ≡ opened.old.session.lens }
{
    let records = payloads.as_slice();
    take_records(alloc, typed, records, kept, records.len(), opened)
}

// The session before any change.
fn begin<L: EditLens + Drop>(
    alloc: Global,
    lens: L,
    stored: &StoredLens,
) -> Result<OpenedRecords<L>, RecordFault>
    requires means { IsLensOf (L.left_type lens) (L.right_type lens) (L.start lens) (L.holds lens) (L.carried lens)
        (form_tree stored.now.typed) }
    ensures stands { MatchResult result
        (λ o. standing (form_tree stored.now.typed) (triple_tree o.session.triple) o.count o.version
        ≡ at_start (form_tree stored.now.typed, stored.now.version))
        (λ fault. fault ≡ RecordFault.NoMemory) }
    ensures lens { IfOk result (λ o. o.session.lens ≡ lens) }
    ensures count { IfOk result (λ o. o.count ≡ 0) }
{
    let session = Session::start(alloc, lens)?;
    Ok(OpenedRecords {
        session,
        count: 0,
        version: stored.version,
    })
}

// Goes on by the records from the one place on, up to the other.
fn take_records<L: EditLens>(
    alloc: Global,
    typed: &Typed,
    records: &[Bytes],
    from: usize,
    to: usize,
    opened: &mut OpenedRecords<L>,
) -> Result<(), RecordFault>
    requires means { IsLensOf (L.left_type opened.old.session.lens) (L.right_type opened.old.session.lens)
        (L.start opened.old.session.lens) (L.holds opened.old.session.lens) (L.carried opened.old.session.lens)
        (form_tree typed.now) }
    requires order { from ≤ to }
    requires within { to ≤ length records.now }
    requires stood { stands (take from records.now)
        ≡ Ok (standing (form_tree typed.now)
        (triple_tree opened.old.session.triple) opened.old.count opened.old.version) }
    requires count { opened.old.count ≤ from }
    ensures stands { MatchResult result
        (λ _. stands (take to records.now)
        ≡ Ok (standing (form_tree typed.now)
        (triple_tree opened.new.session.triple) opened.new.count opened.new.version))
        (IsReopenFault (stands records.now)) }
    ensures lens { opened.new.session.lens ≡ opened.old.session.lens }
    ensures count { IfOk result (λ _. opened.new.count ≤ to) }
{
    // Room for reading payloads, which is kept from one to the next.
    let mut scratch = Scratch::new(alloc);
    for at in from..to {
        take_record(
            alloc,
            typed,
            at as u64 + 1,
            records[at].as_slice(),
            &mut scratch,
            opened,
        )?;
    }
    Ok(())
}

// Goes on by the record with this number.
fn take_record<L: EditLens>(
    alloc: Global,
    typed: &Typed,
    number: u64,
    payload: &[u8],
    scratch: &mut Scratch,
    opened: &mut OpenedRecords<L>,
) -> Result<(), RecordFault>
    requires means { IsLensOf (L.left_type opened.old.session.lens) (L.right_type opened.old.session.lens)
        (L.start opened.old.session.lens) (L.holds opened.old.session.lens) (L.carried opened.old.session.lens)
        (form_tree typed.now) }
    requires count { opened.old.count < number }
    ensures stands { Reaches result
        (after_record number (standing (form_tree typed.now)
        (triple_tree opened.old.session.triple) opened.old.count opened.old.version)
        (record_in payload.now))
        (standing (form_tree typed.now) (triple_tree opened.new.session.triple) opened.new.count opened.new.version) }
    ensures lens { opened.new.session.lens ≡ opened.old.session.lens }
    ensures count { opened.new.count ≤ opened.old.count + 1 }
{
    match change_by_tokens(alloc, payload, scratch) {
        Some(change) => take_change(number, &change, opened),
        None => take_other(alloc, typed, number, payload, scratch, opened),
    }
}

// Goes on by the record of this payload, which may be one that is no change.
fn take_other<L: EditLens>(
    alloc: Global,
    typed: &Typed,
    number: u64,
    payload: &[u8],
    scratch: &mut Scratch,
    opened: &mut OpenedRecords<L>,
) -> Result<(), RecordFault>
    requires means { IsLensOf (L.left_type opened.old.session.lens) (L.right_type opened.old.session.lens)
        (L.start opened.old.session.lens) (L.holds opened.old.session.lens) (L.carried opened.old.session.lens)
        (form_tree typed.now) }
    requires count { opened.old.count < number }
    ensures stands { Reaches result
        (after_record number (standing (form_tree typed.now)
        (triple_tree opened.old.session.triple) opened.old.count opened.old.version)
        (record_in payload.now))
        (standing (form_tree typed.now) (triple_tree opened.new.session.triple) opened.new.count opened.new.version) }
    ensures lens { opened.new.session.lens ≡ opened.old.session.lens }
    ensures count { opened.new.count ≤ opened.old.count + 1 }
{
    match snapshot_by_tokens(alloc, typed, payload, scratch) {
        Some(triple) => take_triple(alloc, typed, number, triple, opened),
        None => take_by_tree(alloc, typed, number, payload, opened),
    }
}

// Goes on by the record of this payload, whose tree decides.
fn take_by_tree<L: EditLens>(
    alloc: Global,
    typed: &Typed,
    number: u64,
    payload: &[u8],
    opened: &mut OpenedRecords<L>,
) -> Result<(), RecordFault>
    requires means { IsLensOf (L.left_type opened.old.session.lens) (L.right_type opened.old.session.lens)
        (L.start opened.old.session.lens) (L.holds opened.old.session.lens) (L.carried opened.old.session.lens)
        (form_tree typed.now) }
    requires count { opened.old.count < number }
    ensures stands { Reaches result
        (after_record number (standing (form_tree typed.now)
        (triple_tree opened.old.session.triple) opened.old.count opened.old.version)
        (record_in payload.now))
        (standing (form_tree typed.now) (triple_tree opened.new.session.triple) opened.new.count opened.new.version) }
    ensures lens { opened.new.session.lens ≡ opened.old.session.lens }
    ensures count { opened.new.count ≤ opened.old.count + 1 }
{
    let Some(tree) = read_tree(alloc, payload)? else {
        return Err(RecordFault::BadRecord { number });
    };
    take_tree(alloc, typed, number, &tree, opened)
}

// Goes on by the record of this tree.
fn take_tree<L: EditLens>(
    alloc: Global,
    typed: &Typed,
    number: u64,
    tree: &Value,
    opened: &mut OpenedRecords<L>,
) -> Result<(), RecordFault>
    requires means { IsLensOf (L.left_type opened.old.session.lens) (L.right_type opened.old.session.lens)
        (L.start opened.old.session.lens) (L.holds opened.old.session.lens) (L.carried opened.old.session.lens)
        (form_tree typed.now) }
    requires count { opened.old.count < number }
    ensures stands { Reaches result
        (after_record number (standing (form_tree typed.now)
        (triple_tree opened.old.session.triple) opened.old.count opened.old.version)
        (record_of (view tree.now)))
        (standing (form_tree typed.now) (triple_tree opened.new.session.triple) opened.new.count opened.new.version) }
    ensures lens { opened.new.session.lens ≡ opened.old.session.lens }
    ensures count { opened.new.count ≤ opened.old.count + 1 }
{
    if let Some(change) = change_in(alloc, tree)? {
        return take_change(number, &change, opened);
    }
    if is_version_record(tree) {
        return take_version(number, opened);
    }
    match snapshot_in(tree) {
        Some((comp, left, right)) => {
            take_snapshot(alloc, typed, number, comp, left, right, opened)
        }
        None => Err(RecordFault::BadRecord { number }),
    }
}

// Steps by a change, which counts one. A group is refused at version 1.
fn take_change<L: EditLens>(
    number: u64,
    change: &Change,
    opened: &mut OpenedRecords<L>,
) -> Result<(), RecordFault>
    requires count { opened.old.count < number }
    ensures stands { (form : FormTree)
        → IsLensOf (L.left_type opened.old.session.lens) (L.right_type opened.old.session.lens)
        (L.start opened.old.session.lens) (L.holds opened.old.session.lens) (L.carried opened.old.session.lens) form
        → Reaches result
        (after_record number (standing form (triple_tree opened.old.session.triple) opened.old.count opened.old.version)
        (Some (change_record (change_tree change.now))))
        (standing form (triple_tree opened.new.session.triple) opened.new.count opened.new.version) }
    ensures lens { opened.new.session.lens ≡ opened.old.session.lens }
    ensures count { opened.new.count ≤ opened.old.count + 1 }
{
    if is_too_new(change, opened.version) {
        return Err(RecordFault::BadRecord { number });
    }
    match opened.session.step_all(change) {
        Ok(_words) => {
            opened.count += 1;
            Ok(())
        }
        Err(GroupFault::NoApply { .. }) => Err(RecordFault::BadRecord { number }),
        Err(GroupFault::NoMemory) => Err(RecordFault::NoMemory),
    }
}

// Whether the change is a group, in a store that is not of version 2.
fn is_too_new(change: &Change, version: u64) -> bool
    ensures { result ≡ is_too_new (change_tree change.now) version }
{
    match change {
        Change::One(_) => false,
        Change::Group(_) => version != VERSION,
    }
}

// Makes the version 2, in a store of version 1.
fn take_version<L: EditLens>(number: u64, opened: &mut OpenedRecords<L>) -> Result<(), RecordFault>
    ensures stands { (form : FormTree) → Reaches result
        (after_record number (standing form (triple_tree opened.old.session.triple) opened.old.count opened.old.version)
        (Some version_record))
        (standing form (triple_tree opened.new.session.triple) opened.new.count opened.new.version) }
    ensures lens { opened.new.session.lens ≡ opened.old.session.lens }
    ensures count { opened.new.count ≡ opened.old.count }
{
    if opened.version != 1 {
        return Err(RecordFault::BadRecord { number });
    }
    opened.version = VERSION;
    Ok(())
}

// Takes the triple of a snapshot, whose parts have these trees.
fn take_snapshot<L: EditLens>(
    alloc: Global,
    typed: &Typed,
    number: u64,
    comp: &Value,
    left: &Value,
    right: &Value,
    opened: &mut OpenedRecords<L>,
) -> Result<(), RecordFault>
    requires means { IsLensOf (L.left_type opened.old.session.lens) (L.right_type opened.old.session.lens)
        (L.start opened.old.session.lens) (L.holds opened.old.session.lens) (L.carried opened.old.session.lens)
        (form_tree typed.now) }
    ensures stands { Reaches result
        (after_record number (standing (form_tree typed.now)
        (triple_tree opened.old.session.triple) opened.old.count opened.old.version)
        (Some (snapshot_record (view comp.now, view left.now, view right.now))))
        (standing (form_tree typed.now) (triple_tree opened.new.session.triple) opened.new.count opened.new.version) }
    ensures lens { opened.new.session.lens ≡ opened.old.session.lens }
    ensures count { opened.new.count ≡ opened.old.count }
{
    let Some(triple) = read_triple(alloc, typed, comp, left, right)? else {
        return Err(RecordFault::BadRecord { number });
    };
    take_triple(alloc, typed, number, triple, opened)
}

// Puts a triple of the lens's types in the place of the session's, if it is consistent.
fn take_triple<L: EditLens>(
    alloc: Global,
    typed: &Typed,
    number: u64,
    triple: Triple,
    opened: &mut OpenedRecords<L>,
) -> Result<(), RecordFault>
    requires means { IsLensOf (L.left_type opened.old.session.lens) (L.right_type opened.old.session.lens)
        (L.start opened.old.session.lens) (L.holds opened.old.session.lens) (L.carried opened.old.session.lens)
        (form_tree typed.now) }
    ensures stands { Reaches result
        (after_triple number (standing (form_tree typed.now)
        (triple_tree opened.old.session.triple) opened.old.count opened.old.version)
        (Some (triple_tree triple)))
        (standing (form_tree typed.now) (triple_tree opened.new.session.triple) opened.new.count opened.new.version) }
    ensures lens { opened.new.session.lens ≡ opened.old.session.lens }
    ensures count { opened.new.count ≡ opened.old.count }
{
    if !is_in_step(alloc, typed, &triple)? {
        return Err(RecordFault::NotConsistent { number });
    }
    opened.session.replace(triple);
    Ok(())
}
