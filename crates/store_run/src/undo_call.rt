//! The command `undo`, from its first call of the disk on.
ghost use Rattle.command_ends.specs.Statuses.{IsStatusAmong, quiet_statuses};
ghost use Rattle.std.specs.Prelude.{◌≡◌, List, ℕ, Some};
ghost use Rattle.lens_io.specs.Calls.{SinkFailed, DiskFailed};
ghost use Rattle.store_run.specs.Effects.{StandsOn};
ghost use Rattle.store_run.specs.Refusals.{RefusesStore};
ghost use Rattle.store_run.specs.UndoCall.{UndoEnds};
ghost use Rattle.store_run.specs.Undoes.{Undoes};
ghost use Rattle.store_run.specs.declared.refusals.StoreRefusal.{StoreRefusal};

use crate::opening::{read_store, refuse_store};
use crate::refusals::refuse;
use crate::storing::store_last;
use crate::undo_session::{MakingFault, UndoneSession};
use command_ends::Status;
use gate_log::Log;
use lens_io::{Disk, Payloads, Sink};
use std::alloc::Global;

/// Opens a store, and takes it back to what it was before the last `count` changes.
///
/// It stores a snapshot of that behind the payloads, in a store of version 1 the version record before it, and then
/// writes a line for each document, with a word that takes it back, and the state lines. The payloads and the lines are
/// made before anything is stored.
///
/// `undoes` is `Undoes` in specs/Undoes.antt. Over a store whose last changes can be undone:
///
/// - `continues`: after `Done` the payloads are those from before, the version record if there was one to store, and
///   the snapshot. They represent what there was before the last changes, which is in step. The lines were written, and
///   the word of each line acts on its document from before the call and gives that of the snapshot.
/// - `stops`: what was written and what is stored after each status.
/// - `survives`: whatever the status, an image that a crash leaves holds the payloads from before, or these and the
///   version record, which represent what there was before the call; or these and the snapshot. If the sync of the
///   opening failed, nothing has changed.
/// - `unstored`: after `NoMemory` and `StoreRefused` the snapshot is not stored, whatever a crash leaves.
/// - `caused`: `StoreRefused` comes only if the log had no room for the version record or the snapshot, and
///   `DiskFault`, if the disk's room is known, only if the disk had none. The source is not there, and no item is
///   refused.
/// - `completes`: so with no fault, and if the log has room, the status is `Done` or `NoMemory`.
///
/// Over any other bytes, `refuses`: the line `store refused: REASON` is written, unless the disk failed, whose room is
/// not known then, or memory ran out before. Nothing is written to the disk. The reasons are `not-a-log`,
/// `bad-record N`, `not-consistent N`, and `nothing-to-undo` if and only if the payloads represent a session, and their
/// last `count` records are not all of changes or there are not so many.
///
/// `statuses`: it ends by one of five statuses, whatever the disk holds. `sink_fault`, `disk_fault`: these come only if
/// that device failed.
pub fn undo<A: UndoneSession, K: Sink, D: Disk>(
    alloc: Global,
    count: u64,
    sink: &mut K,
    disk: &mut D,
) -> Status
    ensures undoes { Undoes K.Sink D.Disk A.UndoneSession count ⊥
        (sink.old, disk.old) (sink.new, disk.new) result }
    ensures statuses { IsStatusAmong quiet_statuses result }
    ensures sink_fault { result ≡ Status.SinkFault → SinkFailed K.Sink sink.old sink.new }
    ensures disk_fault { result ≡ Status.DiskFault → DiskFailed D.Disk disk.old disk.new }
{
    match read_store(alloc, disk) {
        Ok(store) => {
            let mut log = store.log;
            undo_payloads::<A, K, D>(alloc, count, &store.payloads, &mut log, sink, disk)
        }
        Err(fault) => refuse_store(alloc, fault, sink),
    }
}

// Undoes the last changes of a store of these payloads.
fn undo_payloads<A: UndoneSession, K: Sink, D: Disk>(
    alloc: Global,
    count: u64,
    payloads: &Payloads,
    log: &mut Log,
    sink: &mut K,
    disk: &mut D,
) -> Status
    requires stands { (base : List (List ℕ)) × StandsOn D.Disk disk.old log.old base }
    ensures ends { (u : A.Undone) → StandsOn D.Disk disk.old log.old payloads.now
        → A.undoing count payloads.now ≡ Some u
        → UndoEnds K.Sink D.Disk A.UndoneSession (sink.old, disk.old) (sink.new, disk.new) payloads.now u result }
    ensures refused { (refusal : StoreRefusal) → A.refusal count payloads.now ≡ Some refusal
        → RefusesStore K.Sink D.Disk (sink.old, disk.old) (sink.new, disk.new) result refusal }
    ensures statuses { IsStatusAmong quiet_statuses result }
    ensures sink_fault { result ≡ Status.SinkFault → SinkFailed K.Sink sink.old sink.new }
    ensures disk_fault { result ≡ Status.DiskFault → DiskFailed D.Disk disk.old disk.new }
{
    match A::make(alloc, count, payloads) {
        Ok(making) => store_last(alloc, &making.version, &making.texts, log, sink, disk),
        Err(MakingFault::Refused(refusal)) => refuse(alloc, refusal, sink),
        Err(MakingFault::NoMemory) => Status::NoMemory,
    }
}
