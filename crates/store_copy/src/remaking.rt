//! The commands `compact`, `copy` and `back`, from their first call of a disk on.
ghost use Rattle.command_ends.specs.Statuses.{IsStatusAmong, quiet_statuses};
ghost use Rattle.std.specs.Prelude.{◌≡◌, ◌⊎◌, ◌<◌, List, ℕ, length, Ok, Err, IfSome, IsErrOf, IsNone, MatchResult};
ghost use Rattle.store_run.specs.declared.undo_session.MakingFault.{MakingFault};
ghost use Rattle.lens_io.specs.Calls.{SinkFailed, DiskFailed};
ghost use Rattle.store_run.specs.Opening.{FailsToOpen, IsRefusedFor};
ghost use Rattle.store_run.specs.Refusals.{IsOpening};
ghost use Rattle.store_run.specs.Stores.{Store, RefusedStore};
ghost use Rattle.store_new.specs.NewRooms.{PlanHasNoRoom};
ghost use Rattle.store_copy.specs.NewPayloads.{IsAllowed, IsCompacted, IsCopied, IsPlanned, IsTakenBack};
ghost use Rattle.store_copy.specs.RemakeEnds.{EndsRemade, EndsUnmade};
ghost use Rattle.store_copy.specs.Remakes.{Remakes};
ghost use Rattle.store_copy.specs.Unmade.{unopened_by};

use crate::new_payloads::{Remaking, new_payloads};
use crate::session::RemadeSession;
use command_ends::Status;
use lens_io::{Disk, Sink};
use std::alloc::Global;
use store_new::{LOG_EXISTS, StoreText, give_line, make_store};
use store_run::{MakingFault, OpenFault, StoredSession, read_store, refuse_store};

/// Reads a store, and makes a store of its state alone on another disk, which has to be empty.
///
/// - `remakes`: after `Done` the new store has what gives the lens, and one snapshot. It represents the same state, and
///   so does each image of it that a crash may leave. The line `compacted N M` was written. Nothing is written to the
///   disk of the store, and no crash leaves anything new on it.
/// - `statuses`: it ends by one of five statuses, whatever the disks hold. `sink_fault`, `disk_fault`: these come only
///   if that device failed.
pub fn compact<A: RemadeSession + Drop, K: Sink, D: Disk, E: Disk>(
    alloc: Global,
    from: &mut D,
    to: &mut E,
    sink: &mut K,
) -> Status
    ensures remakes { Remakes K.Sink D.Disk E.Disk (sink.old, from.old, to.old)
        (sink.new, from.new, to.new) result
        A.StoredSession (IsCompacted A.StoredSession A.beginning) }
    ensures statuses { IsStatusAmong quiet_statuses result }
    ensures sink_fault { result ≡ Status.SinkFault → SinkFailed K.Sink sink.old sink.new }
    ensures disk_fault { result ≡ Status.DiskFault
        → DiskFailed D.Disk from.old from.new ⊎ DiskFailed E.Disk to.old to.new }
{
    remake::<A, K, D, E>(alloc, Remaking::Compact, from, to, sink)
}

/// Reads a store, and makes a store of the same records on another disk, which has to be empty.
///
/// - `remakes`: after `Done` the new store has the same payloads, and so represents the same state. So does each image
///   of it that a crash may leave. The line `copied N` was written. Nothing is written to the disk of the store, and no
///   crash leaves anything new on it.
/// - `statuses`: it ends by one of five statuses, whatever the disks hold. `sink_fault`, `disk_fault`: these come only
///   if that device failed.
pub fn copy<A: RemadeSession + Drop, K: Sink, D: Disk, E: Disk>(
    alloc: Global,
    from: &mut D,
    to: &mut E,
    sink: &mut K,
) -> Status
    ensures remakes { Remakes K.Sink D.Disk E.Disk (sink.old, from.old, to.old)
        (sink.new, from.new, to.new) result
        A.StoredSession (IsCopied A.StoredSession) }
    ensures statuses { IsStatusAmong quiet_statuses result }
    ensures sink_fault { result ≡ Status.SinkFault → SinkFailed K.Sink sink.old sink.new }
    ensures disk_fault { result ≡ Status.DiskFault
        → DiskFailed D.Disk from.old from.new ⊎ DiskFailed E.Disk to.old to.new }
{
    remake::<A, K, D, E>(alloc, Remaking::Copy, from, to, sink)
}

/// Reads a store, and makes a store that goes back on another disk, which has to be empty: the same records, and behind
/// them a snapshot of the state after the record with this number. If there are fewer records, it is that of the last
/// one. A view that was added to a hub later is in the snapshot too, with what its lens makes of the earlier document.
///
/// - `remakes`: after `Done` the new store has the same payloads and the snapshot, and represents the earlier state. So
///   does each image of it that a crash may leave. The line `back N` was written. Nothing is written to the disk of the
///   store, and no crash leaves anything new on it.
/// - `statuses`: it ends by one of five statuses, whatever the disks hold. `sink_fault`, `disk_fault`: these come only
///   if that device failed.
pub fn back<A: RemadeSession + Drop, K: Sink, D: Disk, E: Disk>(
    alloc: Global,
    number: usize,
    from: &mut D,
    to: &mut E,
    sink: &mut K,
) -> Status
    requires { 0 < number }
    ensures remakes { Remakes K.Sink D.Disk E.Disk (sink.old, from.old, to.old)
        (sink.new, from.new, to.new) result
        A.StoredSession (IsTakenBack A.StoredSession A.earlier number) }
    ensures statuses { IsStatusAmong quiet_statuses result }
    ensures sink_fault { result ≡ Status.SinkFault → SinkFailed K.Sink sink.old sink.new }
    ensures disk_fault { result ≡ Status.DiskFault
        → DiskFailed D.Disk from.old from.new ⊎ DiskFailed E.Disk to.old to.new }
{
    remake::<A, K, D, E>(alloc, Remaking::Back { number }, from, to, sink)
}

// Reads a store, and makes another one of it. The other disk is tested first.
fn remake<A: RemadeSession + Drop, K: Sink, D: Disk, E: Disk>(
    alloc: Global,
    way: Remaking,
    from: &mut D,
    to: &mut E,
    sink: &mut K,
) -> Status
    ensures remakes { IsAllowed way
        → Remakes K.Sink D.Disk E.Disk (sink.old, from.old, to.old) (sink.new, from.new, to.new) result
        A.StoredSession (IsPlanned A.StoredSession A.beginning A.earlier way) }
    ensures statuses { IsStatusAmong quiet_statuses result }
    ensures sink_fault { result ≡ Status.SinkFault → SinkFailed K.Sink sink.old sink.new }
    ensures disk_fault { result ≡ Status.DiskFault
        → DiskFailed D.Disk from.old from.new ⊎ DiskFailed E.Disk to.old to.new }
{
    match to.len() {
        Ok(0) => remake_empty::<A, K, D, E>(alloc, way, from, to, sink),
        Ok(_) => give_line(sink, LOG_EXISTS, Status::StoreRefused),
        Err(_) => Status::DiskFault,
    }
}

// The same onto an empty disk.
fn remake_empty<A: RemadeSession + Drop, K: Sink, D: Disk, E: Disk>(
    alloc: Global,
    way: Remaking,
    from: &mut D,
    to: &mut E,
    sink: &mut K,
) -> Status
    requires empty { IfSome (E.content to.old) (λ bytes. length bytes ≡ 0) }
    ensures ends { IsAllowed way → (store : Store D.Disk A.StoredSession from.old)
        → EndsRemade K.Sink D.Disk E.Disk (sink.old, from.old, to.old)
        (sink.new, from.new, to.new) result
        (IsPlanned A.StoredSession A.beginning A.earlier way store.payloads store.state store.version) }
    ensures room { IsAllowed way → (store : Store D.Disk A.StoredSession from.old)
        → result ≡ Status.DiskFault
        → IsNone (D.room from.old) ⊎ IfSome (E.room to.old) (PlanHasNoRoom
        (IsPlanned A.StoredSession A.beginning A.earlier way store.payloads store.state store.version)) }
    ensures refused { (other : RefusedStore D.Disk A.StoredSession from.old)
        → EndsUnmade K.Sink D.Disk E.Disk (sink.old, from.old, to.old)
        (sink.new, from.new, to.new) result other.reason }
    ensures opening { IsOpening D.Disk from.old from.new }
    ensures statuses { IsStatusAmong quiet_statuses result }
    ensures sink_fault { result ≡ Status.SinkFault → SinkFailed K.Sink sink.old sink.new }
    ensures disk_fault { result ≡ Status.DiskFault
        → DiskFailed D.Disk from.old from.new ⊎ DiskFailed E.Disk to.old to.new }
{
    match read_text::<A, D>(alloc, way, from) {
        Ok(text) => make_store(alloc, &text.payloads, &text.lines, sink, to),
        Err(fault) => refuse_store(alloc, fault, sink),
    }
}

// Reads a store, and makes the payloads and the line of the new one. Nothing is written to the disk.
fn read_text<A: RemadeSession + Drop, D: Disk>(
    alloc: Global,
    way: Remaking,
    disk: &mut D,
) -> Result<StoreText, OpenFault>
    ensures made { IsAllowed way
        → (store : Store D.Disk A.StoredSession disk.old) → MatchResult result
        (λ text. IsPlanned A.StoredSession A.beginning A.earlier way store.payloads store.state store.version
        text.payloads text.lines.items)
        FailsToOpen }
    ensures refused { (other : RefusedStore D.Disk A.StoredSession disk.old)
        → MatchResult result (λ _. ⊥) (IsRefusedFor other.reason) }
    ensures opening { IsOpening D.Disk disk.old disk.new }
    ensures cause { IsErrOf result OpenFault.DiskFault → DiskFailed D.Disk disk.old disk.new }
    ensures sure { IsErrOf result OpenFault.DiskFault → IsNone (D.room disk.old) }
{
    match read_store(alloc, disk) {
        Ok(read) => opened_text(new_payloads::<A>(alloc, way, read.payloads)),
        Err(fault) => Err(fault),
    }
}

// What was made of payloads, or what its fault means for the store.
fn opened_text(made: Result<StoreText, MakingFault>) -> Result<StoreText, OpenFault>
    ensures { MatchResult result
        (λ text. made ≡ Ok text)
        (λ fault. (cause : MakingFault) × (made ≡ Err cause) × (fault ≡ unopened_by cause)) }
{
    match made {
        Ok(text) => Ok(text),
        Err(MakingFault::Refused(refusal)) => Err(OpenFault::Refused(refusal)),
        Err(MakingFault::NoMemory) => Err(OpenFault::NoMemory),
    }
}
