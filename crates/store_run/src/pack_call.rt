//! The command `pack`, from its first call of the disk on.
ghost use Rattle.command_ends.specs.Statuses.{IsStatusAmong, IsFinished, quiet_statuses};
ghost use Rattle.std.specs.Prelude.{◌≡◌, ◌⊎◌, ◌∷◌, ◌++◌, [], List, ℕ, Ok, Some, OnOk, IfOk, IfErr, option_to_list};
ghost use Rattle.std.specs.declared.option.Option.{Option};
ghost use Rattle.lens_io.specs.Calls.{SinkFailed, DiskFailed};
ghost use Rattle.gate_log.specs.LogOnDisk.{HoldsPayloads};
ghost use Rattle.store_run.specs.ApplyCauses.{Counted, stop_in};
ghost use Rattle.store_run.specs.CountLines.{packed_line};
ghost use Rattle.store_run.specs.Effects.{StandsOn, Adds, StopsStoring};
ghost use Rattle.store_run.specs.MoreCall.{IsUntouched};
ghost use Rattle.store_run.specs.PackCall.{PacksCall, IsSafePack, EndsPack};
ghost use Rattle.store_run.specs.Refusals.{IsUnwritten, EndsRefused};
ghost use Rattle.store_run.specs.Rooms.{most_bytes, PackHasNoRoom, IsPackCause};
ghost use Rattle.store_run.specs.Stopping.{IsOwnStop};
ghost use Rattle.store_run.specs.Stores.{Store, RefusedStore};

use crate::count_lines::packed_line;
use crate::opening::{open_store, refuse_store};
use crate::refusals::give_stop;
use crate::session::StoredSession;
use crate::stop::Stop;
use crate::store::{store_and_answer, store_version};
use command_ends::Status;
use gate_log::Log;
use lens_io::{Disk, Sink};
use std::alloc::{AllocError, Global};
use texts::Bytes;

/// Opens a store, stores the snapshot of the session for which its payloads stand, and then writes the line of `pack`.
///
/// - `packs`: after `Done` the payloads are those from before, the version record if there was one to store, and the
///   snapshot. They stand for the same state, and the line was written.
/// - `safe`: whatever the status, an image that a crash leaves holds the payloads from before, or these and the version
///   record, or these and the snapshot, and each of these lists stands for the same state. If the sync of the opening
///   failed, nothing has changed.
/// - `exits`: what was written and what is stored after each status, if the payloads stand for a session.
/// - `causes`: over such payloads `StoreRefused` comes only if the log had no room for the version record or the
///   snapshot, and `DiskFault`, if the disk's room is known, only if the disk had none.
/// - `complete`: so with no fault, and if the log has room, the status is `Done` or `NoMemory`.
/// - `refused`: if the bytes of the disk are refused, the line `store refused: REASON` is written, unless the disk
///   failed, whose room is not known then, or memory ran out before. Nothing is written to the disk.
/// - `statuses`: it ends by one of five statuses, whatever the disk holds. `sink_fault`, `disk_fault`: these come only
///   if that device failed.
pub fn pack<A: StoredSession + Drop, K: Sink, D: Disk>(
    alloc: Global,
    sink: &mut K,
    disk: &mut D,
) -> Status
    ensures packs { (store : Store D.Disk A.StoredSession disk.old) → IsFinished result
        → PacksCall K.Sink D.Disk A.StoredSession sink.old (sink.new, disk.new)
        store.payloads store.state store.version }
    ensures safe { (store : Store D.Disk A.StoredSession disk.old)
        → (result ≡ Status.DiskFault)
        × IsUntouched K.Sink D.Disk (sink.old, disk.old) (sink.new, disk.new)
        ⊎ IsSafePack D.Disk A.StoredSession disk.old disk.new
        (D.images disk.old) store.payloads store.state store.version }
    ensures exits { (store : Store D.Disk A.StoredSession disk.old)
        → EndsPack K.Sink D.Disk A.StoredSession (sink.old, disk.old) (sink.new, disk.new)
        store.payloads store.state store.version result }
    ensures causes { (store : Store D.Disk A.StoredSession disk.old)
        → IsPackCause D.Disk A.StoredSession disk.old
        store.payloads store.state store.version result }
    ensures complete { (store : Store D.Disk A.StoredSession disk.old)
        → (SinkFailed K.Sink sink.old sink.new → ⊥)
        → (DiskFailed D.Disk disk.old disk.new → ⊥)
        → (PackHasNoRoom A.StoredSession most_bytes
        store.payloads store.state store.version → ⊥)
        → (result ≡ Status.Done) ⊎ (result ≡ Status.NoMemory) }
    ensures refused { (other : RefusedStore D.Disk A.StoredSession disk.old)
        → IsUnwritten D.Disk disk.old disk.new
        × EndsRefused K.Sink D.Disk (sink.old, disk.old) (sink.new, disk.new) other.reason result }
    ensures statuses { IsStatusAmong quiet_statuses result }
    ensures sink_fault { result ≡ Status.SinkFault → SinkFailed K.Sink sink.old sink.new }
    ensures disk_fault { result ≡ Status.DiskFault → DiskFailed D.Disk disk.old disk.new }
{
    match open_store::<A, D>(alloc, disk) {
        Ok(store) => {
            let mut store = store;
            let open = &mut store;
            pack_session(
                alloc,
                &open.session,
                open.count,
                &open.version,
                &mut open.log,
                sink,
                disk,
            )
        }
        Err(fault) => refuse_store(alloc, fault, sink),
    }
}

// Packs a store that was opened. Its payload and its line are made before anything is stored.
fn pack_session<A: StoredSession, K: Sink, D: Disk>(
    alloc: Global,
    session: &A,
    count: u64,
    version: &Option<Bytes>,
    log: &mut Log,
    sink: &mut K,
    disk: &mut D,
) -> Status
    requires stands { (base : List (List ℕ)) × StandsOn D.Disk disk.old log.old base }
    ensures packs { (before : List (List ℕ))
        → StandsOn D.Disk disk.old log.old before
        → A.stands_for before ≡ Ok (A.state session.now, version.now)
        → count ≡ A.count_of before → IsFinished result
        → PacksCall K.Sink D.Disk A.StoredSession sink.old (sink.new, disk.new)
        before (A.state session.now) version.now }
    ensures safe { (before : List (List ℕ))
        → StandsOn D.Disk disk.old log.old before
        → A.stands_for before ≡ Ok (A.state session.now, version.now)
        → IsSafePack D.Disk A.StoredSession disk.old disk.new
        (HoldsPayloads before) before (A.state session.now) version.now }
    ensures exits { (before : List (List ℕ))
        → StandsOn D.Disk disk.old log.old before
        → A.stands_for before ≡ Ok (A.state session.now, version.now)
        → count ≡ A.count_of before
        → EndsPack K.Sink D.Disk A.StoredSession (sink.old, disk.old) (sink.new, disk.new)
        before (A.state session.now) version.now result }
    ensures statuses { IsStatusAmong quiet_statuses result }
    ensures sink_fault { result ≡ Status.SinkFault → SinkFailed K.Sink sink.old sink.new }
    ensures disk_fault { result ≡ Status.DiskFault → DiskFailed D.Disk disk.old disk.new }
{
    let Ok(packing) = packing_of(alloc, session, count) else {
        return Status::NoMemory;
    };
    let snapshot = packing.snapshot.as_slice();
    let line = packing.line.as_slice();
    match pack_store(alloc, log, disk, sink, version, snapshot, line) {
        Ok(()) => Status::Done,
        Err(stop) => give_stop(stop, sink),
    }
}

// What `pack` stores and writes.
#[derive(Drop)]
struct Packing {
    snapshot: Bytes,
    line: Bytes,
}

// The snapshot, and the line `packed N`.
fn packing_of<A: StoredSession>(
    alloc: Global,
    session: &A,
    count: u64,
) -> Result<Packing, AllocError>
    ensures snapshot { IfOk result (λ p. p.snapshot ≡ A.snapshot_text (A.state session.now)) }
    ensures has { OnOk result (A.has_snapshot (A.state session.now)) }
    ensures line { IfOk result (λ p. p.line ≡ packed_line count) }
{
    let snapshot = session.snapshot(alloc)?;
    let line = packed_line(alloc, count)?;
    Ok(Packing { snapshot, line })
}

/// Stores the version record, if there is one to store, then the snapshot, and then writes the line of `pack`.
///
/// The errors are those of [`store_and_answer`]. They come at the version record or at the snapshot.
pub fn pack_store<K: Sink, D: Disk>(
    alloc: Global,
    log: &mut Log,
    disk: &mut D,
    sink: &mut K,
    version: &Option<Bytes>,
    snapshot: &[u8],
    line: &[u8],
) -> Result<(), Stop>
    requires stands { (base : List (List ℕ)) × StandsOn D.Disk disk.old log.old base }
    ensures packed { OnOk result
        (Adds K.Sink D.Disk (sink.old, disk.old, log.old) (sink.new, disk.new, log.new)
        line.now (option_to_list version.now ++ snapshot.now ∷ [])) }
    ensures stopped { IfErr result (λ stop.
        StopsStoring K.Sink D.Disk (sink.old, disk.old, log.old) (sink.new, disk.new, log.new)
        stop [] [] [] (option_to_list version.now)
        ⊎ StopsStoring K.Sink D.Disk (sink.old, disk.old, log.old) (sink.new, disk.new, log.new)
        stop [] line.now (option_to_list version.now) (snapshot.now ∷ [])) }
    ensures own { IfErr result IsOwnStop }
    ensures counted { Counted K.Sink D.Disk (sink.old, disk.old) (sink.new, disk.new)
        (stop_in result) }
{
    store_version(alloc, log, disk, sink, version)?;
    store_and_answer(alloc, log, disk, sink, snapshot, line)
}
