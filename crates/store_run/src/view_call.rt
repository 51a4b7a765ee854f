//! The commands `show` and `verify`, which only read a store.
ghost use Rattle.command_ends.specs.Statuses.{IsStatusAmong, quiet_statuses};
ghost use Rattle.std.specs.Prelude.{◌≡◌, ◌⊎◌, IfOk, IsNone};
ghost use Rattle.lens_io.specs.Calls.{SinkFailed, DiskFailed};
ghost use Rattle.lens_io.specs.DiskRuns.{LeavesOnly};
ghost use Rattle.store_run.specs.CountLines.{consistent_line};
ghost use Rattle.store_run.specs.Refusals.{IsUnwritten, EndsRefused};
ghost use Rattle.store_run.specs.Stores.{Store, RefusedStore};
ghost use Rattle.store_run.specs.ViewCall.{Views, view_text};

use crate::count_lines::consistent_line;
use crate::opening::{open_store, refuse_store};
use crate::session::StoredSession;
use command_ends::Status;
use lens_io::{Disk, Sink, give_all};
use std::alloc::{AllocError, Global};
use texts::Bytes;

/// What a command that only reads a store writes.
#[derive(Clone, Copy, Debug, PartialEq, Eq)]
enum StoreView {
    /// The state lines.
    State,
    /// How many changes were accepted.
    Count,
}

/// Opens a store, and writes the state lines of the session for which its payloads stand.
///
/// - `views`: if the payloads stand for a session, the text is written, unless the disk failed or memory ran out
///   before.
/// - `refused`: if the bytes of the disk are refused, the line `store refused: REASON` is written in its place.
/// - `unwritten`, `moments`: nothing is written to the disk, and a crash leaves nothing new.
/// - `complete`: over such payloads and with no fault the status is `Done` or `NoMemory`.
/// - `statuses`: it ends by one of five statuses, whatever the disk holds.
/// - `sink_fault`, `disk_fault`, `sure`: these statuses come only if that device failed; a disk whose room is known
///   does not.
pub fn show<A: StoredSession + Drop, K: Sink, D: Disk>(
    alloc: Global,
    sink: &mut K,
    disk: &mut D,
) -> Status
    ensures views { (store : Store D.Disk A.StoredSession disk.old)
        → Views K.Sink sink.old sink.new (A.state_text store.state) result }
    ensures refused { (other : RefusedStore D.Disk A.StoredSession disk.old)
        → EndsRefused K.Sink D.Disk (sink.old, disk.old) (sink.new, disk.new)
        other.reason result }
    ensures unwritten { IsUnwritten D.Disk disk.old disk.new }
    ensures moments { LeavesOnly D.Disk disk.old disk.new (D.images disk.old) }
    ensures complete { (store : Store D.Disk A.StoredSession disk.old)
        → (SinkFailed K.Sink sink.old sink.new → ⊥)
        → (DiskFailed D.Disk disk.old disk.new → ⊥)
        → (result ≡ Status.Done) ⊎ (result ≡ Status.NoMemory) }
    ensures statuses { IsStatusAmong quiet_statuses result }
    ensures sink_fault { result ≡ Status.SinkFault → SinkFailed K.Sink sink.old sink.new }
    ensures disk_fault { result ≡ Status.DiskFault → DiskFailed D.Disk disk.old disk.new }
    ensures sure { result ≡ Status.DiskFault → IsNone (D.room disk.old) }
{
    view_store::<A, K, D>(alloc, StoreView::State, sink, disk)
}

/// Opens a store, and writes the line `consistent N`, N the number of changes that were accepted.
///
/// - `views`: if the payloads stand for a session, the text is written, unless the disk failed or memory ran out
///   before.
/// - `refused`: if the bytes of the disk are refused, the line `store refused: REASON` is written in its place.
/// - `unwritten`, `moments`: nothing is written to the disk, and a crash leaves nothing new.
/// - `complete`: over such payloads and with no fault the status is `Done` or `NoMemory`.
/// - `statuses`: it ends by one of five statuses, whatever the disk holds.
/// - `sink_fault`, `disk_fault`, `sure`: these statuses come only if that device failed; a disk whose room is known
///   does not.
pub fn verify<A: StoredSession + Drop, K: Sink, D: Disk>(
    alloc: Global,
    sink: &mut K,
    disk: &mut D,
) -> Status
    ensures views { (store : Store D.Disk A.StoredSession disk.old)
        → Views K.Sink sink.old sink.new
        (consistent_line (A.count_of store.payloads)) result }
    ensures refused { (other : RefusedStore D.Disk A.StoredSession disk.old)
        → EndsRefused K.Sink D.Disk (sink.old, disk.old) (sink.new, disk.new)
        other.reason result }
    ensures unwritten { IsUnwritten D.Disk disk.old disk.new }
    ensures moments { LeavesOnly D.Disk disk.old disk.new (D.images disk.old) }
    ensures complete { (store : Store D.Disk A.StoredSession disk.old)
        → (SinkFailed K.Sink sink.old sink.new → ⊥)
        → (DiskFailed D.Disk disk.old disk.new → ⊥)
        → (result ≡ Status.Done) ⊎ (result ≡ Status.NoMemory) }
    ensures statuses { IsStatusAmong quiet_statuses result }
    ensures sink_fault { result ≡ Status.SinkFault → SinkFailed K.Sink sink.old sink.new }
    ensures disk_fault { result ≡ Status.DiskFault → DiskFailed D.Disk disk.old disk.new }
    ensures sure { result ≡ Status.DiskFault → IsNone (D.room disk.old) }
{
    view_store::<A, K, D>(alloc, StoreView::Count, sink, disk)
}

// Opens a store, and writes a view of its session.
fn view_store<A: StoredSession + Drop, K: Sink, D: Disk>(
    alloc: Global,
    view: StoreView,
    sink: &mut K,
    disk: &mut D,
) -> Status
    ensures views { (store : Store D.Disk A.StoredSession disk.old)
        → Views K.Sink sink.old sink.new
        (view_text A.StoredSession view store.state (A.count_of store.payloads)) result }
    ensures refused { (other : RefusedStore D.Disk A.StoredSession disk.old)
        → EndsRefused K.Sink D.Disk (sink.old, disk.old) (sink.new, disk.new)
        other.reason result }
    ensures unwritten { IsUnwritten D.Disk disk.old disk.new }
    ensures moments { LeavesOnly D.Disk disk.old disk.new (D.images disk.old) }
    ensures statuses { IsStatusAmong quiet_statuses result }
    ensures sink_fault { result ≡ Status.SinkFault → SinkFailed K.Sink sink.old sink.new }
    ensures disk_fault { result ≡ Status.DiskFault → DiskFailed D.Disk disk.old disk.new }
    ensures sure { result ≡ Status.DiskFault → IsNone (D.room disk.old) }
{
    match open_store::<A, D>(alloc, disk) {
        Ok(store) => give_view(alloc, &store.session, store.count, view, sink),
        Err(fault) => refuse_store(alloc, fault, sink),
    }
}

// Writes a view of a session.
fn give_view<A: StoredSession, K: Sink>(
    alloc: Global,
    session: &A,
    count: u64,
    view: StoreView,
    sink: &mut K,
) -> Status
    ensures views { Views K.Sink sink.old sink.new
        (view_text A.StoredSession view (A.state session.now) count) result }
    ensures statuses { IsStatusAmong quiet_statuses result }
    ensures sink_fault { result ≡ Status.SinkFault → SinkFailed K.Sink sink.old sink.new }
    ensures no_disk { result ≡ Status.DiskFault → ⊥ }
{
    let Ok(text) = text_of_view(alloc, session, count, view) else {
        return Status::NoMemory;
    };
    match give_all(sink, text.as_slice()) {
        Ok(()) => Status::Done,
        Err(_) => Status::SinkFault,
    }
}

fn text_of_view<A: StoredSession>(
    alloc: Global,
    session: &A,
    count: u64,
    view: StoreView,
) -> Result<Bytes, AllocError>
    ensures { IfOk result
        (λ text. text ≡ view_text A.StoredSession view (A.state session.now) count) }
{
    match view {
        StoreView::State => session.state_lines(alloc),
        StoreView::Count => consistent_line(alloc, count),
    }
}
