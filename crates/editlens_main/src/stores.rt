//! The commands over a store that is there: `apply`, `show`, `verify`, `pack` and `undo`. Each is the call of store_run
//! with the sessions of store_session, and `undo` with those of store_undo.
ghost use Rattle.command_ends.specs.Statuses.{IsStatusAmong, apply_statuses, quiet_statuses};
ghost use Rattle.std.specs.Prelude.{◌≡◌};
ghost use Rattle.lens_io.specs.Calls.{SourceFailed, SinkFailed, DiskFailed};
ghost use Rattle.editlens_main.specs.Stores.{AppliesPair, ShowsPair, VerifiesPair, PacksPair, UndoesPair};
ghost use Rattle.store_run.specs.Devices.{devices_of};

use command_ends::Status;
use lens_io::{Disk, Sink, Source};
use std::alloc::Global;
use store_run::{apply, pack, show, undo, verify};
use store_session::StoreSession;
use store_undo::PairUndo;

/// Goes on with the session of the store, by a journal.
pub fn run_apply<S: Source, K: Sink, D: Disk>(
    alloc: Global,
    source: &mut S,
    sink: &mut K,
    disk: &mut D,
) -> Status
    ensures applies { AppliesPair S.Source K.Sink D.Disk
        (devices_of source.old sink.old disk.old) (devices_of source.new sink.new disk.new) result }
    ensures statuses { IsStatusAmong apply_statuses result }
    ensures source_fault { result ≡ Status.SourceFault → SourceFailed S.Source source.old source.new }
    ensures sink_fault { result ≡ Status.SinkFault → SinkFailed K.Sink sink.old sink.new }
    ensures disk_fault { result ≡ Status.DiskFault → DiskFailed D.Disk disk.old disk.new }
{
    apply::<S, StoreSession, K, D>(alloc, source, sink, disk)
}

/// Shows the state of the store.
pub fn run_show<K: Sink, D: Disk>(alloc: Global, sink: &mut K, disk: &mut D) -> Status
    ensures shows { ShowsPair K.Sink D.Disk (sink.old, disk.old) (sink.new, disk.new) result }
    ensures statuses { IsStatusAmong quiet_statuses result }
    ensures sink_fault { result ≡ Status.SinkFault → SinkFailed K.Sink sink.old sink.new }
    ensures disk_fault { result ≡ Status.DiskFault → DiskFailed D.Disk disk.old disk.new }
{
    show::<StoreSession, K, D>(alloc, sink, disk)
}

/// Counts the changes of the store.
pub fn run_verify<K: Sink, D: Disk>(alloc: Global, sink: &mut K, disk: &mut D) -> Status
    ensures verifies { VerifiesPair K.Sink D.Disk (sink.old, disk.old) (sink.new, disk.new) result }
    ensures statuses { IsStatusAmong quiet_statuses result }
    ensures sink_fault { result ≡ Status.SinkFault → SinkFailed K.Sink sink.old sink.new }
    ensures disk_fault { result ≡ Status.DiskFault → DiskFailed D.Disk disk.old disk.new }
{
    verify::<StoreSession, K, D>(alloc, sink, disk)
}

/// Adds a snapshot to the store.
pub fn run_pack<K: Sink, D: Disk>(alloc: Global, sink: &mut K, disk: &mut D) -> Status
    ensures packs { PacksPair K.Sink D.Disk (sink.old, disk.old) (sink.new, disk.new) result }
    ensures statuses { IsStatusAmong quiet_statuses result }
    ensures sink_fault { result ≡ Status.SinkFault → SinkFailed K.Sink sink.old sink.new }
    ensures disk_fault { result ≡ Status.DiskFault → DiskFailed D.Disk disk.old disk.new }
{
    pack::<StoreSession, K, D>(alloc, sink, disk)
}

/// Takes the store back to what it was before its last changes.
pub fn run_undo<K: Sink, D: Disk>(alloc: Global, count: u64, sink: &mut K, disk: &mut D) -> Status
    ensures undoes { UndoesPair K.Sink D.Disk (sink.old, disk.old) (sink.new, disk.new) result count }
    ensures statuses { IsStatusAmong quiet_statuses result }
    ensures sink_fault { result ≡ Status.SinkFault → SinkFailed K.Sink sink.old sink.new }
    ensures disk_fault { result ≡ Status.DiskFault → DiskFailed D.Disk disk.old disk.new }
{
    undo::<PairUndo, K, D>(alloc, count, sink, disk)
}
