//! The commands: each is a call of the crate that has it, and its record follows from that call's clauses.
ghost use Rattle.command_ends.specs.Statuses.{IsStatusAmong, apply_statuses, init_statuses, quiet_statuses};
ghost use Rattle.std.specs.Prelude.{◌≡◌};
ghost use Rattle.lens_io.specs.Calls.{SourceFailed, SinkFailed, DiskFailed};
ghost use Rattle.edithub_main.specs.HubAdds.{HubAdds};
ghost use Rattle.edithub_main.specs.HubStores.{AppliesHub, ShowsHub, VerifiesHub, PacksHub, UndoesHub};
ghost use Rattle.edithub_main.specs.MakesHub.{MakesHub};
ghost use Rattle.store_run.specs.Devices.{devices_of};

use command_ends::Status;
use hub_add::add;
use hub_new::init_hub;
use hub_session::HubSession;
use hub_undo::HubUndo;
use lens_io::{Disk, Sink, Source};
use std::alloc::Global;
use store_run::{apply, pack, show, undo, verify};

/// Makes the store of a hub.
pub fn run_init<S: Source, K: Sink, D: Disk>(
    alloc: Global,
    source: &mut S,
    sink: &mut K,
    disk: &mut D,
) -> Status
    ensures makes { MakesHub S.Source K.Sink D.Disk
        (devices_of source.old sink.old disk.old) (devices_of source.new sink.new disk.new) result }
    ensures statuses { IsStatusAmong init_statuses result }
    ensures source_fault { result ≡ Status.SourceFault → SourceFailed S.Source source.old source.new }
    ensures sink_fault { result ≡ Status.SinkFault → SinkFailed K.Sink sink.old sink.new }
    ensures disk_fault { result ≡ Status.DiskFault → DiskFailed D.Disk disk.old disk.new }
{
    init_hub(alloc, source, sink, disk)
}

/// Goes on with the hub of the store, by a journal.
pub fn run_apply<S: Source, K: Sink, D: Disk>(
    alloc: Global,
    source: &mut S,
    sink: &mut K,
    disk: &mut D,
) -> Status
    ensures applies { AppliesHub S.Source K.Sink D.Disk
        (devices_of source.old sink.old disk.old) (devices_of source.new sink.new disk.new) result }
    ensures statuses { IsStatusAmong apply_statuses result }
    ensures source_fault { result ≡ Status.SourceFault → SourceFailed S.Source source.old source.new }
    ensures sink_fault { result ≡ Status.SinkFault → SinkFailed K.Sink sink.old sink.new }
    ensures disk_fault { result ≡ Status.DiskFault → DiskFailed D.Disk disk.old disk.new }
{
    apply::<S, HubSession, K, D>(alloc, source, sink, disk)
}

/// Shows the hub of the store.
pub fn run_show<K: Sink, D: Disk>(alloc: Global, sink: &mut K, disk: &mut D) -> Status
    ensures shows { ShowsHub K.Sink D.Disk (sink.old, disk.old) (sink.new, disk.new) result }
    ensures statuses { IsStatusAmong quiet_statuses result }
    ensures sink_fault { result ≡ Status.SinkFault → SinkFailed K.Sink sink.old sink.new }
    ensures disk_fault { result ≡ Status.DiskFault → DiskFailed D.Disk disk.old disk.new }
{
    show::<HubSession, K, D>(alloc, sink, disk)
}

/// Counts the changes of the store.
pub fn run_verify<K: Sink, D: Disk>(alloc: Global, sink: &mut K, disk: &mut D) -> Status
    ensures verifies { VerifiesHub K.Sink D.Disk (sink.old, disk.old) (sink.new, disk.new) result }
    ensures statuses { IsStatusAmong quiet_statuses result }
    ensures sink_fault { result ≡ Status.SinkFault → SinkFailed K.Sink sink.old sink.new }
    ensures disk_fault { result ≡ Status.DiskFault → DiskFailed D.Disk disk.old disk.new }
{
    verify::<HubSession, K, D>(alloc, sink, disk)
}

/// Adds a snapshot to the store.
pub fn run_pack<K: Sink, D: Disk>(alloc: Global, sink: &mut K, disk: &mut D) -> Status
    ensures packs { PacksHub K.Sink D.Disk (sink.old, disk.old) (sink.new, disk.new) result }
    ensures statuses { IsStatusAmong quiet_statuses result }
    ensures sink_fault { result ≡ Status.SinkFault → SinkFailed K.Sink sink.old sink.new }
    ensures disk_fault { result ≡ Status.DiskFault → DiskFailed D.Disk disk.old disk.new }
{
    pack::<HubSession, K, D>(alloc, sink, disk)
}

/// Takes the last changes of the store back.
pub fn run_undo<K: Sink, D: Disk>(alloc: Global, count: u64, sink: &mut K, disk: &mut D) -> Status
    ensures undoes { UndoesHub K.Sink D.Disk (sink.old, disk.old) (sink.new, disk.new) result count }
    ensures statuses { IsStatusAmong quiet_statuses result }
    ensures sink_fault { result ≡ Status.SinkFault → SinkFailed K.Sink sink.old sink.new }
    ensures disk_fault { result ≡ Status.DiskFault → DiskFailed D.Disk disk.old disk.new }
{
    undo::<HubUndo, K, D>(alloc, count, sink, disk)
}

/// Adds a view to the hub of the store.
pub fn run_add<S: Source, K: Sink, D: Disk>(
    alloc: Global,
    source: &mut S,
    sink: &mut K,
    disk: &mut D,
) -> Status
    ensures adds { HubAdds S.Source K.Sink D.Disk
        (devices_of source.old sink.old disk.old) (devices_of source.new sink.new disk.new) result }
    ensures statuses { IsStatusAmong init_statuses result }
    ensures source_fault { result ≡ Status.SourceFault → SourceFailed S.Source source.old source.new }
    ensures sink_fault { result ≡ Status.SinkFault → SinkFailed K.Sink sink.old sink.new }
    ensures disk_fault { result ≡ Status.DiskFault → DiskFailed D.Disk disk.old disk.new }
{
    add(alloc, source, sink, disk)
}
