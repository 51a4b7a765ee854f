//! The commands `init` and `import`, which make a store. They are calls of store_new.
ghost use Rattle.command_ends.specs.Statuses.{IsStatusAmong, import_statuses, init_statuses};
ghost use Rattle.std.specs.Prelude.{◌≡◌};
ghost use Rattle.lens_io.specs.Calls.{SourceFailed, SinkFailed, DiskFailed};
ghost use Rattle.editlens_main.specs.ImportsStore.{ImportsStore};
ghost use Rattle.editlens_main.specs.MakesStore.{MakesStore};
ghost use Rattle.store_run.specs.Devices.{devices_of};

use command_ends::Status;
use lens_io::{Disk, Sink, Source};
use std::alloc::Global;
use store_new::{import, init};

/// Makes a store of a program.
pub fn run_init<S: Source, K: Sink, D: Disk>(
    alloc: Global,
    source: &mut S,
    sink: &mut K,
    disk: &mut D,
) -> Status
    ensures makes { MakesStore S.Source K.Sink D.Disk
        (devices_of source.old sink.old disk.old) (devices_of source.new sink.new disk.new) result }
    ensures statuses { IsStatusAmong init_statuses result }
    ensures source_fault { result ≡ Status.SourceFault → SourceFailed S.Source source.old source.new }
    ensures sink_fault { result ≡ Status.SinkFault → SinkFailed K.Sink sink.old sink.new }
    ensures disk_fault { result ≡ Status.DiskFault → DiskFailed D.Disk disk.old disk.new }
{
    init(alloc, source, sink, disk)
}

/// Makes a store of a program that stands for a left document.
pub fn run_import<S: Source, K: Sink, D: Disk>(
    alloc: Global,
    source: &mut S,
    sink: &mut K,
    disk: &mut D,
) -> Status
    ensures imports { ImportsStore S.Source K.Sink D.Disk
        (devices_of source.old sink.old disk.old) (devices_of source.new sink.new disk.new) result }
    ensures statuses { IsStatusAmong import_statuses result }
    ensures source_fault { result ≡ Status.SourceFault → SourceFailed S.Source source.old source.new }
    ensures sink_fault { result ≡ Status.SinkFault → SinkFailed K.Sink sink.old sink.new }
    ensures disk_fault { result ≡ Status.DiskFault → DiskFailed D.Disk disk.old disk.new }
{
    import(alloc, source, sink, disk)
}
