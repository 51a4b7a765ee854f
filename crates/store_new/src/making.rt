// Making a store on an empty disk.
ghost use Rattle.std.specs.Prelude.{◌≡◌, ◌⊎◌, ◌<◌, ◌≤◌, [], List, ℕ, length, IfSome, IfErr, OnOk, OnErr, IsErrOf};
ghost use Rattle.lens_io.specs.Calls.{SinkFailed, DiskFailed};
ghost use Rattle.gate_log.specs.LogOnDisk.{Stands};
ghost use Rattle.store_run.specs.Rooms.{HasNoRoom};
ghost use Rattle.store_new.specs.Making.{EndsStore, EndsStopped, StopsAppending};
ghost use Rattle.store_new.specs.NewRooms.{HasNoRoomToMake};
ghost use Rattle.store_new.specs.NewStores.{EndsMaking, EndsThere};

use crate::giving::give_line;
use command_ends::Status;
use gate_log::{Log, LogFault, create_log};
use lens_io::{Disk, Payloads, Sink};
use std::alloc::Global;

// The line that is written if the disk is not empty.
pub const LOG_EXISTS: &[u8] = b"store refused: log-exists\n";

// The line that is written if the log has no room for one of the payloads.
const LOG_FULL: &[u8] = b"store refused: log-full\n";

/// What a command stores, and what it writes then.
#[derive(Drop)]
pub struct StoreText {
    pub payloads: Payloads,
    pub lines: Vec<u8>,
}

/// Makes an empty log on an empty disk, stores the payloads one after another, and then writes the lines.
///
/// - `room`: over a disk whose room is known, `DiskFault` comes only if it has no room for the mark and its gate, or
///   for the log of the first of the payloads up to one of them, and the gate behind it.
pub fn make_store<K: Sink, D: Disk>(
    alloc: Global,
    payloads: &Payloads,
    lines: &[u8],
    sink: &mut K,
    disk: &mut D,
) -> Status
    ensures ends { EndsStore K.Sink D.Disk (sink.old, disk.old) (sink.new, disk.new)
        payloads.now lines.now result }
    ensures sink_fault { result ≡ Status.SinkFault → SinkFailed K.Sink sink.old sink.new }
    ensures disk_fault { result ≡ Status.DiskFault → DiskFailed D.Disk disk.old disk.new }
    ensures faults { D.faults disk.old ≤ D.faults disk.new }
    ensures room { result ≡ Status.DiskFault
        → IfSome (D.room disk.old) (λ most. HasNoRoomToMake most payloads.now) }
{
    match create_log(disk) {
        Ok(log) => {
            let mut log = log;
            fill_log(alloc, &mut log, payloads, lines, sink, disk)
        }
        Err(LogFault::LogExists) => give_line(sink, LOG_EXISTS, Status::StoreRefused),
        Err(_) => Status::DiskFault,
    }
}

// Stores the payloads in an empty log, and then writes the lines.
fn fill_log<K: Sink, D: Disk>(
    alloc: Global,
    log: &mut Log,
    payloads: &Payloads,
    lines: &[u8],
    sink: &mut K,
    disk: &mut D,
) -> Status
    requires gate { log.old.gate ≡ 8 }
    requires stands { Stands (D.content disk.old) (D.images disk.old) log.old [] }
    requires ends_there { EndsThere D.Disk disk.old [] }
    ensures ends { EndsMaking K.Sink D.Disk (sink.old, disk.old) (sink.new, disk.new)
        payloads.now lines.now result }
    ensures sink_fault { result ≡ Status.SinkFault → SinkFailed K.Sink sink.old sink.new }
    ensures disk_fault { result ≡ Status.DiskFault → DiskFailed D.Disk disk.old disk.new }
    ensures faults { D.faults disk.old ≤ D.faults disk.new }
    ensures room { result ≡ Status.DiskFault
        → IfSome (D.room disk.old) (λ most. HasNoRoom most [] payloads.now) }
{
    match append_all(alloc, log, payloads, disk) {
        Ok(()) => give_line(sink, lines, Status::Done),
        Err(fault) => end_stopped(fault, sink),
    }
}

// Ends a command whose payloads were not all stored.
fn end_stopped<K: Sink>(fault: LogFault, sink: &mut K) -> Status
    ensures ends { EndsStopped K.Sink sink.old sink.new fault result }
    ensures sink_fault { result ≡ Status.SinkFault → SinkFailed K.Sink sink.old sink.new }
{
    match fault {
        LogFault::LogFull => give_line(sink, LOG_FULL, Status::StoreRefused),
        LogFault::NoMemory => Status::NoMemory,
        _ => Status::DiskFault,
    }
}

// Stores the payloads in an empty log, one after another.
fn append_all<D: Disk>(
    alloc: Global,
    log: &mut Log,
    payloads: &Payloads,
    disk: &mut D,
) -> Result<(), LogFault>
    requires gate { log.old.gate ≡ 8 }
    requires stands { Stands (D.content disk.old) (D.images disk.old) log.old [] }
    requires ends_there { EndsThere D.Disk disk.old [] }
    ensures stored { OnOk result (Stands (D.content disk.new) (D.images disk.new) log.new payloads.now) }
    ensures ends_there { OnOk result (EndsThere D.Disk disk.new payloads.now) }
    ensures stopped { IfErr result (StopsAppending D.Disk disk.new payloads.now) }
    ensures faults { D.faults disk.old ≤ D.faults disk.new }
    ensures cause { IsErrOf result LogFault.DiskFault → DiskFailed D.Disk disk.old disk.new }
    ensures room { IsErrOf result LogFault.DiskFault
        → IfSome (D.room disk.old) (λ most. HasNoRoom most [] payloads.now) }
{
    let records = payloads.as_slice();
    for next in 0..records.len() {
        log.append(alloc, disk, records[next].as_slice())?;
    }
    Ok(())
}
