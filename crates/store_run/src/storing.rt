//! Storing the last records of a command, and then writing its lines.
ghost use Rattle.std.specs.Prelude.{◌≡◌, List, ℕ, option_to_list};
ghost use Rattle.command_ends.specs.Statuses.{IsStatusAmong, quiet_statuses};
ghost use Rattle.lens_io.specs.Calls.{SinkFailed, DiskFailed};
ghost use Rattle.store_run.specs.Effects.{StandsOn};
ghost use Rattle.store_run.specs.StoreEnds.{StoreEnds};

use crate::pack_call::pack_store;
use crate::refusals::give_stop;
use command_ends::Status;
use gate_log::Log;
use lens_io::{Disk, Sink};
use std::alloc::Global;
use texts::Bytes;

/// What a command stores behind the payloads of a store, and what it writes then.
#[derive(Drop)]
pub struct MoreText {
    /// The payload.
    pub payload: Bytes,
    /// The lines.
    pub lines: Bytes,
}

/// Stores the version record, if there is one to store, then a payload, and then writes the lines; or ends the command
/// that was stopped there.
///
/// - `ends`: after `Done` the payloads are stored and the lines were written. After any other status what was written
///   and what is stored is as the definition says.
/// - `statuses`: it ends by one of five statuses. `sink_fault`, `disk_fault`: these come only if that device failed.
pub fn store_last<K: Sink, D: Disk>(
    alloc: Global,
    version: &Option<Bytes>,
    more: &MoreText,
    log: &mut Log,
    sink: &mut K,
    disk: &mut D,
) -> Status
    requires stands { (base : List (List ℕ)) × StandsOn D.Disk disk.old log.old base }
    ensures ends { StoreEnds K.Sink D.Disk (sink.old, disk.old, log.old) (sink.new, disk.new, log.new)
        more.now.lines (option_to_list version.now) more.now.payload result }
    ensures statuses { IsStatusAmong quiet_statuses result }
    ensures sink_fault { result ≡ Status.SinkFault → SinkFailed K.Sink sink.old sink.new }
    ensures disk_fault { result ≡ Status.DiskFault → DiskFailed D.Disk disk.old disk.new }
{
    let payload = more.payload.as_slice();
    let lines = more.lines.as_slice();
    match pack_store(alloc, log, disk, sink, version, payload, lines) {
        Ok(()) => Status::Done,
        Err(stop) => give_stop(stop, sink),
    }
}
