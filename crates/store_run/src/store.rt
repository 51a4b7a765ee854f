//! Storing a payload, and then writing its answer.
ghost use Rattle.std.specs.Prelude.{◌≡◌, ◌≤◌, ◌∷◌, [], List, ℕ, OnOk, IfErr, IsErrOf, option_to_list};
ghost use Rattle.lens_io.specs.Calls.{Gave, GaveFront, SinkFailed};
ghost use Rattle.store_run.specs.ApplyCauses.{Counted, stop_in};
ghost use Rattle.store_run.specs.Effects.{StandsOn, Adds, StopsStoring};
ghost use Rattle.store_run.specs.Stopping.{IsOwnStop};

use crate::stop::Stop;
use gate_log::Log;
use lens_io::{Disk, Sink, give_all};
use std::alloc::Global;
use texts::Bytes;

/// Stores a payload, and then writes its answer line. It makes no other call of the disk or of the sink.
///
/// - `LogFull`, `NoMemory`: what is stored and what was written is as before.
/// - `DiskFault`: each image that a crash now may leave holds the payloads from before, with this one or without it.
///   Nothing was written.
/// - `SinkFault`: the payload is stored, and a prefix of the line was written, and not all of it.
pub fn store_and_answer<K: Sink, D: Disk>(
    alloc: Global,
    log: &mut Log,
    disk: &mut D,
    sink: &mut K,
    payload: &[u8],
    line: &[u8],
) -> Result<(), Stop>
    requires stands { (base : List (List ℕ)) × StandsOn D.Disk disk.old log.old base }
    ensures stored { OnOk result
        (Adds K.Sink D.Disk (sink.old, disk.old, log.old) (sink.new, disk.new, log.new)
        line.now (payload.now ∷ [])) }
    ensures stopped { IfErr result (λ stop.
        StopsStoring K.Sink D.Disk (sink.old, disk.old, log.old) (sink.new, disk.new, log.new) stop []
        line.now [] (payload.now ∷ [])) }
    ensures own { IfErr result IsOwnStop }
    ensures counted { Counted K.Sink D.Disk (sink.old, disk.old) (sink.new, disk.new)
        (stop_in result) }
{
    match log.append(alloc, disk, payload) {
        Ok(()) => give_line(sink, line),
        Err(fault) => Err(Stop::at_append(fault)),
    }
}

// Writes an answer line.
pub(crate) fn give_line<K: Sink>(sink: &mut K, line: &[u8]) -> Result<(), Stop>
    ensures given { OnOk result (Gave K.Sink sink.old sink.new line.now) }
    ensures front { IfErr result (λ stop. (stop ≡ Stop.SinkFault)
        × GaveFront K.Sink sink.old sink.new line.now) }
    ensures own { IfErr result IsOwnStop }
    ensures sink_faults { (K.faults sink.old ≤ K.faults sink.new)
        × (K.empty_takes sink.old ≤ K.empty_takes sink.new) }
    ensures sink_fault { IsErrOf result Stop.SinkFault
        → SinkFailed K.Sink sink.old sink.new }
{
    match give_all(sink, line) {
        Ok(()) => Ok(()),
        Err(_) => Err(Stop::SinkFault),
    }
}

/// Stores the version record, if there is one to store. The sink is not called; it is there for the clauses alone.
///
/// - `LogFull`, `NoMemory`: what is stored is as before.
/// - `DiskFault`: each image that a crash now may leave holds the payloads from before, with the version record or
///   without.
pub fn store_version<K: Sink, D: Disk>(
    alloc: Global,
    log: &mut Log,
    disk: &mut D,
    _sink: &K,
    version: &Option<Bytes>,
) -> Result<(), Stop>
    requires stands { (base : List (List ℕ)) × StandsOn D.Disk disk.old log.old base }
    ensures stored { OnOk result
        (Adds K.Sink D.Disk (_sink.now, disk.old, log.old) (_sink.now, disk.new, log.new)
        [] (option_to_list version.now)) }
    ensures stopped { IfErr result (λ stop.
        StopsStoring K.Sink D.Disk (_sink.now, disk.old, log.old) (_sink.now, disk.new, log.new)
        stop [] [] [] (option_to_list version.now)) }
    ensures own { IfErr result IsOwnStop }
    ensures counted { Counted K.Sink D.Disk (_sink.now, disk.old) (_sink.now, disk.new)
        (stop_in result) }
{
    match version {
        Some(payload) => match log.append(alloc, disk, payload.as_slice()) {
            Ok(()) => Ok(()),
            Err(fault) => Err(Stop::at_append(fault)),
        },
        None => Ok(()),
    }
}
