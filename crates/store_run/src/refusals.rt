//! The refusals of a store.
ghost use Rattle.std.specs.Prelude.{◌≡◌, ◌⊎◌, IfOk};
ghost use Rattle.command_ends.specs.Statuses.{IsStatusAmong, apply_statuses, quiet_statuses};
ghost use Rattle.lens_io.specs.Calls.{Gave, GaveFront, SinkFailed};
ghost use Rattle.store_run.specs.ApplyEnds.{SaysStop};
ghost use Rattle.store_run.specs.Stopping.{IsOwnStop};
ghost use Rattle.store_run.specs.Refusals.{refusal_line, WritesRefusal};

use crate::stop::Stop;
use command_ends::Status;
use lens_io::{Sink, give_all};
use std::alloc::{AllocError, Global};
use texts::Bytes;

/// Why a store is refused. Records are numbered from 1.
#[derive(Clone, Copy, Debug, PartialEq, Eq)]
pub enum StoreRefusal {
    /// The disk holds no log.
    NotALog,
    /// The disk is not empty.
    LogExists,
    /// The log has no room for one more record.
    LogFull,
    /// The record passes the end of the disk, or is not one that may stand there.
    BadRecord { number: u64 },
    /// The record is a snapshot whose triple is not consistent.
    NotConsistent { number: u64 },
    /// The last records are not so many changes as are to be undone.
    NothingToUndo,
}

/// Ends a command by a refusal: its line `store refused: REASON` is written. Only a line with the number of a record
/// allocates.
pub fn refuse<K: Sink>(alloc: Global, refusal: StoreRefusal, sink: &mut K) -> Status
    ensures refuses { WritesRefusal K.Sink sink.old sink.new refusal result }
    ensures statuses { IsStatusAmong quiet_statuses result }
    ensures sink_fault { result ≡ Status.SinkFault → SinkFailed K.Sink sink.old sink.new }
{
    match refusal {
        StoreRefusal::NotALog => give_refusal(sink, b"store refused: not-a-log\n"),
        StoreRefusal::LogExists => give_refusal(sink, b"store refused: log-exists\n"),
        StoreRefusal::LogFull => give_refusal(sink, b"store refused: log-full\n"),
        StoreRefusal::BadRecord { number } => give_made(sink, bad_record_line(alloc, number)),
        StoreRefusal::NotConsistent { number } => {
            give_made(sink, not_consistent_line(alloc, number))
        }
        StoreRefusal::NothingToUndo => give_refusal(sink, b"store refused: nothing-to-undo\n"),
    }
}

fn bad_record_line(alloc: Global, number: u64) -> Result<Bytes, AllocError>
    ensures { IfOk result (λ line. line ≡ refusal_line (StoreRefusal.BadRecord number)) }
{
    let line = format!(in alloc; "store refused: bad-record {number}\n")?;
    Ok(Bytes::from_vec(line.into_bytes()))
}

fn not_consistent_line(alloc: Global, number: u64) -> Result<Bytes, AllocError>
    ensures { IfOk result (λ line. line ≡ refusal_line (StoreRefusal.NotConsistent number)) }
{
    let line = format!(in alloc; "store refused: not-consistent {number}\n")?;
    Ok(Bytes::from_vec(line.into_bytes()))
}

// Writes the line of a refusal that was made, if there was memory.
fn give_made<K: Sink>(sink: &mut K, line: Result<Bytes, AllocError>) -> Status
    ensures refuses { (refusal : StoreRefusal) → IfOk line (λ text. text ≡ refusal_line refusal)
        → WritesRefusal K.Sink sink.old sink.new refusal result }
    ensures statuses { IsStatusAmong quiet_statuses result }
    ensures sink_fault { result ≡ Status.SinkFault → SinkFailed K.Sink sink.old sink.new }
{
    match line {
        Ok(line) => give_refusal(sink, line.as_slice()),
        Err(_) => Status::NoMemory,
    }
}

// Writes the line of a refusal.
fn give_refusal<K: Sink>(sink: &mut K, line: &[u8]) -> Status
    ensures gives { (result ≡ Status.StoreRefused) × Gave K.Sink sink.old sink.new line.now
        ⊎ (result ≡ Status.SinkFault) × GaveFront K.Sink sink.old sink.new line.now }
    ensures statuses { IsStatusAmong quiet_statuses result }
    ensures sink_fault { result ≡ Status.SinkFault → SinkFailed K.Sink sink.old sink.new }
{
    match give_all(sink, line) {
        Ok(()) => Status::StoreRefused,
        Err(_) => Status::SinkFault,
    }
}

/// Ends a command that was stopped. If the log is full, the line that says so is written.
pub fn give_stop<K: Sink>(stop: Stop, sink: &mut K) -> Status
    ensures gives { SaysStop K.Sink sink.old sink.new stop result }
    ensures statuses { IsStatusAmong apply_statuses result }
    ensures own { IsOwnStop stop → IsStatusAmong quiet_statuses result }
    ensures sink_fault { result ≡ Status.SinkFault
        → (stop ≡ Stop.SinkFault) × (sink.new ≡ sink.old)
        ⊎ SinkFailed K.Sink sink.old sink.new }
    ensures source { result ≡ Status.SourceFault → stop ≡ Stop.SourceFault }
    ensures disk { result ≡ Status.DiskFault → stop ≡ Stop.DiskFault }
{
    match stop {
        Stop::LogFull => give_refusal(sink, b"store refused: log-full\n"),
        Stop::SourceFault => Status::SourceFault,
        Stop::SinkFault => Status::SinkFault,
        Stop::DiskFault => Status::DiskFault,
        Stop::TooLong => Status::InputTooLong,
        Stop::NoMemory => Status::NoMemory,
    }
}
