//! Going on with a session that was opened, by a journal: what comes before the lines and behind them.
ghost use Rattle.command_ends.specs.Statuses.{IsStatusAmong, apply_statuses, status_at_end};
ghost use Rattle.std.specs.Prelude.{◌≡◌, ◌⊎◌, ◌+◌, ◌^◌, ◌<◌, ◌≤◌, [], false, List, ℕ, IfOk, IfErr, IsErrOf};
ghost use Rattle.std.specs.Prelude.{option_to_list};
ghost use Rattle.lens_io.specs.Calls.{Gave, GaveFront, SourceFailed, SinkFailed, DiskFailed};
ghost use Rattle.edit_journal.specs.Pieces.{last_line};
ghost use Rattle.script_input.specs.Taking.{GaveFew};
ghost use Rattle.script_input.specs.declared.limits.TheConstants.{PIECE_BYTES};
ghost use Rattle.store_run.specs.Devices.{devices_of};
ghost use Rattle.store_run.specs.Answered.{Answers, StopsAmong};
ghost use Rattle.store_run.specs.ApplyCauses.{Counted, stop_in};
ghost use Rattle.store_run.specs.Effects.{StandsOn};
ghost use Rattle.store_run.specs.ApplyEnds.{EndsStored, StopsStored, ExitsApply, IsSafeFrom};
ghost use Rattle.store_run.specs.InTime.{StoreAnswersInTime};
ghost use Rattle.store_run.specs.JournalEnds.{EndsJournal, StopsJournal};
ghost use Rattle.store_run.specs.OkLines.{AreOtherLines};
ghost use Rattle.store_run.specs.Stopping.{IsOwnStop};

use crate::journal::{StoreProgress, store_line, store_pieces};
use crate::refusals::give_stop;
use crate::session::StoredSession;
use crate::stop::Stop;
use crate::store::store_version;
use command_ends::Status;
use gate_log::Log;
use lens_io::{Disk, Sink, Source, give_all};
use script_input::{Input, piece_buffer};
use std::alloc::Global;
use texts::Bytes;

/// Answers a whole journal. The errors are those of [`store_pieces`].
pub fn answer_journal<S: Source, A: StoredSession, K: Sink, D: Disk>(
    alloc: Global,
    session: &mut A,
    source: &mut S,
    log: &mut Log,
    disk: &mut D,
    sink: &mut K,
) -> Result<StoreProgress, Stop>
    requires stands { (base : List (List ℕ)) × StandsOn D.Disk disk.old log.old base }
    ensures ended { IfOk result
        (EndsJournal S.Source K.Sink D.Disk A.StoredSession
        (source.old, sink.old, disk.old, log.old)
        (source.new, sink.new, disk.new, log.new)
        (A.state session.old) (record { number = 0; refused = false }) (A.state session.new)) }
    ensures stopped { IfErr result
        (StopsJournal S.Source K.Sink D.Disk A.StoredSession
        (source.old, sink.old, disk.old, log.old)
        (source.new, sink.new, disk.new, log.new) (A.state session.old) 0) }
    ensures counted { Counted K.Sink D.Disk (sink.old, disk.old) (sink.new, disk.new)
        (stop_in result) }
    ensures few { GaveFew S.Source source.old source.new PIECE_BYTES }
    ensures source_later { S.faults source.old ≤ S.faults source.new }
    ensures source_fault { IsErrOf result Stop.SourceFault
        → SourceFailed S.Source source.old source.new }
{
    let Ok(mut piece) = piece_buffer(alloc) else {
        return Err(Stop::NoMemory);
    };
    let mut input = Input::new(alloc);
    let progress = store_pieces(
        alloc, session, &mut input, source, &mut piece, log, disk, sink,
    )?;
    answer_last(alloc, session, progress, input, log, disk, sink)
}

// Answers the last line of an input, which no LF ends, if there is one.
fn answer_last<A: StoredSession, K: Sink, D: Disk>(
    alloc: Global,
    session: &mut A,
    progress: StoreProgress,
    input: Input,
    log: &mut Log,
    disk: &mut D,
    sink: &mut K,
) -> Result<StoreProgress, Stop>
    requires fits { progress.number + 1 < 2 ^ 64 }
    requires none { input.lines.ended ≡ [] }
    requires stands { (base : List (List ℕ)) × StandsOn D.Disk disk.old log.old base }
    ensures answered { IfOk result
        (Answers K.Sink D.Disk A.StoredSession
        (sink.old, disk.old, log.old) (sink.new, disk.new, log.new)
        (A.state session.old) progress (option_to_list (last_line input.lines.begun))
        (A.state session.new)) }
    ensures stopped { IfErr result
        (StopsAmong K.Sink D.Disk A.StoredSession
        (sink.old, disk.old, log.old) (sink.new, disk.new, log.new)
        (A.state session.old) progress.number (option_to_list (last_line input.lines.begun))) }
    ensures own { IfErr result IsOwnStop }
    ensures counted { Counted K.Sink D.Disk (sink.old, disk.old) (sink.new, disk.new)
        (stop_in result) }
{
    let mut progress = progress;
    let Some(line) = input.last() else {
        return Ok(progress);
    };
    store_line(alloc, session, &mut progress, &line, log, disk, sink)?;
    Ok(progress)
}

// Stores the version record, if there is one to store, and then answers a journal.
fn answer_stored<S: Source, A: StoredSession, K: Sink, D: Disk>(
    alloc: Global,
    session: &mut A,
    version: &Option<Bytes>,
    source: &mut S,
    log: &mut Log,
    disk: &mut D,
    sink: &mut K,
) -> Result<StoreProgress, Stop>
    requires stands { (base : List (List ℕ)) × StandsOn D.Disk disk.old log.old base }
    ensures ended { IfOk result
        (EndsStored S.Source K.Sink D.Disk A.StoredSession
        (source.old, sink.old, disk.old, log.old)
        (source.new, sink.new, disk.new, log.new)
        (option_to_list version.now) (A.state session.old) (A.state session.new)) }
    ensures stopped { IfErr result
        (StopsStored S.Source K.Sink D.Disk A.StoredSession
        (source.old, sink.old, disk.old, log.old)
        (source.new, sink.new, disk.new, log.new)
        (option_to_list version.now) (A.state session.old)) }
    ensures counted { Counted K.Sink D.Disk (sink.old, disk.old) (sink.new, disk.new)
        (stop_in result) }
    ensures few { GaveFew S.Source source.old source.new PIECE_BYTES }
    ensures source_later { S.faults source.old ≤ S.faults source.new }
    ensures source_fault { IsErrOf result Stop.SourceFault
        → SourceFailed S.Source source.old source.new }
{
    store_version(alloc, log, disk, sink, version)?;
    answer_journal(alloc, session, source, log, disk, sink)
}

/// Goes on with a session that was opened, by a journal.
///
/// - `exits`: after `Done` and `SomeRefused` the answer lines of the run and then the state lines were written, and the
///   payloads of the changes that were accepted are stored. After any other status what was written and what is stored
///   is as the definition says.
/// - `safe`: whatever the status, each image that a crash now may leave holds the payload of each change whose `ok`
///   line was written, and at most one more. Each image of a moment since the start of the call holds the first of
///   these payloads.
/// - `in_time`: whatever the status, when the source was called last, every line that had ended was answered, and its
///   answer was written. After `SourceFault` and `InputTooLong` every line that has ended is answered.
/// - `few`: the last call of the source gave no more than a piece, of 2^16 bytes.
/// - `source_fault`, `sink_fault`, `disk_fault`: these statuses come only if that device failed.
pub fn continue_store<S: Source, A: StoredSession, K: Sink, D: Disk>(
    alloc: Global,
    session: &mut A,
    version: &Option<Bytes>,
    source: &mut S,
    log: &mut Log,
    disk: &mut D,
    sink: &mut K,
) -> Status
    requires stands { (base : List (List ℕ)) × StandsOn D.Disk disk.old log.old base }
    ensures exits { ExitsApply S.Source K.Sink D.Disk A.StoredSession
        (source.old, sink.old, disk.old, log.old)
        (source.new, sink.new, disk.new, log.new)
        (option_to_list version.now) (A.state session.old)
        (A.state session.new) result }
    ensures safe { IsSafeFrom S.Source K.Sink D.Disk A.StoredSession
        (source.old, sink.old, disk.old, log.old) (devices_of source.new sink.new disk.new)
        (option_to_list version.now) (A.state session.old) }
    ensures in_time { StoreAnswersInTime S.Source K.Sink A.StoredSession
        (source.old, sink.old) (source.new, sink.new) (A.state session.old) result }
    ensures few { GaveFew S.Source source.old source.new PIECE_BYTES }
    ensures statuses { IsStatusAmong apply_statuses result }
    ensures source_fault { result ≡ Status.SourceFault
        → SourceFailed S.Source source.old source.new }
    ensures sink_fault { result ≡ Status.SinkFault → SinkFailed K.Sink sink.old sink.new }
    ensures disk_fault { result ≡ Status.DiskFault → DiskFailed D.Disk disk.old disk.new }
{
    match answer_stored(alloc, session, version, source, log, disk, sink) {
        Ok(progress) => give_state(alloc, session, progress, sink),
        Err(stop) => give_stop(stop, sink),
    }
}

// Writes the state lines.
fn give_state<A: StoredSession, K: Sink>(
    alloc: Global,
    session: &A,
    progress: StoreProgress,
    sink: &mut K,
) -> Status
    ensures gives { (result ≡ status_at_end progress.refused)
        × AreOtherLines (A.state_text (A.state session.now))
        × Gave K.Sink sink.old sink.new (A.state_text (A.state session.now))
        ⊎ (result ≡ Status.SinkFault)
        × AreOtherLines (A.state_text (A.state session.now))
        × GaveFront K.Sink sink.old sink.new (A.state_text (A.state session.now))
        ⊎ (result ≡ Status.NoMemory) × Gave K.Sink sink.old sink.new [] }
    ensures sink_fault { result ≡ Status.SinkFault → SinkFailed K.Sink sink.old sink.new }
    ensures statuses { IsStatusAmong apply_statuses result }
    ensures no_source { result ≡ Status.SourceFault → ⊥ }
    ensures no_disk { result ≡ Status.DiskFault → ⊥ }
{
    let Ok(text) = session.state_lines(alloc) else {
        return Status::NoMemory;
    };
    match give_all(sink, text.as_slice()) {
        Ok(()) => Status::at_end(progress.refused),
        Err(_) => Status::SinkFault,
    }
}
