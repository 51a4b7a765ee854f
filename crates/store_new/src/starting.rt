//! The command `init`.
ghost use Rattle.std.specs.Prelude.{◌≡◌, List, ℕ, length, IfOk, IfSome};
ghost use Rattle.command_ends.specs.Statuses.{IsStatusAmong, init_statuses};
ghost use Rattle.lens_io.specs.Calls.{SourceFailed, SinkFailed, DiskFailed};
ghost use Rattle.edit_session.specs.Views.{triple_tree};
ghost use Rattle.lens_forms.specs.Forms.{form_tree, left_type, right_type};
ghost use Rattle.lens_core.specs.Complements.{missing};
ghost use Rattle.lens_core.specs.Consistency.{IsConsistent};
ghost use Rattle.lens_core.specs.LensOf.{IsLensOf};
ghost use Rattle.lens_core.specs.Translation.{translate};
ghost use Rattle.run_answers.specs.Answers.{state_lines};
ghost use Rattle.run_answers.specs.ItemRuns.{triple_at_first};
ghost use Rattle.program_terms.specs.Views.{program_tree};
ghost use Rattle.store_new.specs.NewEnds.{Completes, Ends, KeepsStore, RefusesAtOnce};
ghost use Rattle.store_new.specs.Init.{Starts, init_command};
ghost use Rattle.store_new.specs.Making.{EndsPlan};
ghost use Rattle.store_new.specs.NewRooms.{PlanHasNoRoom, ScriptHasNoRoom};
ghost use Rattle.store_new.specs.Scripts.{one_program};
ghost use Rattle.store_new.specs.InitStores.{IsFirstStore};
ghost use Rattle.store_run.specs.Devices.{devices_of};

use crate::scripts::status_at;
use crate::{LOG_EXISTS, StoreText, Unread, give_line, make_store, read_script, refuse_program};
use command_ends::Status;
use edit_session::Session;
use lens_flat::Flat;
use lens_io::{Disk, Payloads, Sink, Source};
use lens_types::Typed;
use program_accepted::Accepted;
use run_answers::state_lines;
use std::alloc::{AllocError, Global};
use store_records::program_payload;

/// Makes a store with the program of a script, and writes the state lines of its first triple.
///
/// The disk is tested before anything is read. The script is read to its end, and its journal part is not looked at. A
/// program part is refused as soon as it is whole. The store then holds one payload: the program in canonical text, of
/// version 2.
///
/// - `starts`: after `Done` the script was read to its end, the disk was empty, it holds that payload alone, and each
///   image that a crash now may leave does, too. The payload stands for the first triple, whose state lines were
///   written.
/// - `ends`: what was taken, what was written and what the disk holds after each status. After `ProgramRefused`, and at
///   the line `store refused: log-exists`, the disk is as before. After `NoMemory` it is as before or holds a log
///   without a record, and so at the line `store refused: log-full`, which would come at more than 2^63 - 1 bytes.
///   After `DiskFault` it may hold any bytes. After `SinkFault` at the state lines the store is made.
/// - `at_once`: `ProgramRefused` comes only if the program part is whole and refused: the separator has come with the
///   last call of the source, so that at most the rest of its block was read, or the source is at its end. If the
///   separator has come and the part is refused, the status is `ProgramRefused`, or the sink failed or memory ran out,
///   whatever stands behind the separator.
/// - `exists`: if the disk is not empty, nothing is taken from the source, and nothing is written to the disk. The line
///   `store refused: log-exists` is written, unless the disk or the sink fails.
/// - `statuses`: it ends by one of eight statuses, whatever the disk holds.
/// - `source_fault`, `sink_fault`, `disk_fault`: these statuses come only if that device failed.
/// - `room`: over a disk whose room is known, `DiskFault` comes only if the script was read to its end, and the disk
///   has no room for the mark of a log and its gate, or for the log of the payload of the program, and the gate behind
///   it.
/// - `complete`: if no device failed, and the disk is empty and the script has at most 2^30 bytes, the store is made if
///   the program part is accepted, and the program part is refused if it is not. Or memory ran out.
pub fn init<S: Source, K: Sink, D: Disk>(
    alloc: Global,
    source: &mut S,
    sink: &mut K,
    disk: &mut D,
) -> Status
    ensures starts { result ≡ Status.Done
        → Starts S.Source K.Sink D.Disk (devices_of source.old sink.old disk.old)
        (devices_of source.new sink.new disk.new) }
    ensures ends { Ends S.Source K.Sink D.Disk init_command
        (devices_of source.old sink.old disk.old) (devices_of source.new sink.new disk.new) result }
    ensures at_once { RefusesAtOnce one_program S.Source source.old source.new result }
    ensures exists { KeepsStore S.Source K.Sink D.Disk
        (devices_of source.old sink.old disk.old) (devices_of source.new sink.new disk.new) result }
    ensures statuses { IsStatusAmong init_statuses result }
    ensures source_fault { result ≡ Status.SourceFault → SourceFailed S.Source source.old source.new }
    ensures sink_fault { result ≡ Status.SinkFault → SinkFailed K.Sink sink.old sink.new }
    ensures disk_fault { result ≡ Status.DiskFault → DiskFailed D.Disk disk.old disk.new }
    ensures room { result ≡ Status.DiskFault
        → IfSome (D.room disk.old) (ScriptHasNoRoom S.Source init_command source.old source.new) }
    ensures complete { Completes S.Source K.Sink D.Disk init_command
        (devices_of source.old sink.old disk.old) (devices_of source.new sink.new disk.new) result }
{
    match disk.len() {
        Ok(0) => init_empty(alloc, source, sink, disk),
        Ok(_) => give_line(sink, LOG_EXISTS, Status::StoreRefused),
        Err(_) => Status::DiskFault,
    }
}

// `init` on an empty disk.
fn init_empty<S: Source, K: Sink, D: Disk>(
    alloc: Global,
    source: &mut S,
    sink: &mut K,
    disk: &mut D,
) -> Status
    requires empty { IfSome (D.content disk.old) (λ bytes. length bytes ≡ 0) }
    ensures ends { Ends S.Source K.Sink D.Disk init_command
        (devices_of source.old sink.old disk.old) (devices_of source.new sink.new disk.new) result }
    ensures source_fault { result ≡ Status.SourceFault → SourceFailed S.Source source.old source.new }
    ensures sink_fault { result ≡ Status.SinkFault → SinkFailed K.Sink sink.old sink.new }
    ensures disk_fault { result ≡ Status.DiskFault → DiskFailed D.Disk disk.old disk.new }
    ensures room { result ≡ Status.DiskFault
        → IfSome (D.room disk.old) (ScriptHasNoRoom S.Source init_command source.old source.new) }
{
    match read_script(alloc, source) {
        Ok(accepted) => begin(alloc, &accepted, sink, disk),
        Err(Unread::Refused(refused)) => refuse_program(alloc, refused, sink),
        Err(Unread::Stopped(fault)) => status_at(fault),
    }
}

// Makes the store of a program.
fn begin<K: Sink, D: Disk>(alloc: Global, accepted: &Accepted, sink: &mut K, disk: &mut D) -> Status
    ensures ends { EndsPlan K.Sink D.Disk (sink.old, disk.old) (sink.new, disk.new)
        (IsFirstStore (program_tree accepted.now.program) (form_tree accepted.now.lens)) result }
    ensures sink_fault { result ≡ Status.SinkFault → SinkFailed K.Sink sink.old sink.new }
    ensures disk_fault { result ≡ Status.DiskFault → DiskFailed D.Disk disk.old disk.new }
    ensures room { result ≡ Status.DiskFault → IfSome (D.room disk.old)
        (PlanHasNoRoom (IsFirstStore (program_tree accepted.now.program) (form_tree accepted.now.lens))) }
{
    let Ok(store) = first_store(alloc, accepted) else {
        return Status::NoMemory;
    };
    make_store(alloc, &store.payloads, &store.lines, sink, disk)
}

// The payload and the state lines of a program.
fn first_store(alloc: Global, accepted: &Accepted) -> Result<StoreText, AllocError>
    ensures { IfOk result (λ s. IsFirstStore (program_tree accepted.now.program)
        (form_tree accepted.now.lens) s.payloads s.lines.items) }
{
    let payload = program_payload(alloc, &accepted.program)?;
    let lines = first_lines(alloc, &accepted.lens)?;
    let payloads = Vec::from_array(alloc, [payload])?;
    Ok(StoreText {
        payloads: Payloads::from_vec(payloads),
        lines,
    })
}

// The state lines of the first triple of a lens.
fn first_lines(alloc: Global, lens: &Typed) -> Result<Vec<u8>, AllocError>
    ensures { IfOk result
        (λ lines. lines.items ≡ state_lines (form_tree lens.now) (triple_at_first (form_tree lens.now))) }
{
    let session = first_session(alloc, lens)?;
    let lines = state_lines(alloc, lens, &session);
    drop(session);
    lines
}

/// A session of a form at its first triple. The only error is running out of memory.
#[tactic(auto, using(lens_flat::proofs::FormLenses::is_lens_of))]
pub fn first_session(alloc: Global, lens: &Typed) -> Result<Session<Flat>, AllocError>
    ensures of_form { IfOk result (λ s. IsLensOf (left_type (form_tree s.lens.typed))
        (right_type (form_tree s.lens.typed))
        (missing (form_tree s.lens.typed)) (IsConsistent (form_tree s.lens.typed)) (translate (form_tree s.lens.typed))
        (form_tree lens.now)) }
    ensures first { IfOk result (λ s. triple_tree s.triple ≡ triple_at_first (form_tree lens.now)) }
{
    let lens = Flat::compile(alloc, lens)?;
    Session::start(alloc, lens)
}
