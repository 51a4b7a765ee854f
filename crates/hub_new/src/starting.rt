//! The command `init` of a hub.
ghost use Rattle.std.specs.Prelude.{◌≡◌, length, map, IfOk, IfSome};
ghost use Rattle.command_ends.specs.Statuses.{IsStatusAmong, init_statuses};
ghost use Rattle.lens_io.specs.Calls.{SourceFailed, SinkFailed, DiskFailed};
ghost use Rattle.lens_forms.specs.Forms.{form_tree};
ghost use Rattle.program_terms.specs.Views.{program_tree};
ghost use Rattle.view_hub.specs.Laws.{HaveOneLeftType};
ghost use Rattle.hub_run.specs.FormLenses.{form_lens};
ghost use Rattle.hub_run.specs.FoundLenses.{HasRefusalLine};
ghost use Rattle.hub_run.specs.Runs.{first_state, hub_state_text};
ghost use Rattle.store_new.specs.NewEnds.{Completes, Ends, KeepsStore, RefusesAtOnce};
ghost use Rattle.store_new.specs.Making.{EndsPlan};
ghost use Rattle.store_new.specs.NewRooms.{PlanHasNoRoom, ScriptHasNoRoom};
ghost use Rattle.hub_new.specs.HubInit.{IsFirstHub, StartsHub, hub_command};
ghost use Rattle.hub_new.specs.HubParts.{view_programs};
ghost use Rattle.hub_new.specs.HubReading.{RefusesViews};
ghost use Rattle.store_run.specs.Devices.{devices_of};

use crate::reading::{UnreadHub, read_views};
use command_ends::Status;
use hub_records::programs_payload;
use hub_run::{AcceptedViews, HubRefused, HubRun, refusal_line};
use lens_io::{Disk, Payloads, Sink, Source};
use lens_types::Typed;
use run_scripts::ScriptState;
use std::alloc::{AllocError, Global};
use store_new::{LOG_EXISTS, StoreText, give_line, make_store, status_at};

/// Makes a store with the programs of the script of a hub, and writes the state lines of the first hub.
///
/// The disk is tested before anything is read. The script is read to its end, and its journal part is not looked at. A
/// program part is refused as soon as it is whole, as `hub` refuses it. The store then holds one payload: the canonical
/// text of the program of each view, and the version 1.
///
/// - `starts`: after `Done` the script was read to its end, the disk was empty, it holds that payload alone, and each
///   image that a crash now may leave does, too. The payload stands for the first hub, whose state lines were written.
/// - `ends`, `at_once`, `exists`, `room`, `complete`: as of `init` in store_new, for the programs of views.
/// - `statuses`: it ends by one of eight statuses, whatever the disk holds.
/// - `source_fault`, `sink_fault`, `disk_fault`: these statuses come only if that device failed.
pub fn init_hub<S: Source, K: Sink, D: Disk>(
    alloc: Global,
    source: &mut S,
    sink: &mut K,
    disk: &mut D,
) -> Status
    ensures starts { result ≡ Status.Done
        → StartsHub S.Source K.Sink D.Disk (devices_of source.old sink.old disk.old)
        (devices_of source.new sink.new disk.new) }
    ensures ends { Ends S.Source K.Sink D.Disk hub_command
        (devices_of source.old sink.old disk.old) (devices_of source.new sink.new disk.new) result }
    ensures at_once { RefusesAtOnce view_programs S.Source source.old source.new result }
    ensures exists { KeepsStore S.Source K.Sink D.Disk
        (devices_of source.old sink.old disk.old) (devices_of source.new sink.new disk.new) result }
    ensures statuses { IsStatusAmong init_statuses result }
    ensures source_fault { result ≡ Status.SourceFault → SourceFailed S.Source source.old source.new }
    ensures sink_fault { result ≡ Status.SinkFault → SinkFailed K.Sink sink.old sink.new }
    ensures disk_fault { result ≡ Status.DiskFault → DiskFailed D.Disk disk.old disk.new }
    ensures room { result ≡ Status.DiskFault
        → IfSome (D.room disk.old) (ScriptHasNoRoom S.Source hub_command source.old source.new) }
    ensures complete { Completes S.Source K.Sink D.Disk hub_command
        (devices_of source.old sink.old disk.old) (devices_of source.new sink.new disk.new) result }
{
    match disk.len() {
        Ok(0) => init_empty(alloc, source, sink, disk),
        Ok(_) => give_line(sink, LOG_EXISTS, Status::StoreRefused),
        Err(_) => Status::DiskFault,
    }
}

// `init` on an empty disk.
fn init_empty<S: Source, K: Sink, D: Disk>(
    alloc: Global,
    source: &mut S,
    sink: &mut K,
    disk: &mut D,
) -> Status
    requires empty { IfSome (D.content disk.old) (λ bytes. length bytes ≡ 0) }
    ensures ends { Ends S.Source K.Sink D.Disk hub_command
        (devices_of source.old sink.old disk.old) (devices_of source.new sink.new disk.new) result }
    ensures source_fault { result ≡ Status.SourceFault → SourceFailed S.Source source.old source.new }
    ensures sink_fault { result ≡ Status.SinkFault → SinkFailed K.Sink sink.old sink.new }
    ensures disk_fault { result ≡ Status.DiskFault → DiskFailed D.Disk disk.old disk.new }
    ensures room { result ≡ Status.DiskFault
        → IfSome (D.room disk.old) (ScriptHasNoRoom S.Source hub_command source.old source.new) }
{
    match read_views(alloc, source) {
        Ok(accepted) => begin(alloc, &accepted, sink, disk),
        Err(UnreadHub::Refused(refused)) => refuse_views(alloc, &refused, sink),
        Err(UnreadHub::Stopped(fault)) => status_at(fault),
    }
}

/// Ends a command whose program part is refused, with its line. If memory ran out, nothing is written.
pub fn refuse_views<K: Sink>(alloc: Global, refused: &HubRefused, sink: &mut K) -> Status
    requires { HasRefusalLine refused.now }
    ensures refuses { RefusesViews K.Sink sink.old sink.new refused.now result }
    ensures sink_fault { result ≡ Status.SinkFault → SinkFailed K.Sink sink.old sink.new }
{
    match refusal_line(alloc, refused) {
        Ok(line) => give_line(sink, line.as_slice(), Status::ProgramRefused),
        Err(_) => Status::NoMemory,
    }
}

// Makes the store of some programs.
fn begin<K: Sink, D: Disk>(
    alloc: Global,
    accepted: &AcceptedViews,
    sink: &mut K,
    disk: &mut D,
) -> Status
    requires one_left { HaveOneLeftType form_lens (map form_tree accepted.now.lenses.items) }
    ensures ends { EndsPlan K.Sink D.Disk (sink.old, disk.old) (sink.new, disk.new)
        (IsFirstHub (map program_tree accepted.now.programs.items)
        (map form_tree accepted.now.lenses.items)) result }
    ensures sink_fault { result ≡ Status.SinkFault → SinkFailed K.Sink sink.old sink.new }
    ensures disk_fault { result ≡ Status.DiskFault → DiskFailed D.Disk disk.old disk.new }
    ensures room { result ≡ Status.DiskFault → IfSome (D.room disk.old)
        (PlanHasNoRoom (IsFirstHub (map program_tree accepted.now.programs.items)
        (map form_tree accepted.now.lenses.items))) }
{
    let Ok(store) = first_store(alloc, accepted) else {
        return Status::NoMemory;
    };
    make_store(alloc, &store.payloads, &store.lines, sink, disk)
}

// The payload and the state lines of some programs.
fn first_store(alloc: Global, accepted: &AcceptedViews) -> Result<StoreText, AllocError>
    requires one_left { HaveOneLeftType form_lens (map form_tree accepted.now.lenses.items) }
    ensures { IfOk result (λ s. IsFirstHub (map program_tree accepted.now.programs.items)
        (map form_tree accepted.now.lenses.items) s.payloads s.lines.items) }
{
    let payload = programs_payload(alloc, &accepted.programs)?;
    let lines = first_lines(alloc, &accepted.lenses)?;
    let payloads = Vec::from_array(alloc, [payload])?;
    Ok(StoreText {
        payloads: Payloads::from_vec(payloads),
        lines,
    })
}

// The state lines of the first hub of some lenses.
fn first_lines(alloc: Global, lenses: &[Typed]) -> Result<Vec<u8>, AllocError>
    requires one_left { HaveOneLeftType form_lens (map form_tree lenses.now) }
    ensures { IfOk result (λ lines. lines.items ≡ hub_state_text (first_state (map form_tree lenses.now))) }
{
    let hub = HubRun::start(alloc, lenses)?;
    let lines = hub.state_lines(alloc)?;
    Ok(lines.into_vec())
}
