//! The top call.
ghost use Rattle.std.specs.Prelude.{◌≡◌, ℕ, Some, None, false};
ghost use Rattle.lens_io.specs.Calls.{SourceFailed, SinkFailed, DiskFailed};
ghost use Rattle.edithub_main.specs.HubAdds.{HubAdds};
ghost use Rattle.edithub_main.specs.HubEnds.{EndsHubOrder, GivesHubUsage, HubLeavesAlone, HubMayEnd};
ghost use Rattle.store_run.specs.Devices.{devices_of};
ghost use Rattle.store_run.specs.FaultCauses.{FaultsAreCaused};
ghost use Rattle.edithub_main.specs.HubOrders.{hub_order_named, hub_reads_source, hub_uses_disk};
ghost use Rattle.edithub_main.specs.HubStores.{AppliesHub, ShowsHub, VerifiesHub, PacksHub, UndoesHub};
ghost use Rattle.edithub_main.specs.MakesHub.{MakesHub};
ghost use Rattle.edithub_main.specs.declared.words.HubOrder.TheVariants.{Init, Apply, Show, Verify, Pack, Undo, Add};

use crate::stores::{run_add, run_apply, run_init, run_pack, run_show, run_undo, run_verify};
use crate::usage::USAGE;
use crate::words::{HubOrder, read_order};
use command_ends::Status;
use lens_io::{Disk, Sink, Source, give_all};
use std::alloc::Global;

/// Does what the program's words say, with its input, its output and its store.
///
/// There is a clause for each command, and it names a record: what the command promises, field by field. Those of
/// `apply`, `show`, `verify`, `pack` and `undo` are store_run's, over any kind of session, and specs/HubStores.antt
/// names them for hubs; each other one stands in a file of specs/ with its name. The fields have the names that they
/// have for `editlens`:
///
/// - `continues`, `reports`, `starts`: what was read, written and stored where the command came to its end.
/// - `in_step`: each view of the hub of the store is in its lens's consistency relation with the hub's document; of
///   `apply`, in every state of the run.
/// - `stops`: what was taken, written and stored at every status. `unstored`: when `undo` has stored no snapshot.
/// - `at_once`: a program part that is whole and refused is refused before more is read. `in_time`: each line that had
///   ended when the source was called last was answered, and its answer written.
/// - `survives`: what a crash leaves of the store, at each moment of the call and at its end. `unwritten`: nothing is
///   written to the disk.
/// - `caused`: why such a status came.
/// - `completes`: over at most 2^30 bytes, if no device fails and there is room, the command comes to its end; or the
///   program part is refused, or memory runs out.
/// - `refuses`: what is done where the bytes of the disk are no store; by `init`, where there are any.
///
/// The other clauses hold whatever the words are. `usage`: words that name no command give the usage line. `statuses`:
/// how each command may end. `leaves`: a command that does not use the source or the disk leaves it as it was.
/// `causes`: `SourceFault`, `SinkFault` and `DiskFault` come only if the device failed.
pub fn edithub<S: Source, K: Sink, D: Disk>(
    alloc: Global,
    words: &[String],
    source: &mut S,
    sink: &mut K,
    disk: &mut D,
) -> Status
    ensures init { hub_order_named words.now ≡ Some Init
        → MakesHub S.Source K.Sink D.Disk (devices_of source.old sink.old disk.old)
        (devices_of source.new sink.new disk.new) result }
    ensures apply { hub_order_named words.now ≡ Some Apply
        → AppliesHub S.Source K.Sink D.Disk (devices_of source.old sink.old disk.old)
        (devices_of source.new sink.new disk.new) result }
    ensures show { hub_order_named words.now ≡ Some Show
        → ShowsHub K.Sink D.Disk (sink.old, disk.old) (sink.new, disk.new) result }
    ensures verify { hub_order_named words.now ≡ Some Verify
        → VerifiesHub K.Sink D.Disk (sink.old, disk.old) (sink.new, disk.new) result }
    ensures pack { hub_order_named words.now ≡ Some Pack
        → PacksHub K.Sink D.Disk (sink.old, disk.old) (sink.new, disk.new) result }
    ensures undo { (count : ℕ) → hub_order_named words.now ≡ Some (Undo count)
        → UndoesHub K.Sink D.Disk (sink.old, disk.old) (sink.new, disk.new) result count }
    ensures add { hub_order_named words.now ≡ Some Add
        → HubAdds S.Source K.Sink D.Disk (devices_of source.old sink.old disk.old)
        (devices_of source.new sink.new disk.new) result }
    ensures usage { hub_order_named words.now ≡ None → GivesHubUsage K.Sink sink.old sink.new result }
    ensures statuses { HubMayEnd (hub_order_named words.now) result }
    ensures leaves { HubLeavesAlone (hub_order_named words.now) (source.old, disk.old) (source.new, disk.new) }
    ensures causes { FaultsAreCaused S.Source K.Sink D.Disk
        (devices_of source.old sink.old disk.old) (devices_of source.new sink.new disk.new) result }
{
    match read_order(words) {
        Some(order) => run_order(alloc, order, source, sink, disk),
        None => give_usage(sink),
    }
}

// Does what an order says.
fn run_order<S: Source, K: Sink, D: Disk>(
    alloc: Global,
    order: HubOrder,
    source: &mut S,
    sink: &mut K,
    disk: &mut D,
) -> Status
    ensures ends { EndsHubOrder S.Source K.Sink D.Disk
        (devices_of source.old sink.old disk.old) (devices_of source.new sink.new disk.new) result order }
    ensures statuses { HubMayEnd (Some order) result }
    ensures unread { hub_reads_source (Some order) ≡ false → source.new ≡ source.old }
    ensures untouched { hub_uses_disk (Some order) ≡ false → disk.new ≡ disk.old }
    ensures source_fault { result ≡ Status.SourceFault → SourceFailed S.Source source.old source.new }
    ensures sink_fault { result ≡ Status.SinkFault → SinkFailed K.Sink sink.old sink.new }
    ensures disk_fault { result ≡ Status.DiskFault → DiskFailed D.Disk disk.old disk.new }
{
    match order {
        HubOrder::Init => run_init(alloc, source, sink, disk),
        HubOrder::Apply => run_apply(alloc, source, sink, disk),
        HubOrder::Show => run_show(alloc, sink, disk),
        HubOrder::Verify => run_verify(alloc, sink, disk),
        HubOrder::Pack => run_pack(alloc, sink, disk),
        HubOrder::Undo { count } => run_undo(alloc, count, sink, disk),
        HubOrder::Add => run_add(alloc, source, sink, disk),
    }
}

// Writes the usage line.
fn give_usage<K: Sink>(sink: &mut K) -> Status
    ensures given { GivesHubUsage K.Sink sink.old sink.new result }
    ensures statuses { HubMayEnd None result }
    ensures sink_fault { result ≡ Status.SinkFault → SinkFailed K.Sink sink.old sink.new }
{
    match give_all(sink, USAGE.as_bytes()) {
        Ok(()) => Status::Usage,
        Err(_) => Status::SinkFault,
    }
}
