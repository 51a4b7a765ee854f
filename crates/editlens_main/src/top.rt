//! The top call.
ghost use Rattle.std.specs.Prelude.{◌≡◌, ℕ, Some, None, false};
ghost use Rattle.command_words.specs.Orders.{HasFewEntries};
ghost use Rattle.command_words.specs.declared.orders.Order.TheVariants.{Gen, Init, Import, Apply, Show, Verify, Pack};
ghost use Rattle.command_words.specs.declared.orders.Order.TheVariants.{Undo, Hub, Link};
ghost use Rattle.command_words.specs.declared.orders.Order.TheVariants as order;
ghost use Rattle.lens_io.specs.Calls.{SourceFailed, SinkFailed, DiskFailed};
ghost use Rattle.editlens_main.specs.Commands.{order_named, reads_source, uses_disk};
ghost use Rattle.editlens_main.specs.Generates.{Generates};
ghost use Rattle.editlens_main.specs.ImportsStore.{ImportsStore};
ghost use Rattle.editlens_main.specs.MakesStore.{MakesStore};
ghost use Rattle.editlens_main.specs.OrderEnds.{EndsOrder};
ghost use Rattle.editlens_main.specs.Runs.{Runs, Checks, RunsHub, RunsLink};
ghost use Rattle.editlens_main.specs.Statuses.{MayEnd};
ghost use Rattle.editlens_main.specs.Stores.{AppliesPair, ShowsPair, VerifiesPair, PacksPair, UndoesPair};
ghost use Rattle.editlens_main.specs.Top.{GivesUsage, LeavesAlone};
ghost use Rattle.store_run.specs.Devices.{devices_of};
ghost use Rattle.store_run.specs.FaultCauses.{FaultsAreCaused};

use crate::generated::run_generated;
use crate::makings::{run_import, run_init};
use crate::scripts::{check_script, run_hub_script, run_link_script, run_pair_script};
use crate::stores::{run_apply, run_pack, run_show, run_undo, run_verify};
use crate::usage::USAGE;
use command_ends::Status;
use command_words::{Order, WordsFault, read_words};
use lens_io::{Disk, Sink, Source, give_all};
use std::alloc::Global;

/// Does what the program's words say, with its input, its output and its store.
///
/// There is a clause for each command, and it names a record: what the command promises, field by field. It stands in a
/// file of specs/ with the record's name. `run`, `check`, `hub` and `link` have one record, `RunsScript`, over what a
/// script means to each; those of `apply`, `show`, `verify`, `pack` and `undo` are store_run's, over any kind of
/// session, and specs/Stores.antt names them for this one. The fields have the same names everywhere:
///
/// - `reports` or `continues`, and `starts` and `brings` of the commands that make a store: what was read, written and
///   stored where the command came to its end, with the status `Done` or `SomeRefused`. `declines`: what `import` does
///   with `SomeRefused`.
/// - `in_step`: the state of a store, and every state of a run from it on, is in its lens's consistency relation.
///   `reports` says it of a run.
/// - `stops`: what was taken, written and stored at every status, or at every other one. `unstored`: when `undo` has
///   stored no snapshot.
/// - `at_once`: a program part that is whole and refused is refused before more is read. `in_time`: each line that had
///   ended when the source was called last was answered, and its answer written.
/// - `survives`: what a crash leaves of the store, at each moment of the call and at its end. `unwritten`: nothing is
///   written to the disk.
/// - `caused`: why such a status came.
/// - `completes`: over at most 2^30 bytes, if no device fails and the log has room, the command comes to its end; or
///   the program part or the document is refused, or memory runs out.
/// - `refuses`: what is done where the bytes of the disk are no store; by `init` and `import`, where there are any.
///
/// The other clauses hold whatever the words are. `usage`: words that name no command give the usage line. `statuses`:
/// how each command may end. `leaves`: a command that does not use the source or the disk leaves it as it was.
/// `causes`: `SourceFault`, `SinkFault` and `DiskFault` come only if the device failed.
///
/// Whatever bytes a disk holds, they are refused as a store, or their state is in its lens's consistency relation: the
/// law `laws::every_disk_is_refused_or_in_step`. Which stores `undo` refuses is the law
/// `store_undo::undo_laws::undone_or_refused`.
///
/// `NoMemory` comes only if memory ran out, which no clause can say. Whether a program part is accepted is said by a
/// definition that follows the reader (`bounded` of lens_syntax). It is the grammar's: the law
/// `lens_syntax::laws::reading_follows_the_grammar`.
///
/// docs/FORMATS.md says what the words, a script and a store are, and docs/MEANING.md what a report says.
pub fn editlens<S: Source, K: Sink, D: Disk>(
    alloc: Global,
    words: &[String],
    source: &mut S,
    sink: &mut K,
    disk: &mut D,
) -> Status
    // The commands over a script.
    ensures run { order_named words.now ≡ Some order.Run
        → Runs S.Source K.Sink (source.old, sink.old) (source.new, sink.new) result }
    ensures check { order_named words.now ≡ Some order.Check
        → Checks S.Source K.Sink (source.old, sink.old) (source.new, sink.new) result }
    ensures hub { order_named words.now ≡ Some Hub
        → RunsHub S.Source K.Sink (source.old, sink.old) (source.new, sink.new) result }
    ensures link { order_named words.now ≡ Some Link
        → RunsLink S.Source K.Sink (source.old, sink.old) (source.new, sink.new) result }
    ensures generate { (count seed : ℕ) → order_named words.now ≡ Some (Gen count seed)
        → Generates count seed K.Sink sink.old sink.new result }

    // The commands that make a store, and those over one.
    ensures init { order_named words.now ≡ Some Init
        → MakesStore S.Source K.Sink D.Disk (devices_of source.old sink.old disk.old)
        (devices_of source.new sink.new disk.new) result }
    ensures import { order_named words.now ≡ Some Import
        → ImportsStore S.Source K.Sink D.Disk (devices_of source.old sink.old disk.old)
        (devices_of source.new sink.new disk.new) result }
    ensures apply { order_named words.now ≡ Some Apply
        → AppliesPair S.Source K.Sink D.Disk (devices_of source.old sink.old disk.old)
        (devices_of source.new sink.new disk.new) result }
    ensures show { order_named words.now ≡ Some Show
        → ShowsPair K.Sink D.Disk (sink.old, disk.old) (sink.new, disk.new) result }
    ensures verify { order_named words.now ≡ Some Verify
        → VerifiesPair K.Sink D.Disk (sink.old, disk.old) (sink.new, disk.new) result }
    ensures pack { order_named words.now ≡ Some Pack
        → PacksPair K.Sink D.Disk (sink.old, disk.old) (sink.new, disk.new) result }
    ensures undo { (count : ℕ) → order_named words.now ≡ Some (Undo count)
        → UndoesPair K.Sink D.Disk (sink.old, disk.old) (sink.new, disk.new) result count }

    // Whatever the words are.
    ensures usage { order_named words.now ≡ None → GivesUsage K.Sink sink.old sink.new result }
    ensures statuses { MayEnd (order_named words.now) result }
    ensures leaves { LeavesAlone (order_named words.now) (source.old, disk.old) (source.new, disk.new) }
    ensures causes { FaultsAreCaused S.Source K.Sink D.Disk
        (devices_of source.old sink.old disk.old) (devices_of source.new sink.new disk.new) result }
{
    match read_words(alloc, words) {
        Ok(order) => run_order(alloc, order, source, sink, disk),
        Err(WordsFault::Usage) => give_usage(sink),
        Err(WordsFault::NoMemory) => Status::NoMemory,
    }
}

// Does what an order says.
fn run_order<S: Source, K: Sink, D: Disk>(
    alloc: Global,
    order: Order,
    source: &mut S,
    sink: &mut K,
    disk: &mut D,
) -> Status
    requires { HasFewEntries order }
    ensures ends { EndsOrder S.Source K.Sink D.Disk
        (devices_of source.old sink.old disk.old) (devices_of source.new sink.new disk.new) result order }
    ensures statuses { MayEnd (Some order) result }
    ensures unread { reads_source (Some order) ≡ false → source.new ≡ source.old }
    ensures untouched { uses_disk (Some order) ≡ false → disk.new ≡ disk.old }
    ensures source_fault { result ≡ Status.SourceFault → SourceFailed S.Source source.old source.new }
    ensures sink_fault { result ≡ Status.SinkFault → SinkFailed K.Sink sink.old sink.new }
    ensures disk_fault { result ≡ Status.DiskFault → DiskFailed D.Disk disk.old disk.new }
{
    match order {
        Order::Run => run_pair_script(alloc, source, sink),
        Order::Check => check_script(alloc, source, sink),
        Order::Gen { count, seed } => run_generated(alloc, count, seed, sink),
        Order::Init => run_init(alloc, source, sink, disk),
        Order::Import => run_import(alloc, source, sink, disk),
        Order::Apply => run_apply(alloc, source, sink, disk),
        Order::Show => run_show(alloc, sink, disk),
        Order::Verify => run_verify(alloc, sink, disk),
        Order::Pack => run_pack(alloc, sink, disk),
        Order::Undo { count } => run_undo(alloc, count, sink, disk),
        Order::Hub => run_hub_script(alloc, source, sink),
        Order::Link => run_link_script(alloc, source, sink),
    }
}

// Writes the usage line.
fn give_usage<K: Sink>(sink: &mut K) -> Status
    ensures given { GivesUsage K.Sink sink.old sink.new result }
    ensures statuses { MayEnd None result }
    ensures sink_fault { result ≡ Status.SinkFault → SinkFailed K.Sink sink.old sink.new }
{
    match give_all(sink, USAGE.as_bytes()) {
        Ok(()) => Status::Usage,
        Err(_) => Status::SinkFault,
    }
}
