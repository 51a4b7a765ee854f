//! The top call over devices that do not fail.
ghost use Rattle.command_ends.specs.Statuses.{IsFinished};
ghost use Rattle.std.specs.Prelude.{◌≡◌, ◌⊎◌, ◌≤◌, [], ℕ, Some, None, false, length};
ghost use Rattle.command_words.specs.declared.orders.Order.TheVariants.{Gen, Init, Import, Apply, Show, Verify, Pack};
ghost use Rattle.command_words.specs.declared.orders.Order.TheVariants.{Undo, Hub, Link};
ghost use Rattle.command_words.specs.declared.orders.Order.TheVariants as order;
ghost use Rattle.hub_run.specs.HubScript.{hub_script};
ghost use Rattle.script_input.specs.declared.limits.TheConstants.{MOST_BYTES};
ghost use Rattle.run_link.specs.LinkScript.{link_script};
ghost use Rattle.store_new.specs.NewRooms.{ScriptHasNoRoom};
ghost use Rattle.run_pair.specs.Scripts.{pair_script, types_script};
ghost use Rattle.run_scripts.specs.ScriptEnds.{IsComplete as IsCompleteScript, Reports};
ghost use Rattle.store_new.specs.Import.{import_command};
ghost use Rattle.store_new.specs.Init.{init_command};
ghost use Rattle.store_run.specs.UndoCall.{StoreToUndo, RefusedToUndo, UndoHasNoRoom};
ghost use Rattle.store_undo.specs.contracts.instance.PairUndoUndoneSession.TheImpl.{ghosts as undone_pairs};
ghost use Rattle.store_run.specs.Rooms.{RunHasNoRoom, PackHasNoRoom};
ghost use Rattle.editlens_main.specs.Commands.{order_named, uses_disk};
ghost use Rattle.editlens_main.specs.Stores.{PairStore, RefusedPairStore};
ghost use Rattle.editlens_main.specs.SureEnds.{EndsInRoom, StoredInRoom, MadeInRoom};

use crate::{Status, editlens};
use lens_io::{Disk, Sink, Source, SureDisk, SureSink, SureSource};
use std::alloc::Global;
use store_run::StoredSession;
use store_session::StoreSession;

/// The top call over devices that do not fail: a command is complete, unless the sink or the disk has too little room.
///
/// - `no_source_fault`, `sink_fault`: whatever the source has, the status is never `SourceFault`, and `SinkFault` only
///   if the sink's room is full.
/// - `no_usage`: the status is `Usage` only if the words name no command.
/// - `no_disk_fault`: `show`, `verify` and the commands without a store never end with `DiskFault`.
/// - `run_sure`, `check_sure`, `hub_sure`, `link_sure`: with at most 2^30 bytes, the status is `Done` or `SomeRefused`
///   if the program part is accepted, and `ProgramRefused` if it is refused. It is `NoMemory` instead if memory ran
///   out, and `SinkFault` only if the sink's room is full.
/// - `run_reports`, `check_types`: after `Done` and `SomeRefused` the sink holds what [`editlens`] says.
/// - `gen_sure`: `gen` ends with `Done`, or with `NoMemory` or `SinkFault` as above.
/// - `init_sure`, `import_sure`: the same on an empty disk. The status is `DiskFault` instead only if the disk has no
///   room for the store.
/// - `views_sure`: over a store `show` and `verify` end with `Done`, or with `NoMemory` or `SinkFault` as above.
/// - `refused_sure`, `undo_refused_sure`: over bytes that are refused, a command over a store ends with `StoreRefused`,
///   or with `NoMemory` or `SinkFault` as above.
/// - `apply_sure`, `pack_sure`, `undo_sure`: over a store, and for `apply` with at most 2^30 bytes, the command comes
///   to its end, or ends with `NoMemory` or `SinkFault` as above. It ends with `DiskFault` only if the log with the
///   record that was to be stored next and the gate behind it would end past the disk's room. It ends with
///   `StoreRefused` only if they would end past 2^63 - 1 bytes.
pub fn run_sure(
    alloc: Global,
    words: &[String],
    source: &mut SureSource,
    sink: &mut SureSink,
    disk: &mut SureDisk,
) -> Status
    ensures no_source_fault { result ≡ Status.SourceFault → ⊥ }
    ensures no_usage { result ≡ Status.Usage → order_named words.now ≡ None }
    ensures sink_fault { result ≡ Status.SinkFault → length sink.new.held ≡ sink.new.room }
    ensures no_disk_fault { (uses_disk (order_named words.now) ≡ false) ⊎ (order_named words.now ≡ Some Show)
        ⊎ (order_named words.now ≡ Some Verify)
        → result ≡ Status.DiskFault → ⊥ }
    ensures run_sure { order_named words.now ≡ Some order.Run → length source.old.left ≤ MOST_BYTES
        → EndsInRoom result (length sink.new.held ≡ sink.new.room)
        (IsCompleteScript pair_script source.old.left result) }
    ensures check_sure { order_named words.now ≡ Some order.Check → length source.old.left ≤ MOST_BYTES
        → EndsInRoom result (length sink.new.held ≡ sink.new.room)
        (IsCompleteScript types_script source.old.left result) }
    ensures run_reports { order_named words.now ≡ Some order.Run → IsFinished result
        → Reports pair_script ⟦<SureSource as Source>⟧ ⟦<SureSink as Sink>⟧
        (source.old, sink.old) (source.new, sink.new) result }
    ensures check_types { order_named words.now ≡ Some order.Check → IsFinished result
        → Reports types_script ⟦<SureSource as Source>⟧ ⟦<SureSink as Sink>⟧
        (source.old, sink.old) (source.new, sink.new) result }
    ensures gen_sure { (count seed : ℕ) → order_named words.now ≡ Some (Gen count seed) → (result ≡ Status.Done)
        ⊎ (result ≡ Status.NoMemory)
        ⊎ ((result ≡ Status.SinkFault) × (length sink.new.held ≡ sink.new.room)) }
    ensures hub_sure { order_named words.now ≡ Some Hub → length source.old.left ≤ MOST_BYTES
        → EndsInRoom result (length sink.new.held ≡ sink.new.room)
        (IsCompleteScript hub_script source.old.left result) }
    ensures link_sure { order_named words.now ≡ Some Link → length source.old.left ≤ MOST_BYTES
        → EndsInRoom result (length sink.new.held ≡ sink.new.room)
        (IsCompleteScript link_script source.old.left result) }
    ensures init_sure { order_named words.now ≡ Some Init → disk.old.bytes ≡ [] → length source.old.left ≤ MOST_BYTES
        → MadeInRoom result (length sink.new.held ≡ sink.new.room) init_command source.old.left
        (ScriptHasNoRoom ⟦<SureSource as Source>⟧ init_command source.old source.new disk.old.room) }
    ensures import_sure { order_named words.now ≡ Some Import → disk.old.bytes ≡ []
        → length source.old.left ≤ MOST_BYTES
        → MadeInRoom result (length sink.new.held ≡ sink.new.room) import_command source.old.left
        (ScriptHasNoRoom ⟦<SureSource as Source>⟧ import_command source.old source.new disk.old.room) }
    ensures views_sure { (order_named words.now ≡ Some Show) ⊎ (order_named words.now ≡ Some Verify)
        → PairStore ⟦<SureDisk as Disk>⟧ disk.old
        → EndsInRoom result (length sink.new.held ≡ sink.new.room)
        ((result ≡ Status.Done) ⊎ (result ≡ Status.NoMemory)) }
    ensures refused_sure { (order_named words.now ≡ Some Apply) ⊎ (order_named words.now ≡ Some Pack)
        ⊎ (order_named words.now ≡ Some Show) ⊎ (order_named words.now ≡ Some Verify)
        → RefusedPairStore ⟦<SureDisk as Disk>⟧ disk.old
        → EndsInRoom result (length sink.new.held ≡ sink.new.room)
        ((result ≡ Status.StoreRefused) ⊎ (result ≡ Status.NoMemory)) }
    ensures undo_refused_sure { (count : ℕ) → order_named words.now ≡ Some (Undo count)
        → RefusedToUndo ⟦<SureDisk as Disk>⟧ undone_pairs count disk.old
        → EndsInRoom result (length sink.new.held ≡ sink.new.room)
        ((result ≡ Status.StoreRefused) ⊎ (result ≡ Status.NoMemory)) }
    ensures apply_sure { order_named words.now ≡ Some Apply → length source.old.left ≤ MOST_BYTES
        → (store : PairStore ⟦<SureDisk as Disk>⟧ disk.old)
        → StoredInRoom result (length sink.new.held ≡ sink.new.room) (IsFinished result ⊎ (result ≡ Status.NoMemory))
        (λ most. RunHasNoRoom ⟦<SureSource as Source>⟧ ⟦<StoreSession as StoredSession>⟧ source.old source.new most
        store.payloads store.state store.version) disk.old.room }
    ensures pack_sure { order_named words.now ≡ Some Pack
        → (store : PairStore ⟦<SureDisk as Disk>⟧ disk.old)
        → StoredInRoom result (length sink.new.held ≡ sink.new.room)
        ((result ≡ Status.Done) ⊎ (result ≡ Status.NoMemory))
        (λ most. PackHasNoRoom ⟦<StoreSession as StoredSession>⟧ most store.payloads store.state store.version)
        disk.old.room }
    ensures undo_sure { (count : ℕ) → order_named words.now ≡ Some (Undo count)
        → (store : StoreToUndo ⟦<SureDisk as Disk>⟧ undone_pairs count disk.old)
        → StoredInRoom result (length sink.new.held ≡ sink.new.room)
        ((result ≡ Status.Done) ⊎ (result ≡ Status.NoMemory))
        (λ most. UndoHasNoRoom undone_pairs most store.payloads store.undone) disk.old.room }
{
    editlens(alloc, words, source, sink, disk)
}
