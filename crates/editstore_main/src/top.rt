//! The top call.
ghost use Rattle.command_ends.specs.Statuses.{IsStatusAmong, quiet_statuses};
ghost use Rattle.std.specs.Prelude.{◌≡◌, ◌⊎◌, Some, None};
ghost use Rattle.lens_io.specs.Calls.{SinkFailed, DiskFailed};
ghost use Rattle.editstore_main.specs.StoreEnds.{EndsStoreOrder, GivesStoreUsage, RemakesBy, RemakesHub, RemakesPair};
ghost use Rattle.editstore_main.specs.StoreEnds.{StoreMayEnd};
ghost use Rattle.editstore_main.specs.StoreOrders.{IsNumbered, store_order_named};
ghost use Rattle.editstore_main.specs.declared.words.StoreKind.TheVariants.{Hub, Pair};
ghost use Rattle.editstore_main.specs.declared.words.Upkeep.{Upkeep};

use crate::usage::USAGE;
use crate::words::{StoreKind, StoreOrder, Upkeep, read_order};
use command_ends::Status;
use hub_session::HubSession;
use lens_io::{Disk, Sink, give_all};
use std::alloc::Global;
use store_copy::{RemadeSession, back, compact, copy};
use store_session::StoreSession;

/// Does what the program's words say: makes the store on the disk `from` anew on the disk `to`, which has to be empty.
///
/// `pair` and `hub` name the record of what a command promises over a store of that kind, `Remakes` of store_copy:
///
/// - `of_store`: what was made, written and stored, and why a fault came. After `Done` the new store represents the
///   state that it should, and so does each image of it that a crash may leave.
/// - `refuses`: over bytes that are no store the line `store refused: REASON` is written.
/// - `exists`: if `to` is not empty, the line `store refused: log-exists` is written.
/// - `only_reads`, `survives`: nothing is written to `from`, and a crash at any moment leaves nothing new on it.
///
/// `usage`: words that name no command give the usage line, and no disk is called. `statuses`: how each command may
/// end. `sink_fault`, `disk_fault`: `SinkFault` and `DiskFault` come only if the device failed.
pub fn editstore<K: Sink, D: Disk, E: Disk>(
    alloc: Global,
    words: &[String],
    sink: &mut K,
    from: &mut D,
    to: &mut E,
) -> Status
    ensures pair { (upkeep : Upkeep)
        → store_order_named words.now ≡ Some (record { kind = Pair; upkeep = upkeep })
        → RemakesPair K.Sink D.Disk E.Disk (sink.old, from.old, to.old) (sink.new, from.new, to.new)
        result upkeep }
    ensures hub { (upkeep : Upkeep)
        → store_order_named words.now ≡ Some (record { kind = Hub; upkeep = upkeep })
        → RemakesHub K.Sink D.Disk E.Disk (sink.old, from.old, to.old) (sink.new, from.new, to.new)
        result upkeep }
    ensures usage { store_order_named words.now ≡ None
        → GivesStoreUsage K.Sink sink.old sink.new result × (from.new ≡ from.old) × (to.new ≡ to.old) }
    ensures statuses { StoreMayEnd (store_order_named words.now) result }
    ensures sink_fault { result ≡ Status.SinkFault → SinkFailed K.Sink sink.old sink.new }
    ensures disk_fault { result ≡ Status.DiskFault
        → DiskFailed D.Disk from.old from.new ⊎ DiskFailed E.Disk to.old to.new }
{
    match read_order(words) {
        Some(order) => run_order(alloc, order, sink, from, to),
        None => give_usage(sink),
    }
}

// Does what an order says.
fn run_order<K: Sink, D: Disk, E: Disk>(
    alloc: Global,
    order: StoreOrder,
    sink: &mut K,
    from: &mut D,
    to: &mut E,
) -> Status
    requires numbered { IsNumbered order.upkeep }
    ensures ends { EndsStoreOrder K.Sink D.Disk E.Disk (sink.old, from.old, to.old)
        (sink.new, from.new, to.new) result order }
    ensures statuses { IsStatusAmong quiet_statuses result }
    ensures sink_fault { result ≡ Status.SinkFault → SinkFailed K.Sink sink.old sink.new }
    ensures disk_fault { result ≡ Status.DiskFault
        → DiskFailed D.Disk from.old from.new ⊎ DiskFailed E.Disk to.old to.new }
{
    match order.kind {
        StoreKind::Pair => remake::<StoreSession, K, D, E>(alloc, order.upkeep, sink, from, to),
        StoreKind::Hub => remake::<HubSession, K, D, E>(alloc, order.upkeep, sink, from, to),
    }
}

// Makes a store of one kind anew.
fn remake<A: RemadeSession + Drop, K: Sink, D: Disk, E: Disk>(
    alloc: Global,
    upkeep: Upkeep,
    sink: &mut K,
    from: &mut D,
    to: &mut E,
) -> Status
    requires numbered { IsNumbered upkeep }
    ensures remakes { RemakesBy K.Sink D.Disk E.Disk (sink.old, from.old, to.old)
        (sink.new, from.new, to.new) result A.StoredSession A.beginning A.earlier upkeep }
    ensures statuses { IsStatusAmong quiet_statuses result }
    ensures sink_fault { result ≡ Status.SinkFault → SinkFailed K.Sink sink.old sink.new }
    ensures disk_fault { result ≡ Status.DiskFault
        → DiskFailed D.Disk from.old from.new ⊎ DiskFailed E.Disk to.old to.new }
{
    match upkeep {
        Upkeep::Compact => compact::<A, K, D, E>(alloc, from, to, sink),
        Upkeep::Copy => copy::<A, K, D, E>(alloc, from, to, sink),
        Upkeep::Back { number } => back::<A, K, D, E>(alloc, number as usize, from, to, sink),
    }
}

// Writes the usage line.
fn give_usage<K: Sink>(sink: &mut K) -> Status
    ensures given { GivesStoreUsage K.Sink sink.old sink.new result }
    ensures statuses { StoreMayEnd None result }
    ensures sink_fault { result ≡ Status.SinkFault → SinkFailed K.Sink sink.old sink.new }
    ensures no_disk { result ≡ Status.DiskFault → ⊥ }
{
    match give_all(sink, USAGE.as_bytes()) {
        Ok(()) => Status::Usage,
        Err(_) => Status::SinkFault,
    }
}
