//! Two calls of `apply` over one store are one run over the lines that they accept, also if a crash came between them,
//! whatever session the store has.
//!
//! The contract of a call says what the call writes and stores, and what a crash leaves of it. The laws here put
//! calls together. They hold for every [`StoredSession`] of which the number of an item changes the answer line alone.
//! A pair and a hub are such sessions. Each function does nothing: its clauses are the laws.
#![tactic(auto)]

ghost use Rattle.command_ends.specs.Statuses.{IsFinished};
ghost use Rattle.command_ends.specs.declared.status.Status.{Status};
ghost use Rattle.std.specs.Prelude.{◌≡◌, ◌⊎◌, ℕ, ◌++◌, List, Some};
ghost use Rattle.edit_journal.specs.Pieces.{lines_of};
ghost use Rattle.edit_journal.specs.declared.line.Line.{Line};
ghost use Rattle.store_run.specs.Devices.{Devices};
ghost use Rattle.store_run.specs.Stores.{Store};
ghost use Rattle.law_stores.specs.CallsOverStores.{AppliesOver, FinishesLines, GoesOnFrom, LeavesFirstLines};
ghost use Rattle.law_stores.specs.CallsOverStores.{StaysClosed, held_on};
ghost use Rattle.law_stores.specs.CutStores.{EndsALine, MeetAgain};
ghost use Rattle.law_stores.specs.SessionRuns.{IsNumberedAlike};
ghost use Rattle.law_stores.specs.StoresOfSessions.{AddsRun, HeldStore, IsOneRun};

use lens_io::{Disk, Sink, Source};
use store_run::StoredSession;

/// A run over a store, and then a run over the store that it made, are one run over the first store.
///
/// - `one`: over the accepted lines of both, as far as the states and the payloads are concerned.
/// - `complete`: over the lines of both. So the law is one of any number of runs.
pub fn two_runs_are_one_run<A: StoredSession>()
    ensures one { IsNumberedAlike A.StoredSession → (before between after : HeldStore A.StoredSession)
        (first second : List Line)
        (left : AddsRun A.StoredSession before first between) (right : AddsRun A.StoredSession between second after)
        → IsOneRun A.StoredSession before first left.steps second right.steps after }
    ensures complete { IsNumberedAlike A.StoredSession → (before between after : HeldStore A.StoredSession)
        (first second : List Line)
        → AddsRun A.StoredSession before first between → AddsRun A.StoredSession between second after
        → AddsRun A.StoredSession before (first ++ second) after }
{}

/// What a call of `apply` over a store leaves is the store and a run over the first lines of what it took.
///
/// - `leaves`: each image that a crash after the call may leave. The only other case is a call that could not open
///   the store: such an image was possible before it.
/// - `finishes`: the disk after a call that came to its end. The run is over all lines.
pub fn a_call_leaves_a_run<A: StoredSession, S: Source, K: Sink, D: Disk>()
    ensures leaves { (old new : Devices S K D) (status : Status) (store : Store D.Disk A.StoredSession old.disk)
        (image : List ℕ)
        → AppliesOver S.Source K.Sink D.Disk A.StoredSession old new status store → D.Disk.images new.disk image
        → StaysClosed S.Source K.Sink D.Disk A.StoredSession old new status image
        ⊎ LeavesFirstLines S.Source K.Sink D.Disk A.StoredSession old new
        (held_on D.Disk A.StoredSession old.disk store) image }
    ensures finishes { (old new : Devices S K D) (status : Status) (store : Store D.Disk A.StoredSession old.disk)
        → AppliesOver S.Source K.Sink D.Disk A.StoredSession old new status store → IsFinished status
        → FinishesLines S.Source K.Sink D.Disk A.StoredSession old new
        (held_on D.Disk A.StoredSession old.disk store) }
{}

/// Two calls of `apply`, the second over what the first one left, are one run over the lines that they accept.
///
/// The first call is over a store, and the disk of the second has the bytes that the first one left. What both store,
/// answer and end with is what the one run stores, answers and ends with. The source and the sink of the second call
/// may be others.
///
/// - `crash`: these bytes are an image that a crash after the first call may leave. The only other case is a first
///   call that could not open the store: then the image was possible before it.
/// - `finished`: the first call came to its end, and they are what its disk has then.
pub fn two_calls_are_one_run<A: StoredSession, S: Source, K: Sink, D: Disk>()
    ensures crash { IsNumberedAlike A.StoredSession → (old1 new1 old2 new2 : Devices S K D) (status1 status2 : Status)
        (store : Store D.Disk A.StoredSession old1.disk) (image : List ℕ)
        → AppliesOver S.Source K.Sink D.Disk A.StoredSession old1 new1 status1 store → D.Disk.images new1.disk image
        → ((other : Store D.Disk A.StoredSession old2.disk)
        → AppliesOver S.Source K.Sink D.Disk A.StoredSession old2 new2 status2 other)
        → D.Disk.content old2.disk ≡ Some image
        → StaysClosed S.Source K.Sink D.Disk A.StoredSession old1 new1 status1 image
        ⊎ ((first : LeavesFirstLines S.Source K.Sink D.Disk A.StoredSession old1 new1
        (held_on D.Disk A.StoredSession old1.disk store) image)
        × GoesOnFrom S.Source K.Sink D.Disk A.StoredSession old2 new2 status2 first.run) }
    ensures finished { IsNumberedAlike A.StoredSession
        → (old1 new1 old2 new2 : Devices S K D) (status1 status2 : Status)
        (store : Store D.Disk A.StoredSession old1.disk) (image : List ℕ)
        → AppliesOver S.Source K.Sink D.Disk A.StoredSession old1 new1 status1 store → IsFinished status1
        → D.Disk.content new1.disk ≡ Some image
        → ((other : Store D.Disk A.StoredSession old2.disk)
        → AppliesOver S.Source K.Sink D.Disk A.StoredSession old2 new2 status2 other)
        → D.Disk.content old2.disk ≡ Some image
        → (first : FinishesLines S.Source K.Sink D.Disk A.StoredSession old1 new1
        (held_on D.Disk A.StoredSession old1.disk store))
        × GoesOnFrom S.Source K.Sink D.Disk A.StoredSession old2 new2 status2 first.run }
{}

/// A journal that is cut between lines and applied in two calls comes to what one call over the complete journal
/// comes to: the same states, the same answers but for their numbers, and the same payloads.
///
/// All three calls came to their end, but for the first one of `crash`. The devices of the three may be different
/// ones.
///
/// - `cut`: the second call is over the disk that the first one left.
/// - `crash`: the second call is over an image that a crash of the first one left, and its journal goes on behind
///   the lines that the image has.
pub fn a_journal_may_be_cut<A: StoredSession, S: Source, K: Sink, D: Disk>()
    ensures cut { IsNumberedAlike A.StoredSession → (old1 new1 old2 new2 old3 new3 : Devices S K D)
        (before : HeldStore A.StoredSession)
        (first : FinishesLines S.Source K.Sink D.Disk A.StoredSession old1 new1 before)
        (second : FinishesLines S.Source K.Sink D.Disk A.StoredSession old2 new2 first.after)
        (complete : FinishesLines S.Source K.Sink D.Disk A.StoredSession old3 new3 before)
        → EndsALine first.bytes → complete.bytes ≡ first.bytes ++ second.bytes
        → MeetAgain A.StoredSession before.state first.run.steps (lines_of second.bytes) second.run.steps
        second.after complete.run.steps complete.after }
    ensures crash { IsNumberedAlike A.StoredSession → (old1 new1 old2 new2 old3 new3 : Devices S K D)
        (before : HeldStore A.StoredSession) (image : List ℕ)
        (first : LeavesFirstLines S.Source K.Sink D.Disk A.StoredSession old1 new1 before image)
        (second : FinishesLines S.Source K.Sink D.Disk A.StoredSession old2 new2 first.after)
        (complete : FinishesLines S.Source K.Sink D.Disk A.StoredSession old3 new3 before)
        → lines_of complete.bytes ≡ first.lines ++ lines_of second.bytes
        → MeetAgain A.StoredSession before.state first.run.steps (lines_of second.bytes) second.run.steps
        second.after complete.run.steps complete.after }
{}
