//! What comes once the program part of a script was read.
ghost use Rattle.std.specs.Prelude.{◌≡◌, ◌<◌, ◌≤◌, List, ℕ, length};
ghost use Rattle.lens_io.specs.Calls.{SourceFailed, SinkFailed};
ghost use Rattle.script_input.specs.Taking.{IsTakenWithin};
ghost use Rattle.script_input.specs.declared.limits.TheConstants.{PIECE_BYTES};
ghost use Rattle.script_input.specs.Parts.{IsTaken, IsHead};
ghost use Rattle.run_scripts.specs.ScriptEnds.{Ended, EveryRunStaysInStep};
ghost use Rattle.run_scripts.specs.ScriptSteps.{GivesAlone, Opens};

use crate::journal::answer_script;
use crate::report::{first_report, give_report, refusal};
use crate::script_state::{NotOpened, ScriptState};
use command_ends::Status;
use lens_io::{Sink, Source};
use script_input::Input;
use std::alloc::Global;

/// Goes on behind a program part and its separator. `opened` is the state before the journal, or why there is none.
///
/// If there is one, the journal is answered as it comes, and the state lines are written at its end. If the program
/// part is refused, the line of the refusal is written, and nothing more is read. The status, and what was read and
/// written since the source gave its first byte, is said by `Ended`:
///
/// - `Done`, `SomeRefused`: the report of the complete input was written, and every state of the run is in step.
/// - `ProgramRefused`: only if `opened` is a refusal. Its line was written, and nothing more.
/// - `SourceFault`, `SinkFault`: only if the source, or the sink, failed.
/// - `InputTooLong`: if and only if more than 2^30 bytes were taken, and nothing stopped the call first.
/// - `NoMemory`: only if memory ran out, or had when the state was made.
pub fn answer_part<S: Source, K: Sink, A: ScriptState>(
    alloc: Global,
    opened: Result<A, NotOpened>,
    input: Input,
    source: &mut S,
    piece: &mut [u8],
    sink: &mut K,
) -> Status
    requires some { 0 < length piece.old }
    requires few { length piece.old ≤ PIECE_BYTES }
    requires within { IsTakenWithin input }
    requires in_step { EveryRunStaysInStep A.ScriptState }
    ensures ended { (start : S) (front rest part : List ℕ)
        → IsTaken S.Source start source.old input front rest → IsHead front part
        → Opens A.ScriptState (A.accepted part) opened
        → Ended A.ScriptState S.Source K.Sink (start, sink.old) (source.new, sink.new) result }
    ensures source_fault { result ≡ Status.SourceFault
        → SourceFailed S.Source source.old source.new }
    ensures sink_fault { result ≡ Status.SinkFault
        → SinkFailed K.Sink sink.old sink.new }
{
    match opened {
        Ok(state) => answer_script(alloc, state, input, source, piece, sink),
        Err(refused) => give_report(refusal(refused), sink),
    }
}

/// Ends a script that is a program part alone. `opened` is the state before the journal, or why there is none.
///
/// If there is one, its state lines are written. If the program part is refused, the line of the refusal is written.
/// The status, and what was written then, is said by `GivesAlone`:
///
/// - `Done`: the state lines were written.
/// - `ProgramRefused`: only if `opened` is a refusal. Its line was written, and nothing more.
/// - `SinkFault`: only if the sink failed.
/// - `NoMemory`: only if memory ran out, or had when the state was made.
/// - No other status comes.
pub fn answer_alone<K: Sink, A: ScriptState>(
    alloc: Global,
    opened: Result<A, NotOpened>,
    sink: &mut K,
) -> Status
    ensures gives { (part : List ℕ) → Opens A.ScriptState (A.accepted part) opened
        → GivesAlone A.ScriptState K.Sink sink.old sink.new (A.accepted part) result }
    ensures no_fault { result ≡ Status.SourceFault → ⊥ }
    ensures sink_fault { result ≡ Status.SinkFault
        → SinkFailed K.Sink sink.old sink.new }
{
    match opened {
        Ok(state) => {
            let report = first_report(alloc, &state);
            drop(state);
            give_report(report, sink)
        }
        Err(refused) => give_report(refusal(refused), sink),
    }
}
