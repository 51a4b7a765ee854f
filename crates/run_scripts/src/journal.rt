//! The journal of a script.
ghost use Rattle.std.specs.Prelude.{◌≡◌, ◌<◌, ◌≤◌, List, ℕ, Ok, length};
ghost use Rattle.lens_io.specs.Calls.{SourceFailed, SinkFailed};
ghost use Rattle.script_input.specs.Taking.{IsTakenWithin};
ghost use Rattle.script_input.specs.declared.limits.TheConstants.{PIECE_BYTES};
ghost use Rattle.script_input.specs.Parts.{IsTaken, IsHead};
ghost use Rattle.run_scripts.specs.ScriptEnds.{Ended, EveryRunStaysInStep};

use crate::answer_pieces;
use crate::report::{give_report, last_report};
use crate::script_state::ScriptState;
use command_ends::Status;
use lens_io::{Sink, Source};
use script_input::Input;
use std::alloc::Global;

/// Answers a journal as it comes, and ends with the state lines. The program part before it is accepted, and the state
/// is that before the journal. `start` is the source before its first byte was taken.
///
/// The status, and what was read and written then, is said by `Ended`. `NoMemory` comes only if memory ran out.
pub fn answer_script<S: Source, K: Sink, A: ScriptState>(
    alloc: Global,
    state: A,
    input: Input,
    source: &mut S,
    piece: &mut [u8],
    sink: &mut K,
) -> Status
    requires some { 0 < length piece.old }
    requires few { length piece.old ≤ PIECE_BYTES }
    requires within { IsTakenWithin input }
    requires in_step { EveryRunStaysInStep A.ScriptState }
    ensures ended { (start : S) (front rest part : List ℕ) (program : A.Accepted)
        → IsTaken S.Source start source.old input front rest → IsHead front part
        → A.accepted part ≡ Ok program → A.state state ≡ A.start program
        → Ended A.ScriptState S.Source K.Sink (start, sink.old) (source.new, sink.new) result }
    ensures source_fault { result ≡ Status.SourceFault
        → SourceFailed S.Source source.old source.new }
    ensures sink_fault { result ≡ Status.SinkFault
        → SinkFailed K.Sink sink.old sink.new }
{
    let mut state = state;
    let status = answer_lines(alloc, &mut state, input, source, piece, sink);
    drop(state);
    status
}

// The same for a state that is given back.
fn answer_lines<S: Source, K: Sink, A: ScriptState>(
    alloc: Global,
    state: &mut A,
    input: Input,
    source: &mut S,
    piece: &mut [u8],
    sink: &mut K,
) -> Status
    requires some { 0 < length piece.old }
    requires few { length piece.old ≤ PIECE_BYTES }
    requires within { IsTakenWithin input }
    requires in_step { EveryRunStaysInStep A.ScriptState }
    ensures ended { (start : S) (front rest part : List ℕ) (program : A.Accepted)
        → IsTaken S.Source start source.old input front rest → IsHead front part
        → A.accepted part ≡ Ok program → A.state state.old ≡ A.start program
        → Ended A.ScriptState S.Source K.Sink (start, sink.old) (source.new, sink.new) result }
    ensures source_fault { result ≡ Status.SourceFault
        → SourceFailed S.Source source.old source.new }
    ensures sink_fault { result ≡ Status.SinkFault
        → SinkFailed K.Sink sink.old sink.new }
{
    let mut input = input;
    match answer_pieces(alloc, state, &mut input, source, piece, sink) {
        Ok(progress) => give_report(last_report(alloc, state, progress, input), sink),
        Err(stopped) => stopped.status(),
    }
}
