//! A command over a script whose program part is one program.
ghost use Rattle.command_ends.specs.Statuses.{IsStatusAmong, script_statuses};
ghost use Rattle.std.specs.Prelude.{◌≡◌, ◌≤◌, ℕ, List, IfSome, length};
ghost use Rattle.script_input.specs.declared.limits.TheConstants.{MOST_BYTES};
ghost use Rattle.lens_io.specs.Calls.{SourceFailed, SinkFailed};
ghost use Rattle.script_input.specs.Parts.{HoldsPart};
ghost use Rattle.run_scripts.specs.ScriptEnds.{Ended, EveryRunStaysInStep, IsComplete};
ghost use Rattle.run_scripts.specs.ScriptSteps.{Opens};

use crate::part::{answer_alone, answer_part};
use crate::script_state::{NotOpened, ScriptState};
use crate::stopped::Stopped;
use command_ends::Status;
use lens_io::{Sink, Source};
use script_input::{Head, ProgramText, piece_buffer, read_head};
use std::alloc::Global;

/// A state that one program opens, and of which every run stays in step.
pub trait ProgramScript: ScriptState {
    /// The state before the journal, or why there is none: the program part is refused, or memory ran out.
    fn open(alloc: Global, program: &ProgramText) -> Result<Self, NotOpened>
        ensures { (part : List ℕ) → HoldsPart program.now part → Opens Self.ScriptState (Self.accepted part) result };

    /// Every run of a program part that is accepted goes on to its end, and each of its states is in step.
    ghost every_run: { EveryRunStaysInStep Self.ScriptState };
}

/// Runs a script, with its input and its output.
///
/// The source is read in pieces, to its end unless something stops the call before it, and what there is to write for
/// each piece is written before the next is read. docs/FORMATS.md says what a script is, and docs/MEANING.md what a
/// report says. The status says how the call ended, and `ended` what holds then:
///
/// - `Done`, `SomeRefused`: the source was read to its end, and the report of what it gave was written: the answer
///   lines of the run over the lines of the journal, and the state lines of its last state. Every state of the run is
///   in step.
/// - `ProgramRefused`: the program part is whole and refused, and its line was written.
/// - `SourceFault`, `InputTooLong`: the answers to exactly the lines of the journal that have ended were written.
/// - `SinkFault`, `NoMemory`: when the source was called last, every line of the journal that had ended was answered.
///
/// No other status comes (`statuses`). `source_fault`, `sink_fault`: these come only if the source, or the sink,
/// failed. `completes`: over at most 2^30 bytes, if neither failed, the call comes to its end, or the program part is
/// refused, or memory ran out. `NoMemory` comes only if memory ran out.
pub fn run_script<S: Source, K: Sink, A: ProgramScript>(
    alloc: Global,
    source: &mut S,
    sink: &mut K,
) -> Status
    ensures ended { Ended A.ScriptState S.Source K.Sink (source.old, sink.old) (source.new, sink.new) result }
    ensures completes { IfSome (S.left source.old) (λ bytes. length bytes ≤ MOST_BYTES
        → (SourceFailed S.Source source.old source.new → ⊥) → (SinkFailed K.Sink sink.old sink.new → ⊥)
        → IsComplete A.ScriptState bytes result) }
    ensures statuses { IsStatusAmong script_statuses result }
    ensures source_fault { result ≡ Status.SourceFault → SourceFailed S.Source source.old source.new }
    ensures sink_fault { result ≡ Status.SinkFault → SinkFailed K.Sink sink.old sink.new }
{
    read_and_answer::<S, K, A>(alloc, source, sink)
}

// The same without `completes`, which follows.
fn read_and_answer<S: Source, K: Sink, A: ProgramScript>(
    alloc: Global,
    source: &mut S,
    sink: &mut K,
) -> Status
    ensures ended { Ended A.ScriptState S.Source K.Sink (source.old, sink.old) (source.new, sink.new) result }
    ensures source_fault { result ≡ Status.SourceFault → SourceFailed S.Source source.old source.new }
    ensures sink_fault { result ≡ Status.SinkFault → SinkFailed K.Sink sink.old sink.new }
{
    let Ok(mut piece) = piece_buffer(alloc) else {
        return Status::NoMemory;
    };
    match read_head(alloc, source, &mut piece) {
        Ok(Head::Whole(program)) => answer_alone(alloc, A::open(alloc, &program), sink),
        Ok(Head::Separated(program, input)) => {
            let opened = A::open(alloc, &program);
            answer_part(alloc, opened, input, source, &mut piece, sink)
        }
        Err(fault) => Stopped::at_piece(fault).status(),
    }
}
