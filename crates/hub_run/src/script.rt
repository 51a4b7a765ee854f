//! The call over the script of a hub.

ghost use Rattle.command_ends.specs.Statuses.{IsStatusAmong, script_statuses};
ghost use Rattle.std.specs.Prelude.{◌≡◌, ◌≤◌, IfSome, length};
ghost use Rattle.lens_io.specs.Calls.{SourceFailed, SinkFailed};
ghost use Rattle.script_input.specs.declared.limits.TheConstants.{MOST_BYTES};
ghost use Rattle.run_scripts.specs.ScriptEnds.{Ended, IsComplete};
ghost use Rattle.hub_run.specs.HubScript.{hub_script};

use crate::head::{HubHead, read_hub_head};
use crate::run::HubRun;
use command_ends::Status;
use lens_io::{Sink, Source};
use run_scripts::{Stopped, answer_alone, answer_part};
use script_input::piece_buffer;
use std::alloc::Global;

/// Runs the script of a hub, with its input and its output.
///
/// The source is read in pieces, to its end unless something stops the call before it, and the report of what was read
/// is written to the sink as it comes. docs/FORMATS.md says what a script is, and docs/MEANING.md what a report says.
/// The status says how the call ended, and `ended` what holds then:
///
/// - `Done`, `SomeRefused`: the source was read to its end, the answers to the lines of the journal and the state lines
///   were written, and in every hub of the run each view is in its lens's consistency relation with the hub.
/// - `ProgramRefused`: the program part is whole and refused, and its line was written.
/// - `SourceFault`, `InputTooLong`: the answers to exactly the lines of the journal that have ended were written.
/// - `SinkFault`, `NoMemory`: when the source was called last, every line of the journal that had ended was answered.
///
/// No other status comes (`statuses`). `source_fault`, `sink_fault`: these come only if the source, or the sink,
/// failed. `completes`: over at most 2^30 bytes, if neither failed, the call comes to its end, or the program part is
/// refused, or memory ran out. `NoMemory` comes only if memory ran out, which no clause can say.
pub fn run_hub<S: Source, K: Sink>(alloc: Global, source: &mut S, sink: &mut K) -> Status
    ensures ended { Ended hub_script S.Source K.Sink (source.old, sink.old) (source.new, sink.new) result }
    ensures completes { IfSome (S.left source.old) (λ bytes. length bytes ≤ MOST_BYTES
        → (SourceFailed S.Source source.old source.new → ⊥) → (SinkFailed K.Sink sink.old sink.new → ⊥)
        → IsComplete hub_script bytes result) }
    ensures statuses { IsStatusAmong script_statuses result }
    ensures source_fault { result ≡ Status.SourceFault → SourceFailed S.Source source.old source.new }
    ensures sink_fault { result ≡ Status.SinkFault → SinkFailed K.Sink sink.old sink.new }
{
    run_script(alloc, source, sink)
}

fn run_script<S: Source, K: Sink>(alloc: Global, source: &mut S, sink: &mut K) -> Status
    ensures ended { Ended hub_script S.Source K.Sink (source.old, sink.old) (source.new, sink.new) result }
    ensures source_fault { result ≡ Status.SourceFault
        → SourceFailed S.Source source.old source.new }
    ensures sink_fault { result ≡ Status.SinkFault
        → SinkFailed K.Sink sink.old sink.new }
{
    let Ok(mut piece) = piece_buffer(alloc) else {
        return Status::NoMemory;
    };
    match read_hub_head(alloc, source, &mut piece) {
        Ok(HubHead::Whole(pieces)) => answer_alone(alloc, HubRun::open(alloc, &pieces), sink),
        Ok(HubHead::Separated(pieces, input)) => {
            let opened = HubRun::open(alloc, &pieces);
            answer_part(alloc, opened, input, source, &mut piece, sink)
        }
        Err(fault) => Stopped::at_piece(fault).status(),
    }
}
