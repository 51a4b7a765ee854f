//! The loop that answers the lines of an input, piece by piece.
ghost use Rattle.std.specs.Prelude.{◌≡◌, ◌+◌, ◌^◌, ◌<◌, ◌≤◌, ◌∷◌, [], length, IfOk, IfErr, IsErrOf, MatchResult, OnOk};
ghost use Rattle.std.specs.Prelude.{OnErr};
ghost use Rattle.lens_io.specs.Calls.{SinkFailed};
ghost use Rattle.lens_io.specs.Causes.{Increased};
ghost use Rattle.lens_io.specs.Content.{AppendsFront};
ghost use Rattle.script_input.specs.Taking.{GaveFew, IsTakenWithin};
ghost use Rattle.script_input.specs.declared.limits.TheConstants.{MOST_BYTES, MOST_KEPT};
ghost use Rattle.run_scripts.specs.LineEnds.{GivesAnswers, WritesPart, AnswersLines, StopsLines, AnswersPiece};
ghost use Rattle.run_scripts.specs.LineEnds.{AnswersPieces};

use crate::progress::{Progress, handle_line};
use crate::script_state::ScriptState;
use crate::stopped::Stopped;
use edit_journal::Line;
use lens_io::{Sink, Source, give_all};
use script_input::{Input, MOST_KEPT};
use std::alloc::Global;

/// Steps a state through the lines of an input as they come, and writes the answers. The input is read in pieces, to
/// its end. When the source is asked for the next piece, all lines that have ended are answered, and their answers
/// are written.
///
/// `Ok` is the progress at the end of the input: all answers are written, and only the line that no LF ends is not
/// handled.
///
/// - `SourceFault`, `SinkFault`: only if the source, or the sink, failed.
/// - `TooLong`: if and only if more than 2^30 bytes were taken, and neither the sink nor memory stopped the run first.
/// - `NoMemory`: only if memory ran out.
///
/// After `SourceFault` and `TooLong` the answers to all lines that have ended are written. After `SinkFault` and
/// `NoMemory` at most the lines that ended in the last piece are unanswered.
pub fn answer_pieces<S: Source, K: Sink, A: ScriptState>(
    alloc: Global,
    state: &mut A,
    input: &mut Input,
    source: &mut S,
    piece: &mut [u8],
    sink: &mut K,
) -> Result<Progress, Stopped>
    requires some { 0 < length piece.old }
    requires within { IsTakenWithin input.old }
    ensures answers { AnswersPieces A.answer S.Source K.Sink
        (record { source = source.old; sink = sink.old; input = input.old; state = A.state state.old })
        (record { source = source.new; sink = sink.new; input = input.new; state = A.state state.new }) result }
    ensures few { GaveFew S.Source source.old source.new (length piece.old) }
    ensures number { IfOk result (λ p. p.number ≤ MOST_BYTES + 1) }
    ensures source_fault { IsErrOf result Stopped.SourceFault
        → Increased (S.faults source.old) (S.faults source.new) }
    ensures sink_faults { (K.faults sink.old ≤ K.faults sink.new)
        × (K.empty_takes sink.old ≤ K.empty_takes sink.new) }
    ensures sink_fault { IsErrOf result Stopped.SinkFault
        → SinkFailed K.Sink sink.old sink.new }
{
    let mut progress = Progress::new(alloc);
    answer_ended(alloc, state, &mut progress, input, sink)?;
    'pieces: while answer_piece(alloc, state, &mut progress, input, source, piece, sink)? {}
    Ok(progress)
}

/// Takes one piece of an input, and writes the answers to the lines that it has ended. `false` is the end of the input.
///
/// It is to be called when all lines that have ended before are answered, and their answers are written; and so it is
/// after `Ok`. At most one piece is taken. So no more than one piece is ever unanswered.
///
/// The errors are those of [`answer_pieces`]. After `SourceFault` and `TooLong` nothing was taken. After `SinkFault`
/// the answers to some of the lines that the piece has ended are made, and a prefix of them is written, and not all.
/// After `NoMemory` the answers to some of these lines are written.
#[tactic(auto, using(script_input::proofs::EndedLines::few_ended))]
pub fn answer_piece<S: Source, K: Sink, A: ScriptState>(
    alloc: Global,
    state: &mut A,
    progress: &mut Progress,
    input: &mut Input,
    source: &mut S,
    piece: &mut [u8],
    sink: &mut K,
) -> Result<bool, Stopped>
    requires some { 0 < length piece.old }
    requires answered { input.old.lines.ended ≡ [] }
    requires written { progress.old.text.items ≡ [] }
    requires number { progress.old.number ≤ input.old.taken }
    requires within { input.old.taken ≤ MOST_BYTES + 1 }
    ensures one_piece { AnswersPiece A.answer S.Source K.Sink
        (record { source = source.old; sink = sink.old; input = input.old; state = A.state state.old })
        (record { source = source.new; sink = sink.new; input = input.new; state = A.state state.new })
        progress.old progress.new result }
    ensures few { GaveFew S.Source source.old source.new (length piece.old) }
    ensures answered { OnOk result (input.new.lines.ended ≡ []) }
    ensures written { OnOk result (progress.new.text.items ≡ []) }
    ensures number { OnOk result (progress.new.number ≤ input.new.taken) }
    ensures source_faults { S.faults source.old ≤ S.faults source.new }
    ensures source_fault { IsErrOf result Stopped.SourceFault
        → Increased (S.faults source.old) (S.faults source.new) }
    ensures sink_faults { (K.faults sink.old ≤ K.faults sink.new)
        × (K.empty_takes sink.old ≤ K.empty_takes sink.new) }
    ensures sink_fault { IsErrOf result Stopped.SinkFault
        → SinkFailed K.Sink sink.old sink.new }
{
    let more = match input.take_piece(source, piece) {
        Ok(more) => more,
        Err(fault) => return Err(Stopped::at_piece(fault)),
    };
    answer_ended(alloc, state, progress, input, sink)?;
    Ok(more)
}

// Writes the answers to the lines that an LF has ended, and those that were not written before.
fn answer_ended<K: Sink, A: ScriptState>(
    alloc: Global,
    state: &mut A,
    progress: &mut Progress,
    input: &mut Input,
    sink: &mut K,
) -> Result<(), Stopped>
    requires fits { progress.old.number + length input.old.lines.ended < 2 ^ 64 }
    ensures answers { MatchResult result
        (λ _. AnswersLines A.answer (A.state state.old, progress.old) input.old.lines.ended
        (K.held sink.old) (K.held sink.new) (A.state state.new, progress.new))
        (StopsLines A.answer (A.state state.old, progress.old) input.old.lines.ended
        (K.held sink.old) (K.held sink.new)) }
    ensures rest { OnOk result
        (input.new.lines ≡ record { ended = []; begun = input.old.lines.begun }) }
    ensures written { OnOk result (progress.new.text.items ≡ []) }
    ensures number { OnOk result
        (progress.new.number ≤ progress.old.number + length input.old.lines.ended) }
    ensures taken { input.new.taken ≡ input.old.taken }
    ensures sink_faults { (K.faults sink.old ≤ K.faults sink.new)
        × (K.empty_takes sink.old ≤ K.empty_takes sink.new) }
    ensures sink_fault { IsErrOf result Stopped.SinkFault
        → SinkFailed K.Sink sink.old sink.new }
{
    let mut line = Line::empty(alloc);
    'lines: loop {
        match input.take_line_into(&mut line) {
            Ok(true) => answer_line(alloc, state, progress, &line, sink)?,
            Ok(false) => return give_answers(progress, sink),
            Err(_) => return Err(out_of_memory(progress, sink)),
        }
    }
}

// Handles a line. The answers are written once there are `MOST_KEPT` bytes of them, and if memory runs out.
fn answer_line<K: Sink, A: ScriptState>(
    alloc: Global,
    state: &mut A,
    progress: &mut Progress,
    line: &Line,
    sink: &mut K,
) -> Result<(), Stopped>
    requires fits { progress.old.number + 1 < 2 ^ 64 }
    ensures answers { MatchResult result
        (λ _. AnswersLines A.answer (A.state state.old, progress.old) (line.now ∷ [])
        (K.held sink.old) (K.held sink.new) (A.state state.new, progress.new))
        (StopsLines A.answer (A.state state.old, progress.old) (line.now ∷ [])
        (K.held sink.old) (K.held sink.new)) }
    ensures few_kept { OnOk result (length progress.new.text.items < MOST_KEPT) }
    ensures number { OnOk result (progress.new.number ≤ progress.old.number + 1) }
    ensures sink_faults { (K.faults sink.old ≤ K.faults sink.new)
        × (K.empty_takes sink.old ≤ K.empty_takes sink.new) }
    ensures sink_fault { IsErrOf result Stopped.SinkFault
        → SinkFailed K.Sink sink.old sink.new }
{
    match handle_line(alloc, state, progress, line) {
        Ok(()) => give_many(progress, sink),
        Err(_) => Err(out_of_memory(progress, sink)),
    }
}

// Writes the answers that are not written yet if there are `MOST_KEPT` bytes of them, or more.
fn give_many<K: Sink>(progress: &mut Progress, sink: &mut K) -> Result<(), Stopped>
    ensures given { OnOk result
        (GivesAnswers progress.old progress.new (K.held sink.old) (K.held sink.new)) }
    ensures few_kept { OnOk result (length progress.new.text.items < MOST_KEPT) }
    ensures stopped { IfErr result (λ stopped. (stopped ≡ Stopped.SinkFault)
        × AppendsFront (K.held sink.old) (K.held sink.new) progress.old.text.items) }
    ensures sink_faults { (K.faults sink.old ≤ K.faults sink.new)
        × (K.empty_takes sink.old ≤ K.empty_takes sink.new) }
    ensures sink_fault { OnErr result
        (SinkFailed K.Sink sink.old sink.new) }
{
    if progress.text.len() < MOST_KEPT {
        return Ok(());
    }
    give_answers(progress, sink)
}

// Writes the answers that are not written yet.
fn give_answers<K: Sink>(progress: &mut Progress, sink: &mut K) -> Result<(), Stopped>
    ensures given { OnOk result
        (GivesAnswers progress.old progress.new (K.held sink.old) (K.held sink.new)) }
    ensures written { OnOk result (progress.new.text.items ≡ []) }
    ensures stopped { IfErr result (λ stopped. (stopped ≡ Stopped.SinkFault)
        × AppendsFront (K.held sink.old) (K.held sink.new) progress.old.text.items) }
    ensures sink_faults { (K.faults sink.old ≤ K.faults sink.new)
        × (K.empty_takes sink.old ≤ K.empty_takes sink.new) }
    ensures sink_fault { OnErr result
        (SinkFailed K.Sink sink.old sink.new) }
{
    match give_all(sink, &progress.text) {
        Ok(()) => {
            progress.text.clear();
            Ok(())
        }
        Err(_) => Err(Stopped::SinkFault),
    }
}

// Writes the answers that were made before memory ran out, and returns what stops the run.
fn out_of_memory<K: Sink>(progress: &Progress, sink: &mut K) -> Stopped
    ensures writes { WritesPart (K.held sink.old) (K.held sink.new) progress.now.text.items result }
    ensures sink_faults { (K.faults sink.old ≤ K.faults sink.new)
        × (K.empty_takes sink.old ≤ K.empty_takes sink.new) }
    ensures sink_fault { result ≡ Stopped.SinkFault
        → SinkFailed K.Sink sink.old sink.new }
{
    match give_all(sink, &progress.text) {
        Ok(()) => Stopped::NoMemory,
        Err(_) => Stopped::SinkFault,
    }
}
