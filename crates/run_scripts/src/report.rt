//! What is written at the end of an input, and the status.
ghost use Rattle.std.specs.Prelude.{◌≡◌, ◌+◌, ◌^◌, ◌<◌, ◌++◌, [], IfOk};
ghost use Rattle.lens_io.specs.Calls.{SinkFailed};
ghost use Rattle.run_scripts.specs.ScriptSteps.{EndsReport, Gives, HasEnd};

use crate::script_state::{NotOpened, ScriptState};
use crate::{Progress, handle_last};
use command_ends::Status;
use lens_io::{Sink, give_all};
use script_input::Input;
use std::alloc::{AllocError, Global};

/// What is written at the end of an input, and the status.
#[derive(Drop)]
pub struct Report {
    pub text: Vec<u8>,
    pub status: Status,
}

/// The end of the report of a run whose input is at its end: the answers that are not written yet, with that to the
/// last line, which no LF ends, and the state lines. The only error is running out of memory.
pub fn last_report<A: ScriptState>(
    alloc: Global,
    state: &mut A,
    progress: Progress,
    input: Input,
) -> Result<Report, AllocError>
    requires none { input.lines.ended ≡ [] }
    requires fits { progress.number + 1 < 2 ^ 64 }
    ensures report { IfOk result (EndsReport A.ScriptState (A.state state.old) progress input.lines.begun) }
    ensures end { HasEnd result }
{
    let mut progress = progress;
    handle_last(alloc, state, &mut progress, input)?;
    let status = Status::at_end(progress.refused);
    let text = with_state(alloc, state, progress.text)?;
    Ok(Report { text, status })
}

// A text with the state lines behind it. The only error is running out of memory.
fn with_state<A: ScriptState>(
    alloc: Global,
    state: &A,
    text: Vec<u8>,
) -> Result<Vec<u8>, AllocError>
    ensures { IfOk result (λ t. t.items ≡ text.items ++ A.state_text (A.state state.now)) }
{
    let mut text = text;
    let lines = state.state_lines(alloc)?;
    text.extend_from_slice(lines.as_slice())?;
    Ok(text)
}

/// The report of a script without a journal: the state lines alone. The only error is running out of memory.
pub fn first_report<A: ScriptState>(alloc: Global, state: &A) -> Result<Report, AllocError>
    ensures text { IfOk result (λ r. r.text.items ≡ A.state_text (A.state state.now)) }
    ensures status { IfOk result (λ r. r.status ≡ Status.Done) }
    ensures end { HasEnd result }
{
    let lines = state.state_lines(alloc)?;
    Ok(Report {
        text: lines.into_vec(),
        status: Status::Done,
    })
}

/// The report of a program part that is refused: the line of the refusal alone. The only error is running out of
/// memory.
pub fn refusal(refused: NotOpened) -> Result<Report, AllocError>
    ensures line { IfOk result (λ r. refused ≡ NotOpened.Refused r.text.items) }
    ensures status { IfOk result (λ r. r.status ≡ Status.ProgramRefused) }
    ensures end { HasEnd result }
{
    match refused {
        NotOpened::Refused(line) => Ok(Report {
            text: line.into_vec(),
            status: Status::ProgramRefused,
        }),
        NotOpened::NoMemory => Err(AllocError),
    }
}

/// Writes a report, and ends with its status. Out of memory there is none.
pub fn give_report<K: Sink>(report: Result<Report, AllocError>, sink: &mut K) -> Status
    requires { HasEnd report }
    ensures gives { Gives K.Sink sink.old sink.new report result }
    ensures no_fault { result ≡ Status.SourceFault → ⊥ }
    ensures sink_fault { result ≡ Status.SinkFault → SinkFailed K.Sink sink.old sink.new }
{
    let Ok(report) = report else {
        return Status::NoMemory;
    };
    match give_all(sink, &report.text) {
        Ok(()) => report.status,
        Err(_) => Status::SinkFault,
    }
}
