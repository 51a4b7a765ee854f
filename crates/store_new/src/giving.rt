// Writing the line that a command ends with.
ghost use Rattle.std.specs.Prelude.{◌≡◌, ◌⊎◌, Result};
ghost use Rattle.lens_io.specs.Calls.{SinkFailed};
ghost use Rattle.lens_forms.specs.Forms.{FormTree};
ghost use Rattle.program_accepted.specs.Program.{Refusal};
ghost use Rattle.program_accepted.specs.Refused.{IsKnown, IsProgramRefusal};
ghost use Rattle.store_new.specs.NewEnds.{GivesLine};
ghost use Rattle.store_new.specs.ScriptReading.{RefusesWith};
ghost use Rattle.store_new.specs.Scripts.{one_program};

use answer_text::refused_part_line;
use command_ends::Status;
use lens_io::{Sink, give_all};
use program_accepted::Refused;
use std::alloc::Global;

/// Writes these bytes, and ends with the status.
pub fn give_line<K: Sink>(sink: &mut K, line: &[u8], status: Status) -> Status
    ensures gives { GivesLine K.Sink sink.old sink.new line.now status result }
    ensures sink_fault { result ≡ Status.SinkFault
        → (status ≡ Status.SinkFault) ⊎ SinkFailed K.Sink sink.old sink.new }
{
    match give_all(sink, line) {
        Ok(()) => status,
        Err(_) => Status::SinkFault,
    }
}

/// Ends a command whose program part is refused, with its line. If memory ran out, nothing is written.
pub fn refuse_program<K: Sink>(alloc: Global, refused: Refused, sink: &mut K) -> Status
    requires { IsKnown refused }
    ensures refuses { (outcome : Result FormTree Refusal) → IsProgramRefusal outcome refused
        → RefusesWith one_program K.Sink sink.old sink.new outcome result }
    ensures sink_fault { result ≡ Status.SinkFault → SinkFailed K.Sink sink.old sink.new }
{
    let line = refused_part_line(alloc, &refused);
    drop(refused);
    match line {
        Ok(line) => give_line(sink, line.as_slice(), Status::ProgramRefused),
        Err(_) => Status::NoMemory,
    }
}
