// Reading a script up to its program.
ghost use Rattle.std.specs.Prelude.{◌≡◌, MatchResult, IsErrOf};
ghost use Rattle.lens_forms.specs.Forms.{form_tree};
ghost use Rattle.lens_io.specs.Calls.{SourceFailed};
ghost use Rattle.program_terms.specs.Views.{program_tree};
ghost use Rattle.store_new.specs.Reading.{status_at};
ghost use Rattle.store_new.specs.ScriptReading.{ReadsScript, IsUnread};

use command_ends::Status;
use lens_io::{Source, TakeFault};
use program_accepted::{Accepted, Refused};
use script_input::{Head, accepted_part, piece_buffer, read_head, skip_rest};
use std::alloc::Global;

/// Why a script gives no program.
#[derive(Drop)]
pub enum Unread {
    /// The program part is refused, or memory ran out.
    Refused(Refused),
    /// The script was not read to its end.
    Stopped(TakeFault),
}

/// The status of a command whose script was not read to its end, for this fault.
pub fn status_at(fault: TakeFault) -> Status
    ensures { result ≡ status_at fault }
{
    match fault {
        TakeFault::SourceFault => Status::SourceFault,
        TakeFault::TooLong => Status::InputTooLong,
        TakeFault::NoMemory => Status::NoMemory,
    }
}

/// The program of a script, which is read to its end. The journal part is not looked at. A program part that is whole
/// and refused is refused at once: behind the block that ended its separator nothing is read.
pub fn read_script<S: Source>(alloc: Global, source: &mut S) -> Result<Accepted, Unread>
    ensures script { MatchResult result
        (λ a. ReadsScript S.Source source.old source.new (program_tree a.program) (form_tree a.lens))
        (IsUnread S.Source source.old source.new) }
    ensures cause { IsErrOf result (Unread.Stopped TakeFault.SourceFault)
        → SourceFailed S.Source source.old source.new }
{
    let Ok(mut piece) = piece_buffer(alloc) else {
        return Err(Unread::Stopped(TakeFault::NoMemory));
    };
    match read_head(alloc, source, &mut piece) {
        Ok(Head::Whole(program)) => match accepted_part(alloc, &program) {
            Ok(accepted) => Ok(accepted),
            Err(refused) => Err(Unread::Refused(refused)),
        },
        Ok(Head::Separated(program, input)) => match accepted_part(alloc, &program) {
            Ok(accepted) => match skip_rest(input, source, &mut piece) {
                Ok(()) => Ok(accepted),
                Err(fault) => {
                    drop(accepted);
                    Err(Unread::Stopped(fault))
                }
            },
            Err(refused) => Err(Unread::Refused(refused)),
        },
        Err(fault) => Err(Unread::Stopped(fault)),
    }
}
