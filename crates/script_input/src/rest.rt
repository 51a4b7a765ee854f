//! The rest of an input that nobody looks at.
ghost use Rattle.std.specs.Prelude.{◌<◌, ◌≤◌, length, IsErrOf};
ghost use Rattle.lens_io.specs.Causes.{Increased};
ghost use Rattle.script_input.specs.Skipped.{SkipsRest};

use crate::input::Input;
use lens_io::{Source, TakeFault};

/// Reads an input to its end. Its bytes are not looked at, and the input is given up. Does not allocate.
///
/// - `SourceFault`: only if the source's count of faults increased.
/// - `TooLong`: if and only if more than `MOST_BYTES` bytes were taken in all.
/// - `NoMemory` never comes.
pub fn skip_rest<S: Source>(input: Input, source: &mut S, piece: &mut [u8]) -> Result<(), TakeFault>
    requires some { 0 < length piece.old }
    ensures skips { SkipsRest input.taken (S.left source.old) (S.left source.new) result }
    ensures faults { S.faults source.old ≤ S.faults source.new }
    ensures cause { IsErrOf result TakeFault.SourceFault → Increased (S.faults source.old) (S.faults source.new) }
{
    let mut input = input;
    'pieces: while input.skip_piece(source, piece)? {}
    Ok(())
}
