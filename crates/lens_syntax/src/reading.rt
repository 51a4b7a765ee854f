//! From a text to its program.

ghost use Rattle.std.specs.Prelude.{◌≡◌, ◌↔◌, ◌<◌, ◌≤◌, IsErrOf, length};
ghost use Rattle.program_terms.specs.Views.{program_tree};
ghost use Rattle.lens_syntax.specs.Programs.{Gives, TellsResult, bounded, unbounded};
ghost use Rattle.lens_syntax.specs.declared.fault.ProgramFault;

use crate::fault::ProgramFault;
use program_reader::{ProgramReadFault, read_tokens};
use program_terms::Program;
use program_tokens::tokens;
use std::alloc::Global;

/// The most bytes of a text that `read_program` reads.
pub const MOST_PROGRAM_BYTES: usize = 65_536;

/// The program of a text of at most 65,536 bytes.
///
/// The refusals, in this order; docs/LANGUAGE.md has the rules:
/// - `ProgramTooLong` if and only if the text has more bytes.
/// - `NotAProgram` if and only if the grammar does not have the text, with the offset of the unexpected token: the
///   tokens before it begin some program and its end, and with it they do not.
/// - `UnknownName` and `RepeatedName`, the first of either in written order, with the offset of the name.
/// - `NoMemory` when memory runs out, in place of any result but `ProgramTooLong`.
pub fn read_program(alloc: Global, text: &[u8]) -> Result<Program, ProgramFault>
    ensures answer { Gives program_tree result (bounded text.now) }
    ensures too_long { IsErrOf result ProgramFault.ProgramTooLong ↔ MOST_PROGRAM_BYTES < length text.now }

    // What the result says of the text, in the words of the grammar.
    ensures tells { length text.now ≤ MOST_PROGRAM_BYTES → TellsResult program_tree text.now result }
{
    if text.len() > MOST_PROGRAM_BYTES {
        return Err(ProgramFault::ProgramTooLong);
    }
    read_unbounded(alloc, text)
}

/// The program of a text of any length, as canonical text may be longer than the text that was read.
///
/// The refusals are those of `read_program` but for `ProgramTooLong`, which never comes.
pub fn read_unbounded(alloc: Global, text: &[u8]) -> Result<Program, ProgramFault>
    ensures answer { Gives program_tree result (unbounded text.now) }

    // What the result says of the text, in the words of the grammar; so it is never `ProgramTooLong`.
    ensures tells { TellsResult program_tree text.now result }
{
    let tokens = tokens(alloc, text)?;
    match read_tokens(alloc, tokens) {
        Ok(program) => Ok(program),
        Err(ProgramReadFault::NotAProgram { at }) => Err(ProgramFault::NotAProgram { at }),
        Err(ProgramReadFault::UnknownName { at }) => Err(ProgramFault::UnknownName { at }),
        Err(ProgramReadFault::RepeatedName { at }) => Err(ProgramFault::RepeatedName { at }),
        Err(ProgramReadFault::NoMemory) => Err(ProgramFault::NoMemory),
        Err(ProgramReadFault::Ended) => unreachable!(),
    }
}
