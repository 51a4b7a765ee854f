//! From tokens to a program.
ghost use Rattle.program_reader.specs.Causes.{IsResult, program_of};
ghost use Rattle.program_terms.specs.Views.{program_tree};

use crate::fault::ProgramReadFault;
use crate::names::with_known_names;
use crate::programs::read_program;
use program_terms::Program;
use program_tokens::Tokens;
use std::alloc::Global;

/// The program that these are the tokens of.
///
/// Names are checked after all tokens fit. The refusals, in this order:
/// - `NotAProgram` if and only if a token is unexpected, at the first such token: the tokens before it begin some
///   program, and with it they begin none, or a type or a lens begins at it inside 100 others.
/// - `Ended` if and only if all tokens fit but more would have to follow. The tokens of a text never end so.
/// - `UnknownName` and `RepeatedName`, the first of either in written order: a mentioned name that
///   no earlier definition of its sort has; a defined name that an earlier definition of either sort has.
/// - `NoMemory` when memory runs out, in place of any result.
///
/// docs/LANGUAGE.md has the grammar and the rules for names.
pub fn read_tokens(alloc: Global, tokens: Tokens) -> Result<Program, ProgramReadFault>
    ensures { IsResult program_tree result (program_of tokens) }
{
    let program = read_program(alloc, tokens)?;
    with_known_names(alloc, program)
}
