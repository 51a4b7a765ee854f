//! The pieces of the program part of a script that is read in pieces.

ghost use Rattle.std.specs.Prelude.{◌≡◌, ◌<◌, ◌≤◌, ◌++◌, true, length, List, ℕ, IfOk, IsErrOf, MatchResult};
ghost use Rattle.lens_io.specs.Causes.{Increased};
ghost use Rattle.edit_journal.specs.Lines.{line_of};
ghost use Rattle.edit_journal.specs.Pieces.{nothing_fed, fed, last_line, has_no_end};
ghost use Rattle.script_input.specs.declared.limits.TheConstants.{PIECE_BYTES};
ghost use Rattle.script_input.specs.Lines.{is_separator, is_separator_line, program_part};
ghost use Rattle.script_input.specs.Parts.{StopsHead};
ghost use Rattle.script_input.specs.PartSteps.{IsProgramFront, MovesOn};
ghost use Rattle.hub_run.specs.HubHeads.{HoldsFront, HasPieces, AddsLines, ReadsHead};

use crate::pieces::Pieces;
use edit_journal::Line;
use lens_io::{Source, TakeFault};
use script_input::Input;
use std::alloc::{AllocError, Global};

/// The pieces of the program part of a script, as far as its input was read.
#[derive(Drop)]
pub enum HubHead {
    /// The separator has come: the pieces, and the input behind the separator.
    Separated(Pieces, Input),
    /// The input has come to its end, and there is no journal.
    Whole(Pieces),
}

/// Reads the program part: up to the separator, or up to the end of the input if no LF has ended a separator.
///
/// - `SourceFault`: only if the source's count of faults increased.
/// - `TooLong`: if and only if more than `MOST_BYTES` bytes were taken before a separator had come.
/// - `NoMemory`: only if memory ran out.
pub fn read_hub_head<S: Source>(
    alloc: Global,
    source: &mut S,
    piece: &mut [u8],
) -> Result<HubHead, TakeFault>
    requires some { 0 < length piece.old }
    requires few { length piece.old ≤ PIECE_BYTES }
    ensures head { MatchResult result (ReadsHead S.Source source.old source.new)
        (StopsHead S.Source source.old source.new) }
    ensures faults { S.faults source.old ≤ S.faults source.new }
    ensures cause { IsErrOf result TakeFault.SourceFault → Increased (S.faults source.old) (S.faults source.new) }
{
    let mut program = Pieces::new(alloc);
    let mut input = Input::new(alloc);
    'pieces: loop {
        if add_lines(alloc, &mut program, &mut input)? {
            return Ok(HubHead::Separated(program, input));
        }
        if !input.take_piece(source, piece)? {
            add_last(alloc, &mut program, input.last())?;
            return Ok(HubHead::Whole(program));
        }
    }
}

// Adds the lines that an LF has ended, up to the separator. Whether the separator was taken.
fn add_lines(alloc: Global, program: &mut Pieces, input: &mut Input) -> Result<bool, AllocError>
    ensures adds { IfOk result (λ found. (front rest : List ℕ) → IsProgramFront front → HoldsFront program.old front
        → input.old.lines ≡ fed nothing_fed rest → MovesOn (front ++ rest) input.new (AddsLines found program.new)) }
    ensures count { input.new.taken ≡ input.old.taken }
{
    'lines: while let Some(line) = input.take_line()? {
        if is_separator(&line) {
            return Ok(true);
        }
        program.add(alloc, &line, b"\n")?;
    }
    Ok(false)
}

// Adds the last line of an input, which no LF ends, unless it is the separator.
fn add_last(alloc: Global, program: &mut Pieces, last: Option<Line>) -> Result<(), AllocError>
    ensures { IfOk result (λ _. (front rest : List ℕ) → IsProgramFront front → HoldsFront program.old front
        → has_no_end rest ≡ true → last ≡ last_line (line_of rest)
        → HasPieces program.new (program_part (front ++ rest))) }
{
    let Some(line) = last else {
        return Ok(());
    };
    if is_separator(&line) {
        return Ok(());
    }
    program.add(alloc, &line, &[])
}

// Whether a line is the separator: `---`, with or without a CR at its end.
fn is_separator(line: &Line) -> bool
    ensures { result ≡ is_separator_line line.now }
{
    match line {
        Line::Text(bytes) => is_separator_text(bytes.as_slice()),
        Line::TooLong => false,
    }
}

fn is_separator_text(line: &[u8]) -> bool
    ensures { result ≡ is_separator line.now }
{
    line == b"---".as_slice() || line == b"---\r".as_slice()
}
