//! The program part of a script that is read in pieces.
ghost use Rattle.std.specs.Prelude.{◌≡◌, ◌<◌, ◌≤◌, ◌++◌, true, [], length, List, ℕ, IfOk, IfErr, IsErrOf, MatchOption};
ghost use Rattle.std.specs.Prelude.{MatchResult, Ok};
ghost use Rattle.lens_forms.specs.Forms.{form_tree};
ghost use Rattle.lens_io.specs.Causes.{Increased};
ghost use Rattle.edit_journal.specs.Lines.{line_of};
ghost use Rattle.edit_journal.specs.Pieces.{nothing_fed, fed, last_line, has_no_end};
ghost use Rattle.script_input.specs.Lines.{is_separator, is_separator_line, program_part};
ghost use Rattle.script_input.specs.Parts.{HoldsPart, ReadsHead, StopsHead};
ghost use Rattle.script_input.specs.PartSteps.{IsProgramFront, MovesOn, AddsLines};
ghost use Rattle.script_input.specs.declared.limits.TheConstants.{PIECE_BYTES};
ghost use Rattle.lens_syntax.specs.declared.reading.TheConstants.{MOST_PROGRAM_BYTES};
ghost use Rattle.program_accepted.specs.Program.{IsAccepted, lens_of};
ghost use Rattle.program_terms.specs.Views.{program_tree};
ghost use Rattle.program_accepted.specs.Refused.{IsKnown, IsProgramRefusal};

use crate::Input;
use edit_journal::Line;
use lens_io::{Source, TakeFault};
use lens_syntax::{MOST_PROGRAM_BYTES, ProgramFault};
use lens_types::Typed;
use program_accepted::{Accepted, Refused, read_accepted, read_lens};
use std::alloc::{AllocError, Global};

/// The text of a program part, unless it is too long. Of one that is too long the text says nothing.
#[derive(Drop)]
pub struct ProgramText {
    text: Vec<u8>,
    is_long: bool,
}

impl ProgramText {
    /// An empty program part. Does not allocate.
    pub fn new(alloc: Global) -> Self
        ensures { HoldsPart result [] }
    {
        ProgramText {
            text: Vec::new(alloc),
            is_long: false,
        }
    }

    /// Adds a line and what ends it. The only error is running out of memory; of the text nothing is known then.
    pub fn add(&mut self, line: &Line, end: &[u8]) -> Result<(), AllocError>
        ensures { IfOk result (λ _. (part text : List ℕ) → HoldsPart self.old part → line.now ≡ line_of text
            → HoldsPart self.new ((part ++ text) ++ end.now)) }
    {
        match line {
            Line::TooLong => {
                self.is_long = true;
                Ok(())
            }
            Line::Text(bytes) => self.add_text(bytes.as_slice(), end),
        }
    }

    fn add_text(&mut self, bytes: &[u8], end: &[u8]) -> Result<(), AllocError>
        ensures { IfOk result (λ _. (part : List ℕ) → HoldsPart self.old part
            → HoldsPart self.new ((part ++ bytes.now) ++ end.now)) }
    {
        if self.is_long {
            return Ok(());
        }
        self.text.extend_from_slice(bytes)?;
        self.text.extend_from_slice(end)?;
        self.is_long = self.text.len() > MOST_PROGRAM_BYTES;
        Ok(())
    }

    /// The text of the program part. None if and only if the part has more than 65,536 bytes. Does not allocate.
    pub fn text(&self) -> Option<&[u8]>
        ensures { (part : List ℕ) → HoldsPart self.now part
            → MatchOption result (MOST_PROGRAM_BYTES < length part)
            (λ text. (text.now ≡ part) × (length part ≤ MOST_PROGRAM_BYTES)) }
    {
        if self.is_long {
            return None;
        }
        Some(&self.text)
    }

    /// The lens of the program part, or why it is refused: by `ProgramTooLong` if and only if it has more than 65,536
    /// bytes, else as `read_lens` of program_accepted refuses its text.
    pub fn lens(&self, alloc: Global) -> Result<Typed, Refused>
        ensures lens { (part : List ℕ) → HoldsPart self.now part → MatchResult result
            (λ lens. lens_of part ≡ Ok (form_tree lens)) (λ refused. IsProgramRefusal (lens_of part) refused) }
        ensures known { IfErr result IsKnown }
    {
        if self.is_long {
            return Err(Refused::Syntax(ProgramFault::ProgramTooLong));
        }
        read_lens(alloc, &self.text)
    }
}

/// The program of a program part, and its lens, or why the part is refused: as [`ProgramText::lens`] refuses it.
pub fn accepted_part(alloc: Global, part: &ProgramText) -> Result<Accepted, Refused>
    ensures accepted { (bytes : List ℕ) → HoldsPart part.now bytes → MatchResult result
        (λ a. IsAccepted bytes (program_tree a.program) (form_tree a.lens)) (IsProgramRefusal (lens_of bytes)) }
    ensures known { IfErr result IsKnown }
{
    match part.text() {
        Some(text) => read_accepted(alloc, text),
        None => Err(Refused::Syntax(ProgramFault::ProgramTooLong)),
    }
}

/// The program part of a script, as far as its input was read.
#[derive(Drop)]
pub enum Head {
    /// The separator has come: the program part, and the input behind the separator.
    Separated(ProgramText, Input),
    /// The input has come to its end, and there is no journal.
    Whole(ProgramText),
}

/// Reads the program part: up to the separator, or up to the end of the input if no LF has ended a separator.
///
/// - `SourceFault`: only if the source's count of faults increased.
/// - `TooLong`: if and only if more than `MOST_BYTES` bytes were taken before a separator had come.
/// - `NoMemory`: only if memory ran out.
pub fn read_head<S: Source>(
    alloc: Global,
    source: &mut S,
    piece: &mut [u8],
) -> Result<Head, TakeFault>
    requires some { 0 < length piece.old }
    requires few { length piece.old ≤ PIECE_BYTES }
    ensures head { MatchResult result (ReadsHead S.Source source.old source.new)
        (StopsHead S.Source source.old source.new) }
    ensures faults { S.faults source.old ≤ S.faults source.new }
    ensures cause { IsErrOf result TakeFault.SourceFault → Increased (S.faults source.old) (S.faults source.new) }
{
    let mut program = ProgramText::new(alloc);
    let mut input = Input::new(alloc);
    'pieces: loop {
        if add_lines(&mut program, &mut input)? {
            return Ok(Head::Separated(program, input));
        }
        if !input.take_piece(source, piece)? {
            add_last(&mut program, input.last())?;
            return Ok(Head::Whole(program));
        }
    }
}

// Adds the lines that an LF has ended, up to the separator. Whether the separator was taken.
fn add_lines(program: &mut ProgramText, input: &mut Input) -> Result<bool, AllocError>
    ensures adds { IfOk result (λ found. (front rest : List ℕ) → IsProgramFront front → HoldsPart program.old front
        → input.old.lines ≡ fed nothing_fed rest → MovesOn (front ++ rest) input.new (AddsLines found program.new)) }
    ensures count { input.new.taken ≡ input.old.taken }
{
    'lines: while let Some(line) = input.take_line()? {
        if is_separator(&line) {
            return Ok(true);
        }
        program.add(&line, b"\n")?;
    }
    Ok(false)
}

// Adds the last line of an input, which no LF ends, unless it is the separator.
fn add_last(program: &mut ProgramText, last: Option<Line>) -> Result<(), AllocError>
    ensures { IfOk result (λ _. (front rest : List ℕ) → IsProgramFront front → HoldsPart program.old front
        → has_no_end rest ≡ true → last ≡ last_line (line_of rest)
        → HoldsPart program.new (program_part (front ++ rest))) }
{
    let Some(line) = last else {
        return Ok(());
    };
    if is_separator(&line) {
        return Ok(());
    }
    program.add(&line, &[])
}

// Whether a line is the separator: `---`, with or without a CR at its end.
fn is_separator(line: &Line) -> bool
    ensures { result ≡ is_separator_line line.now }
{
    match line {
        Line::Text(bytes) => is_separator_text(bytes.as_slice()),
        Line::TooLong => false,
    }
}

fn is_separator_text(line: &[u8]) -> bool
    ensures { result ≡ is_separator line.now }
{
    line == b"---".as_slice() || line == b"---\r".as_slice()
}
