//! An input that is read in pieces, and handed on line by line.
ghost use Rattle.std.specs.Bool.{then_some};
ghost use Rattle.std.specs.Prelude.{◌≡◌, ◌+◌, ◌<◌, ◌≤◌, [], false, length, IfOk, OnErr, IsErrOf};
ghost use Rattle.lens_io.specs.Causes.{Increased};
ghost use Rattle.lens_io.specs.Takes.{count_of};
ghost use Rattle.edit_journal.specs.Pieces.{nothing_fed, take_first, last_line};
ghost use Rattle.script_input.specs.Taking.{CallsOnce, GaveFew, TakenInput, TakesBytes, TakesMore, SkipsMore};

use crate::limits::{MOST_BYTES, PIECE_BYTES};
use edit_journal::{Line, Lines};
use lens_io::{Failed, Source, TakeFault};
use std::alloc::{AllocError, Global};
use std::marker::Model;

/// A buffer for pieces, of `PIECE_BYTES` bytes. The only error is running out of memory.
pub fn piece_buffer(alloc: Global) -> Result<Vec<u8>, AllocError>
    ensures { IfOk result (λ piece. length piece.items ≡ PIECE_BYTES) }
{
    vec![in alloc; 0; PIECE_BYTES]
}

/// The lines of an input that are not handled yet, and how many of its bytes were taken.
#[derive(Drop)]
pub struct Input {
    lines: Lines,
    taken: usize,
}

impl Model for Input {
    ghost use Rattle.std.specs.Prelude.{◌+◌, ◌≤◌, length};
    ghost use Rattle.script_input.specs.Taking.{TakenInput};
    ghost use Rattle.script_input.specs.declared.limits.TheConstants.{MOST_BYTES};

    ghost Value = { TakenInput };

    ghost view = { λ s. record { lines = s.lines; taken = s.taken } };

    ghost invariant = { λ s. (s.taken ≤ MOST_BYTES + 1) × (length s.lines.ended ≤ s.taken) };
}

impl Input {
    /// An input of which nothing was taken yet. Does not allocate.
    pub fn new(alloc: Global) -> Self
        ensures lines { result.lines ≡ nothing_fed }
        ensures taken { result.taken ≡ 0 }
    {
        Input {
            lines: Lines::new(alloc),
            taken: 0,
        }
    }

    /// Takes the next piece from the source, by way of a buffer that is not empty, and adds it to the lines. `false` is
    /// the end of the input.
    ///
    /// - `SourceFault`: only if the source's count of faults increased.
    /// - `TooLong`: if and only if more than `MOST_BYTES` bytes were taken before. The source is not asked.
    /// - `NoMemory`: only if memory ran out.
    ///
    /// After an error the lines are as they were.
    pub fn take_piece<S: Source>(
        &mut self,
        source: &mut S,
        piece: &mut [u8],
    ) -> Result<bool, TakeFault>
        requires some { 0 < length piece.old }
        ensures takes { TakesMore S.Source source.old source.new self.old self.new result }
        ensures few { GaveFew S.Source source.old source.new (length piece.old) }
        ensures one_piece { self.new.taken ≤ self.old.taken + length piece.old }
        ensures faults { S.faults source.old ≤ S.faults source.new }
        ensures cause { IsErrOf result TakeFault.SourceFault → Increased (S.faults source.old) (S.faults source.new) }
    {
        let count = take_bytes(source, piece, self.taken)?;
        self.taken += count;
        self.lines.feed(&piece[..count])?;
        Ok(count > 0)
    }

    /// Takes the next piece from the source and forgets it. `false` is the end of the input. Refused as by
    /// `take_piece`.
    pub fn skip_piece<S: Source>(
        &mut self,
        source: &mut S,
        piece: &mut [u8],
    ) -> Result<bool, TakeFault>
        requires some { 0 < length piece.old }
        ensures skips { SkipsMore (S.left source.old) (S.left source.new) self.old self.new result }
        ensures faults { S.faults source.old ≤ S.faults source.new }
        ensures cause { IsErrOf result TakeFault.SourceFault → Increased (S.faults source.old) (S.faults source.new) }
    {
        let count = take_bytes(source, piece, self.taken)?;
        self.taken += count;
        Ok(count > 0)
    }

    /// The next line that an LF has ended, if there is one. The only error is running out of memory.
    pub fn take_line(&mut self) -> Result<Option<Line>, AllocError>
        ensures taken { IfOk result (λ line. (line, self.new.lines) ≡ take_first self.old.lines) }
        ensures unchanged { OnErr result (self.new.lines ≡ self.old.lines) }
        ensures count { self.new.taken ≡ self.old.taken }
    {
        self.lines.take_line()
    }

    /// Takes that line into one that is done with, whose room is used again. Whether there was one.
    ///
    /// `false` if and only if no such line is left. The only error is running out of memory, and then no line is taken.
    /// `line` is as it was after `false`, and the empty line after an error.
    pub fn take_line_into(&mut self, line: &mut Line) -> Result<bool, AllocError>
        ensures taken { IfOk result (λ found.
            (then_some found line.new, self.new.lines) ≡ take_first self.old.lines) }
        ensures none_left { IfOk result (λ found. found ≡ false → line.new ≡ line.old) }
        ensures unchanged { OnErr result (self.new.lines ≡ self.old.lines) }
        ensures emptied { OnErr result (line.new ≡ Line.Text []) }
        ensures count { self.new.taken ≡ self.old.taken }
    {
        self.lines.take_line_into(line)
    }

    /// The last line of the input, which no LF ends, if there is one. No ended line is left.
    pub fn last(self) -> Option<Line>
        requires { self.lines.ended ≡ [] }
        ensures { result ≡ last_line self.lines.begun }
    {
        self.lines.last()
    }
}

// Takes bytes to the front of a piece, unless more than the limit were taken before. 0 is the end of the input.
fn take_bytes<S: Source>(source: &mut S, piece: &mut [u8], taken: usize) -> Result<usize, TakeFault>
    requires within { taken ≤ MOST_BYTES + 1 }
    requires some { 0 < length piece.old }
    ensures bytes { TakesBytes (S.left source.old) (S.left source.new) piece.new taken result }
    ensures once { CallsOnce S.Source source.old source.new (count_of result) result }
    ensures few { GaveFew S.Source source.old source.new (length piece.old) }
    ensures faults { S.faults source.old ≤ S.faults source.new }
    ensures cause { IsErrOf result TakeFault.SourceFault → Increased (S.faults source.old) (S.faults source.new) }
{
    if taken > MOST_BYTES {
        return Err(TakeFault::TooLong);
    }
    let want = next_ask(taken, piece.len());
    match source.take(&mut piece[..want]) {
        Ok(count) => Ok(count),
        Err(Failed) => Err(TakeFault::SourceFault),
    }
}

// How many bytes to ask for next: a piece, or what is left up to one more than the limit.
fn next_ask(taken: usize, piece: usize) -> usize
    requires within { taken ≤ MOST_BYTES }
    requires some { 0 < piece }
    ensures some { 0 < result }
    ensures piece { result ≤ piece }
    ensures at_most { taken + result ≤ MOST_BYTES + 1 }
{
    (MOST_BYTES - taken).min(piece - 1) + 1
}
