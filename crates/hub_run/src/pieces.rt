//! The pieces of a program part that comes line by line.

ghost use Rattle.std.specs.Prelude.{◌≡◌, ◌++◌, ◌∷◌, [], false, List, ℕ, IfOk};
ghost use Rattle.edit_journal.specs.Lines.{line_of};
ghost use Rattle.hub_run.specs.Pieces.{is_cut, is_cut_line};
ghost use Rattle.hub_run.specs.HeldPieces.{HoldsPieces, HoldsAfter};

use edit_journal::Line;
use script_input::ProgramText;
use std::alloc::{AllocError, Global};
use std::mem;

/// The most views of a hub.
pub const MOST_VIEWS: usize = 64;

/// The pieces of a program part: those that a cut has ended, and the one that has begun. Of more than `MOST_VIEWS`
/// pieces only that there are so many is kept.
#[derive(Drop)]
pub struct Pieces {
    pub(crate) ended: Vec<ProgramText>,
    pub(crate) begun: ProgramText,
    pub(crate) is_many: bool,
}

impl Pieces {
    /// One empty piece. Does not allocate.
    pub fn new(alloc: Global) -> Self
        ensures { HoldsPieces result [] [] }
    {
        Pieces {
            ended: Vec::new(alloc),
            begun: ProgramText::new(alloc),
            is_many: false,
        }
    }

    /// Adds a line and what ends it: a cut ends the piece that has begun, any other line belongs to it.
    ///
    /// The only error is running out of memory.
    pub fn add(&mut self, alloc: Global, line: &Line, end: &[u8]) -> Result<(), AllocError>
        ensures { IfOk result (λ _. (ended : List (List ℕ)) (begun text : List ℕ) → HoldsPieces self.old ended begun
            → line.now ≡ line_of text → HoldsAfter self.new ended begun text end.now) }
    {
        if self.is_many {
            return Ok(());
        }
        if is_cut(line) {
            return self.cut(alloc);
        }
        self.begun.add(line, end)
    }

    // Ends the piece that has begun.
    fn cut(&mut self, alloc: Global) -> Result<(), AllocError>
        requires few { self.old.is_many ≡ false }
        ensures { IfOk result (λ _. (ended : List (List ℕ)) (begun : List ℕ) → HoldsPieces self.old ended begun
            → HoldsPieces self.new (ended ++ begun ∷ []) []) }
    {
        if self.ended.len() + 1 >= MOST_VIEWS {
            self.is_many = true;
            return Ok(());
        }
        let begun = mem::replace(&mut self.begun, ProgramText::new(alloc));
        self.ended.push(begun)?;
        Ok(())
    }
}

// Whether a line cuts a program part: `+++`, with or without a CR at its end.
fn is_cut(line: &Line) -> bool
    ensures { result ≡ is_cut_line line.now }
{
    match line {
        Line::Text(bytes) => is_cut_text(bytes.as_slice()),
        Line::TooLong => false,
    }
}

fn is_cut_text(line: &[u8]) -> bool
    ensures { result ≡ is_cut line.now }
{
    line == b"+++".as_slice() || line == b"+++\r".as_slice()
}
