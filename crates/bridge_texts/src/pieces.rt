//! Splices of a text, one after another.
ghost use Rattle.std.specs.Prelude.{◌≡◌, ◌+◌, ◌++◌, IfOk, OnOk};
ghost use Rattle.bridge_texts.specs.Runs.{piece, pieces};

use crate::run::Run;
use std::alloc::{AllocError, Global};
use std::marker::Model;
use texts::{Str, Twin};

/// A splice: characters of a text are replaced by others.
#[derive(Debug, Drop)]
pub struct Splice {
    /// The place of the first character, from 0.
    pub at: u64,
    /// How many characters go.
    pub count: u64,
    /// What comes in their place.
    pub text: Str,
}

impl Model for Splice {
    ghost use Rattle.bridge_texts.specs.Runs.{Piece};

    ghost Value = { Piece };

    ghost view = { λ s. (s.at, s.count, s.text) };
}

/// What the far text loses where the near one loses a range, with a text in its place: splices of the far text, to be
/// made one after another. `at` is where the range begins in the far text.
///
/// The only refusal is running out of memory. A number that does not fit in 64 bits is refused so.
#[tactic(auto, using(crate::proofs::Listed::piece_rules))]
pub(crate) fn pieces(
    alloc: Global,
    at: u64,
    text: &Str,
    range: &[Run],
) -> Result<Vec<Splice>, AllocError>
    ensures { IfOk result (λ splices. splices.items ≡ pieces at 0 text.now range.now) }
{
    let mut splices = Vec::new(alloc);
    let mut place = at;
    let mut count: u64 = 0;
    let mut new = text.twin(alloc)?;
    for run in range {
        match *run {
            Run::Kept(size) => count = sum(count, size)?,
            Run::Added(size) => {
                let characters = sum(new.character_count() as u64, size)?;
                let next = sum(place, characters)?;
                add_piece(&mut splices, place, count, new)?;
                place = next;
                count = 0;
                new = Str::empty(alloc);
            }
            Run::Gone(_) => {}
        }
    }
    add_piece(&mut splices, place, count, new)?;
    Ok(splices)
}

// Puts a splice behind others, unless it does nothing.
#[tactic(auto, using(crate::proofs::Listed::piece_rules))]
fn add_piece(splices: &mut Vec<Splice>, at: u64, count: u64, text: Str) -> Result<(), AllocError>
    ensures { OnOk result (splices.new.items ≡ splices.old.items ++ piece at count text) }
{
    if count == 0 && text.as_str().is_empty() {
        return Ok(());
    }
    splices.push(Splice { at, count, text })?;
    Ok(())
}

// The sum of two numbers, where it fits in 64 bits.
fn sum(left: u64, right: u64) -> Result<u64, AllocError>
    ensures { IfOk result (λ sum. sum ≡ left + right) }
{
    match left.checked_add(right) {
        Some(sum) => Ok(sum),
        None => Err(AllocError),
    }
}
