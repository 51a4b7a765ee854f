//! The hub over the views' programs, or the line of their refusal.

ghost use Rattle.std.specs.Prelude.{◌≡◌, ◌<◌, ◌+◌, ◌^◌, ◌==◌, ◌++◌, ◌∷◌, List, ℕ, true, IfOk, IfSome, Ok};
ghost use Rattle.std.specs.Prelude.{length, map, position};
ghost use Rattle.edit_journal.specs.Pieces.{has_no_end};
ghost use Rattle.lens_forms.specs.Forms.{form_tree};
ghost use Rattle.view_hub.specs.Laws.{HaveOneLeftType};
ghost use Rattle.hub_run.specs.FormLenses.{form_lens};
ghost use Rattle.hub_run.specs.FoundLenses.{IsRefusedHub, HasRefusalLine};
ghost use Rattle.hub_run.specs.HubHeads.{HasPieces};
ghost use Rattle.hub_run.specs.Lenses.{lenses_of};
ghost use Rattle.embed_hub.specs.Embedded.{IsOpened, IsRefusedPart};
ghost use Rattle.embed_hub.specs.Opening.{HoldsRest};

use crate::embedded::EmbeddedHub;
use crate::form_hub::FormHub;
use crate::running::RunningHub;
use edit_journal::Line;
use hub_run::{HubRefused, Pieces, refusal_line};
use lens_types::Typed;
use std::alloc::{AllocError, Global};

// The hub over a program part, or why there is none.
pub(crate) fn open(alloc: Global, part: &[u8]) -> EmbeddedHub
    ensures { IsOpened part.now result }
{
    let Ok(pieces) = read_pieces(alloc, part) else {
        return EmbeddedHub::NoMemory;
    };
    match pieces.lenses(alloc) {
        Ok(typed) => started(alloc, typed),
        Err(refused) => closed(alloc, refused),
    }
}

// The hub of these lenses at its start, unless memory ran out.
fn started(alloc: Global, typed: Vec<Typed>) -> EmbeddedHub
    requires one_left { HaveOneLeftType form_lens (map form_tree typed.items) }
    ensures { (part : List ℕ) → lenses_of part ≡ Ok (map form_tree typed.items) → IsOpened part result }
{
    match FormHub::start(alloc, typed) {
        Ok(hub) => EmbeddedHub::Open(RunningHub {
            hub,
            number: 0,
            text: Vec::new(alloc),
        }),
        Err(_) => EmbeddedHub::NoMemory,
    }
}

// What is held of a program part that is refused.
pub(crate) fn closed(alloc: Global, refused: HubRefused) -> EmbeddedHub
    requires has_line { HasRefusalLine refused }
    ensures { (part : List ℕ) → IsRefusedHub (lenses_of part) refused → IsRefusedPart part result }
{
    match refusal_line(alloc, &refused) {
        Ok(line) => EmbeddedHub::Refused(refused, line.into_vec()),
        Err(_) => EmbeddedHub::NoMemory,
    }
}

// The pieces of a program part.
pub(crate) fn read_pieces(alloc: Global, part: &[u8]) -> Result<Pieces, AllocError>
    ensures { IfOk result (λ pieces. HasPieces pieces part.now) }
{
    let mut pieces = Pieces::new(alloc);
    let mut rest = part;
    'lines: while let Some(at) = line_end(rest) {
        add_line(alloc, &mut pieces, &rest[..at])?;
        rest = &rest[at + 1..];
    }
    add_last(alloc, &mut pieces, rest)?;
    Ok(pieces)
}

// Adds a line, which an LF ends.
fn add_line(alloc: Global, pieces: &mut Pieces, text: &[u8]) -> Result<(), AllocError>
    ensures { IfOk result (λ _. (part more : List ℕ) → has_no_end text.now ≡ true
        → HoldsRest pieces.old part (text.now ++ 10 ∷ more) → HoldsRest pieces.new part more) }
{
    let line = Line::from_slice(alloc, text)?;
    pieces.add(alloc, &line, b"\n")
}

// Adds the last line, which no LF ends, if it is not empty.
fn add_last(alloc: Global, pieces: &mut Pieces, text: &[u8]) -> Result<(), AllocError>
    ensures { IfOk result (λ _. (part : List ℕ) → has_no_end text.now ≡ true
        → HoldsRest pieces.old part text.now → HasPieces pieces.new part) }
{
    if text.is_empty() {
        return Ok(());
    }
    let line = Line::from_slice(alloc, text)?;
    pieces.add(alloc, &line, &[])
}

// Where the first LF is.
fn line_end(bytes: &[u8]) -> Option<usize>
    ensures at { result ≡ position (λ byte. byte == 10) bytes.now }
    ensures within { IfSome result (λ at. at < length bytes.now) }
    ensures fits { IfSome result (λ at. at + 1 < 2 ^ 64) }
{
    bytes.iter().position(|byte| *byte == b'\n')
}
