//! A hub with the number of its last item and the text that answers the last call.

ghost use Rattle.std.specs.Prelude.{◌≡◌, ◌+◌, ◌^◌, ◌<◌, IfOk, OnErr};
ghost use Rattle.embed_hub.specs.Parts.{ShowsText};
ghost use Rattle.embed_hub.specs.Steps.{IsLineStep, IsAsBefore};

use crate::form_hub::FormHub;
use crate::outcome::{HubOutcome, HubPart};
use edit_journal::{Line, is_blank};
use std::alloc::{AllocError, Global};

/// A hub, how many items it was given, and the text that answers the last call.
#[derive(Drop)]
pub struct RunningHub {
    pub hub: FormHub,
    pub number: u64,
    pub text: Vec<u8>,
}

impl RunningHub {
    /// Takes a line, which is without its LF: the text is then the answer line, and is empty if the line is blank.
    ///
    /// The only error is running out of memory. The hub, the number and the text are then as before, also if the hub
    /// had stepped and its answer found no room.
    pub fn step(&mut self, alloc: Global, line: &[u8]) -> Result<HubOutcome, AllocError>
        requires fits { self.old.number + 1 < 2 ^ 64 }
        ensures stepped { IfOk result (λ outcome. IsLineStep self.old line.now outcome self.new) }
        ensures unchanged { OnErr result (IsAsBefore self.old self.new) }
    {
        let line = Line::from_slice(alloc, line)?;
        if is_blank(&line) {
            self.text.clear();
            return Ok(HubOutcome::Blank);
        }
        let (text, outcome) = self.hub.take(alloc, self.number + 1, &line)?;
        self.text = text;
        self.number += 1;
        Ok(outcome)
    }

    /// Makes a part of the state the text. False if and only if the part is one of a view that does not exist; then
    /// nothing changes. The only error is running out of memory, and then nothing changes either.
    pub fn show(&mut self, alloc: Global, part: HubPart) -> Result<bool, AllocError>
        ensures shown { IfOk result (λ found. ShowsText self.old part found self.new) }
        ensures unchanged { OnErr result (self.new ≡ self.old) }
    {
        match self.hub.part(alloc, part)? {
            Some(shown) => {
                self.text = shown;
                Ok(true)
            }
            None => Ok(false),
        }
    }
}
