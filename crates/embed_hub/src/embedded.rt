//! What a caller keeps.

ghost use Rattle.std.specs.Prelude.{◌≡◌};
ghost use Rattle.edit_journal.specs.Pieces.{has_no_end, texts_of};
ghost use Rattle.embed_hub.specs.Embedded.{IsOpened, IsResumed, IsStepped, IsShown, text_of};

use crate::opening::open;
use crate::outcome::{HubOutcome, HubPart, HubStateFault};
use crate::resuming::resume;
use crate::running::RunningHub;
use hub_run::HubRefused;
use std::alloc::Global;

/// A hub, or why there is none.
#[derive(Drop)]
pub enum EmbeddedHub {
    /// A hub.
    Open(RunningHub),
    /// The program part is refused, for this cause, which is not that memory ran out, and with this line.
    Refused(HubRefused, Vec<u8>),
    /// The texts of a state are refused, for this cause, which is not that memory ran out.
    StateRefused(HubStateFault),
    /// Memory ran out.
    NoMemory,
}

impl EmbeddedHub {
    /// A hub over the program part of a script of the command `hub`: the texts of the views' programs, with a line
    /// `+++` between them. It is at the first documents and complements, and the text is empty. Or why there is none.
    ///
    /// - `Refused`: if and only if the program part is refused, for the cause that [`hub_run::Pieces::lenses`] has.
    /// - `NoMemory`: only if memory ran out.
    pub fn open(alloc: Global, part: &[u8]) -> EmbeddedHub
        ensures opened { IsOpened part.now result }
    {
        open(alloc, part)
    }

    /// A hub over a program part, as for `open`, that goes on from a state. The state is JSON texts, with an LF behind
    /// each: that of the hub's document, and for each view in order that of its document and that of its complement.
    /// Items are numbered from 1 on, and the text is empty. Or why there is none.
    ///
    /// - `Refused`: as for `open`.
    /// - `StateRefused`: if and only if the program part is accepted, and not all texts are of the hub and consistent.
    ///   It names the first fault: the count of the texts is looked at first, then each text in order, then each view.
    /// - `NoMemory`: only if memory ran out.
    pub fn resume(alloc: Global, part: &[u8], state: &[u8]) -> EmbeddedHub
        ensures resumed { IsResumed part.now (texts_of state.now) result }
    {
        resume(alloc, part, state)
    }

    /// Takes a line of a hub's journal, which is without its LF.
    ///
    /// After `Done`, `NoView`, `NoApply` and `NotAnEdit` the text is the answer line, and after `Blank` it is empty.
    /// After each other outcome the text is the one from before.
    ///
    /// - `LineFeed`: if and only if there is a hub and an LF is in the line. Nothing changed.
    /// - `Full`: only if `u64::MAX` items were given. Nothing changed.
    /// - `NoMemory`: only if memory ran out. The documents, the complements, the number and the text are as before,
    ///   also where the hub had stepped and its answer found no room.
    /// - `NoHub`: if and only if there is no hub. Nothing changed.
    pub fn step(&mut self, alloc: Global, line: &[u8]) -> HubOutcome
        ensures stepped { IsStepped self.old line.now result self.new }
    {
        match self {
            EmbeddedHub::Open(running) => {
                if !has_no_end(line) {
                    return HubOutcome::LineFeed;
                }
                if running.number == u64::MAX {
                    return HubOutcome::Full;
                }
                match running.step(alloc, line) {
                    Ok(outcome) => outcome,
                    Err(_) => HubOutcome::NoMemory,
                }
            }
            EmbeddedHub::Refused(_, _) | EmbeddedHub::StateRefused(_) | EmbeddedHub::NoMemory =>
                HubOutcome::NoHub,
        }
    }

    /// Shows a part of the state: after `Done` it is the text. The documents, the complements and the number stay.
    ///
    /// - `NoView`: if and only if there is a hub, and the part is one of a view that does not exist. Nothing changed.
    /// - `NoMemory`: only if memory ran out. Nothing changed.
    /// - `NoHub`: if and only if there is no hub. Nothing changed.
    pub fn show(&mut self, alloc: Global, part: HubPart) -> HubOutcome
        ensures shown { IsShown self.old part result self.new }
    {
        match self {
            EmbeddedHub::Open(running) => match running.show(alloc, part) {
                Ok(true) => HubOutcome::Done,
                Ok(false) => HubOutcome::NoView,
                Err(_) => HubOutcome::NoMemory,
            },
            EmbeddedHub::Refused(_, _) | EmbeddedHub::StateRefused(_) | EmbeddedHub::NoMemory =>
                HubOutcome::NoHub,
        }
    }

    /// The text that answers the last call: an answer line, what was shown, or the line of a program part that is
    /// refused. Without a hub it is empty otherwise.
    pub fn text(&self) -> &[u8]
        ensures text { result.now ≡ text_of self.now }
    {
        match self {
            EmbeddedHub::Open(running) => &running.text,
            EmbeddedHub::Refused(_, line) => line,
            EmbeddedHub::StateRefused(_) | EmbeddedHub::NoMemory => &[],
        }
    }
}

// Whether no byte is an LF.
fn has_no_end(line: &[u8]) -> bool
    ensures { result ≡ has_no_end line.now }
{
    line.iter().all(|byte| *byte != b'\n')
}
