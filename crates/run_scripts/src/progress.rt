//! How far a run over the lines of an input has come.
ghost use Rattle.std.specs.Prelude.{◌≡◌, ◌+◌, ◌^◌, ◌<◌, ◌≤◌, ◌∷◌, ◌||◌, [], false, List, ℕ, OnErr, OnOk};
ghost use Rattle.std.specs.Prelude.{option_to_list};
ghost use Rattle.edit_journal.specs.Lines.{is_blank};
ghost use Rattle.edit_journal.specs.Pieces.{last_line};
ghost use Rattle.edit_journal.specs.declared.line.Line.{Line};
ghost use Rattle.run_scripts.specs.LineRuns.{come, written_after, GoesOver};

use crate::script_state::ScriptState;
use edit_journal::{Line, is_blank};
use script_input::Input;
use std::alloc::{AllocError, Global};

/// How far a run has come: how many items it has read, whether one was refused, and the answers that are not written
/// yet.
#[derive(Drop)]
pub struct Progress {
    pub number: u64,
    pub refused: bool,
    pub text: Vec<u8>,
}

impl Progress {
    /// No item was read. Does not allocate.
    pub fn new(alloc: Global) -> Self
        ensures number { result.number ≡ 0 }
        ensures refused { result.refused ≡ false }
        ensures text { result.text.items ≡ [] }
    {
        Progress {
            number: 0,
            refused: false,
            text: Vec::new(alloc),
        }
    }

    // Counts the next item, whose answer line is in the text.
    fn count(&mut self, refused: bool)
        requires fits { self.old.number + 1 < 2 ^ 64 }
        ensures number { self.new.number ≡ self.old.number + 1 }
        ensures refused { self.new.refused ≡ (self.old.refused || refused) }
        ensures text { self.new.text.items ≡ self.old.text.items }
    {
        self.number += 1;
        self.refused = self.refused || refused;
    }
}

/// Handles a line: a blank one is skipped, and any other is an item. The only error is running out of memory, and then
/// the progress is as it was.
#[tactic(auto, using(crate::proofs::RunSteps::blank_line_step))]
pub fn handle_line<A: ScriptState>(
    alloc: Global,
    state: &mut A,
    progress: &mut Progress,
    line: &Line,
) -> Result<(), AllocError>
    requires fits { progress.old.number + 1 < 2 ^ 64 }
    ensures goes { OnOk result ((given : List ℕ) (lines : List Line)
        → written_after A.answer (A.state state.old) (come given progress.old) (line.now ∷ lines)
        ≡ written_after A.answer (A.state state.new) (come given progress.new) lines) }
    ensures number { OnOk result (progress.new.number ≤ progress.old.number + 1) }
    ensures unchanged { OnErr result (come [] progress.new ≡ come [] progress.old) }
{
    if is_blank(line) {
        return Ok(());
    }
    answer_item(alloc, state, progress, line)
}

// Handles a line that is not blank.
fn answer_item<A: ScriptState>(
    alloc: Global,
    state: &mut A,
    progress: &mut Progress,
    line: &Line,
) -> Result<(), AllocError>
    requires fits { progress.old.number + 1 < 2 ^ 64 }
    requires not_blank { is_blank line.now ≡ false }
    ensures goes { OnOk result ((given : List ℕ) (lines : List Line)
        → written_after A.answer (A.state state.old) (come given progress.old) (line.now ∷ lines)
        ≡ written_after A.answer (A.state state.new) (come given progress.new) lines) }
    ensures number { OnOk result (progress.new.number ≡ progress.old.number + 1) }
    ensures unchanged { OnErr result (come [] progress.new ≡ come [] progress.old) }
{
    let refused = state.answer(alloc, progress.number + 1, line, &mut progress.text)?;
    progress.count(refused);
    Ok(())
}

/// Handles the last line of an input that is at its end, which no LF ends, if there is one. The only error is running
/// out of memory.
pub fn handle_last<A: ScriptState>(
    alloc: Global,
    state: &mut A,
    progress: &mut Progress,
    input: Input,
) -> Result<(), AllocError>
    requires none { input.lines.ended ≡ [] }
    requires fits { progress.old.number + 1 < 2 ^ 64 }
    ensures goes { OnOk result (GoesOver A.answer (A.state state.old) progress.old
        (option_to_list (last_line input.lines.begun)) (A.state state.new) progress.new) }
{
    match input.last() {
        Some(line) => handle_line(alloc, state, progress, &line),
        None => Ok(()),
    }
}
