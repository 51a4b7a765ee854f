//! What a script means: its program part, its journal and its last state.
ghost use Rattle.std.specs.Prelude.{◌≡◌, ℕ, List, IfOk, OnErr, Result};
ghost use Rattle.std.specs.declared.option.Option.{Option};
ghost use Rattle.edit_journal.specs.declared.line.Line.{Line};
ghost use Rattle.run_scripts.specs.Answers.{Answer, AddsAnswer};

use edit_journal::Line;
use std::alloc::{AllocError, Global};
use texts::Bytes;

/// Why a program part gave no first state.
#[derive(Drop)]
pub enum NotOpened {
    /// The program part is refused, with this line. It has its line feed.
    Refused(Bytes),
    /// Memory ran out.
    NoMemory,
}

/// A state that answers the journal of a script.
///
/// An implementation says what scripts mean: which program parts are accepted and what they mean, the state before the
/// journal, what an item of the journal makes of a state, and what is written of the last state.
pub trait ScriptState: Drop {
    /// What a program part that is accepted means.
    ghost Accepted: { Type 0 };

    /// Why a program part is refused.
    ghost Refusal: { Type 0 };

    /// What answers depend on.
    ghost State: { Type 0 };

    /// The state of this value.
    ghost state: { Self → State };

    /// What a program part means, or why it is refused.
    ghost accepted: { List ℕ → Result Accepted Refusal };

    /// The line that is written if the program part is refused, with its line feed.
    ghost refusal_line: { Refusal → List ℕ };

    /// The state before the journal.
    ghost start: { Accepted → State };

    /// What the item with this number makes of a state: the next state, and the answer.
    ghost answer: { State → ℕ → Line → Option (State × Answer) };

    /// The state lines, which are written behind the answers.
    ghost state_text: { State → List ℕ };

    /// What holds of every state of a run.
    ghost in_step: { Accepted → State → Type 0 };

    /// Answers the item with this number: the answer line goes behind the text. Whether the item was refused.
    ///
    /// The line is not blank. The only error is running out of memory, and then the text is as it was.
    fn answer(
        &mut self,
        alloc: Global,
        number: u64,
        line: &Line,
        text: &mut Vec<u8>,
    ) -> Result<bool, AllocError>
        ensures answer { IfOk result (AddsAnswer (answer (state self.old) number line.now) (state self.new)
            text.old.items text.new.items) }
        ensures unchanged { OnErr result (text.new.items ≡ text.old.items) };

    /// The state lines. The only error is running out of memory.
    fn state_lines(&self, alloc: Global) -> Result<Bytes, AllocError>
        ensures text { IfOk result (λ text. text ≡ state_text (state self.now)) };
}
