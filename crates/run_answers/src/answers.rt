//! The answers to the items of a journal, as lines.
ghost use Rattle.std.specs.Prelude.{◌≡◌, ◌≢◌, ◌++◌, true, false, Some, IfOk, IfSome, OnOk, OnErr};
ghost use Rattle.answer_text.specs.Lines.{fault_line};
ghost use Rattle.edit_journal.specs.EntryJson.{LineFault};
ghost use Rattle.edit_journal.specs.Reading.{cause_of};
ghost use Rattle.edit_session.specs.Run.{is_refused};
ghost use Rattle.run_answers.specs.AnswerLines.{HasAnswerLine};
ghost use Rattle.run_answers.specs.Answers.{answer_line};
ghost use Rattle.run_answers.specs.ItemViews.{answer_tree};

use answer_text::{add_group_line, add_ok_line, fault_line, group_refused_line, no_apply_line};
use edit_journal::EntryFault;
use edit_module::change::Words;
use edit_module::{Cause, Entries, Entry, Word};
use std::alloc::{AllocError, Global};
use texts::Bytes;

/// The answer to an item of a journal.
#[derive(Drop)]
pub enum PairAnswer {
    /// The entry was translated to this word of the other side.
    Carried(Entry, Word),
    /// The entry does not apply: the number of the first primitive that fails, and its cause.
    NoApply { at: u64, cause: Cause },
    /// The entries of this group were translated to these words, one for each.
    GroupCarried(Entries, Words),
    /// The group is refused: the number in it of the first entry that does not apply, the number of the first primitive
    /// of that entry that fails, and its cause.
    GroupNoApply { part: u64, at: u64, cause: Cause },
    /// The line is not a change, for this fault, which is not that memory ran out.
    NoEntry(EntryFault),
}

impl PairAnswer {
    /// Whether the item was refused.
    pub fn is_refused(&self) -> bool
        ensures refused { IfSome (answer_tree self.now) (λ answer. result ≡ is_refused answer) }
    {
        match self {
            PairAnswer::Carried(_, _) | PairAnswer::GroupCarried(_, _) => false,
            PairAnswer::NoApply { .. } | PairAnswer::GroupNoApply { .. } | PairAnswer::NoEntry(_) =>
                true,
        }
    }
}

/// The answer line of the item with this number. The only error is running out of memory.
///
/// In the words that were translated each insertion and each deletion is of 1 to 65,536 items, and a group has as many
/// words as entries. So it is with every answer of [`take_item`](crate::take_item).
pub fn answer_line(alloc: Global, number: u64, answer: &PairAnswer) -> Result<Bytes, AllocError>
    requires has_line { HasAnswerLine answer.now }
    ensures line { IfOk result (λ line. IfSome (answer_tree answer.now)
        (λ answer. line ≡ answer_line number answer)) }
{
    let mut line = Vec::new(alloc);
    add_answer_line(alloc, &mut line, number, answer)?;
    Ok(Bytes::from_vec(line))
}

/// Adds the answer line of the item with this number to a text, as [`answer_line`] makes it.
///
/// The only error is running out of memory, and then the text is as it was. The line of a change that was accepted is
/// written where it stays.
pub fn add_answer_line(
    alloc: Global,
    text: &mut Vec<u8>,
    number: u64,
    answer: &PairAnswer,
) -> Result<(), AllocError>
    requires has_line { HasAnswerLine answer.now }
    ensures line { OnOk result (IfSome (answer_tree answer.now)
        (λ answer. text.new.items ≡ text.old.items ++ answer_line number answer)) }
    ensures unchanged { OnErr result (text.new.items ≡ text.old.items) }
{
    match answer {
        PairAnswer::Carried(entry, word) => {
            add_ok_line(alloc, text, number, entry.side.other(), word)
        }
        PairAnswer::GroupCarried(group, words) => {
            add_group_line(alloc, text, number, group, words)
        }
        PairAnswer::NoApply { at, cause } => {
            add_line(text, &no_apply_line(alloc, number, *at, *cause)?)
        }
        PairAnswer::GroupNoApply { part, at, cause } => {
            add_line(
                text,
                &group_refused_line(alloc, number, *part, *at, *cause)?,
            )
        }
        PairAnswer::NoEntry(fault) => add_fault_line(alloc, text, number, fault),
    }
}

// Adds the line of a line that is not a change to a text.
fn add_fault_line(
    alloc: Global,
    text: &mut Vec<u8>,
    number: u64,
    fault: &EntryFault,
) -> Result<(), AllocError>
    requires of_the_line { fault.now ≢ EntryFault.NoMemory }
    ensures line { OnOk result ((cause : LineFault) → cause_of fault.now ≡ Some cause
        → text.new.items ≡ text.old.items ++ fault_line number cause) }
    ensures unchanged { OnErr result (text.new.items ≡ text.old.items) }
{
    let line = fault_line(alloc, number, fault)?;
    text.extend_from_slice(line.as_slice())?;
    Ok(())
}

// Adds a line to a text. The only error is running out of memory, and then the text is as it was.
fn add_line(text: &mut Vec<u8>, line: &Bytes) -> Result<(), AllocError>
    ensures added { OnOk result (text.new.items ≡ text.old.items ++ line.now) }
    ensures unchanged { OnErr result (text.new.items ≡ text.old.items) }
{
    text.extend_from_slice(line.as_slice())
}
