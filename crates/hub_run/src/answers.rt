//! The answers to the lines of a hub's journal, as lines.

ghost use Rattle.std.specs.Prelude.{◌≡◌, ◌++◌, ◌∷◌, false, [], codes, IfOk, IfSome};
ghost use Rattle.serde_json.specs.Written.{comma_if, compact_text};
ghost use Rattle.edit_module.specs.Views.{word_tree, word_trees};
ghost use Rattle.edit_json.specs.WordJson.{tree_of_word};
ghost use Rattle.view_hub.specs.Views.{hub_carried_tree};
ghost use Rattle.hub_run.specs.Answers.{HubAnswerTree, tree_of_words, hub_ok_line, no_view_line, hub_answer_line};
ghost use Rattle.hub_run.specs.Answers.{is_refused_by_hub};
ghost use Rattle.hub_run.specs.AnswerLines.{HasAnswerLine};
ghost use Rattle.hub_run.specs.Views.{answer_tree};

use answer_text::{fault_line, no_apply_line};
use edit_journal::EntryFault;
use edit_json::append_word;
use edit_module::{Cause, Word};
use itoa::Buffer;
use std::alloc::{AllocError, Global};
use texts::Bytes;
use view_hub::HubCarried;

// The bytes of most answers, for which room is made at once.
const USUAL: usize = 128;

/// The answer to an item of a hub's journal.
#[derive(Drop)]
pub enum HubAnswer {
    /// The word was carried to these words.
    Carried(HubCarried),
    /// There is no such view.
    NoView,
    /// The word does not apply: the number of the first primitive that fails, and its cause.
    NoApply { at: u64, cause: Cause },
    /// The line is not an edit, for this fault, which is not that memory ran out.
    NoEdit(EntryFault),
}

impl HubAnswer {
    /// Whether the item was refused.
    pub fn is_refused(&self) -> bool
        ensures refused { IfSome (answer_tree self.now) (λ answer. result ≡ is_refused_by_hub answer) }
    {
        match self {
            HubAnswer::Carried(_) => false,
            HubAnswer::NoView | HubAnswer::NoApply { .. } | HubAnswer::NoEdit(_) => true,
        }
    }
}

/// The answer line of the item with this number. The fault of a line is not that memory ran out. The
/// only error is running out of memory.
pub fn hub_answer_line(alloc: Global, number: u64, answer: &HubAnswer) -> Result<Bytes, AllocError>
    requires has_line { HasAnswerLine answer.now }
    ensures line { IfOk result (λ line. IfSome (answer_tree answer.now)
        (λ answer. line ≡ hub_answer_line number answer)) }
{
    match answer {
        HubAnswer::Carried(carried) => hub_ok_line(alloc, number, carried),
        HubAnswer::NoView => no_view_line(alloc, number),
        HubAnswer::NoApply { at, cause } => no_apply_line(alloc, number, *at, *cause),
        HubAnswer::NoEdit(fault) => fault_line(alloc, number, fault),
    }
}

/// `ok N HUBWORD LIST` and a line feed: the edit with this number was accepted. HUBWORD is the word of
/// the hub, and LIST the array of the views' words, both as compact JSON. The only error is running
/// out of memory.
pub fn hub_ok_line(alloc: Global, number: u64, carried: &HubCarried) -> Result<Bytes, AllocError>
    ensures line { IfOk result (λ line. line ≡ hub_ok_line number (hub_carried_tree carried.now)) }
{
    let mut digits = Buffer::new();
    let mut line = Vec::with_capacity(alloc, USUAL)?;
    line.extend_from_slice(b"ok ")?;
    line.extend_from_slice(digits.format(number).as_bytes())?;
    line.extend_from_slice(b" ")?;
    let mut line = append_word(line, &carried.hub)?;
    line.extend_from_slice(b" ")?;
    let mut line = add_words(line, carried.views.as_slice())?;
    line.extend_from_slice(b"\n")?;
    Ok(Bytes::from_vec(line))
}

/// `refused N no-view` and a line feed: the edit with this number names no view. The only error is
/// running out of memory.
pub fn no_view_line(alloc: Global, number: u64) -> Result<Bytes, AllocError>
    ensures line { IfOk result (λ line. line ≡ no_view_line number) }
{
    let line = format!(in alloc; "refused {number} no-view\n")?;
    Ok(Bytes::from_vec(line.into_bytes()))
}

/// Adds the compact JSON of the array of these words. The only error is running out of memory.
pub fn add_words(line: Vec<u8>, words: &[Word]) -> Result<Vec<u8>, AllocError>
    ensures { IfOk result (λ all. all.items
        ≡ line.items ++ compact_text (tree_of_words (word_trees words.now))) }
{
    let mut all = line;
    all.extend_from_slice(b"[")?;
    let mut later = false;
    for word in words {
        let longer = add_word(all, later, word)?;
        all = longer;
        later = true;
    }
    all.extend_from_slice(b"]")?;
    Ok(all)
}

// Adds a word to an array, behind a comma if it is not the first.
fn add_word(line: Vec<u8>, later: bool, word: &Word) -> Result<Vec<u8>, AllocError>
    ensures { IfOk result (λ all. all.items
        ≡ line.items ++ (comma_if later ++ compact_text (tree_of_word (word_tree word.now)))) }
{
    let mut all = line;
    if later {
        all.extend_from_slice(b",")?;
    }
    append_word(all, word)
}
