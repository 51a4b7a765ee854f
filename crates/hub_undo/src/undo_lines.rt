//! The lines of `undo`.

ghost use Rattle.std.specs.Prelude.{◌≡◌, ◌++◌, IfOk, codes, decimal};
ghost use Rattle.answer_text.specs.Lines.{tree_line};
ghost use Rattle.edit_json.specs.WordJson.{tree_of_word};
ghost use Rattle.edit_module.specs.Views.{word_tree, word_trees};
ghost use Rattle.view_hub.specs.Views.{hub_carried_tree};
ghost use Rattle.hub_run.specs.RunStates.{hub_state_of};
ghost use Rattle.hub_run.specs.Runs.{hub_state_text};
ghost use Rattle.hub_undo.specs.HubUndoing.{view_undo_lines, words_text};

use edit_module::Word;
use hub_run::hub_state_lines;
use lens_flat::Flat;
use std::alloc::{AllocError, Global};
use store_undo::with_word;
use texts::Bytes;
use view_hub::{Hub, HubCarried};

// The lines `undo hub WORD` and, for each view, `undo view V WORD`, and the state lines of the hub.
pub(crate) fn undo_lines(
    alloc: Global,
    hub: &Hub<Flat>,
    words: &HubCarried,
) -> Result<Bytes, AllocError>
    ensures { IfOk result (λ lines. lines
        ≡ words_text (hub_carried_tree words.now) ++ hub_state_text (hub_state_of hub.now)) }
{
    let first = with_word(Vec::new(alloc), b"undo hub ", &words.hub)?;
    let mut text = with_views(alloc, first, words.views.as_slice())?;
    let state = hub_state_lines(alloc, hub)?;
    text.extend_from_slice(&state)?;
    Ok(Bytes::from_vec(text))
}

// These bytes, and behind them the line of each view.
fn with_views(alloc: Global, bytes: Vec<u8>, words: &[Word]) -> Result<Vec<u8>, AllocError>
    ensures { IfOk result (λ all. all.items ≡ bytes.items ++ view_undo_lines 0 (word_trees words.now)) }
{
    let mut all = bytes;
    for number in 0..words.len() {
        let longer = with_view(alloc, all, number as u64, &words[number])?;
        all = longer;
    }
    Ok(all)
}

// These bytes, and behind them `undo view V WORD`.
fn with_view(alloc: Global, bytes: Vec<u8>, number: u64, word: &Word) -> Result<Vec<u8>, AllocError>
    ensures { IfOk result (λ all. all.items ≡ bytes.items
        ++ tree_line (codes "undo view " ++ decimal number) (tree_of_word (word_tree word.now))) }
{
    let label = format!(in alloc; "undo view {number} ")?;
    with_word(bytes, label.as_bytes(), word)
}
