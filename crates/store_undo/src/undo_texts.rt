//! What `undo` stores and writes, of a session and two words.

ghost use Rattle.std.specs.Prelude.{◌≡◌, ◌++◌, codes, IfOk, OnOk};
ghost use Rattle.serde_json.specs.Written.{compact_text};
ghost use Rattle.edit_json.specs.WordJson.{tree_of_word};
ghost use Rattle.edit_module.specs.Views.{word_tree};
ghost use Rattle.edit_session.specs.Step.{TripleTree};
ghost use Rattle.edit_session.specs.Views.{triple_tree};
ghost use Rattle.answer_text.specs.Lines.{tree_line};
ghost use Rattle.run_answers.specs.Answers.{state_lines};
ghost use Rattle.lens_forms.specs.Forms.{FormTree, form_tree};
ghost use Rattle.store_session.specs.StoredStates.{HasSnapshot, snapshot_text, state_with};
ghost use Rattle.store_undo.specs.Making.{AreTexts};
ghost use Rattle.store_undo.specs.TreeTexts.{AreTreeTexts};
ghost use Rattle.edit_undo.specs.UndoneViews.{both_tree};

use crate::tree_texts::{TreeTexts, tree_texts};
use answer_text::bytes_of;
use edit_json::append_word;
use edit_module::Word;
use edit_session::Session;
use edit_undo::BothWords;
use lens_flat::Flat;
use std::alloc::{AllocError, Global};
use store_run::MoreText;
use texts::Bytes;

// The snapshot of a session, and the lines of these words with its state lines.
pub(crate) fn texts_of(
    alloc: Global,
    session: &Session<Flat>,
    words: &BothWords,
) -> Result<MoreText, AllocError>
    ensures { IfOk result (AreTexts (form_tree session.now.lens.typed) (triple_tree session.now.triple)
        (both_tree words.now)) }
{
    let trees = tree_texts(alloc, session)?;
    texts_with(alloc, &trees, words)
}

// The same of the texts of the session's triple.
fn texts_with(alloc: Global, trees: &TreeTexts, words: &BothWords) -> Result<MoreText, AllocError>
    ensures { IfOk result (λ made. (l : FormTree) (t : TripleTree) → AreTreeTexts l t trees.now
        → AreTexts l t (both_tree words.now) made) }
{
    let payload = snapshot_of(alloc, trees)?;
    let lines = lines_of(alloc, trees, words)?;
    Ok(MoreText { payload, lines })
}

// The payload of the snapshot of a triple.
fn snapshot_of(alloc: Global, trees: &TreeTexts) -> Result<Bytes, AllocError>
    ensures text { IfOk result (λ payload. (l : FormTree) (t : TripleTree) → AreTreeTexts l t trees.now
        → payload ≡ snapshot_text (state_with l t)) }
    ensures has { OnOk result ((l : FormTree) (t : TripleTree) → AreTreeTexts l t trees.now
        → HasSnapshot (state_with l t)) }
{
    let left = trees.left.as_str();
    let comp = trees.comp.as_str();
    let right = trees.right.as_str();
    let text = format!(in alloc;
        "{{\"snapshot\":{{\"complement\":{comp},\"left\":{left},\"right\":{right}}}}}"
    )?;
    Ok(bytes_of(text))
}

// The lines `undo left WORD` and `undo right WORD`, and the state lines of a triple.
fn lines_of(alloc: Global, trees: &TreeTexts, words: &BothWords) -> Result<Bytes, AllocError>
    ensures { IfOk result (λ lines. (l : FormTree) (t : TripleTree) → AreTreeTexts l t trees.now
        → lines ≡ tree_line (codes "undo left") (tree_of_word (word_tree words.now.left))
        ++ (tree_line (codes "undo right") (tree_of_word (word_tree words.now.right)) ++ state_lines l t)) }
{
    let left = with_word(Vec::new(alloc), b"undo left ", &words.left)?;
    let mut text = with_word(left, b"undo right ", &words.right)?;
    append_state(&mut text, trees)?;
    Ok(Bytes::from_vec(text))
}

/// These bytes, and behind them a label, the compact text of a word and a line feed. The only error is running out of
/// memory.
pub fn with_word(bytes: Vec<u8>, label: &[u8], word: &Word) -> Result<Vec<u8>, AllocError>
    ensures { IfOk result (λ all. all.items
        ≡ bytes.items ++ (label.now ++ (compact_text (tree_of_word (word_tree word.now)) ++ codes "\n"))) }
{
    let mut bytes = bytes;
    bytes.extend_from_slice(label)?;
    let mut bytes = append_word(bytes, word)?;
    bytes.extend_from_slice(b"\n")?;
    Ok(bytes)
}

// Writes the state lines of a triple behind these bytes.
fn append_state(bytes: &mut Vec<u8>, trees: &TreeTexts) -> Result<(), AllocError>
    ensures { OnOk result ((l : FormTree) (t : TripleTree) → AreTreeTexts l t trees.now
        → bytes.new.items ≡ bytes.old.items ++ state_lines l t) }
{
    append_line(bytes, b"left ", trees.left.as_str())?;
    append_line(bytes, b"right ", trees.right.as_str())?;
    append_line(bytes, b"complement ", trees.comp.as_str())?;
    Ok(())
}

// Writes a label, the text of a tree and a line feed behind these bytes.
fn append_line(bytes: &mut Vec<u8>, label: &[u8], text: &str) -> Result<(), AllocError>
    ensures { OnOk result (bytes.new.items
        ≡ bytes.old.items ++ (label.now ++ (text.now ++ codes "\n"))) }
{
    bytes.extend_from_slice(label)?;
    bytes.extend_from_slice(text.as_bytes())?;
    bytes.extend_from_slice(b"\n")
}
