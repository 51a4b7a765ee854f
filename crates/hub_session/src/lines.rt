//! The answer lines of a group of edits.

ghost use Rattle.std.specs.Prelude.{◌≡◌, ◌++◌, map, IfOk, OnOk};
ghost use Rattle.serde_json.specs.Data.{array};
ghost use Rattle.serde_json.specs.Written.{compact_text};
ghost use Rattle.edit_json.specs.Tokens.{tokens_of};
ghost use Rattle.edit_module.specs.Views.{word_trees};
ghost use Rattle.hub_run.specs.Answers.{tree_of_words};
ghost use Rattle.view_hub.specs.Views.{hub_carried_tree};
ghost use Rattle.hub_session.specs.HubAnswers.{group_no_view_line, group_ok_line, items_of_carried, tree_of_carried};

use edit_json::put_word;
use edit_module::Word;
use itoa::Buffer;
use json::Writer;
use std::alloc::{AllocError, Global};
use texts::Bytes;
use view_hub::HubCarried;

// The bytes of most answers, for which room is made at once.
const USUAL: usize = 128;

// `ok N group LIST` and a line feed: group N was accepted. LIST is the array of the words that acted in each edit, as
// compact JSON.
//
// The only error is running out of memory.
pub(crate) fn group_ok_line(
    alloc: Global,
    number: u64,
    words: &[HubCarried],
) -> Result<Bytes, AllocError>
    ensures { IfOk result (λ line. line ≡ group_ok_line number (map hub_carried_tree words.now)) }
{
    let mut digits = Buffer::new();
    let mut line = Vec::with_capacity(alloc, USUAL)?;
    line.extend_from_slice(b"ok ")?;
    line.extend_from_slice(digits.format(number).as_bytes())?;
    line.extend_from_slice(b" group ")?;
    let mut line = append_all(line, words)?;
    line.extend_from_slice(b"\n")?;
    Ok(Bytes::from_vec(line))
}

// These bytes, and behind them the compact JSON of the array of the words of each edit.
fn append_all(bytes: Vec<u8>, words: &[HubCarried]) -> Result<Vec<u8>, AllocError>
    ensures text { IfOk result (λ all. all.items
        ≡ bytes.items ++ compact_text (array (items_of_carried (map hub_carried_tree words.now)))) }
{
    let mut out = Writer::new(bytes);
    put_all(&mut out, words)?;
    Ok(out.into_inner())
}

// Each function below writes the tokens of the tree that its own name says.

fn put_all(out: &mut Writer, words: &[HubCarried]) -> Result<(), AllocError>
    ensures before { out.new.before ≡ out.old.before }
    ensures tokens { OnOk result (out.new.tokens
        ≡ out.old.tokens ++ tokens_of (array (items_of_carried (map hub_carried_tree words.now)))) }
{
    out.begin_array()?;
    for carried in words {
        put_carried(out, carried)?;
    }
    out.end_array()
}

// An object with exactly the members `hub` and `views`, the words that acted in an edit.
fn put_carried(out: &mut Writer, carried: &HubCarried) -> Result<(), AllocError>
    ensures before { out.new.before ≡ out.old.before }
    ensures tokens { OnOk result (out.new.tokens
        ≡ out.old.tokens ++ tokens_of (tree_of_carried (hub_carried_tree carried.now))) }
{
    out.begin_object()?;
    out.key("hub")?;
    put_word(out, &carried.hub)?;
    out.key("views")?;
    put_words(out, carried.views.as_slice())?;
    out.end_object()
}

// The array of some words.
fn put_words(out: &mut Writer, words: &[Word]) -> Result<(), AllocError>
    ensures before { out.new.before ≡ out.old.before }
    ensures tokens { OnOk result (out.new.tokens
        ≡ out.old.tokens ++ tokens_of (tree_of_words (word_trees words.now))) }
{
    out.begin_array()?;
    for word in words {
        put_word(out, word)?;
    }
    out.end_array()
}

// `refused N group PART no-view` and a line feed: edit PART of group N names no view. The only error is running out of
// memory.
pub(crate) fn group_no_view_line(alloc: Global, number: u64, part: u64) -> Result<Bytes, AllocError>
    ensures { IfOk result (λ line. line ≡ group_no_view_line number part) }
{
    let line = format!(in alloc; "refused {number} group {part} no-view\n")?;
    Ok(Bytes::from_vec(line.into_bytes()))
}
