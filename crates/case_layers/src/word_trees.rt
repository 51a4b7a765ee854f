//! Words of edits and their primitives as JSON trees.

use crate::answers::ok;
use crate::arguments::as_items;
use anyhow::{Context, Result, bail};
use edit_json::{append_word, has_tree, read_word};
use edit_module::Word;
use edit_module::word::Primitive;
use hold_shapes::ShapeEdit;
use serde_json::Value;
use std::alloc::Global;
use value_json::{only_member, read_count};

/// Returns the word that an array is. Its own primitives, not those of inner words, may also insert or delete any
/// number of items below 2^32. It is refused if it is not a word.
pub fn word_of(alloc: Global, tree: &Value) -> Result<Word> {
    let mut primitives = Vec::new(alloc);
    for item in as_items(tree)? {
        primitives.push(primitive_of(alloc, item)?)?;
    }
    Ok(Word::from_vec(primitives))
}

/// Returns the primitive that a tree is. It may also insert or delete any number of items below 2^32. It is refused if
/// it is not a primitive.
pub fn primitive_of(alloc: Global, tree: &Value) -> Result<Primitive> {
    if let Some(edit) = any_count(tree) {
        return Ok(Primitive::Shape(edit));
    }
    let word = Value::Array(vec![in alloc; tree.clone()?]?);
    let primitive = read_primitive(alloc, &word);
    drop(word);
    primitive
}

// The primitive of a word of one.
fn read_primitive(alloc: Global, word: &Value) -> Result<Primitive> {
    match read_word(alloc, word) {
        Ok(word) => only_primitive(word),
        Err(fault) => bail!("not an edit: {fault:?}"),
    }
}

fn only_primitive(word: Word) -> Result<Primitive> {
    let mut primitives = word.into_vec();
    primitives.pop().context("an edit is one primitive")
}

// An insertion or a deletion of any number of items below 2^32.
fn any_count(tree: &Value) -> Option<ShapeEdit> {
    let (kind, content) = only_member(tree)?;
    let count = u32::try_from(read_count(content)?).ok()?;
    match kind {
        "ins" => Some(ShapeEdit::Ins(count)),
        "del" => Some(ShapeEdit::Del(count)),
        _ => None,
    }
}

/// Returns the tree of a word under `ok`. It is refused if the word has no tree.
pub fn ok_word(alloc: Global, word: &Word) -> Result<Value> {
    ok(alloc, word_tree(alloc, word)?)
}

// The tree of a word. It is refused if the word has no tree.
fn word_tree(alloc: Global, word: &Word) -> Result<Value> {
    if !has_tree(word) {
        bail!("the word has no tree");
    }
    let text = append_word(Vec::new(alloc), word)?;
    Ok(Value::from_slice(alloc, text.as_slice())?)
}
