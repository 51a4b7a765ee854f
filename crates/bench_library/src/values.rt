//! What the lines of a file are: a lens, documents, words and a complement.

use anyhow::{Context, Result};
use complement_file::read_comp;
use doc_values::{Doc, Ty};
use edit_json::read_word;
use edit_module::Word;
use lens_core::Comp;
use lens_syntax::read_program;
use lens_types::{Typed, check};
use serde_json::Value;
use std::alloc::Global;
use value_json::read_doc;

/// The first line, and the lines behind it.
pub fn first_line(lines: &str) -> Result<(&str, &str)> {
    lines.split_once('\n').context("a line is missing")
}

/// The lens of a program.
pub fn lens_in(alloc: Global, program: &str) -> Result<Typed> {
    let read = read_program(alloc, program.as_bytes());
    let program = read.ok().context("the program is not read")?;
    check(alloc, &program).ok().context("not a lens")
}

/// The tree of a line.
pub fn tree_in(alloc: Global, line: &str) -> Result<Value> {
    Ok(Value::from_str(alloc, line)?)
}

/// The document of a line.
pub fn document_in(alloc: Global, ty: &Ty, line: &str) -> Result<Doc> {
    document_of(alloc, ty, &tree_in(alloc, line)?)
}

/// The document of a tree.
pub fn document_of(alloc: Global, ty: &Ty, tree: &Value) -> Result<Doc> {
    let read = read_doc(alloc, ty, tree);
    read.ok().context("not a document of the type")
}

/// The words of lines, one a line.
pub fn words_in(alloc: Global, lines: &str) -> Result<Vec<Word>> {
    let mut words = Vec::new(alloc);
    for line in lines.lines() {
        words.push(word_in(alloc, line)?)?;
    }
    Ok(words)
}

fn word_in(alloc: Global, line: &str) -> Result<Word> {
    let read = read_word(alloc, &tree_in(alloc, line)?);
    read.ok().context("not a word")
}

/// The complement of a line.
pub fn complement_in(alloc: Global, lens: &Typed, line: &str) -> Result<Comp> {
    let read = read_comp(alloc, lens, &tree_in(alloc, line)?);
    read.ok().context("not a complement of the lens")
}
