//! What differs between two lenses of one form.

use crate::case::{Case, entry_of};
use crate::complements::are_same;
use anyhow::{Result, bail};
use edit_json::append_word;
use edit_module::{Entry, Word};
use edit_session::{Session, StepFault};
use lens_core::{Carried, CarryFault, EditLens};
use lens_flat::Flat;
use lens_run::Checked;
use serde_json::Value;
use std::alloc::Global;
use texts::Side;

/// What differs in the case of a line, or `None` if nothing does. It is refused if the line is not a case.
pub fn difference(alloc: Global, line: &str) -> Result<Option<String>> {
    let row = Value::from_str(alloc, line)?;
    difference_of_row(alloc, &row)
}

fn difference_of_row(alloc: Global, row: &Value) -> Result<Option<String>> {
    let case = Case::from_row(row)?;
    let typed = case.lens(alloc)?;
    let flat = Session::start(alloc, Flat::compile(alloc, &typed)?)?;
    let form = Session::start(alloc, Checked::new(typed))?;
    difference_of_runs(alloc, form, flat, case.entries()?)
}

// What differs in the runs of the entries through both lenses.
fn difference_of_runs(
    alloc: Global,
    mut form: Session<Checked>,
    mut flat: Session<Flat>,
    entries: &Vec<Value>,
) -> Result<Option<String>> {
    if !agree(&form, &flat) {
        return Ok(Some(format!(in alloc; "the first triples differ")?));
    }
    let mut number = 0u64;
    for text in entries.iter() {
        if let Some(what) = difference_of_step(alloc, &mut form, &mut flat, text)? {
            return Ok(Some(format!(in alloc; "entry {number}: the {what} differ")?));
        }
        number = number.saturating_add(1);
    }
    Ok(None)
}

// What differs after an entry, or `None` if nothing does. A text that is not an entry is passed over.
fn difference_of_step(
    alloc: Global,
    form: &mut Session<Checked>,
    flat: &mut Session<Flat>,
    text: &Value,
) -> Result<Option<&'static str>> {
    let Some(entry) = entry_of(alloc, text)? else {
        return Ok(None);
    };
    if !carry_alike(alloc, form, flat, &entry)? {
        return Ok(Some("words"));
    }
    if !step_alike(alloc, form, flat, &entry)? {
        return Ok(Some("answers"));
    }
    if !agree(form, flat) {
        return Ok(Some("triples"));
    }
    Ok(None)
}

// Whether both sessions have the same triple.
fn agree(form: &Session<Checked>, flat: &Session<Flat>) -> bool {
    form.left().is_same(flat.left())
        && form.right().is_same(flat.right())
        && are_same(form.comp(), flat.comp())
}

// Whether both lenses carry the word of an entry alike, as a word of each side.
fn carry_alike(
    alloc: Global,
    form: &Session<Checked>,
    flat: &Session<Flat>,
    entry: &Entry,
) -> Result<bool> {
    Ok(
        carry_from(alloc, form, flat, Side::Left, &entry.word)?
            && carry_from(alloc, form, flat, Side::Right, &entry.word)?,
    )
}

fn carry_from(
    alloc: Global,
    form: &Session<Checked>,
    flat: &Session<Flat>,
    side: Side,
    word: &Word,
) -> Result<bool> {
    let one = form.lens().carry(alloc, side, form.comp(), word);
    let other = flat.lens().carry(alloc, side, flat.comp(), word);
    same_carried(alloc, one, other)
}

fn same_carried(
    alloc: Global,
    one: Result<Carried, CarryFault>,
    other: Result<Carried, CarryFault>,
) -> Result<bool> {
    match (one, other) {
        (Ok(one), Ok(other)) => {
            Ok(same_words(alloc, &one.word, &other.word)? && are_same(&one.comp, &other.comp))
        }
        (Err(one), Err(other)) => Ok(one == other),
        _ => Ok(false),
    }
}

// Whether both sessions answer an entry alike.
fn step_alike(
    alloc: Global,
    form: &mut Session<Checked>,
    flat: &mut Session<Flat>,
    entry: &Entry,
) -> Result<bool> {
    let one = form.step(entry);
    let other = flat.step(entry);
    same_answers(alloc, one, other)
}

fn same_answers(
    alloc: Global,
    one: Result<Word, StepFault>,
    other: Result<Word, StepFault>,
) -> Result<bool> {
    match (one, other) {
        (Ok(one), Ok(other)) => same_words(alloc, &one, &other),
        (Err(StepFault::NoMemory), _) => bail!("out of memory"),
        (_, Err(StepFault::NoMemory)) => bail!("out of memory"),
        (Err(one), Err(other)) => Ok(one == other),
        _ => Ok(false),
    }
}

// Whether two words have the same text.
fn same_words(alloc: Global, one: &Word, other: &Word) -> Result<bool> {
    let one = append_word(Vec::new(alloc), one)?;
    let other = append_word(Vec::new(alloc), other)?;
    Ok(one == other)
}
