//! The payloads that the program writes into the store of a hub.

ghost use Rattle.std.specs.Prelude.{◌≡◌, ◌≤◌, ◌++◌, true, IfOk, OnOk, Some};
ghost use Rattle.serde_json.specs.Data.{array, depth, string};
ghost use Rattle.serde_json.specs.Read.{max_depth};
ghost use Rattle.serde_json.specs.View.{view};
ghost use Rattle.serde_json.specs.Written.{compact_text};
ghost use Rattle.edit_journal.specs.EntryJson.{tree_of_text};
ghost use Rattle.edit_json.specs.Tokens.{tokens_of};
ghost use Rattle.edit_module.specs.Views.{word_tree};
ghost use Rattle.hub_run.specs.EditJson.{hub_place_fits, tree_of_edit, tree_of_hub_place};
ghost use Rattle.program_terms.specs.Views.{program_tree};
ghost use Rattle.program_writing.specs.Canonical.{canonical};
ghost use Rattle.view_hub.specs.Views.{edit_trees, place_of_side};
ghost use Rattle.hub_records.specs.HubChanges.{all_counts_fit, all_numbers_fit, edit_fits, edits_of, group};
ghost use Rattle.hub_records.specs.HubChanges.{items_of_edits, tree_of_hub_change};
ghost use Rattle.hub_records.specs.HubRecords.{items_of_texts, tree_of_added, tree_of_programs};
ghost use Rattle.hub_records.specs.Views.{canonical_texts, hub_change_tree};

use crate::change::HubChange;
use crate::parts::FIRST_VERSION;
use edit_json::put_word;
use edit_module::Word;
use json::Writer;
use lens_syntax::{Program, write_program};
use serde_json::{Map, Value, put};
use std::alloc::{AllocError, Global};
use store_records::{payload_of, record_named};
use texts::Bytes;
use value_json::write_text;
use view_hub::HubSide;

// The room that is made at once for the payload of a change.
const USUAL: usize = 128;

/// The payload of the first record of a new hub: the canonical text of the program of each view, in order, and the
/// version 1.
///
/// Fails only if memory runs out.
pub fn programs_payload(alloc: Global, programs: &[Program]) -> Result<Bytes, AllocError>
    ensures text { IfOk result (λ bytes. bytes
        ≡ compact_text (tree_of_programs (canonical_texts programs.now))) }

    // A reader of JSON gives its tree back.
    ensures reads_back { IfOk result (λ bytes. tree_of_text bytes
        ≡ Some (tree_of_programs (canonical_texts programs.now))) }
{
    let tree = programs_record(alloc, programs)?;
    payload_of(alloc, &tree)
}

fn programs_record(alloc: Global, programs: &[Program]) -> Result<Value, AllocError>
    ensures { IfOk result (λ tree. view tree ≡ tree_of_programs (canonical_texts programs.now)) }
{
    let texts = write_texts(alloc, programs)?;
    let mut members = Map::new(alloc);
    put(&mut members, alloc, "hub", texts)?;
    put(&mut members, alloc, "version", Value::from(FIRST_VERSION))?;
    Ok(Value::Object(members))
}

// The array of the canonical texts of programs.
fn write_texts(alloc: Global, programs: &[Program]) -> Result<Value, AllocError>
    ensures { IfOk result (λ tree. view tree
        ≡ array (items_of_texts (canonical_texts programs.now))) }
{
    let mut items = Vec::with_capacity(alloc, programs.len())?;
    for program in programs {
        items.push(text_of(alloc, program)?)?;
    }
    Ok(Value::Array(items))
}

// The string of the canonical text of a program.
fn text_of(alloc: Global, program: &Program) -> Result<Value, AllocError>
    ensures { IfOk result (λ tree. view tree ≡ string (canonical (program_tree program.now))) }
{
    let text = write_program(alloc, program)?;
    write_text(alloc, text.as_str())
}

/// The payload of one view more: the canonical text of its program.
///
/// Fails only if memory runs out.
pub fn added_payload(alloc: Global, program: &Program) -> Result<Bytes, AllocError>
    ensures text { IfOk result (λ bytes. bytes
        ≡ compact_text (tree_of_added (canonical (program_tree program.now)))) }

    // A reader of JSON gives its tree back.
    ensures reads_back { IfOk result (λ bytes. tree_of_text bytes
        ≡ Some (tree_of_added (canonical (program_tree program.now)))) }
{
    let tree = record_named(alloc, "add", text_of(alloc, program)?)?;
    payload_of(alloc, &tree)
}

/// The payload of a change: the tree of its edit, or of its group, as a line of a journal has it.
///
/// Each insertion and each deletion in the change is of 1 to 65,536 items, as in every change that applies. Fails only
/// if memory runs out.
pub fn change_payload(alloc: Global, change: &HubChange) -> Result<Bytes, AllocError>
    requires counts_fit { all_counts_fit (edits_of (hub_change_tree change.now)) ≡ true }

    ensures text { IfOk result (λ bytes. bytes
        ≡ compact_text (tree_of_hub_change (hub_change_tree change.now))) }

    // A reader of JSON gives its tree back, unless it nests too deep for it; that of a change that applies does not.
    ensures reads_back { IfOk result (λ bytes.
        depth (tree_of_hub_change (hub_change_tree change.now)) ≤ max_depth
        → tree_of_text bytes ≡ Some (tree_of_hub_change (hub_change_tree change.now))) }

    // The program can hold every number in the change.
    ensures numbers { OnOk result (all_numbers_fit (edits_of (hub_change_tree change.now)) ≡ true) }
{
    let mut out = Writer::new(Vec::with_capacity(alloc, USUAL)?);
    put_change(&mut out, change)?;
    Ok(Bytes::from_vec(out.into_inner()))
}

// Each function below writes the tokens of the tree that its own name says, and says that the program can hold the
// numbers in it.

fn put_change(out: &mut Writer, change: &HubChange) -> Result<(), AllocError>
    ensures before { out.new.before ≡ out.old.before }
    ensures tokens { OnOk result (out.new.tokens
        ≡ out.old.tokens ++ tokens_of (tree_of_hub_change (hub_change_tree change.now))) }
    ensures numbers { OnOk result (all_numbers_fit (edits_of (hub_change_tree change.now)) ≡ true) }
{
    match change {
        HubChange::One((side, word)) => put_edit(out, *side, word),
        HubChange::Group(edits) => put_group(out, edits),
    }
}

// An object with exactly the member `group`, the array of the edits' trees.
fn put_group(out: &mut Writer, edits: &[(HubSide, Word)]) -> Result<(), AllocError>
    ensures before { out.new.before ≡ out.old.before }
    ensures tokens { OnOk result (out.new.tokens
        ≡ out.old.tokens ++ tokens_of (tree_of_hub_change (group (edit_trees edits.now)))) }
    ensures numbers { OnOk result (all_numbers_fit (edit_trees edits.now) ≡ true) }
{
    out.begin_object()?;
    out.key("group")?;
    put_edits(out, edits)?;
    out.end_object()
}

#[tactic(auto, using(crate::proofs::EditTokens::edit_rules))]
fn put_edits(out: &mut Writer, edits: &[(HubSide, Word)]) -> Result<(), AllocError>
    ensures before { out.new.before ≡ out.old.before }
    ensures tokens { OnOk result (out.new.tokens
        ≡ out.old.tokens ++ tokens_of (array (items_of_edits (edit_trees edits.now)))) }
    ensures numbers { OnOk result (all_numbers_fit (edit_trees edits.now) ≡ true) }
{
    out.begin_array()?;
    for edit in edits {
        put_edit(out, edit.0, &edit.1)?;
    }
    out.end_array()
}

// An object with exactly the members `at` and `edit`.
fn put_edit(out: &mut Writer, side: HubSide, word: &Word) -> Result<(), AllocError>
    ensures before { out.new.before ≡ out.old.before }
    ensures tokens { OnOk result (out.new.tokens
        ≡ out.old.tokens ++ tokens_of (tree_of_edit (place_of_side side, word_tree word.now))) }
    ensures numbers { OnOk result (edit_fits (place_of_side side, word_tree word.now) ≡ true) }
{
    out.begin_object()?;
    out.key("at")?;
    put_place(out, side)?;
    out.key("edit")?;
    put_word(out, word)?;
    out.end_object()
}

fn put_place(out: &mut Writer, side: HubSide) -> Result<(), AllocError>
    ensures before { out.new.before ≡ out.old.before }
    ensures tokens { OnOk result (out.new.tokens
        ≡ out.old.tokens ++ tokens_of (tree_of_hub_place (place_of_side side))) }
    ensures fits { OnOk result (hub_place_fits (place_of_side side) ≡ true) }
{
    match side {
        HubSide::Hub => out.string("hub"),
        HubSide::View(number) => out.u64(number),
    }
}
