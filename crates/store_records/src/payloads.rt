//! The payloads that this program writes.

ghost use Rattle.std.specs.Prelude.{◌≡◌, ◌≤◌, ◌++◌, true, codes, IfOk, OnOk, IsTrue, Some};
ghost use Rattle.serde_json.specs.Data.{depth};
ghost use Rattle.serde_json.specs.Read.{max_depth};
ghost use Rattle.serde_json.specs.View.{view};
ghost use Rattle.serde_json.specs.Written.{compact_text};
ghost use Rattle.doc_values.specs.Documents.{doc_tree};
ghost use Rattle.doc_values.specs.Types.{ty_tree, is_well_formed};
ghost use Rattle.doc_values.specs.Typing.{has};
ghost use Rattle.edit_module.specs.Views.{change_tree, entry_tree, word_tree};
ghost use Rattle.edit_json.specs.Tokens.{tokens_of};
ghost use Rattle.edit_json.specs.WordJson.{numbers_fit};
ghost use Rattle.edit_journal.specs.EntryJson.{change_counts_fit, change_numbers_fit, tree_of_entry, tree_of_text};
ghost use Rattle.lens_core.specs.Complements.{comp_tree, Fits};
ghost use Rattle.lens_forms.specs.Forms.{form_tree, left_type, right_type};
ghost use Rattle.program_terms.specs.Views.{program_tree};
ghost use Rattle.program_writing.specs.Canonical.{canonical};
ghost use Rattle.value_json.specs.DocumentJson.{holds_i64s, tree_of_document};
ghost use Rattle.store_records.specs.RecordJson.{tree_of_program, tree_of_version, tree_of_change_record};
ghost use Rattle.store_records.specs.RecordJson.{tree_of_triple, tree_of_snapshot};
ghost use Rattle.value_json.specs.SmallTrees.{one_member};

use crate::parts::VERSION;
use crate::text::payload_of;
use complement_file::write_comp;
use doc_values::{Doc, Ty};
use edit_journal::{put_change, put_entry};
use edit_module::{Change, Entry};
use json::Writer;
use lens_core::Comp;
use lens_syntax::{Program, write_program};
use lens_types::Typed;
use serde_json::{Map, Value, put};
use std::alloc::{AllocError, Global};
use texts::Bytes;
use value_json::{write_doc, write_text};

// The bytes of most payloads of changes, for which room is made at once.
const USUAL: usize = 128;

/// The payload of the first record of a new store: the canonical text of the program, and the version 2.
///
/// Fails only if memory runs out.
pub fn program_payload(alloc: Global, program: &Program) -> Result<Bytes, AllocError>
    ensures text { IfOk result
        (λ bytes. bytes ≡ compact_text (tree_of_program (canonical (program_tree program.now)))) }

    // A reader of JSON gives its tree back.
    ensures reads_back { IfOk result (λ bytes. tree_of_text bytes
        ≡ Some (tree_of_program (canonical (program_tree program.now)))) }
{
    let text = write_program(alloc, program)?;
    let tree = program_record(alloc, text.as_str())?;
    payload_of(alloc, &tree)
}

fn program_record(alloc: Global, text: &str) -> Result<Value, AllocError>
    ensures { IfOk result (λ tree. view tree ≡ tree_of_program text.now) }
{
    let mut members = Map::new(alloc);
    put(&mut members, alloc, "program", write_text(alloc, text)?)?;
    put(&mut members, alloc, "version", Value::from(VERSION))?;
    Ok(Value::Object(members))
}

/// The payload of the record that makes a store of version 1 one of version 2: `{"version":2}`.
///
/// Fails only if memory runs out.
pub fn version_payload(alloc: Global) -> Result<Bytes, AllocError>
    ensures text { IfOk result (λ bytes. bytes ≡ compact_text tree_of_version) }

    // A reader of JSON gives its tree back.
    ensures reads_back { IfOk result (λ bytes. tree_of_text bytes ≡ Some tree_of_version) }
{
    let tree = record_named(alloc, "version", Value::from(VERSION))?;
    payload_of(alloc, &tree)
}

/// An object with one member. Fails only if memory runs out.
pub fn record_named(alloc: Global, name: &str, content: Value) -> Result<Value, AllocError>
    ensures { IfOk result (λ tree. view tree ≡ one_member name.now (view content)) }
{
    let mut members = Map::new(alloc);
    put(&mut members, alloc, name, content)?;
    Ok(Value::Object(members))
}

/// The payload of a change: an entry under the name `entry`, and a group as in a journal.
///
/// Each insertion and each deletion in the change is of 1 to 65,536 items, as in every change that applies. Fails only
/// if memory runs out.
pub fn change_payload(alloc: Global, change: &Change) -> Result<Bytes, AllocError>
    requires counts_fit { change_counts_fit (change_tree change.now) ≡ true }

    ensures text { IfOk result (λ bytes. bytes ≡ compact_text (tree_of_change_record (change_tree change.now))) }

    // A reader of JSON gives its tree back, unless it nests too deep for it; that of a change that applies does not
    // (`laws`).
    ensures reads_back { IfOk result (λ bytes. depth (tree_of_change_record (change_tree change.now)) ≤ max_depth
        → tree_of_text bytes ≡ Some (tree_of_change_record (change_tree change.now))) }

    // The program can hold every number in its words.
    ensures numbers { OnOk result (change_numbers_fit (change_tree change.now) ≡ true) }
{
    let mut out = Writer::new(Vec::with_capacity(alloc, USUAL)?);
    put_record(&mut out, change)?;
    Ok(Bytes::from_vec(out.into_inner()))
}

// Writes the tokens of the record of a change.
fn put_record(out: &mut Writer, change: &Change) -> Result<(), AllocError>
    ensures before { out.new.before ≡ out.old.before }
    ensures tokens { OnOk result (out.new.tokens
        ≡ out.old.tokens ++ tokens_of (tree_of_change_record (change_tree change.now))) }
    ensures numbers { OnOk result (change_numbers_fit (change_tree change.now) ≡ true) }
{
    match change {
        Change::One(entry) => put_single(out, entry),
        Change::Group(_) => put_change(out, change),
    }
}

// An object with exactly the member `entry`, the tree of an entry.
fn put_single(out: &mut Writer, entry: &Entry) -> Result<(), AllocError>
    ensures before { out.new.before ≡ out.old.before }
    ensures tokens { OnOk result (out.new.tokens
        ≡ out.old.tokens ++ tokens_of (one_member (codes "entry") (tree_of_entry (entry_tree entry.now)))) }
    ensures numbers { OnOk result (numbers_fit (word_tree entry.now.word) ≡ true) }
{
    out.begin_object()?;
    out.key("entry")?;
    put_entry(out, entry)?;
    out.end_object()
}

/// The payload of a snapshot of a left document, a complement and a right document.
///
/// The documents have the types of the lens, and the complement fits it. Fails only if memory runs out.
pub fn snapshot_payload(
    alloc: Global,
    typed: &Typed,
    left: &Doc,
    comp: &Comp,
    right: &Doc,
) -> Result<Bytes, AllocError>
    requires left_has { IsTrue (has (left_type (form_tree typed.now)) (doc_tree left.now)) }
    requires comp_fits { Fits (form_tree typed.now) (comp_tree comp.now) }
    requires right_has { IsTrue (has (right_type (form_tree typed.now)) (doc_tree right.now)) }

    ensures text { IfOk result (λ bytes. bytes
        ≡ compact_text (tree_of_snapshot (form_tree typed.now) (doc_tree left.now) (comp_tree comp.now)
        (doc_tree right.now))) }

    // A reader of JSON gives its tree back.
    ensures reads_back { IfOk result (λ bytes. tree_of_text bytes
        ≡ Some (tree_of_snapshot (form_tree typed.now) (doc_tree left.now) (comp_tree comp.now) (doc_tree right.now))) }

    // The ints of both documents are i64.
    ensures left_ints { OnOk result (holds_i64s (doc_tree left.now) ≡ true) }
    ensures right_ints { OnOk result (holds_i64s (doc_tree right.now) ≡ true) }
{
    let tree = snapshot_record(alloc, typed, left, comp, right)?;
    let payload = payload_of(alloc, &tree);
    // The proof needs how high the form and its two types are, which these calls say.
    let (_form, _left, _right) = (typed.form(), typed.left(), typed.right());
    payload
}

fn snapshot_record(
    alloc: Global,
    typed: &Typed,
    left: &Doc,
    comp: &Comp,
    right: &Doc,
) -> Result<Value, AllocError>
    requires left_has { IsTrue (has (left_type (form_tree typed.now)) (doc_tree left.now)) }
    requires comp_fits { Fits (form_tree typed.now) (comp_tree comp.now) }
    requires right_has { IsTrue (has (right_type (form_tree typed.now)) (doc_tree right.now)) }
    ensures tree { IfOk result (λ tree. view tree
        ≡ tree_of_snapshot (form_tree typed.now) (doc_tree left.now) (comp_tree comp.now) (doc_tree right.now)) }
    ensures left_ints { OnOk result (holds_i64s (doc_tree left.now) ≡ true) }
    ensures right_ints { OnOk result (holds_i64s (doc_tree right.now) ≡ true) }
{
    let content = triple_record(alloc, typed, left, comp, right)?;
    record_named(alloc, "snapshot", content)
}

fn triple_record(
    alloc: Global,
    typed: &Typed,
    left: &Doc,
    comp: &Comp,
    right: &Doc,
) -> Result<Value, AllocError>
    requires left_has { IsTrue (has (left_type (form_tree typed.now)) (doc_tree left.now)) }
    requires comp_fits { Fits (form_tree typed.now) (comp_tree comp.now) }
    requires right_has { IsTrue (has (right_type (form_tree typed.now)) (doc_tree right.now)) }
    ensures tree { IfOk result (λ tree. view tree
        ≡ tree_of_triple (form_tree typed.now) (doc_tree left.now) (comp_tree comp.now) (doc_tree right.now)) }
    ensures left_ints { OnOk result (holds_i64s (doc_tree left.now) ≡ true) }
    ensures right_ints { OnOk result (holds_i64s (doc_tree right.now) ≡ true) }
{
    let mut members = Map::new(alloc);
    put(
        &mut members,
        alloc,
        "complement",
        write_comp(alloc, typed, comp)?,
    )?;
    put(
        &mut members,
        alloc,
        "left",
        document_record(alloc, typed.left(), left)?,
    )?;
    put(
        &mut members,
        alloc,
        "right",
        document_record(alloc, typed.right(), right)?,
    )?;
    Ok(Value::Object(members))
}

// The tree of a document. It is read back as the document, so the ints of the document are i64.
fn document_record(alloc: Global, ty: &Ty, doc: &Doc) -> Result<Value, AllocError>
    requires well_formed { IsTrue (is_well_formed (ty_tree ty.now)) }
    requires typed { IsTrue (has (ty_tree ty.now) (doc_tree doc.now)) }
    ensures tree { IfOk result (λ tree. view tree ≡ tree_of_document (ty_tree ty.now) (doc_tree doc.now)) }
    ensures ints { OnOk result (holds_i64s (doc_tree doc.now) ≡ true) }
{
    write_doc(alloc, ty, doc)
}
