//! From the left: edits of the mixed list.

ghost use Rattle.std.specs.Prelude.{◌≡◌, ◌<◌, ◌≤◌, ◌-◌, ◌^◌, Some, IfOk, MatchResult, length, drop};
ghost use Rattle.hold_shapes.specs.Plans.{is_count};
ghost use Rattle.hold_shapes.specs.declared.edit.ShapeEdit.TheVariants.{Ins, Del, MoveItem, Reorder};
ghost use Rattle.doc_values.specs.Types.{fields_tree};
ghost use Rattle.edit_module.specs.Words.{shape};
ghost use Rattle.edit_module.specs.Views.{word_tree};
ghost use Rattle.lens_core.specs.Emitted.{at_word};
ghost use Rattle.lens_core.specs.Tags.{tag_count};
ghost use Rattle.lens_core.specs.Partition.{part_left, insert_items, delete_items, move_item, at_each_tag, del};
ghost use Rattle.tag_seq.specs.Tags.{count};
ghost use Rattle.lens_forms.specs.declared.limits.TheConstants.{MOST_PARTS};
ghost use Rattle.partition_lens.specs.Rows.{row_of, IsRowFault};

use crate::emit::{at_word, delete_word, move_word, nothing, shape_word};
use crate::lookups;
use crate::orders::{is_order, reorder_items};
use crate::row::Row;
use crate::tags::name_of;
use doc_values::Fields;
use edit_module::Word;
use hold_shapes::{MOST_ITEMS, Places, ShapeEdit};
use lens_core::CarryFault;
use std::alloc::{AllocError, Global};
use tag_seq::TagSeq;
use texts::{Name, Twin};

/// An edit of the mixed list.
pub(crate) fn edit_items(
    alloc: Global,
    tags: &Fields,
    seq: &TagSeq,
    edit: &ShapeEdit,
) -> Result<Row, CarryFault>
    requires { tag_count (fields_tree tags.now) ≤ MOST_PARTS }
    ensures { MatchResult result
        (λ r. part_left (fields_tree tags.now) seq.now (shape edit.now) ≡ Some (row_of r))
        (IsRowFault (part_left (fields_tree tags.now) seq.now (shape edit.now))) }
{
    match edit {
        ShapeEdit::Ins(count) => insert_row(alloc, tags, seq, *count),
        ShapeEdit::Del(count) => delete_row(alloc, tags, seq, *count),
        ShapeEdit::MoveItem(from, to) => move_row(alloc, tags, seq, *from, *to),
        ShapeEdit::Reorder(order) => reorder_row(alloc, tags, seq, edit, order),
        _ => Err(CarryFault::Unfit),
    }
}

/// Whether one edit can add or delete this number of items.
pub(crate) fn is_count(items: u32) -> bool
    ensures { result ≡ is_count items }
{
    1 <= items && items <= MOST_ITEMS
}

fn insert_row(alloc: Global, tags: &Fields, seq: &TagSeq, items: u32) -> Result<Row, CarryFault>
    ensures { MatchResult result
        (λ r. part_left (fields_tree tags.now) seq.now (shape (Ins items)) ≡ Some (row_of r))
        (IsRowFault (part_left (fields_tree tags.now) seq.now (shape (Ins items)))) }
{
    if !is_count(items) {
        return Err(CarryFault::Unfit);
    }
    Ok(insert_items(alloc, tags, seq, items)?)
}

fn delete_row(alloc: Global, tags: &Fields, seq: &TagSeq, items: u32) -> Result<Row, CarryFault>
    requires { tag_count (fields_tree tags.now) ≤ MOST_PARTS }
    ensures { MatchResult result
        (λ r. part_left (fields_tree tags.now) seq.now (shape (Del items)) ≡ Some (row_of r))
        (IsRowFault (part_left (fields_tree tags.now) seq.now (shape (Del items)))) }
{
    if !is_count(items) {
        return Err(CarryFault::Unfit);
    }
    if items as u64 > seq.len() {
        return Err(CarryFault::Unfit);
    }
    Ok(delete_items(alloc, tags, seq, items)?)
}

fn move_row(
    alloc: Global,
    tags: &Fields,
    seq: &TagSeq,
    from: u64,
    to: u64,
) -> Result<Row, CarryFault>
    ensures { MatchResult result
        (λ r. part_left (fields_tree tags.now) seq.now (shape (MoveItem from to)) ≡ Some (row_of r))
        (IsRowFault (part_left (fields_tree tags.now) seq.now (shape (MoveItem from to)))) }
{
    if from >= seq.len() {
        return Err(CarryFault::Unfit);
    }
    if to >= seq.len() {
        return Err(CarryFault::Unfit);
    }
    Ok(move_item(alloc, tags, seq, from, to)?)
}

fn reorder_row(
    alloc: Global,
    tags: &Fields,
    seq: &TagSeq,
    edit: &ShapeEdit,
    order: &Places,
) -> Result<Row, CarryFault>
    requires few { tag_count (fields_tree tags.now) ≤ MOST_PARTS }
    requires same { edit.now ≡ Reorder order.now }
    ensures { MatchResult result
        (λ r. part_left (fields_tree tags.now) seq.now (shape (Reorder order.now)) ≡ Some (row_of r))
        (IsRowFault (part_left (fields_tree tags.now) seq.now (shape (Reorder order.now)))) }
{
    if !is_order(alloc, seq.len(), edit, order)? {
        return Err(CarryFault::Unfit);
    }
    Ok(reorder_items(alloc, tags, seq, order.as_slice())?)
}

// New items have the first tag, and are at the end.
fn insert_items(alloc: Global, tags: &Fields, seq: &TagSeq, items: u32) -> Result<Row, AllocError>
    ensures { IfOk result (λ r. row_of r ≡ insert_items (fields_tree tags.now) seq.now items) }
{
    let mut next = seq.twin()?;
    next.push_many(0, items as u64)?;
    let name = name_of(alloc, tags, 0)?;
    let word = shape_word(alloc, ShapeEdit::Ins(items))?;
    Ok(Row {
        word: at_word(alloc, name, word)?,
        tags: next,
    })
}

// Of each tag as many are deleted as it has among the last items.
fn delete_items(alloc: Global, tags: &Fields, seq: &TagSeq, items: u32) -> Result<Row, AllocError>
    requires few { tag_count (fields_tree tags.now) ≤ MOST_PARTS }
    requires within { items ≤ length seq.now }
    ensures { IfOk result (λ r. row_of r ≡ delete_items (fields_tree tags.now) seq.now items) }
{
    let kept = seq.len() - items as u64;
    let word = deletions(alloc, tags, seq, kept)?;
    let mut next = seq.twin()?;
    next.cut_last(items as u64)?;
    Ok(Row { word, tags: next })
}

// A deletion in the list of each tag, in written order.
#[tactic(auto, using(crate::proofs::EachTag::each_rules))]
fn deletions(alloc: Global, tags: &Fields, seq: &TagSeq, kept: u64) -> Result<Word, AllocError>
    requires few { tag_count (fields_tree tags.now) ≤ MOST_PARTS }
    requires within { kept ≤ length seq.now }
    requires last { length seq.now - kept < 2 ^ 32 }
    ensures { IfOk result
        (λ w. word_tree w ≡ at_each_tag (fields_tree tags.now) 0 (λ t. del (count t (drop kept seq.now)))) }
{
    let fields = tags.as_slice();
    let mut word = nothing(alloc);
    for number in 0..fields.len() {
        let part = deletion(alloc, seq, number as u32, kept, &fields[number].0)?;
        word = word.joined(part)?;
    }
    Ok(word)
}

// The deletion in the list of a tag.
fn deletion(
    alloc: Global,
    seq: &TagSeq,
    tag: u32,
    kept: u64,
    name: &Name,
) -> Result<Word, AllocError>
    requires within { kept ≤ length seq.now }
    requires last { length seq.now - kept < 2 ^ 32 }
    ensures { IfOk result (λ w. word_tree w ≡ at_word name.now (del (count tag (drop kept seq.now)))) }
{
    let gone = count_behind(seq, tag, kept);
    let word = delete_word(alloc, gone)?;
    at_word(alloc, name.twin(alloc)?, word)
}

// How often a tag occurs from a place on.
#[tactic(auto, using(crate::proofs::Counts::behind_rules))]
fn count_behind(seq: &TagSeq, tag: u32, kept: u64) -> u32
    requires within { kept ≤ length seq.now }
    requires last { length seq.now - kept < 2 ^ 32 }
    ensures { result ≡ count tag (drop kept seq.now) }
{
    let all = lookups::count(seq, tag);
    let before = lookups::rank(seq, tag, kept);
    (all - before) as u32
}

// The item moves in the list of its tag, to its place there in the new list.
#[tactic(auto, using(crate::proofs::Counts::moved_rules))]
fn move_item(
    alloc: Global,
    tags: &Fields,
    seq: &TagSeq,
    from: u64,
    to: u64,
) -> Result<Row, AllocError>
    requires from_within { from < length seq.now }
    requires to_within { to < length seq.now }
    ensures { IfOk result (λ r. row_of r ≡ move_item (fields_tree tags.now) seq.now from to) }
{
    let tag = lookups::tag_at(seq, from);
    let mut next = seq.twin()?;
    next.move_one(from, to)?;
    let old = lookups::rank(seq, tag, from);
    let new = lookups::rank(&next, tag, to);
    let word = move_word(alloc, old, new)?;
    let name = name_of(alloc, tags, tag)?;
    Ok(Row {
        word: at_word(alloc, name, word)?,
        tags: next,
    })
}
