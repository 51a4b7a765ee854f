//! From the left: a word of one item.

ghost use Rattle.std.specs.Prelude.{◌≡◌, ◌<◌, ◌≤◌, ◌-◌, Some, IfOk, MatchResult, length, nat_eq, if◌then◌else◌};
ghost use Rattle.hold_shapes.specs.declared.edit.Place.TheVariants.{Index};
ghost use Rattle.hold_shapes.specs.declared.edit.ShapeEdit.TheVariants.{Ins, Del};
ghost use Rattle.doc_values.specs.Types.{fields_tree};
ghost use Rattle.edit_module.specs.Words.{stay, switch, joined};
ghost use Rattle.edit_module.specs.Views.{word_tree, primitive_tree};
ghost use Rattle.lens_core.specs.Emitted.{at_word, mod_word, shape_word, one_by_one};
ghost use Rattle.lens_core.specs.Tags.{tag_count};
ghost use Rattle.lens_core.specs.Partition.{part_item, mv};
ghost use Rattle.tag_seq.specs.Tags.{count, rank};
ghost use Rattle.lens_forms.specs.declared.limits.TheConstants.{MOST_PARTS};
ghost use Rattle.partition_lens.specs.Rows.{row_of, IsRowFault};

use crate::emit::{at_word, mod_word, move_word, shape_word};
use crate::lookups;
use crate::row::Row;
use crate::tags::number_of;
use doc_values::Fields;
use edit_module::Word;
use edit_module::word::Primitive;
use hold_shapes::ShapeEdit;
use lens_core::CarryFault;
use std::alloc::{AllocError, Global};
use tag_seq::TagSeq;
use texts::{Name, Twin};

/// A word of the item at a place, which is one of the list.
#[tactic(auto, using(crate::proofs::RowSteps::step_rules))]
pub(crate) fn on_item(
    alloc: Global,
    tags: &Fields,
    seq: &TagSeq,
    place: u64,
    word: &Word,
) -> Result<Row, CarryFault>
    requires few { tag_count (fields_tree tags.now) ≤ MOST_PARTS }
    requires within { place < length seq.now }
    ensures { MatchResult result
        (λ r. one_by_one (part_item (fields_tree tags.now) place) seq.now (word_tree word.now) ≡ Some (row_of r))
        (IsRowFault (one_by_one (part_item (fields_tree tags.now) place) seq.now (word_tree word.now))) }
{
    let mut row = Row::empty(alloc, seq)?;
    let primitives = word.as_slice();
    for primitive in primitives {
        let next = item_primitive(alloc, tags, &row.tags, place, primitive)?;
        row = row.followed_by(next)?;
    }
    Ok(row)
}

// One primitive of the item. There are as many items after it.
fn item_primitive(
    alloc: Global,
    tags: &Fields,
    seq: &TagSeq,
    place: u64,
    primitive: &Primitive,
) -> Result<Row, CarryFault>
    requires few { tag_count (fields_tree tags.now) ≤ MOST_PARTS }
    requires within { place < length seq.now }
    ensures row { MatchResult result
        (λ r. part_item (fields_tree tags.now) place seq.now (primitive_tree primitive.now) ≡ Some (row_of r))
        (IsRowFault (part_item (fields_tree tags.now) place seq.now (primitive_tree primitive.now))) }
    ensures long { IfOk result (λ r. length r.tags ≡ length seq.now) }
{
    match primitive {
        Primitive::Stay(tag, word) => stay_item(alloc, tags, seq, place, tag, word),
        Primitive::Switch(from, to, word) => switch_item(alloc, tags, seq, place, from, to, word),
        _ => Err(CarryFault::Unfit),
    }
}

// A word of the item's content: Mod of its place in the list of its tag.
fn stay_item(
    alloc: Global,
    tags: &Fields,
    seq: &TagSeq,
    place: u64,
    tag: &Name,
    word: &Word,
) -> Result<Row, CarryFault>
    requires few { tag_count (fields_tree tags.now) ≤ MOST_PARTS }
    requires within { place < length seq.now }
    ensures row { MatchResult result
        (λ r. part_item (fields_tree tags.now) place seq.now (stay tag.now (word_tree word.now)) ≡ Some (row_of r))
        (IsRowFault (part_item (fields_tree tags.now) place seq.now (stay tag.now (word_tree word.now)))) }
    ensures long { IfOk result (λ r. length r.tags ≡ length seq.now) }
{
    let Some(number) = number_of(tags, tag) else {
        return Err(CarryFault::Unfit);
    };
    if number != lookups::tag_at(seq, place) {
        return Err(CarryFault::Unfit);
    }
    let index = lookups::rank(seq, number, place);
    let content = mod_word(alloc, index, word.twin(alloc)?)?;
    Ok(Row {
        word: at_word(alloc, tag.twin(alloc)?, content)?,
        tags: seq.twin()?,
    })
}

// The item goes to another tag: its content leaves the list of the first, and a new one comes into that of the second.
fn switch_item(
    alloc: Global,
    tags: &Fields,
    seq: &TagSeq,
    place: u64,
    from: &Name,
    to: &Name,
    word: &Word,
) -> Result<Row, CarryFault>
    requires few { tag_count (fields_tree tags.now) ≤ MOST_PARTS }
    requires within { place < length seq.now }
    ensures row { MatchResult result
        (λ r. part_item (fields_tree tags.now) place seq.now (switch from.now to.now (word_tree word.now))
        ≡ Some (row_of r))
        (IsRowFault (part_item (fields_tree tags.now) place seq.now (switch from.now to.now (word_tree word.now)))) }
    ensures long { IfOk result (λ r. length r.tags ≡ length seq.now) }
{
    let Some(old) = number_of(tags, from) else {
        return Err(CarryFault::Unfit);
    };
    let Some(new) = number_of(tags, to) else {
        return Err(CarryFault::Unfit);
    };
    if old != lookups::tag_at(seq, place) {
        return Err(CarryFault::Unfit);
    }
    let leaving = leave_word(alloc, seq, place, old, from)?;
    let coming = enter_word(alloc, seq, place, old, new, to, word)?;
    let mut next = seq.twin()?;
    next.set_tag(place, new)?;
    Ok(Row {
        word: leaving.joined(coming)?,
        tags: next,
    })
}

// The content of the item is moved to the end of the list of its tag, and deleted.
fn leave_word(
    alloc: Global,
    seq: &TagSeq,
    place: u64,
    tag: u32,
    name: &Name,
) -> Result<Word, AllocError>
    requires { place < length seq.now }
    ensures { IfOk result (λ w. word_tree w
        ≡ at_word name.now (joined (mv (rank tag place seq.now) (count tag seq.now - 1)) (shape_word (Del 1)))) }
{
    let index = lookups::rank(seq, tag, place);
    let last = lookups::count(seq, tag).saturating_sub(1);
    let moving = move_word(alloc, index, last)?;
    let deleting = shape_word(alloc, ShapeEdit::Del(1))?;
    at_word(alloc, name.twin(alloc)?, moving.joined(deleting)?)
}

// A new content is inserted at the end of the list of the new tag, and moved to its place there.
fn enter_word(
    alloc: Global,
    seq: &TagSeq,
    place: u64,
    old: u32,
    new: u32,
    name: &Name,
    word: &Word,
) -> Result<Word, AllocError>
    requires { place < length seq.now }
    ensures { IfOk result (λ w. word_tree w ≡ at_word name.now (joined (shape_word (Ins 1))
        (joined (mv (if nat_eq old new then count new seq.now - 1 else count new seq.now) (rank new place seq.now))
        (mod_word (Index (rank new place seq.now)) (word_tree word.now))))) }
{
    let index = lookups::rank(seq, new, place);
    let end = others_with(seq, old, new);
    let moving = move_word(alloc, end, index)?;
    let content = mod_word(alloc, index, word.twin(alloc)?)?;
    let placed = moving.joined(content)?;
    let inserting = shape_word(alloc, ShapeEdit::Ins(1))?;
    at_word(alloc, name.twin(alloc)?, inserting.joined(placed)?)
}

// How many others have the new tag.
fn others_with(seq: &TagSeq, old: u32, new: u32) -> u64
    ensures { result ≡ (if nat_eq old new then count new seq.now - 1 else count new seq.now) }
{
    let all = lookups::count(seq, new);
    if old == new {
        all.saturating_sub(1)
    } else {
        all
    }
}
