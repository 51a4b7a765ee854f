//! From the right: one primitive of the list of a tag. Its items are the occurrences of the tag in the mixed list.

ghost use Rattle.std.specs.Prelude.{◌≡◌, ◌<◌, ◌≤◌, ◌+◌, ◌^◌, Some, IfOk, MatchResult, length, map, nat_eq};
ghost use Rattle.std.specs.Prelude.{if◌then◌else◌};
ghost use Rattle.std.specs.List.{range_with_len};
ghost use Rattle.hold_shapes.specs.declared.edit.Place.TheVariants.{Index};
ghost use Rattle.hold_shapes.specs.declared.edit.ShapeEdit.TheVariants.{Ins, Del, MoveItem, Reorder};
ghost use Rattle.edit_module.specs.Words.{modify, shape, no_primitives};
ghost use Rattle.edit_module.specs.Views.{word_tree, primitive_tree};
ghost use Rattle.lens_core.specs.Emitted.{mod_word, switch_word};
ghost use Rattle.lens_core.specs.Partition.{part_occurrence, insert_occurrences, switch_places, delete_occurrences};
ghost use Rattle.lens_core.specs.Partition.{delete_last, move_occurrence, reorder_occurrences, place_from};
ghost use Rattle.tag_seq.specs.Tags.{count};
ghost use Rattle.partition_lens.specs.Rows.{row_of, IsRowFault};

use crate::emit::{mod_word, move_word, nothing, one, reorder_word, shape_word, stay_word};
use crate::list_edits::is_count;
use crate::lookups;
use crate::orders::is_order;
use crate::row::Row;
use edit_module::Word;
use edit_module::word::Primitive;
use hold_shapes::{Place, Places, ShapeEdit};
use lens_core::CarryFault;
use std::alloc::{AllocError, Global};
use tag_seq::TagSeq;
use texts::{Name, Twin};

/// One primitive of the list of the tag with a name and a number. `first` is the first tag.
pub(crate) fn occurrence_primitive(
    alloc: Global,
    first: &Name,
    name: &Name,
    tag: u32,
    seq: &TagSeq,
    primitive: &Primitive,
) -> Result<Row, CarryFault>
    ensures { MatchResult result
        (λ r. part_occurrence first.now name.now tag seq.now (primitive_tree primitive.now) ≡ Some (row_of r))
        (IsRowFault (part_occurrence first.now name.now tag seq.now (primitive_tree primitive.now))) }
{
    match primitive {
        Primitive::Mod(place, word) => mod_row(alloc, first, name, tag, seq, place, word),
        Primitive::Shape(edit) => edit_row(alloc, first, name, tag, seq, edit),
        _ => Err(CarryFault::Unfit),
    }
}

// A word of the content of an occurrence: Stay at its place.
fn mod_row(
    alloc: Global,
    first: &Name,
    name: &Name,
    tag: u32,
    seq: &TagSeq,
    place: &Place,
    word: &Word,
) -> Result<Row, CarryFault>
    ensures { MatchResult result
        (λ r. part_occurrence first.now name.now tag seq.now (modify place.now (word_tree word.now)) ≡ Some (row_of r))
        (IsRowFault (part_occurrence first.now name.now tag seq.now (modify place.now (word_tree word.now)))) }
{
    let Place::Index(index) = place else {
        return Err(CarryFault::Unfit);
    };
    if *index >= lookups::count(seq, tag) {
        return Err(CarryFault::Unfit);
    }
    let at = lookups::place(seq, tag, *index);
    let content = stay_word(alloc, name.twin(alloc)?, word.twin(alloc)?)?;
    Ok(Row {
        word: mod_word(alloc, at, content)?,
        tags: seq.twin()?,
    })
}

// An edit of the list.
fn edit_row(
    alloc: Global,
    first: &Name,
    name: &Name,
    tag: u32,
    seq: &TagSeq,
    edit: &ShapeEdit,
) -> Result<Row, CarryFault>
    ensures { MatchResult result
        (λ r. part_occurrence first.now name.now tag seq.now (shape edit.now) ≡ Some (row_of r))
        (IsRowFault (part_occurrence first.now name.now tag seq.now (shape edit.now))) }
{
    match edit {
        ShapeEdit::Ins(count) => insert_row(alloc, first, name, tag, seq, *count),
        ShapeEdit::Del(count) => delete_row(alloc, first, name, tag, seq, *count),
        ShapeEdit::MoveItem(from, to) => move_row(alloc, first, name, tag, seq, *from, *to),
        ShapeEdit::Reorder(order) => reorder_row(alloc, first, name, tag, seq, edit, order),
        _ => Err(CarryFault::Unfit),
    }
}

fn insert_row(
    alloc: Global,
    first: &Name,
    name: &Name,
    tag: u32,
    seq: &TagSeq,
    items: u32,
) -> Result<Row, CarryFault>
    ensures { MatchResult result
        (λ r. part_occurrence first.now name.now tag seq.now (shape (Ins items)) ≡ Some (row_of r))
        (IsRowFault (part_occurrence first.now name.now tag seq.now (shape (Ins items)))) }
{
    if !is_count(items) {
        return Err(CarryFault::Unfit);
    }
    Ok(insert_occurrences(alloc, first, name, tag, seq, items)?)
}

fn delete_row(
    alloc: Global,
    first: &Name,
    name: &Name,
    tag: u32,
    seq: &TagSeq,
    items: u32,
) -> Result<Row, CarryFault>
    ensures { MatchResult result
        (λ r. part_occurrence first.now name.now tag seq.now (shape (Del items)) ≡ Some (row_of r))
        (IsRowFault (part_occurrence first.now name.now tag seq.now (shape (Del items)))) }
{
    if !is_count(items) {
        return Err(CarryFault::Unfit);
    }
    if items as u64 > lookups::count(seq, tag) {
        return Err(CarryFault::Unfit);
    }
    Ok(delete_occurrences(alloc, tag, seq, items)?)
}

fn move_row(
    alloc: Global,
    first: &Name,
    name: &Name,
    tag: u32,
    seq: &TagSeq,
    from: u64,
    to: u64,
) -> Result<Row, CarryFault>
    ensures { MatchResult result
        (λ r. part_occurrence first.now name.now tag seq.now (shape (MoveItem from to)) ≡ Some (row_of r))
        (IsRowFault (part_occurrence first.now name.now tag seq.now (shape (MoveItem from to)))) }
{
    let size = lookups::count(seq, tag);
    if from >= size {
        return Err(CarryFault::Unfit);
    }
    if to >= size {
        return Err(CarryFault::Unfit);
    }
    Ok(move_occurrence(alloc, tag, seq, from, to)?)
}

fn reorder_row(
    alloc: Global,
    first: &Name,
    name: &Name,
    tag: u32,
    seq: &TagSeq,
    edit: &ShapeEdit,
    order: &Places,
) -> Result<Row, CarryFault>
    requires { edit.now ≡ Reorder order.now }
    ensures { MatchResult result
        (λ r. part_occurrence first.now name.now tag seq.now (shape (Reorder order.now)) ≡ Some (row_of r))
        (IsRowFault (part_occurrence first.now name.now tag seq.now (shape (Reorder order.now)))) }
{
    if !is_order(alloc, lookups::count(seq, tag), edit, order)? {
        return Err(CarryFault::Unfit);
    }
    Ok(reorder_occurrences(alloc, tag, seq, order.as_slice())?)
}

// New items are at the end of the mixed list. Those of another tag than the first are switched to it.
#[tactic(auto, using(crate::proofs::Counts::longer_rules))]
fn insert_occurrences(
    alloc: Global,
    first: &Name,
    name: &Name,
    tag: u32,
    seq: &TagSeq,
    items: u32,
) -> Result<Row, AllocError>
    ensures { IfOk result (λ r. row_of r ≡ insert_occurrences first.now name.now tag seq.now items) }
{
    let mut next = seq.twin()?;
    next.push_many(tag, items as u64)?;
    let from = next.len() - items as u64;
    let inserting = shape_word(alloc, ShapeEdit::Ins(items))?;
    let switching = switches(alloc, first, name, tag, from, items)?;
    Ok(Row {
        word: inserting.joined(switching)?,
        tags: next,
    })
}

// The new items are switched to a tag, unless it is the first.
fn switches(
    alloc: Global,
    first: &Name,
    name: &Name,
    tag: u32,
    from: u64,
    items: u32,
) -> Result<Word, AllocError>
    requires { from + items < 2 ^ 64 }
    ensures { IfOk result
        (λ w. word_tree w ≡ (if nat_eq tag 0 then no_primitives else switch_places first.now name.now from items)) }
{
    if tag == 0 {
        return Ok(nothing(alloc));
    }
    switch_places(alloc, first, name, from, items)
}

// A switch from the first tag at each of the places from one on.
#[tactic(auto, using(crate::proofs::RightSteps::switch_rules))]
fn switch_places(
    alloc: Global,
    first: &Name,
    name: &Name,
    from: u64,
    items: u32,
) -> Result<Word, AllocError>
    requires { from + items < 2 ^ 64 }
    ensures { IfOk result (λ w. word_tree w ≡ switch_places first.now name.now from items) }
{
    let mut word = nothing(alloc);
    for done in 0..items {
        let switched = switch_place(alloc, first, name, from + done as u64)?;
        word = word.joined(switched)?;
    }
    Ok(word)
}

// A switch from the first tag at one place.
fn switch_place(alloc: Global, first: &Name, name: &Name, place: u64) -> Result<Word, AllocError>
    ensures { IfOk result (λ w. word_tree w ≡ mod_word (Index place) (switch_word first.now name.now no_primitives)) }
{
    let old = first.twin(alloc)?;
    let new = name.twin(alloc)?;
    let switched = one(alloc, Primitive::Switch(old, new, nothing(alloc)))?;
    mod_word(alloc, place, switched)
}

// The last occurrences are deleted, one after another.
#[tactic(auto, using(crate::proofs::RightSteps::delete_rules, crate::proofs::Counts::count_rules))]
fn delete_occurrences(alloc: Global, tag: u32, seq: &TagSeq, items: u32) -> Result<Row, AllocError>
    requires { items ≤ count tag seq.now }
    ensures { IfOk result (λ r. row_of r ≡ delete_occurrences tag seq.now items) }
{
    let mut row = Row::empty(alloc, seq)?;
    for _ in 0..items {
        let next = delete_last(alloc, tag, &row.tags)?;
        row = row.followed_by(next)?;
    }
    Ok(row)
}

// The last occurrence is moved to the end of the mixed list, and deleted.
#[tactic(auto, using(crate::proofs::RightSteps::last_rules))]
fn delete_last(alloc: Global, tag: u32, seq: &TagSeq) -> Result<Row, AllocError>
    requires { 0 < length seq.now }
    ensures word { IfOk result (λ r. word_tree r.word ≡ (delete_last tag seq.now).0) }
    ensures tags { IfOk result (λ r. r.tags ≡ (delete_last tag seq.now).1) }
    ensures long { IfOk result (λ r. length r.tags + 1 ≡ length seq.now) }
{
    let last = seq.len() - 1;
    let occurrence = lookups::count(seq, tag).saturating_sub(1);
    let place = lookups::place(seq, tag, occurrence);
    let moving = move_word(alloc, place, last)?;
    let deleting = shape_word(alloc, ShapeEdit::Del(1))?;
    let mut next = seq.twin()?;
    next.move_one(place, last)?;
    next.cut_last(1)?;
    Ok(Row {
        word: moving.joined(deleting)?,
        tags: next,
    })
}

// The item at the place of one occurrence moves to that of another.
#[tactic(auto, using(crate::proofs::Counts::count_rules))]
fn move_occurrence(
    alloc: Global,
    tag: u32,
    seq: &TagSeq,
    from: u64,
    to: u64,
) -> Result<Row, AllocError>
    requires from_within { from < count tag seq.now }
    ensures { IfOk result (λ r. row_of r ≡ move_occurrence tag seq.now from to) }
{
    let old = lookups::place(seq, tag, from);
    let new = lookups::place(seq, tag, to);
    let mut next = seq.twin()?;
    next.move_one(old, new)?;
    Ok(Row {
        word: move_word(alloc, old, new)?,
        tags: next,
    })
}

// The items with the tag take another order among their places.
fn reorder_occurrences(
    alloc: Global,
    tag: u32,
    seq: &TagSeq,
    order: &[u64],
) -> Result<Row, AllocError>
    requires { length order.now ≡ count tag seq.now }
    ensures { IfOk result (λ r. row_of r ≡ reorder_occurrences tag seq.now order.now) }
{
    let places = places_from(alloc, tag, seq, order)?;
    Ok(Row {
        word: reorder_word(alloc, places)?,
        tags: seq.twin()?,
    })
}

// For each place of the mixed list, the place that the item comes from.
#[tactic(auto, using(crate::proofs::RightSteps::range_rules))]
fn places_from(alloc: Global, tag: u32, seq: &TagSeq, order: &[u64]) -> Result<Vec<u64>, AllocError>
    requires { length order.now ≡ count tag seq.now }
    ensures { IfOk result (λ v. v.items ≡ map (place_from tag seq.now order.now) (range_with_len 0 (length seq.now))) }
{
    let mut places = Vec::new(alloc);
    for place in 0..seq.len() {
        places.push(place_from(tag, seq, order, place))?;
    }
    Ok(places)
}

// The place that the item at a place comes from.
#[tactic(auto, using(crate::proofs::Counts::rank_below))]
fn place_from(tag: u32, seq: &TagSeq, order: &[u64], place: u64) -> u64
    requires long { length order.now ≡ count tag seq.now }
    requires within { place < length seq.now }
    ensures { result ≡ place_from tag seq.now order.now place }
{
    if tag != lookups::tag_at(seq, place) {
        return place;
    }
    let occurrence = lookups::rank(seq, tag, place);
    lookups::place(seq, tag, order[occurrence as usize])
}
