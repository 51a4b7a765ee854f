//! Orders of lists, and what an order of the mixed list is in the list of each tag.

ghost use Rattle.std.specs.Prelude.{◌≡◌, ◌≤◌, ◌&&◌, ◌++◌, ◌∷◌, IfOk, OnOk, IsTrue, true, [], length, map, nat_eq};
ghost use Rattle.std.specs.Prelude.{replicate, slice_index, slice_index_or, vec_items};
ghost use Rattle.hold_shapes.specs.Plans.{is_each_new};
ghost use Rattle.hold_shapes.specs.declared.edit.ShapeEdit.TheVariants.{Reorder};
ghost use Rattle.doc_values.specs.Types.{fields_tree};
ghost use Rattle.edit_module.specs.Views.{word_tree};
ghost use Rattle.lens_core.specs.Tags.{tag_count};
ghost use Rattle.lens_core.specs.Emitted.{at_word};
ghost use Rattle.lens_core.specs.Partition.{reorder_items, at_each_tag, reorder};
ghost use Rattle.lens_forms.specs.declared.limits.TheConstants.{MOST_PARTS};
ghost use Rattle.partition_lens.specs.TagRanks.{with_rank, ranks_by_tag};
ghost use Rattle.partition_lens.specs.Rows.{row_of};

use crate::emit::{at_word, nothing, reorder_word};
use crate::lookups;
use crate::row::Row;
use doc_values::Fields;
use edit_module::Word;
use hold_shapes::{Held, ListShape, Places, PlanFault, ShapeEdit};
use std::alloc::{AllocError, Global};
use tag_seq::TagSeq;
use texts::{Name, Twin};

/// Whether a reorder has each place of a list of this size once. The edit is the reorder.
#[tactic(auto, using(crate::proofs::OrderTests::order_rules))]
pub(crate) fn is_order(
    alloc: Global,
    size: u64,
    edit: &ShapeEdit,
    order: &Places,
) -> Result<bool, AllocError>
    requires { edit.now ≡ Reorder order.now }
    ensures test { IfOk result (λ b. b ≡ (nat_eq (length order.now) size && is_each_new size [] order.now)) }
    ensures each { IfOk result (λ b. IsTrue b → is_each_new size [] order.now ≡ true) }
    ensures long { IfOk result (λ b. IsTrue b → length order.now ≡ size) }
{
    let list = ListShape { count: size };
    match list.plan(alloc, edit) {
        Ok(_) => Ok(true),
        Err(PlanFault::Kind) => Ok(false),
        Err(PlanFault::Place) => Ok(false),
        Err(PlanFault::Range) => Ok(false),
        Err(PlanFault::Present) => Ok(false),
        Err(PlanFault::Length) => Ok(false),
        Err(PlanFault::Deep) => Ok(false),
        Err(PlanFault::NoMemory) => Err(AllocError),
    }
}

/// The list of each tag takes the order in which its items come in the new list.
pub(crate) fn reorder_items(
    alloc: Global,
    tags: &Fields,
    seq: &TagSeq,
    order: &[u64],
) -> Result<Row, AllocError>
    requires few { tag_count (fields_tree tags.now) ≤ MOST_PARTS }
    requires each { is_each_new (length seq.now) [] order.now ≡ true }
    ensures { IfOk result (λ r. row_of r ≡ reorder_items (fields_tree tags.now) seq.now order.now) }
{
    let ranks = ranks_by_tag(alloc, tags.as_slice().len(), seq, order)?;
    let word = reorders(alloc, tags, &ranks)?;
    let next = reordered(alloc, seq, order)?;
    Ok(Row { word, tags: next })
}

// The tags in the new order.
#[tactic(auto, using(crate::proofs::OrderTests::below_rules))]
fn reordered(alloc: Global, seq: &TagSeq, order: &[u64]) -> Result<TagSeq, AllocError>
    requires { is_each_new (length seq.now) [] order.now ≡ true }
    ensures { IfOk result (λ s. s ≡ map (slice_index seq.now) order.now) }
{
    let mut list = Vec::new(alloc);
    for place in order {
        list.push(lookups::tag_at(seq, *place))?;
    }
    TagSeq::from_list(alloc, &list)
}

// For each tag, the ranks of its items, in the order in which they come in the new list.
#[tactic(auto, using(crate::proofs::OrderTests::below_rules))]
fn ranks_by_tag(
    alloc: Global,
    count: usize,
    seq: &TagSeq,
    order: &[u64],
) -> Result<Vec<Vec<u64>>, AllocError>
    requires { is_each_new (length seq.now) [] order.now ≡ true }
    ensures { IfOk result (λ v. map vec_items v.items ≡ ranks_by_tag count seq.now order.now) }
{
    let mut ranks = empty_lists(alloc, count)?;
    for place in order {
        let tag = lookups::tag_at(seq, *place);
        push_rank(&mut ranks, tag, lookups::rank(seq, tag, *place))?;
    }
    Ok(ranks)
}

// A number of empty lists.
fn empty_lists(alloc: Global, count: usize) -> Result<Vec<Vec<u64>>, AllocError>
    ensures { IfOk result (λ v. map vec_items v.items ≡ replicate count []) }
{
    let mut lists = Vec::new(alloc);
    for _ in 0..count {
        lists.push(Vec::new(alloc))?;
    }
    Ok(lists)
}

// The rank comes to the end of the list of its tag.
fn push_rank(ranks: &mut Vec<Vec<u64>>, tag: u32, rank: u64) -> Result<(), AllocError>
    ensures { OnOk result (map vec_items ranks.new.items ≡ with_rank tag rank (map vec_items ranks.old.items)) }
{
    let place = tag as usize;
    if place >= ranks.len() {
        return Ok(());
    }
    push_to(&mut ranks[place], rank)?;
    Ok(())
}

// The rank comes to the end of a list.
fn push_to(list: &mut Vec<u64>, rank: u64) -> Result<(), AllocError>
    ensures { OnOk result (list.new.items ≡ list.old.items ++ rank ∷ []) }
{
    list.push(rank)?;
    Ok(())
}

// The reorder in the list of a tag.
fn reorder_tag(alloc: Global, ranks: &[u64], name: &Name) -> Result<Word, AllocError>
    ensures { IfOk result (λ w. word_tree w ≡ at_word name.now (reorder ranks.now)) }
{
    let order = Vec::from_slice(alloc, ranks)?;
    let word = reorder_word(alloc, order)?;
    at_word(alloc, name.twin(alloc)?, word)
}

// A reorder in the list of each tag, in written order.
#[tactic(auto, using(crate::proofs::EachTag::each_rules))]
fn reorders(alloc: Global, tags: &Fields, ranks: &[Vec<u64>]) -> Result<Word, AllocError>
    requires few { tag_count (fields_tree tags.now) ≤ MOST_PARTS }
    requires long { length ranks.now ≡ tag_count (fields_tree tags.now) }
    ensures { IfOk result (λ w. word_tree w
        ≡ at_each_tag (fields_tree tags.now) 0 (λ t. reorder (slice_index_or (map vec_items ranks.now) t []))) }
{
    let fields = tags.as_slice();
    let mut word = nothing(alloc);
    for number in 0..fields.len() {
        let part = reorder_tag(alloc, &ranks[number], &fields[number].0)?;
        word = word.joined(part)?;
    }
    Ok(word)
}
