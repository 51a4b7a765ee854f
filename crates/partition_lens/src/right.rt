//! From the right: one primitive of the record of lists.

ghost use Rattle.std.specs.Prelude.{◌≡◌, ◌≤◌, Some, MatchResult};
ghost use Rattle.doc_values.specs.Types.{fields_tree};
ghost use Rattle.edit_module.specs.Views.{word_tree, primitive_tree};
ghost use Rattle.texts.specs.declared.side.Side.TheVariants.{Right};
ghost use Rattle.lens_forms.specs.Forms.{form_part};
ghost use Rattle.lens_forms.specs.declared.limits.TheConstants.{MOST_PARTS};
ghost use Rattle.lens_core.specs.Complements.{tags_comp};
ghost use Rattle.lens_core.specs.Emitted.{one_by_one};
ghost use Rattle.lens_core.specs.Tags.{tag_count};
ghost use Rattle.lens_core.specs.Partition.{part_right, part_occurrence};
ghost use Rattle.lens_core.specs.Translation.{translate_one, carried_tree, IsCarryFault};
ghost use Rattle.partition_lens.specs.Rows.{row_of, IsRowFault};

use crate::occurrences::occurrence_primitive;
use crate::row::Row;
use crate::tags::{are_numbers, name_of, number_of};
use doc_values::Fields;
use edit_module::Word;
use edit_module::word::Primitive;
use lens_core::{Carried, CarryFault};
use std::alloc::Global;
use tag_seq::TagSeq;
use texts::Name;

/// Translates one primitive of the record of lists, with the tags of the items of the mixed list.
///
/// There are at most 4,096 tags. The result is the word of the mixed list, and the tags after it as the complement.
///
/// - `Unfit`: if and only if the translation has no value. A number of the complement is that of no tag, or the
///   primitive is not At of a tag, or a primitive of its word is not one of a list, or has a place that the list of the
///   tag does not have, or a count or an order that is not one of that list.
/// - `NoMemory`: only if memory ran out, or if the mixed list would have 2^64 items.
///
/// The arguments stay as they are. docs/EDITS.md has the rows.
#[tactic(auto, using(crate::proofs::NumbersOfTags::right_rules))]
pub fn part_right(
    alloc: Global,
    tags: &Fields,
    seq: &TagSeq,
    primitive: &Primitive,
) -> Result<Carried, CarryFault>
    requires { tag_count (fields_tree tags.now) ≤ MOST_PARTS }
    ensures { MatchResult result
        (λ r. translate_one (form_part (fields_tree tags.now)) Right (tags_comp seq.now) (primitive_tree primitive.now)
        ≡ Some (carried_tree r))
        (IsCarryFault (translate_one (form_part (fields_tree tags.now)) Right (tags_comp seq.now)
        (primitive_tree primitive.now))) }
{
    if !are_numbers(tags, seq) {
        return Err(CarryFault::Unfit);
    }
    match row_right(alloc, tags, seq, primitive) {
        Ok(row) => Ok(row.into_carried()),
        Err(fault) => Err(fault),
    }
}

// The same as a row.
fn row_right(
    alloc: Global,
    tags: &Fields,
    seq: &TagSeq,
    primitive: &Primitive,
) -> Result<Row, CarryFault>
    requires { tag_count (fields_tree tags.now) ≤ MOST_PARTS }
    ensures { MatchResult result
        (λ r. part_right (fields_tree tags.now) seq.now (primitive_tree primitive.now) ≡ Some (row_of r))
        (IsRowFault (part_right (fields_tree tags.now) seq.now (primitive_tree primitive.now))) }
{
    let Primitive::At(name, word) = primitive else {
        return Err(CarryFault::Unfit);
    };
    let Some(number) = number_of(tags, name) else {
        return Err(CarryFault::Unfit);
    };
    let first = name_of(alloc, tags, 0)?;
    on_list(alloc, &first, name, number, seq, word)
}

// A word of the list of a tag.
#[tactic(auto, using(crate::proofs::RowSteps::step_rules))]
fn on_list(
    alloc: Global,
    first: &Name,
    name: &Name,
    number: u32,
    seq: &TagSeq,
    word: &Word,
) -> Result<Row, CarryFault>
    ensures { MatchResult result
        (λ r. one_by_one (part_occurrence first.now name.now number) seq.now (word_tree word.now) ≡ Some (row_of r))
        (IsRowFault (one_by_one (part_occurrence first.now name.now number) seq.now (word_tree word.now))) }
{
    let mut row = Row::empty(alloc, seq)?;
    let primitives = word.as_slice();
    for primitive in primitives {
        let next = occurrence_primitive(alloc, first, name, number, &row.tags, primitive)?;
        row = row.followed_by(next)?;
    }
    Ok(row)
}
