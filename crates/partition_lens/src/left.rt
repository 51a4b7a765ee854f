//! From the left: one primitive of the mixed list.

ghost use Rattle.std.specs.Prelude.{◌≡◌, ◌≤◌, Some, MatchResult};
ghost use Rattle.doc_values.specs.Types.{fields_tree};
ghost use Rattle.edit_module.specs.Words.{modify};
ghost use Rattle.edit_module.specs.Views.{word_tree, primitive_tree};
ghost use Rattle.texts.specs.declared.side.Side.TheVariants.{Left};
ghost use Rattle.lens_forms.specs.Forms.{form_part};
ghost use Rattle.lens_forms.specs.declared.limits.TheConstants.{MOST_PARTS};
ghost use Rattle.lens_core.specs.Complements.{tags_comp};
ghost use Rattle.lens_core.specs.Tags.{tag_count};
ghost use Rattle.lens_core.specs.Partition.{part_left};
ghost use Rattle.lens_core.specs.Translation.{translate_one, carried_tree, IsCarryFault};
ghost use Rattle.partition_lens.specs.Rows.{row_of, IsRowFault};

use crate::items::on_item;
use crate::list_edits::edit_items;
use crate::row::Row;
use crate::tags::are_numbers;
use doc_values::Fields;
use edit_module::Word;
use edit_module::word::Primitive;
use hold_shapes::Place;
use lens_core::{Carried, CarryFault};
use std::alloc::Global;
use tag_seq::TagSeq;

/// Translates one primitive of the mixed list, with the tags of its items.
///
/// There are at most 4,096 tags. The result is the word of the record of lists, and the tags after it as the
/// complement.
///
/// - `Unfit`: if and only if the translation has no value. A number of the complement is that of no tag, or the
///   primitive is not one of such a list, it names a tag that is not the item's or that does not exist, a place that
///   does not exist, or a count or an order that is not one of the list.
/// - `NoMemory`: only if memory ran out, or if the list would have 2^64 items.
///
/// The arguments stay as they are. docs/EDITS.md has the rows.
#[tactic(auto, using(crate::proofs::NumbersOfTags::left_rules))]
pub fn part_left(
    alloc: Global,
    tags: &Fields,
    seq: &TagSeq,
    primitive: &Primitive,
) -> Result<Carried, CarryFault>
    requires { tag_count (fields_tree tags.now) ≤ MOST_PARTS }
    ensures { MatchResult result
        (λ r. translate_one (form_part (fields_tree tags.now)) Left (tags_comp seq.now) (primitive_tree primitive.now)
        ≡ Some (carried_tree r))
        (IsCarryFault (translate_one (form_part (fields_tree tags.now)) Left (tags_comp seq.now)
        (primitive_tree primitive.now))) }
{
    if !are_numbers(tags, seq) {
        return Err(CarryFault::Unfit);
    }
    match row_left(alloc, tags, seq, primitive) {
        Ok(row) => Ok(row.into_carried()),
        Err(fault) => Err(fault),
    }
}

// The same as a row.
fn row_left(
    alloc: Global,
    tags: &Fields,
    seq: &TagSeq,
    primitive: &Primitive,
) -> Result<Row, CarryFault>
    requires { tag_count (fields_tree tags.now) ≤ MOST_PARTS }
    ensures { MatchResult result
        (λ r. part_left (fields_tree tags.now) seq.now (primitive_tree primitive.now) ≡ Some (row_of r))
        (IsRowFault (part_left (fields_tree tags.now) seq.now (primitive_tree primitive.now))) }
{
    match primitive {
        Primitive::Mod(place, word) => mod_items(alloc, tags, seq, place, word),
        Primitive::Shape(edit) => edit_items(alloc, tags, seq, edit),
        _ => Err(CarryFault::Unfit),
    }
}

// A word of the item at a place.
fn mod_items(
    alloc: Global,
    tags: &Fields,
    seq: &TagSeq,
    place: &Place,
    word: &Word,
) -> Result<Row, CarryFault>
    requires { tag_count (fields_tree tags.now) ≤ MOST_PARTS }
    ensures { MatchResult result
        (λ r. part_left (fields_tree tags.now) seq.now (modify place.now (word_tree word.now)) ≡ Some (row_of r))
        (IsRowFault (part_left (fields_tree tags.now) seq.now (modify place.now (word_tree word.now)))) }
{
    let Place::Index(index) = place else {
        return Err(CarryFault::Unfit);
    };
    if *index >= seq.len() {
        return Err(CarryFault::Unfit);
    }
    on_item(alloc, tags, seq, *index, word)
}
