//! From the right of a partition: the lists of the tags, and the items in the order of their tags.

ghost use Rattle.std.specs.Prelude.{◌≡◌, ◌<◌, IsTrue, IfOk, MatchOption, None, Some, length, map, option_map};
ghost use Rattle.std.specs.Prelude.{slice_index_or};
ghost use Rattle.std.specs.List.{range_with_len};
ghost use Rattle.doc_values.specs.Types.{fields_tree, type_fields_of, field_tree, names_of};
ghost use Rattle.tag_seq.specs.Tags.{are_below};
ghost use Rattle.lens_core.specs.Tags.{tag_count};
ghost use Rattle.lens_forms.specs.Forms.{sorted, lists_of};
ghost use Rattle.law_images.specs.Patterns.{hole, pattern_tree, patterns_tree};
ghost use Rattle.law_images.specs.PartImage.{patterns_in_list};
ghost use Rattle.lens_check.specs.PartLists.{trees_of, list_of, field_pattern, tag_lists, item_at};

use crate::image_part_lists::{holes, list_of, patterns_in_list};
use crate::image_part_tags::{counts, field_names, place_of, rank, tag_at};
use crate::owned::{boxed, push};
use doc_values::{Fields, Ty};
use law_images::{Pattern, Patterns};
use std::alloc::{AllocError, Global};
use tag_seq::TagSeq;
use texts::{Name, Twin};

/// The patterns of the list of each tag, in written order. Each item has one of the tags.
///
/// The list of a tag has an item for each time that the tag occurs. None if and only if the pattern has no record with
/// such lists.
#[tactic(auto, using(crate::proofs::PartItems::loop_rules))]
pub(crate) fn tag_lists(
    alloc: Global,
    tags: &Fields,
    seq: &TagSeq,
    pattern: &Pattern,
) -> Result<Option<Vec<Patterns>>, AllocError>
    requires { IsTrue (are_below (tag_count (fields_tree tags.now)) seq.now) }
    ensures { IfOk result (λ r. MatchOption r
        (tag_lists (fields_tree tags.now) 0 seq.now
        (field_pattern (names_of (sorted (lists_of (fields_tree tags.now)))) (pattern_tree pattern.now)) ≡ None)
        (λ v. tag_lists (fields_tree tags.now) 0 seq.now
        (field_pattern (names_of (sorted (lists_of (fields_tree tags.now)))) (pattern_tree pattern.now))
        ≡ Some (map patterns_tree v.items))) }
{
    let fields = tags.as_slice();
    let names = field_names(alloc, tags)?;
    let counts = counts(alloc, fields.len(), seq)?;
    let mut lists = Vec::new(alloc);
    for number in 0..fields.len() {
        let Some(list) = list_of_tag(alloc, &names, pattern, &fields[number].0, counts[number])?
        else {
            return Ok(None);
        };
        push(&mut lists, list)?;
    }
    Ok(Some(lists))
}

// The patterns of the list with this number of items at the field of this name. The names are those of the record's
// fields.
fn list_of_tag(
    alloc: Global,
    names: &[Name],
    pattern: &Pattern,
    name: &Name,
    count: u64,
) -> Result<Option<Patterns>, AllocError>
    ensures { IfOk result (λ r. option_map patterns_tree r
        ≡ patterns_in_list count (field_pattern names.now (pattern_tree pattern.now) name.now)) }
{
    let Pattern::Rec(contents) = pattern else {
        return Ok(Some(holes(alloc, count)?));
    };
    let place = place_of(names, name);
    if place < names.len() && place < contents.len() {
        patterns_in_list(alloc, count, contents.get(place))
    } else {
        Ok(Some(holes(alloc, count)?))
    }
}

/// The list of the items: each has its tag, and the next content of its tag's list. Each item has one of the tags.
pub(crate) fn items(
    alloc: Global,
    tags: &Fields,
    seq: &TagSeq,
    lists: &[Patterns],
) -> Result<Pattern, AllocError>
    requires fit { IsTrue (are_below (tag_count (fields_tree tags.now)) seq.now) }
    requires long { length lists.now ≡ tag_count (fields_tree tags.now) }
    ensures { IfOk result (λ p. pattern_tree p
        ≡ list_of (map (item_at (fields_tree tags.now) seq.now (map patterns_tree lists.now))
        (range_with_len 0 (length seq.now)))) }
{
    let fields = tags.as_slice();
    let mut items = Vec::new(alloc);
    for place in 0..seq.len() {
        push(&mut items, item_at(alloc, fields, seq, lists, place)?)?;
    }
    list_of(alloc, items)
}

// The item at a place.
#[tactic(auto, using(crate::proofs::PartCounts::below_at))]
fn item_at(
    alloc: Global,
    fields: &[(Name, Ty)],
    seq: &TagSeq,
    lists: &[Patterns],
    place: u64,
) -> Result<Pattern, AllocError>
    requires fit { IsTrue (are_below (length fields.now) seq.now) }
    requires long { length lists.now ≡ length fields.now }
    requires within { place < length seq.now }
    ensures { IfOk result (λ p. pattern_tree p
        ≡ item_at (type_fields_of (map field_tree fields.now)) seq.now (map patterns_tree lists.now) place) }
{
    let tag = tag_at(seq, place);
    let number = tag as usize;
    let occurrence = rank(seq, tag, place) as usize;
    let content = boxed(alloc, pattern_at(alloc, &lists[number], occurrence)?)?;
    let name = fields[number].0.twin(alloc)?;
    Ok(Pattern::Alt(name, content))
}

// A copy of the pattern at a place. A place behind the last one has a hole.
fn pattern_at(alloc: Global, patterns: &Patterns, place: usize) -> Result<Pattern, AllocError>
    ensures { IfOk result (λ p. pattern_tree p ≡ slice_index_or (trees_of patterns.now) place hole) }
{
    if place < patterns.len() {
        patterns.get(place).twin(alloc)
    } else {
        Ok(Pattern::Hole)
    }
}
