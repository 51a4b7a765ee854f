//! From the left of a partition: the contents of the items, in a list for each tag.

ghost use Rattle.std.specs.Prelude.{◌≡◌, ◌<◌, ◌++◌, ◌∷◌, [], IsTrue, IfOk, OnOk, IfSome, MatchOption, None, Some};
ghost use Rattle.std.specs.Prelude.{length, map, option_map, replicate};
ghost use Rattle.doc_values.specs.Types.{fields_tree, names_of};
ghost use Rattle.tag_seq.specs.Tags.{are_below};
ghost use Rattle.lens_core.specs.Tags.{tag_count, tag_number};
ghost use Rattle.lens_forms.specs.Forms.{sorted, lists_of};
ghost use Rattle.law_images.specs.Patterns.{pattern_tree, patterns_tree, patterns_from, pattern_count, rec_pattern};
ghost use Rattle.law_images.specs.PartImage.{content_pattern, content_patterns};
ghost use Rattle.lens_check.specs.PartLists.{trees_in, trees_of, with_content, lists_by_tag, list_at_tag, list_of};

use crate::image_part_tags::{field_names, tag_at};
use crate::owned::push;
use doc_values::Fields;
use hold_shapes::{ListShape, Shape};
use law_images::{Pattern, Patterns};
use std::alloc::{AllocError, Global};
use tag_seq::TagSeq;
use texts::{Name, Twin};

/// The contents of the items in one list for each tag, in the order of the items. Each item has one of the tags.
///
/// None if and only if an item's pattern has no item of its tag.
pub(crate) fn contents_by_tag(
    alloc: Global,
    tags: &Fields,
    seq: &TagSeq,
    items: &Patterns,
) -> Result<Option<Vec<Vec<Pattern>>>, AllocError>
    requires fit { IsTrue (are_below (tag_count (fields_tree tags.now)) seq.now) }
    requires long { pattern_count (patterns_tree items.now) ≡ length seq.now }
    ensures { IfOk result (λ r. MatchOption r
        (content_patterns (fields_tree tags.now) seq.now (patterns_tree items.now) ≡ None)
        (λ v. option_map (lists_by_tag (tag_count (fields_tree tags.now)) seq.now)
        (content_patterns (fields_tree tags.now) seq.now (patterns_tree items.now)) ≡ Some (map trees_in v.items))) }
{
    let fields = tags.as_slice();
    let mut lists = empty_lists(alloc, fields.len())?;
    for place in 0..seq.len() {
        let tag = tag_at(seq, place);
        let item = items.get(place as usize);
        let Some(content) = content(alloc, &fields[tag as usize].0, item)? else {
            return Ok(None);
        };
        push_content(&mut lists, tag as usize, content)?;
    }
    Ok(Some(lists))
}

// The pattern of the content of an item with this tag. None if no such item is in the item's pattern.
fn content(alloc: Global, tag: &Name, item: &Pattern) -> Result<Option<Pattern>, AllocError>
    ensures { IfOk result (λ r. option_map pattern_tree r ≡ content_pattern tag.now (pattern_tree item.now)) }
{
    match item {
        Pattern::Hole => Ok(Some(Pattern::Hole)),
        Pattern::Alt(name, content) => {
            if name.is_same(tag) {
                Ok(Some(content.twin(alloc)?))
            } else {
                Ok(None)
            }
        }
        _ => Ok(None),
    }
}

// A number of empty lists.
fn empty_lists(alloc: Global, count: usize) -> Result<Vec<Vec<Pattern>>, AllocError>
    ensures { IfOk result (λ v. map trees_in v.items ≡ replicate count []) }
{
    let mut lists = Vec::new(alloc);
    for _ in 0..count {
        push(&mut lists, Vec::new(alloc))?;
    }
    Ok(lists)
}

// The content comes to the end of the list of its tag.
fn push_content(
    lists: &mut Vec<Vec<Pattern>>,
    tag: usize,
    content: Pattern,
) -> Result<(), AllocError>
    requires { tag < length lists.old.items }
    ensures { OnOk result (map trees_in lists.new.items
        ≡ with_content tag (pattern_tree content) (map trees_in lists.old.items)) }
{
    push(&mut lists[tag], content)?;
    Ok(())
}

/// The record of these lists, one for each tag in written order. Its fields are in their own order.
pub(crate) fn record_of_lists(
    alloc: Global,
    tags: &Fields,
    lists: Vec<Vec<Pattern>>,
) -> Result<Pattern, AllocError>
    requires { length lists.items ≡ tag_count (fields_tree tags.now) }
    ensures { IfOk result (λ p. pattern_tree p
        ≡ rec_pattern
        (patterns_from
        (map (list_at_tag (fields_tree tags.now) (map trees_in lists.items))
        (names_of (sorted (lists_of (fields_tree tags.now))))))) }
{
    let shared = shared_lists(alloc, lists)?;
    let names = field_names(alloc, tags)?;
    let mut contents = Vec::new(alloc);
    for name in &names {
        push(&mut contents, list_at_tag(alloc, tags, &shared, name)?)?;
    }
    Ok(Pattern::Rec(Patterns::from_vec(alloc, contents)?))
}

// The same lists, so that a copy of one shares its items.
fn shared_lists(alloc: Global, lists: Vec<Vec<Pattern>>) -> Result<Vec<Patterns>, AllocError>
    ensures { IfOk result (λ v. map trees_of v.items ≡ map trees_in lists.items) }
{
    let mut shared = Vec::new(alloc);
    for list in lists {
        push(&mut shared, shared_list(alloc, list)?)?;
    }
    Ok(shared)
}

// The patterns of a list, so that a copy shares them.
fn shared_list(alloc: Global, list: Vec<Pattern>) -> Result<Patterns, AllocError>
    ensures { IfOk result (λ ps. trees_of ps ≡ trees_in list) }
{
    Patterns::from_vec(alloc, list)
}

// The list of the tag with this name.
fn list_at_tag(
    alloc: Global,
    tags: &Fields,
    lists: &[Patterns],
    name: &Name,
) -> Result<Pattern, AllocError>
    requires { length lists.now ≡ tag_count (fields_tree tags.now) }
    ensures { IfOk result (λ p. pattern_tree p ≡ list_at_tag (fields_tree tags.now) (map trees_of lists.now) name.now) }
{
    match number_of(tags, name) {
        Some(number) => copied_list(alloc, &lists[number]),
        None => Ok(Pattern::Hole),
    }
}

// The number of a tag. None if and only if no tag has the name.
#[tactic(auto, using(lens_core::proofs::TagNames::number_rules))]
fn number_of(tags: &Fields, name: &Name) -> Option<usize>
    ensures is { result ≡ tag_number (fields_tree tags.now) name.now }
    ensures below { IfSome result (λ k. k < tag_count (fields_tree tags.now)) }
{
    match tags.find(name.as_str()) {
        Some((number, _)) => Some(number),
        None => None,
    }
}

// A list of these patterns, which it shares.
fn copied_list(alloc: Global, patterns: &Patterns) -> Result<Pattern, AllocError>
    ensures { IfOk result (λ p. pattern_tree p ≡ list_of (trees_of patterns.now)) }
{
    let count = patterns.len() as u64;
    Ok(Pattern::Hold(Shape::List(ListShape { count }), patterns.twin(alloc)?))
}
