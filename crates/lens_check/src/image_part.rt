//! Images of patterns through a partition.
//!
//! The time grows with the number of items times its logarithm, and with the square of the number of tags.

ghost use Rattle.std.specs.Prelude.{◌≡◌, IsTrue, IfOk, option_map};
ghost use Rattle.doc_values.specs.Types.{fields_tree};
ghost use Rattle.tag_seq.specs.Tags.{are_below};
ghost use Rattle.lens_core.specs.Tags.{tag_count};
ghost use Rattle.lens_forms.specs.Forms.{sorted, lists_of};
ghost use Rattle.law_images.specs.Patterns.{pattern_tree};
ghost use Rattle.law_images.specs.PartImage.{parted_image, joined_image};
ghost use Rattle.law_images.specs.Image.{patterns_by_name};

use crate::image_part_left::{contents_by_tag, record_of_lists};
use crate::image_part_lists::patterns_in_list;
use crate::image_part_right::{items, tag_lists};
use doc_values::Fields;
use law_images::Pattern;
use std::alloc::{AllocError, Global};
use tag_seq::TagSeq;

/// The image of a pattern of the list of items: a record of lists, one for each tag.
///
/// Each item has one of the tags. None if and only if the pattern has no list of items with these tags. Fails only if
/// memory runs out.
#[tactic(auto, using(crate::proofs::PartContents::image_rules))]
pub(crate) fn parted_image(
    alloc: Global,
    tags: &Fields,
    seq: &TagSeq,
    pattern: &Pattern,
) -> Result<Option<Pattern>, AllocError>
    requires { IsTrue (are_below (tag_count (fields_tree tags.now)) seq.now) }
    ensures { IfOk result (λ q. option_map pattern_tree q
        ≡ parted_image (fields_tree tags.now) (sorted (lists_of (fields_tree tags.now))) seq.now
        (pattern_tree pattern.now)) }
{
    let Some(items) = patterns_in_list(alloc, seq.len(), pattern)? else {
        return Ok(None);
    };
    let Some(lists) = contents_by_tag(alloc, tags, seq, &items)? else {
        return Ok(None);
    };
    Ok(Some(record_of_lists(alloc, tags, lists)?))
}

/// The image of a pattern of the record of lists: a list of items with these tags.
///
/// Each item has one of the tags. None if and only if the pattern has no record whose lists have an item for each time
/// that their tag occurs. Fails only if memory runs out.
#[tactic(auto, using(crate::proofs::PartItems::image_rules))]
pub(crate) fn joined_image(
    alloc: Global,
    tags: &Fields,
    seq: &TagSeq,
    pattern: &Pattern,
) -> Result<Option<Pattern>, AllocError>
    requires { IsTrue (are_below (tag_count (fields_tree tags.now)) seq.now) }
    ensures { IfOk result (λ q. option_map pattern_tree q
        ≡ joined_image (fields_tree tags.now)
        (patterns_by_name (sorted (lists_of (fields_tree tags.now))) (pattern_tree pattern.now)) seq.now) }
{
    let Some(lists) = tag_lists(alloc, tags, seq, pattern)? else {
        return Ok(None);
    };
    Ok(Some(items(alloc, tags, seq, &lists)?))
}
