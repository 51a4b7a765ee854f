//! The tags of a partition, by their numbers and by their names.

ghost use Rattle.std.specs.Prelude.{◌≡◌, ◌≤◌, IfOk};
ghost use Rattle.doc_values.specs.Types.{fields_tree};
ghost use Rattle.lens_core.specs.Tags.{tag_count, tag_number, tag_name};
ghost use Rattle.tag_seq.specs.Tags.{are_below};
ghost use Rattle.lens_forms.specs.declared.limits.TheConstants.{MOST_PARTS};

use doc_values::Fields;
use std::alloc::{AllocError, Global};
use tag_seq::TagSeq;
use texts::{Name, Twin};

/// Whether every number is that of a tag.
#[tactic(auto, using(crate::proofs::NumbersOfTags::count_rules))]
pub(crate) fn are_numbers(tags: &Fields, seq: &TagSeq) -> bool
    requires { tag_count (fields_tree tags.now) ≤ MOST_PARTS }
    ensures { result ≡ are_below (tag_count (fields_tree tags.now)) seq.now }
{
    seq.is_below(tags.len() as u32)
}

/// The number of a tag. None if and only if no tag has the name.
#[tactic(auto, using(lens_core::proofs::TagNames::number_rules))]
pub(crate) fn number_of(tags: &Fields, name: &Name) -> Option<u32>
    requires { tag_count (fields_tree tags.now) ≤ MOST_PARTS }
    ensures { result ≡ tag_number (fields_tree tags.now) name.now }
{
    match tags.find(name.as_str()) {
        Some((place, _)) => Some(place as u32),
        None => None,
    }
}

/// The tag with a number. It is empty if the number is too large.
#[tactic(auto, using(lens_core::proofs::TagNames::name_rules))]
pub(crate) fn name_of(alloc: Global, tags: &Fields, number: u32) -> Result<Name, AllocError>
    ensures { IfOk result (λ n. n ≡ tag_name (fields_tree tags.now) number) }
{
    let fields = tags.as_slice();
    let place = number as usize;
    if place < fields.len() {
        fields[place].0.twin(alloc)
    } else {
        Ok(Name::from_string(String::new(alloc)))
    }
}
