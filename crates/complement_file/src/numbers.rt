//! The numbers of the tags of a partition, from their names.

ghost use Rattle.std.specs.Prelude.{◌≤◌};
ghost use Rattle.serde_json.specs.View.{view, items_view};
ghost use Rattle.doc_values.specs.Types.{fields_tree};
ghost use Rattle.lens_forms.specs.Forms.{form_part};
ghost use Rattle.lens_forms.specs.Measures.{fields_parts};
ghost use Rattle.lens_forms.specs.declared.limits.TheConstants.{MOST_PARTS};
ghost use Rattle.lens_core.specs.Complements.{comp_tree};
ghost use Rattle.complement_file.specs.Reading.{Finds, FindsSome, IsTag, AreTags, IsComplement};

use crate::fault::CompFault;
use crate::trees::array_in;
use doc_values::Fields;
use lens_core::Comp;
use serde_json::Value;
use std::alloc::Global;
use tag_seq::TagSeq;

/// The numbers of the tags that the tree names.
pub(crate) fn read_tags(alloc: Global, tags: &Fields, tree: &Value) -> Result<Comp, CompFault>
    requires small { fields_parts (fields_tree tags.now) ≤ MOST_PARTS }
    ensures { Finds (IsComplement (form_part (fields_tree tags.now)) (view tree.now)) comp_tree result }
{
    let Some(items) = array_in(tree, "tags") else {
        return Err(CompFault::NotAComplement);
    };
    let numbers = tag_numbers(alloc, tags, items)?;
    Ok(Comp::Tags(TagSeq::from_list(alloc, &numbers)?))
}

// The number of the tag that each item names.
fn tag_numbers(alloc: Global, tags: &Fields, items: &[Value]) -> Result<Vec<u32>, CompFault>
    requires small { fields_parts (fields_tree tags.now) ≤ MOST_PARTS }
    ensures { Finds (AreTags (fields_tree tags.now) (items_view items.now)) (λ v. v.items) result }
{
    let mut numbers = Vec::new(alloc);
    for item in items {
        let Some(number) = tag_number(tags, item) else {
            return Err(CompFault::NotAComplement);
        };
        numbers.push(number)?;
    }
    Ok(numbers)
}

// The number of the tag that a text names.
fn tag_number(tags: &Fields, item: &Value) -> Option<u32>
    requires small { fields_parts (fields_tree tags.now) ≤ MOST_PARTS }
    ensures { FindsSome (IsTag (fields_tree tags.now) (view item.now)) (λ k. k) result }
{
    let name = item.as_str()?;
    let (place, _) = tags.find(name)?;
    Some(place as u32)
}
