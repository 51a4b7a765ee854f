//! The tags of a partition's complement.

ghost use Rattle.std.specs.Prelude.{◌≡◌, ◌<◌, IfOk, IsTrue, length, slice_index};
ghost use Rattle.serde_json.specs.Data.{array};
ghost use Rattle.serde_json.specs.View.{view};
ghost use Rattle.doc_values.specs.Types.{fields_tree};
ghost use Rattle.tag_seq.specs.Tags.{are_below};
ghost use Rattle.lens_core.specs.Tags.{tag_count};
ghost use Rattle.complement_file.specs.ComplementJson.{tag_items};

use doc_values::Fields;
use serde_json::Value;
use std::alloc::{AllocError, Global};
use std::marker::Brand;
use std::sync::ledger::{Blank, Ledger};
use tag_seq::{Steps, TagSeq};
use value_json::write_text;

/// The array of the names of the tags, each of which is below the number of tags. Fails only if memory runs out.
pub(crate) fn write_tags(alloc: Global, tags: &Fields, seq: &TagSeq) -> Result<Value, AllocError>
    requires { IsTrue (are_below (tag_count (fields_tree tags.now)) seq.now) }
    ensures { IfOk result (λ tree. view tree ≡ array (tag_items (fields_tree tags.now) seq.now)) }
{
    let fields = tags.as_slice();
    let mut items = Vec::new(alloc);
    for place in 0..seq.len() {
        let number = tag_at(seq, place) as usize;
        items.push(write_text(alloc, fields[number].0.as_str())?)?;
    }
    Ok(Value::Array(items))
}

// The tag at a place, which is one of the list. The steps that the list counts are dropped.
fn tag_at(seq: &TagSeq, place: u64) -> u32
    requires { place < length seq.now }
    ensures { result ≡ slice_index seq.now place }
{
    counted_tag_at::<Brand>(seq, place, Blank::new(1))
}

fn counted_tag_at<L: Ledger>(seq: &TagSeq, place: u64, blank: Blank) -> u32
    requires name { blank.name ≡ L.name }
    requires parts { blank.parts ≡ L.parts }
    requires some { 0 < L.parts }
    requires within { place < length seq.now }
    ensures { result ≡ slice_index seq.now place }
{
    let mut steps: Steps<L> = Steps::new(blank);
    seq.tag_at(place, &mut steps)
}
