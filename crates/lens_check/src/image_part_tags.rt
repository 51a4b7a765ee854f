//! The tags of a partition's items, and the names of its record's fields.

ghost use Rattle.std.specs.Prelude.{◌≡◌, ◌<◌, ◌≤◌, ℕ, IsTrue, IfOk, length, slice_index};
ghost use Rattle.doc_values.specs.Types.{fields_tree, names_of};
ghost use Rattle.tag_seq.specs.Tags.{are_below, count, rank};
ghost use Rattle.lens_forms.specs.Forms.{sorted, lists_of};
ghost use Rattle.lens_check.specs.PartLists.{place_of};

use doc_values::Fields;
use std::alloc::{AllocError, Global};
use std::marker::Brand;
use std::sync::ledger::{Blank, Ledger};
use tag_seq::{Steps, TagSeq};
use texts::{Name, Twin};

/// The tag of the item at a place, which is one of the list.
pub(crate) fn tag_at(seq: &TagSeq, place: u64) -> u32
    requires { place < length seq.now }
    ensures { result ≡ slice_index seq.now place }
{
    counted_tag_at::<Brand>(seq, place, Blank::new(1))
}

/// How many items before a place, which is at most the length, have a tag.
pub(crate) fn rank(seq: &TagSeq, tag: u32, place: u64) -> u64
    requires { place ≤ length seq.now }
    ensures { result ≡ rank tag place seq.now }
{
    counted_rank::<Brand>(seq, tag, place, Blank::new(1))
}

fn counted_tag_at<L: Ledger>(seq: &TagSeq, place: u64, blank: Blank) -> u32
    requires name { blank.name ≡ L.name }
    requires parts { blank.parts ≡ L.parts }
    requires some { 0 < L.parts }
    requires within { place < length seq.now }
    ensures { result ≡ slice_index seq.now place }
{
    let mut steps: Steps<L> = Steps::new(blank);
    seq.tag_at(place, &mut steps)
}

fn counted_rank<L: Ledger>(seq: &TagSeq, tag: u32, place: u64, blank: Blank) -> u64
    requires name { blank.name ≡ L.name }
    requires parts { blank.parts ≡ L.parts }
    requires some { 0 < L.parts }
    requires within { place ≤ length seq.now }
    ensures { result ≡ rank tag place seq.now }
{
    let mut steps: Steps<L> = Steps::new(blank);
    seq.rank(tag, place, &mut steps)
}

/// How many items each of the tags has. Each item has one of the tags.
#[tactic(auto, using(crate::proofs::PartCounts::count_rules))]
pub(crate) fn counts(alloc: Global, tags: usize, seq: &TagSeq) -> Result<Vec<u64>, AllocError>
    requires { IsTrue (are_below tags seq.now) }
    ensures long { IfOk result (λ v. length v.items ≡ tags) }
    ensures each { IfOk result (λ v. (k : ℕ) → k < tags → slice_index v.items k ≡ count k seq.now) }
{
    let mut counts = vec![in alloc; 0; tags]?;
    for place in 0..seq.len() {
        let tag = tag_at(seq, place);
        counts[tag as usize] += 1;
    }
    Ok(counts)
}

/// The names of the record's fields, in their order.
pub(crate) fn field_names(alloc: Global, tags: &Fields) -> Result<Vec<Name>, AllocError>
    ensures { IfOk result (λ v. v.items ≡ names_of (sorted (lists_of (fields_tree tags.now)))) }
{
    let mut names = tag_names(alloc, tags)?;
    names.sort_by(|a, b| a.as_str().cmp(b.as_str()))?;
    Ok(names)
}

// The names of the tags, in written order.
#[tactic(auto, using(crate::proofs::PartNames::names_rules))]
fn tag_names(alloc: Global, tags: &Fields) -> Result<Vec<Name>, AllocError>
    ensures { IfOk result (λ v. v.items ≡ names_of (fields_tree tags.now)) }
{
    let fields = tags.as_slice();
    let mut names = Vec::new(alloc);
    for tag in fields {
        names.push(tag.0.twin(alloc)?)?;
    }
    Ok(names)
}

/// The place of the first of the names that is this one. It is how many there are if none is.
#[tactic(auto, using(crate::proofs::PartNames::place_rules))]
pub(crate) fn place_of(names: &[Name], name: &Name) -> usize
    ensures { result ≡ place_of name.now names.now }
{
    for place in 0..names.len() {
        if names[place].is_same(name) {
            return place;
        }
    }
    names.len()
}
