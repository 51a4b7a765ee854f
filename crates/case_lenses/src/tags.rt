//! Whether two lists of tags are the same.

ghost use Rattle.std.specs.Prelude.{◌≡◌, ◌<◌, length};

use std::marker::Brand;
use std::sync::ledger::{Blank, Ledger};
use tag_seq::{Steps, TagSeq};

/// Whether two lists of tags are the same.
pub fn same_tags(one: &TagSeq, other: &TagSeq) -> bool {
    if one.len() != other.len() {
        return false;
    }
    for place in 0..one.len() {
        if tag_at(one, place) != tag_at(other, place) {
            return false;
        }
    }
    true
}

// The tag at a place, which is one of the list.
fn tag_at(tags: &TagSeq, place: u64) -> u32
    requires { place < length tags.now }
{
    counted_tag_at::<Brand>(tags, place, Blank::new(1))
}

// The same; the steps that it takes are counted and dropped.
fn counted_tag_at<L: Ledger>(tags: &TagSeq, place: u64, blank: Blank) -> u32
    requires name { blank.name ≡ L.name }
    requires parts { blank.parts ≡ L.parts }
    requires some { 0 < L.parts }
    requires within { place < length tags.now }
{
    let mut steps: Steps<L> = Steps::new(blank);
    tags.tag_at(place, &mut steps)
}
