//! Looking up tags, ranks and places. The steps that a list of tags counts are counted here, and are dropped.

ghost use Rattle.std.specs.Prelude.{◌≡◌, ◌<◌, ◌≤◌, length, slice_index};
ghost use Rattle.tag_seq.specs.Tags.{count, rank};
ghost use Rattle.lens_core.specs.Partition.{place_in};

use std::marker::Brand;
use std::sync::ledger::{Blank, Ledger};
use tag_seq::{Steps, TagSeq};

/// The tag at a place, which is one of the list.
pub(crate) fn tag_at(tags: &TagSeq, place: u64) -> u32
    requires { place < length tags.now }
    ensures { result ≡ slice_index tags.now place }
{
    counted_tag_at::<Brand>(tags, place, Blank::new(1))
}

/// How often a tag occurs before a place, which is at most the length.
pub(crate) fn rank(tags: &TagSeq, tag: u32, place: u64) -> u64
    requires { place ≤ length tags.now }
    ensures { result ≡ rank tag place tags.now }
{
    counted_rank::<Brand>(tags, tag, place, Blank::new(1))
}

/// How often a tag occurs in the list.
#[tactic(auto, using(crate::proofs::Counts::whole_rank))]
pub(crate) fn count(tags: &TagSeq, tag: u32) -> u64
    ensures { result ≡ count tag tags.now }
{
    rank(tags, tag, tags.len())
}

/// The place of an occurrence of a tag, counted from 0. It is 0 if there is no such occurrence.
pub(crate) fn place(tags: &TagSeq, tag: u32, occurrence: u64) -> u64
    ensures value { result ≡ place_in tags.now tag occurrence }
    ensures within { 0 < length tags.now → result < length tags.now }
{
    counted_place::<Brand>(tags, tag, occurrence, Blank::new(1))
}

fn counted_tag_at<L: Ledger>(tags: &TagSeq, place: u64, blank: Blank) -> u32
    requires name { blank.name ≡ L.name }
    requires parts { blank.parts ≡ L.parts }
    requires some { 0 < L.parts }
    requires within { place < length tags.now }
    ensures { result ≡ slice_index tags.now place }
{
    let mut steps: Steps<L> = Steps::new(blank);
    tags.tag_at(place, &mut steps)
}

fn counted_rank<L: Ledger>(tags: &TagSeq, tag: u32, place: u64, blank: Blank) -> u64
    requires name { blank.name ≡ L.name }
    requires parts { blank.parts ≡ L.parts }
    requires some { 0 < L.parts }
    requires within { place ≤ length tags.now }
    ensures { result ≡ rank tag place tags.now }
{
    let mut steps: Steps<L> = Steps::new(blank);
    tags.rank(tag, place, &mut steps)
}

#[tactic(auto, using(crate::proofs::Counts::place_rules))]
fn counted_place<L: Ledger>(tags: &TagSeq, tag: u32, occurrence: u64, blank: Blank) -> u64
    requires name { blank.name ≡ L.name }
    requires parts { blank.parts ≡ L.parts }
    requires some { 0 < L.parts }
    ensures value { result ≡ place_in tags.now tag occurrence }
    ensures within { 0 < length tags.now → result < length tags.now }
{
    let mut steps: Steps<L> = Steps::new(blank);
    match tags.select(tag, occurrence, &mut steps) {
        Some(place) => place,
        None => 0,
    }
}
