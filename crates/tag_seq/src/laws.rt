//! The laws of rank and place, for use by the crates above.

ghost use Rattle.tag_seq.specs.Laws.{PlaceAfterRank, RankAfterPlace, PlaceRises};

/// The place that the rank of the tag at a place leads to is that place.
pub fn place_after_rank()
    ensures { PlaceAfterRank }
{}

/// Each occurrence of a tag has a place, and the rank there is the occurrence's number.
pub fn rank_after_place()
    ensures { RankAfterPlace }
{}

/// Later occurrences of a tag have later places.
pub fn place_rises()
    ensures { PlaceRises }
{}
