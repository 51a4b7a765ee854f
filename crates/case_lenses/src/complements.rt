//! Whether two complements are the same.

use crate::tags::same_tags;
use lens_core::{Comp, Comps};

// More than the height of any complement of a lens, which is at most 32.
const ROOM: u32 = 64;

/// Whether two complements of lenses are the same.
pub fn are_same(one: &Comp, other: &Comp) -> bool {
    same_within(ROOM, one, other)
}

// The same, for complements of at most this height; higher ones differ.
#[cycle(same)]
fn same_within(room: u32, one: &Comp, other: &Comp) -> bool {
    if room == 0 {
        return false;
    }
    match (one, other) {
        (Comp::Nil, Comp::Nil) => true,
        (Comp::Then(first, second), Comp::Then(third, fourth)) => {
            same_within(room - 1, first, third) && same_within(room - 1, second, fourth)
        }
        (Comp::Rec(one), Comp::Rec(other)) => same_lists(room - 1, one, other),
        (Comp::Alt(tag, one), Comp::Alt(name, other)) => {
            tag.is_same(name) && same_within(room - 1, one, other)
        }
        (Comp::Hold(shape, one), Comp::Hold(other_shape, other)) => {
            shape.is_same(other_shape) && same_lists(room - 1, one, other)
        }
        (Comp::Tags(one), Comp::Tags(other)) => same_tags(one, other),
        _ => false,
    }
}

#[cycle(same)]
fn same_lists(room: u32, one: &Comps, other: &Comps) -> bool {
    if one.len() != other.len() {
        return false;
    }
    for place in 0..one.len() {
        if !same_within(room, one.get(place), other.get(place)) {
            return false;
        }
    }
    true
}
