//! Hints, which save a search most of the items that it would read.

use texts::{Name, Str};

/// An item of a list in which items may be searched for.
///
/// Where items are in order, their hints should be too: the hint of an item is at most that of one behind it. Only the
/// time of a search rests on hints. One that they lead astray begins again without them.
pub trait Hint {
    /// A number that says roughly where the item is among others. Items that are never searched for have 0.
    fn hint(&self) -> u64 {
        0
    }
}

impl Hint for Name {
    /// The first eight bytes of the name, as one number.
    fn hint(&self) -> u64 {
        let bytes = self.as_str().as_bytes();
        let mut hint = 0;
        for place in 0..8 {
            hint = hint << 8 | byte_at(bytes, place);
        }
        hint
    }
}

// The byte at a place, or 0 behind the last one.
fn byte_at(bytes: &[u8], place: usize) -> u64 {
    match bytes.get(place) {
        Some(byte) => u64::from(*byte),
        None => 0,
    }
}

impl Hint for Str {}

impl Hint for u64 {}
