//! The choice of an entry.

ghost use Rattle.std.specs.Prelude.{◌≡◌, ◌<◌, ◌+◌, ◌^◌};
ghost use Rattle.run_gen.specs.Journal.{texts_after, numbers_after};

/// The entry of a generated journal, as it is chosen.
#[derive(Clone, Copy, Debug, PartialEq, Eq)]
pub(crate) enum Choice {
    /// Inserts an item at the end of the left list.
    InsertItem,
    /// Inserts a number at the end of the right list of numbers.
    InsertNumber,
    /// Moves the item at the first place of the left list to the second place.
    MoveItem(u64, u64),
    /// Adds to the number at a place of the right list of numbers.
    AddToNumber(u64, u64),
}

impl Choice {
    /// How many texts there are after the entry.
    pub(crate) fn names_after(self, names: u64) -> u64
        requires { names + 1 < 2 ^ 64 }
        ensures { result ≡ texts_after self names }
    {
        match self {
            Choice::InsertItem => names + 1,
            _ => names,
        }
    }

    /// How many numbers there are after the entry.
    pub(crate) fn nums_after(self, nums: u64) -> u64
        requires { nums + 1 < 2 ^ 64 }
        ensures { result ≡ numbers_after self nums }
    {
        match self {
            Choice::InsertNumber => nums + 1,
            _ => nums,
        }
    }
}
