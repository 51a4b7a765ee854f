//! How many tags a part of a list has, in all and of each tag.

ghost use Rattle.std.specs.Prelude.{◌≡◌, ◌<◌, ◌≤◌, ◌+◌, ◌^◌, ◌++◌, ◌∷◌, ℕ, List, [], replicate, IfOk};
ghost use Rattle.tag_seq.specs.Numbers.{number};
ghost use Rattle.tag_seq.specs.Tags.{one_if_same};
ghost use Rattle.tag_seq.specs.Totals.{AreTotals};

use crate::counts::{Counts, Measure};
use std::alloc::{AllocError, Global};

/// The size of a part and its counts.
#[derive(Drop)]
pub(crate) struct Total {
    pub(crate) size: u64,
    pub(crate) counts: Counts,
}

impl Total {
    /// Of no tags.
    pub(crate) fn zero(alloc: Global) -> Total
        ensures { AreTotals result.size result.counts [] }
    {
        Total {
            size: 0,
            counts: Counts::zero(alloc),
        }
    }

    /// Of `count` of one tag.
    pub(crate) fn of_one(alloc: Global, tag: u32, count: u64) -> Result<Total, AllocError>
        ensures { IfOk result (λ r. AreTotals r.size r.counts (replicate count tag)) }
    {
        let counts = Counts::of_one(alloc, tag, count)?;
        Ok(Total {
            size: count,
            counts,
        })
    }

    /// Of a part whose size and counts are kept elsewhere.
    pub(crate) fn of_part(alloc: Global, size: u64, counts: &Counts) -> Result<Total, AllocError>
        ensures size { IfOk result (λ r. r.size ≡ size) }
        ensures counts { IfOk result (λ r. r.counts ≡ counts.now) }
    {
        let counts = counts.copy(alloc)?;
        Ok(Total { size, counts })
    }

    /// Of this part, a tag behind it, and another part behind the tag.
    pub(crate) fn and(
        &self,
        alloc: Global,
        tag: u32,
        size: u64,
        counts: &Counts,
    ) -> Result<Total, AllocError>
        requires fits { self.now.size + size + 1 < 2 ^ 64 }
        requires ours { (t : ℕ) → number t self.now.counts ≤ self.now.size }
        requires theirs { (t : ℕ) → number t counts.now ≤ size }
        ensures { IfOk result (λ r.
            (xs ys : List ℕ) → AreTotals self.now.size self.now.counts xs → AreTotals size counts.now ys →
            AreTotals r.size r.counts (xs ++ tag ∷ ys)) }
    {
        let one = Counts::of_one(alloc, tag, 1)?;
        let front = self.counts.plus(alloc, &one)?;
        let counts = front.plus(alloc, counts)?;
        Ok(Total {
            size: self.size + 1 + size,
            counts,
        })
    }

    /// Of what is behind a part at the front and a tag behind that.
    pub(crate) fn behind(
        &self,
        alloc: Global,
        size: u64,
        counts: &Counts,
        tag: u32,
    ) -> Result<Total, AllocError>
        requires size { size < self.now.size }
        requires each { (t : ℕ) → number t counts.now + one_if_same tag t ≤ number t self.now.counts }
        ensures { IfOk result (λ r.
            (xs ys : List ℕ) → AreTotals self.now.size self.now.counts (xs ++ tag ∷ ys) →
            AreTotals size counts.now xs → AreTotals r.size r.counts ys) }
    {
        let one = Counts::of_one(alloc, tag, 1)?;
        let back = self.counts.minus(alloc, counts)?;
        let counts = back.minus(alloc, &one)?;
        Ok(Total {
            size: self.size - size - 1,
            counts,
        })
    }
}
