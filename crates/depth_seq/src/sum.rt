//! What is kept of a part of a list of depths.

ghost use Rattle.std.specs.Prelude.{◌≡◌, ◌<◌, ◌+◌, ◌^◌, ◌++◌, ◌∷◌, [], List, ℕ, length};
ghost use Rattle.depth_seq.specs.Sums.{AreSums};

/// The size of a part, its least depth, and how often it has that depth.
#[derive(Clone, Copy)]
pub(crate) struct Sum {
    /// How many depths there are.
    pub(crate) size: usize,
    /// A depth that none of them is below.
    pub(crate) least: u64,
    /// How often the least depth occurs.
    pub(crate) leasts: u64,
}

impl Sum {
    /// Of no depths.
    pub(crate) fn none() -> Sum
        ensures { AreSums result [] }
    {
        Sum {
            size: 0,
            least: u64::MAX,
            leasts: 0,
        }
    }

    /// Of one depth.
    #[tactic(auto, using(crate::proofs::Sums::sum_rules))]
    pub(crate) fn one(depth: u64) -> Sum
        ensures { AreSums result (depth ∷ []) }
    {
        Sum {
            size: 1,
            least: depth,
            leasts: 1,
        }
    }

    /// Of two parts, one after the other.
    #[tactic(auto, using(crate::proofs::Sums::sum_rules))]
    pub(crate) fn and(&self, next: &Sum) -> Sum
        requires size { self.now.size + next.now.size < 2 ^ 64 }
        requires leasts { self.now.leasts + next.now.leasts < 2 ^ 64 }
        ensures { (xs ys : List ℕ) → AreSums self.now xs → AreSums next.now ys → AreSums result (xs ++ ys) }
    {
        if self.size == 0 {
            return *next;
        }
        if next.size == 0 {
            return *self;
        }
        let size = self.size + next.size;
        if self.least < next.least {
            Sum {
                size,
                least: self.least,
                leasts: self.leasts,
            }
        } else if next.least < self.least {
            Sum {
                size,
                least: next.least,
                leasts: next.leasts,
            }
        } else {
            Sum {
                size,
                least: self.least,
                leasts: self.leasts + next.leasts,
            }
        }
    }

    /// Of these depths.
    #[tactic(auto, using(crate::proofs::Sums::of_rules))]
    pub(crate) fn of(depths: &[u64]) -> Sum
        ensures { AreSums result depths.now }
    {
        let mut sum = Sum::none();
        for i in 0..depths.len() {
            sum = sum.and(&Sum::one(depths[i]));
        }
        sum
    }
}
