//! Runs: origins of places that follow one another.
ghost use Rattle.std.specs.Prelude.{◌≡◌, ◌<◌, ◌≤◌, ◌+◌, ◌-◌, ◌^◌, ◌++◌, ◌∷◌, [], Some, length, map, replicate};
ghost use Rattle.std.specs.Prelude.{slice_get, IfSome};
ghost use Rattle.std.specs.List.{range_with_len};
ghost use Rattle.hold_shapes.specs.declared.origins.Origin.TheVariants.{Old, Fresh};

use crate::origins::Origin;
use std::marker::Model;

/// Origins of one kind: old places that follow one another, or fresh places.
///
/// Contracts see it as the list of its origins.
#[derive(Debug, Drop)]
pub(crate) struct Run {
    /// The first origin. A run of no places has one too.
    pub(crate) first: Origin,
    /// How many origins there are.
    pub(crate) count: u64,
}

impl Model for Run {
    ghost use Rattle.std.specs.Prelude.{List};
    ghost use Rattle.hold_shapes.specs.declared.origins.Origin.{Origin};

    ghost Value = { List Origin };

    ghost use Rattle.hold_shapes.specs.Runs.{run_origins, RunFits};

    ghost view = { λ r. run_origins r.first r.count };

    ghost invariant = { λ r. RunFits r.first r.count };
}

impl Run {
    /// Old places that follow one another from a place on.
    pub(crate) fn kept(place: u64, count: u64) -> Run
        requires { place + count ≤ 2 ^ 64 }
        ensures { result ≡ map Old (range_with_len place count) }
    {
        Run {
            first: Origin::Old(place),
            count,
        }
    }

    /// So many fresh places.
    pub(crate) fn fresh(count: u64) -> Run
        ensures { result ≡ replicate count Fresh }
    {
        Run {
            first: Origin::Fresh,
            count,
        }
    }

    /// The run of one origin.
    pub(crate) fn of_one(origin: Origin) -> Run
        ensures { result ≡ origin ∷ [] }
    {
        match origin {
            Origin::Old(place) => Run::kept(place, 1),
            Origin::Fresh => Run::fresh(1),
        }
    }

    /// The same run.
    pub(crate) fn copy(&self) -> Run
        ensures { result ≡ self.now }
    {
        Run {
            first: self.first,
            count: self.count,
        }
    }

    /// How many origins there are.
    #[tactic(auto, using(crate::proofs::RunOrigins::run_rules))]
    pub(crate) fn len(&self) -> u64
        ensures { result ≡ length self.now }
    {
        self.count
    }

    /// The origin at a place of the run.
    #[tactic(auto, using(crate::proofs::RunOrigins::run_rules))]
    pub(crate) fn get(&self, place: u64) -> Origin
        requires { place < length self.now }
        ensures { slice_get self.now place ≡ Some result }
    {
        match self.first {
            Origin::Old(first) => Origin::Old(first + place),
            Origin::Fresh => Origin::Fresh,
        }
    }

    /// Both runs as one, if the second goes on where the first one ends and their length fits.
    #[tactic(auto, using(crate::proofs::RunOrigins::run_rules))]
    pub(crate) fn joined(&self, next: &Run) -> Option<Run>
        ensures { IfSome result (λ both. both ≡ self.now ++ next.now) }
    {
        let count = self.count.checked_add(next.count)?;
        match (self.first, next.first) {
            (Origin::Old(first), Origin::Old(second)) => {
                if second < first || second - first != self.count {
                    return None;
                }
                Some(Run::kept(first, count))
            }
            (Origin::Fresh, Origin::Fresh) => Some(Run::fresh(count)),
            _ => None,
        }
    }
}
