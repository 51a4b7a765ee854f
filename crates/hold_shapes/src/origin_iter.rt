//! The origins of a new shape, one after another.
ghost use Rattle.std.specs.Prelude.{◌≡◌, [], ◌∷◌, drop, MatchOption};
ghost use Rattle.std.specs.Iterator.{YieldsFirst, item_count};
ghost use Rattle.hold_shapes.specs.Runs.{all_origins};

use crate::origins::{Origin, Origins};
use crate::run::Run;
use std::marker::Model;

/// Yields origins in order. Does not allocate.
///
/// Contracts see it as the list of the origins that are left.
#[derive(Drop)]
pub struct OriginIter<'a> {
    runs: &'a [Run],
    // The number of a run, and a place that is counted from its first one.
    number: usize,
    place: u64,
}

impl<'a> Model for OriginIter<'a> {
    ghost use Rattle.std.specs.Prelude.{List, drop};
    ghost use Rattle.hold_shapes.specs.declared.origins.Origin.{Origin};

    ghost Value = { List Origin };

    ghost use Rattle.hold_shapes.specs.Runs.{all_origins};

    ghost view = { λ a. drop a.place (all_origins (drop a.number a.runs.now)) };
}

impl Origins {
    /// The origins in order.
    pub fn iter(&self) -> OriginIter<'_>
        ensures { result ≡ self.now }
    {
        OriginIter {
            runs: self.runs(),
            number: 0,
            place: 0,
        }
    }
}

impl<'a> Iterator for OriginIter<'a> {
    type Item = Origin;

    ghost next_gives = { YieldsFirst (λ origins. origins) };

    ghost remaining = { item_count (λ origins. origins) };

    fn next(&mut self) -> Option<Origin> {
        let (origin, number, place) = origin_from(self.runs, self.number, self.place)?;
        self.number = number;
        self.place = place;
        Some(origin)
    }
}

impl<'a> IntoIterator for &'a Origins {
    type Item = Origin;

    type IntoIter = OriginIter<'a>;

    ghost into_iter_gives = { λ origins left. left ≡ origins.now };

    fn into_iter(self) -> OriginIter<'a> {
        self.iter()
    }
}

// The origin at a place that is counted from a run on, with the number of its run and the place after it there.
#[tactic(auto, using(crate::proofs::RunOrigins::iter_rules))]
fn origin_from(runs: &[Run], number: usize, place: u64) -> Option<(Origin, usize, u64)>
    ensures { MatchOption result
        (drop place (all_origins (drop number runs.now)) ≡ [])
        (λ found. drop place (all_origins (drop number runs.now))
        ≡ found.0 ∷ drop found.2 (all_origins (drop found.1 runs.now))) }
{
    let mut left = place;
    for i in number..runs.len() {
        let run = &runs[i];
        if left < run.len() {
            return Some((run.get(left), i, left + 1));
        }
        left -= run.len();
    }
    None
}
