//! The content of a new container.
ghost use Rattle.std.specs.Prelude.{◌≡◌, ◌≤◌, ◌<◌, ◌-◌, ◌^◌, ◌++◌, IfOk, All, map, length, take, drop, replicate};
ghost use Rattle.hold_shapes.specs.declared.origins.Origin.TheVariants.{Old};
ghost use Rattle.hold_shapes.specs.Gather.{content_at, IsBelow};
ghost use Rattle.hold_shapes.specs.Runs.{run_origins, all_origins};

use crate::origins::{Origin, Origins};
use crate::parts::replace_part;
use crate::run::Run;
use shared_lists::{Hint, SharedList};
use std::alloc::{AllocError, Global};
use texts::Twin;

/// The items of a new container: at each place the item at its old place, or `fresh`.
///
/// Old places that stay at the front or at the back are not touched: the others are replaced in a copy. A run of old
/// places is a part of the old container, which both share, so that a copy is made for each fresh place alone. Each old
/// place must be below the number of items. The only refusal is running out of memory.
pub fn gather<T: Twin>(
    alloc: Global,
    from: &Origins,
    items: &SharedList<T>,
    fresh: &T,
) -> Result<SharedList<T>, AllocError>
where
    T: Drop + Hint,
    requires { All (IsBelow (length items.now)) from.now }
    ensures { IfOk result (λ list. map T.meaning list
        ≡ map (content_at (map T.meaning items.now) (T.meaning fresh.now)) from.now) }
{
    let runs = from.runs();
    let (at, behind) = kept_front(runs);
    let (to, changed) = kept_back(behind, items.len() as u64);
    if at > to {
        return pieces(alloc, runs, items, fresh);
    }
    let inner = pieces(alloc, changed, items, fresh)?;
    replace_part(alloc, items, at as usize, to as usize, &inner)
}

// How many old places stay at the front, and the runs behind them.
#[tactic(auto, using(crate::proofs::Pieces::edge_rules))]
fn kept_front(runs: &[Run]) -> (u64, &[Run])
    ensures { all_origins runs.now ≡ run_origins (Old 0) result.0 ++ all_origins result.1.now }
{
    if let Some((first, rest)) = runs.split_first() {
        if let Origin::Old(place) = first.first {
            if place == 0 {
                return (first.count, rest);
            }
        }
    }
    (0, runs)
}

// The place from which on all old places stay at the back, and the runs before them.
#[tactic(auto, using(crate::proofs::Pieces::edge_rules))]
fn kept_back(runs: &[Run], size: u64) -> (u64, &[Run])
    ensures within { result.0 ≤ size }
    ensures origins { all_origins runs.now
        ≡ all_origins result.1.now ++ run_origins (Old result.0) (size - result.0) }
{
    if let Some((last, rest)) = runs.split_last() {
        if let Origin::Old(place) = last.first {
            if place <= size && size - place == last.count {
                return (place, rest);
            }
        }
    }
    (size, runs)
}

// The items of some runs, one run after another.
fn pieces<T: Twin>(
    alloc: Global,
    runs: &[Run],
    items: &SharedList<T>,
    fresh: &T,
) -> Result<SharedList<T>, AllocError>
where
    T: Drop + Hint,
    requires below { All (IsBelow (length items.now)) (all_origins runs.now) }
    requires fits { length (all_origins runs.now) < 2 ^ 64 }
    ensures { IfOk result (λ list. map T.meaning list
        ≡ map (content_at (map T.meaning items.now) (T.meaning fresh.now)) (all_origins runs.now)) }
{
    let mut all = SharedList::empty();
    for i in 0..runs.len() {
        let next = piece(alloc, &runs[i], items, fresh)?;
        all = all.concat(alloc, &next)?;
    }
    Ok(all)
}

// The items of one run.
#[tactic(auto, using(crate::proofs::Pieces::piece_rules))]
fn piece<T: Twin>(
    alloc: Global,
    run: &Run,
    items: &SharedList<T>,
    fresh: &T,
) -> Result<SharedList<T>, AllocError>
where
    T: Drop + Hint,
    requires { All (IsBelow (length items.now)) run.now }
    ensures { IfOk result (λ list. map T.meaning list
        ≡ map (content_at (map T.meaning items.now) (T.meaning fresh.now)) run.now) }
{
    match run.first {
        Origin::Old(first) => kept(alloc, first, run.count, items),
        Origin::Fresh => SharedList::from_vec(alloc, copies(alloc, fresh, run.count as usize)?),
    }
}

// The items of a run of old places, which both lists share.
#[tactic(auto, using(crate::proofs::Pieces::kept_rules))]
fn kept<T: Drop + Hint>(
    alloc: Global,
    first: u64,
    count: u64,
    items: &SharedList<T>,
) -> Result<SharedList<T>, AllocError>
    requires { All (IsBelow (length items.now)) (run_origins (Old first) count) }
    ensures { IfOk result (λ list. list ≡ take count (drop first items.now)) }
{
    if count == 0 {
        return Ok(SharedList::empty());
    }
    items.part(alloc, first as usize, count as usize)
}

// So many copies of the fresh item.
#[tactic(auto, using(crate::proofs::Pieces::piece_rules))]
fn copies<T: Twin>(alloc: Global, fresh: &T, count: usize) -> Result<Vec<T>, AllocError>
where
    T: Drop,
    ensures { IfOk result (λ v. map T.meaning v.items ≡ replicate count (T.meaning fresh.now)) }
{
    let mut all = Vec::with_capacity(alloc, count)?;
    for _ in 0..count {
        all.push(fresh.twin(alloc)?)?;
    }
    Ok(all)
}
