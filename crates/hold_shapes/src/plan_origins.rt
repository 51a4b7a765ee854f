//! The origins of plans, each of a few runs, whatever the size of the shape.
ghost use Rattle.std.specs.Prelude.{◌≡◌, ◌≤◌, ◌<◌, ◌+◌, ◌-◌, ◌++◌, replicate, IfOk};
ghost use Rattle.std.specs.List.{insert, remove};
ghost use Rattle.hold_shapes.specs.declared.origins.Origin.TheVariants.{Old, Fresh};
ghost use Rattle.hold_shapes.specs.Plans.{old_places, remove_part, move_part};

use crate::origins::Origins;
use crate::run::Run;
use std::alloc::{AllocError, Global};

/// The old places in order.
#[tactic(auto, using(crate::proofs::PlanOrigins::plan_rules))]
pub(crate) fn old_places(alloc: Global, size: u64) -> Result<Origins, AllocError>
    ensures { IfOk result (λ from. from ≡ old_places size) }
{
    Origins::of_runs(alloc, &[Run::kept(0, size)])
}

/// The old places in order, and fresh ones behind them.
#[tactic(auto, using(crate::proofs::PlanOrigins::plan_rules))]
pub(crate) fn and_fresh(alloc: Global, size: u64, count: u64) -> Result<Origins, AllocError>
    ensures { IfOk result (λ from. from ≡ old_places size ++ replicate count Fresh) }
{
    Origins::of_runs(alloc, &[Run::kept(0, size), Run::fresh(count)])
}

/// The old places with a fresh one among them.
#[tactic(auto, using(crate::proofs::PlanOrigins::plan_rules))]
pub(crate) fn with_fresh(alloc: Global, size: u64, at: u64) -> Result<Origins, AllocError>
    requires { at ≤ size }
    ensures { IfOk result (λ from. from ≡ insert (old_places size) at Fresh) }
{
    let front = Run::kept(0, at);
    Origins::of_runs(alloc, &[front, Run::fresh(1), Run::kept(at, size - at)])
}

/// The old places but one.
#[tactic(auto, using(crate::proofs::PlanOrigins::plan_rules))]
pub(crate) fn without_one(alloc: Global, size: u64, at: u64) -> Result<Origins, AllocError>
    requires { at < size }
    ensures { IfOk result (λ from. from ≡ remove (old_places size) at) }
{
    without_part(alloc, size, at, at + 1)
}

/// The old places but those of a part.
#[tactic(auto, using(crate::proofs::PlanOrigins::plan_rules))]
pub(crate) fn without_part(
    alloc: Global,
    size: u64,
    from: u64,
    to: u64,
) -> Result<Origins, AllocError>
    requires order { from ≤ to }
    requires within { to ≤ size }
    ensures { IfOk result (λ origins. origins ≡ remove_part from to (old_places size)) }
{
    Origins::of_runs(alloc, &[Run::kept(0, from), Run::kept(to, size - to)])
}

/// The old places with one of them moved to a place of the others.
#[tactic(auto, using(crate::proofs::PlanOrigins::plan_rules))]
pub(crate) fn move_one(alloc: Global, size: u64, from: u64, at: u64) -> Result<Origins, AllocError>
    requires old { from < size }
    requires new { at < size }
    ensures { IfOk result (λ origins. origins ≡ insert (remove (old_places size) from) at (Old from)) }
{
    move_part(alloc, size, from, from + 1, at)
}

/// The old places with a part of them moved to a place of the rest.
#[tactic(auto, using(crate::proofs::PlanOrigins::plan_rules))]
pub(crate) fn move_part(
    alloc: Global,
    size: u64,
    from: u64,
    to: u64,
    at: u64,
) -> Result<Origins, AllocError>
    requires order { from ≤ to }
    requires within { to ≤ size }
    requires place { at + (to - from) ≤ size }
    ensures { IfOk result (λ origins. origins ≡ move_part from to at (old_places size)) }
{
    let part = Run::kept(from, to - from);
    if at <= from {
        let front = Run::kept(0, at);
        let passed = Run::kept(at, from - at);
        return Origins::of_runs(alloc, &[front, part, passed, Run::kept(to, size - to)]);
    }
    let after = at + (to - from);
    let front = Run::kept(0, from);
    let passed = Run::kept(to, at - from);
    Origins::of_runs(
        alloc,
        &[front, passed, part, Run::kept(after, size - after)],
    )
}
