//! Runs put together in their shortest form, and cut where one of the texts is.
ghost use Rattle.std.specs.Prelude.{◌≡◌, ◌≤◌, ◌∷◌, [], ◌++◌, IfOk, OnOk, length, take, drop};
ghost use Rattle.bridge_texts.specs.Runs.{add_run, add_runs, all_gone, all_added, added_front, behind_added};
ghost use Rattle.bridge_texts.specs.Runs.{without_kept_end, cut, total, behind_gap};
ghost use Rattle.bridge_texts.specs.declared.run.End.TheVariants.{Near, Far};

use crate::run::{End, Run};
use std::alloc::{AllocError, Global};

/// Puts a run behind others. It becomes one with the last of them if both are of one sort, and an empty run changes
/// nothing.
#[tactic(auto, using(crate::proofs::Built::built_rules))]
pub(crate) fn push(runs: &mut Vec<Run>, run: Run) -> Result<(), AllocError>
    ensures { OnOk result (runs.new.items ≡ add_run runs.old.items run) }
{
    if run.is_empty() {
        return Ok(());
    }
    let number = runs.len();
    if number > 0 {
        if let Some(both) = runs[number - 1].joined(run)? {
            runs[number - 1] = both;
            return Ok(());
        }
    }
    runs.push(run)?;
    Ok(())
}

/// Puts runs behind others, one by one.
#[tactic(auto, using(crate::proofs::Built::built_rules))]
pub(crate) fn push_all(runs: &mut Vec<Run>, more: &[Run]) -> Result<(), AllocError>
    ensures { OnOk result (runs.new.items ≡ add_runs runs.old.items more.now) }
{
    for run in more {
        push(runs, *run)?;
    }
    Ok(())
}

/// Puts behind runs what a part of them becomes when the far text has lost all that it has there.
#[tactic(auto, using(crate::proofs::Built::built_rules))]
pub(crate) fn push_gone(runs: &mut Vec<Run>, part: &[Run]) -> Result<(), AllocError>
    ensures { OnOk result (runs.new.items ≡ add_runs runs.old.items (all_gone part.now)) }
{
    for run in part {
        if let Run::Kept(size) | Run::Gone(size) = *run {
            push(runs, Run::Gone(size))?;
        }
    }
    Ok(())
}

/// Puts behind runs what a part of them becomes when the near text has lost all that it has there.
#[tactic(auto, using(crate::proofs::Built::built_rules))]
pub(crate) fn push_added(runs: &mut Vec<Run>, part: &[Run]) -> Result<(), AllocError>
    ensures { OnOk result (runs.new.items ≡ add_runs runs.old.items (all_added part.now)) }
{
    for run in part {
        if let Run::Added(size) = *run {
            push(runs, Run::Added(size))?;
        }
    }
    Ok(())
}

/// Puts behind runs some in front of a place, a run that comes to it, what becomes of those of a range when the far text
/// has lost all that it has there, and those behind it.
#[tactic(auto, using(crate::proofs::Built::part_rules))]
pub(crate) fn push_around(
    runs: &mut Vec<Run>,
    front: &[Run],
    run: Run,
    range: &Parts,
) -> Result<(), AllocError>
    ensures { OnOk result (runs.new.items
        ≡ add_runs runs.old.items (front.now ++ (run ∷ (all_gone range.now.front.items ++ range.now.back.items)))) }
{
    push_all(runs, front)?;
    push(runs, run)?;
    push_gone(runs, &range.front)?;
    push_all(runs, &range.back)
}

/// Takes away a last run that is kept: behind the last run all is kept.
#[tactic(auto, using(crate::proofs::Built::end_rules))]
pub(crate) fn drop_kept_end(runs: &mut Vec<Run>)
    ensures { runs.new.items ≡ without_kept_end runs.old.items }
{
    let number = runs.len();
    if number > 0 && runs[number - 1].is_kept() {
        runs.truncate(number - 1);
    }
}

/// Runs in two parts.
#[derive(Debug, Drop)]
pub(crate) struct Parts {
    /// The runs up to a place of one of the texts.
    pub(crate) front: Vec<Run>,
    /// The runs behind it.
    pub(crate) back: Vec<Run>,
}

/// The runs up to a place of one of the texts, and the others. A run that the place is in is cut in two.
#[tactic(auto, using(crate::proofs::Built::cut_rules))]
pub(crate) fn cut(alloc: Global, end: End, runs: &[Run], place: u64) -> Result<Parts, AllocError>
    ensures front { IfOk result (λ parts. parts.front.items ≡ (cut end runs.now place).0) }
    ensures back { IfOk result (λ parts. parts.back.items ≡ (cut end runs.now place).1) }
{
    let mut front = Vec::new(alloc);
    let mut left = place;
    for (i, run) in runs.iter().enumerate() {
        if left == 0 {
            let back = copied(alloc, &runs[i..])?;
            return Ok(Parts { front, back });
        }
        let size = run.size_at(end);
        if left < size {
            front.push(run.of_size(left))?;
            let back = with_first(alloc, run.less_by(left), &runs[i + 1..])?;
            return Ok(Parts { front, back });
        }
        front.push(*run)?;
        left -= size;
    }
    front.push(Run::Kept(left))?;
    let back = Vec::new(alloc);
    Ok(Parts { front, back })
}

// The same runs.
fn copied(alloc: Global, runs: &[Run]) -> Result<Vec<Run>, AllocError>
    ensures { IfOk result (λ copy. copy.items ≡ runs.now) }
{
    let mut copy = Vec::new(alloc);
    copy.extend_from_slice(runs)?;
    Ok(copy)
}

// Runs with one in front of them.
fn with_first(alloc: Global, first: Run, rest: &[Run]) -> Result<Vec<Run>, AllocError>
    ensures { IfOk result (λ runs. runs.items ≡ first ∷ rest.now) }
{
    let mut runs = Vec::new(alloc);
    runs.push(first)?;
    runs.extend_from_slice(rest)?;
    Ok(runs)
}

/// How many runs at the beginning are in the far text alone.
#[tactic(auto, using(crate::proofs::Gaps::gap_rules))]
pub(crate) fn added_count(runs: &[Run]) -> usize
    ensures within { result ≤ length runs.now }
    ensures front { take result runs.now ≡ added_front runs.now }
    ensures back { drop result runs.now ≡ behind_added runs.now }
{
    for (i, run) in runs.iter().enumerate() {
        if !run.is_added() {
            return i;
        }
    }
    runs.len()
}

/// How many characters of the far text the runs have.
///
/// A number that does not fit in 64 bits is refused as running out of memory.
#[tactic(auto, using(crate::proofs::Gaps::gap_rules))]
pub(crate) fn far_total(runs: &[Run]) -> Result<u64, AllocError>
    ensures { IfOk result (λ sum. sum ≡ total Far runs.now) }
{
    let mut sum: u64 = 0;
    for run in runs {
        let Some(more) = sum.checked_add(run.size_at(End::Far)) else {
            return Err(AllocError);
        };
        sum = more;
    }
    Ok(sum)
}

/// Puts behind runs some in front of a gap, those that the far text has added there, a run that comes behind them, what
/// becomes of those of a range when the near text has lost all that it has there, and those behind it.
#[tactic(auto, using(crate::proofs::Built::part_rules))]
pub(crate) fn push_behind_gap(
    runs: &mut Vec<Run>,
    front: &[Run],
    run: Run,
    range: &Parts,
) -> Result<(), AllocError>
    ensures { OnOk result (runs.new.items
        ≡ add_runs runs.old.items (front.now ++ (run ∷ (all_added range.now.front.items ++ range.now.back.items)))) }
{
    push_all(runs, front)?;
    push(runs, run)?;
    push_added(runs, &range.front)?;
    push_all(runs, &range.back)
}

/// The runs up to a place of the near text, with those that the far text has added there, and the others.
#[tactic(auto, using(crate::proofs::Gaps::gap_rules))]
pub(crate) fn cut_behind_gap(alloc: Global, runs: &[Run], place: u64) -> Result<Parts, AllocError>
    ensures front { IfOk result (λ parts. parts.front.items ≡ (behind_gap (cut Near runs.now place)).0) }
    ensures back { IfOk result (λ parts. parts.back.items ≡ (behind_gap (cut Near runs.now place)).1) }
{
    let Parts { mut front, back } = cut(alloc, End::Near, runs, place)?;
    let count = added_count(&back);
    front.extend_from_slice(&back[..count])?;
    let back = copied(alloc, &back[count..])?;
    Ok(Parts { front, back })
}
