//! Where each place of a new shape comes from.
ghost use Rattle.std.specs.Prelude.{◌≡◌, ◌↔◌, ◌<◌, ◌^◌, ◌++◌, ◌∷◌, [], Some, IfOk, IfSome, OnOk, OnErr, IsTrue, length};
ghost use Rattle.std.specs.Prelude.{slice_get};
ghost use Rattle.hold_shapes.specs.Runs.{all_origins};

use crate::run::Run;
use std::alloc::{AllocError, Global};
use std::marker::Model;
use texts::Twin;

/// Where a place of a new shape comes from.
#[derive(Clone, Copy, Debug, PartialEq, Eq)]
pub enum Origin {
    /// From this place of the old shape.
    Old(u64),
    /// From no old place: its content is initial.
    Fresh,
}

impl Twin for Origin {
    ghost use Rattle.hold_shapes.specs.declared.origins.Origin.{Origin};

    ghost Meaning = { Origin };

    ghost meaning = { λ o. o };

    fn twin(&self, _alloc: Global) -> Result<Self, AllocError> {
        Ok(*self)
    }
}

/// The origin of each place of a new shape, in order.
///
/// Contracts see it as the list of its origins. They are kept as runs, so that many places which follow one
/// another in the old shape, or are fresh, take no more memory than one.
#[derive(Debug, Drop)]
pub struct Origins {
    runs: Vec<Run>,
    count: u64,
}

impl Model for Origins {
    ghost use Rattle.std.specs.Prelude.{◌≡◌, List, length};
    ghost use Rattle.hold_shapes.specs.declared.origins.Origin.{Origin};

    ghost Value = { List Origin };

    ghost use Rattle.hold_shapes.specs.Runs.{all_origins};

    ghost view = { λ o. all_origins o.runs.items };

    ghost invariant = { λ o. o.count ≡ length (all_origins o.runs.items) };
}

impl Origins {
    /// The origins of a vector, in its order.
    ///
    /// The only refusal is running out of memory.
    pub fn from_vec(alloc: Global, items: Vec<Origin>) -> Result<Self, AllocError>
        ensures { IfOk result (λ from. from ≡ items.items) }
    {
        let mut from = Origins::empty(alloc);
        for origin in items.as_slice() {
            from.push(Run::of_one(*origin))?;
        }
        Ok(from)
    }

    /// The origins of some runs, one run after another.
    ///
    /// A number of origins that does not fit in 64 bits is refused as running out of memory.
    #[tactic(auto, using(crate::proofs::RunOrigins::list_rules))]
    pub(crate) fn of_runs(alloc: Global, runs: &[Run]) -> Result<Self, AllocError>
        ensures { IfOk result (λ from. from ≡ all_origins runs.now) }
    {
        let mut from = Origins::empty(alloc);
        for run in runs {
            from.push(run.copy())?;
        }
        Ok(from)
    }

    /// No origins. Does not allocate.
    pub(crate) fn empty(alloc: Global) -> Origins
        ensures { result ≡ [] }
    {
        Origins {
            runs: Vec::new(alloc),
            count: 0,
        }
    }

    /// Puts the origins of a run at the end. It becomes one with the last run if it goes on from there.
    ///
    /// A number of origins that does not fit in 64 bits is refused as running out of memory.
    pub(crate) fn push(&mut self, run: Run) -> Result<(), AllocError>
        ensures pushed { OnOk result (self.new ≡ self.old ++ run) }
    {
        let Some(count) = self.count.checked_add(run.len()) else {
            return Err(AllocError);
        };
        push_run(&mut self.runs, run)?;
        self.count = count;
        Ok(())
    }

    /// How many origins there are.
    pub fn len(&self) -> u64
        ensures { result ≡ length self.now }
    {
        self.count
    }

    /// Whether there are no origins.
    pub fn is_empty(&self) -> bool
        ensures { IsTrue result ↔ (length self.now ≡ 0) }
    {
        self.len() == 0
    }

    /// The runs, one after another.
    pub(crate) fn runs(&self) -> &[Run]
        ensures value { all_origins result.now ≡ self.now }
        ensures fits { length self.now < 2 ^ 64 }
    {
        let _count = self.count;
        self.runs.as_slice()
    }

    /// The origin of a place. Places are counted from 0.
    ///
    /// It goes over the runs from the first one on.
    #[tactic(auto, using(crate::proofs::RunOrigins::list_rules))]
    pub fn get(&self, place: u64) -> Origin
        requires { place < length self.now }
        ensures { slice_get self.now place ≡ Some result }
    {
        let runs = self.runs();
        let mut left = place;
        for i in 0..runs.len() {
            let run = &runs[i];
            if left < run.len() {
                return run.get(left);
            }
            left -= run.len();
        }
        unreachable!()
    }
}

impl Twin for Origins {
    ghost use Rattle.std.specs.Prelude.{List};
    ghost use Rattle.hold_shapes.specs.declared.origins.Origin.{Origin};

    ghost Meaning = { List Origin };

    ghost meaning = { λ n. n };

    fn twin(&self, alloc: Global) -> Result<Self, AllocError> {
        Origins::of_runs(alloc, self.runs())
    }
}

// Puts a run behind others. It becomes one with the last of them if it goes on from there.
#[tactic(auto, using(crate::proofs::RunOrigins::push_rules))]
fn push_run(runs: &mut Vec<Run>, run: Run) -> Result<(), AllocError>
    ensures pushed { OnOk result (all_origins runs.new.items ≡ all_origins runs.old.items ++ run) }
    ensures unchanged { OnErr result (runs.new.items ≡ runs.old.items) }
{
    let number = runs.len();
    if number > 0 {
        if let Some(both) = runs[number - 1].joined(&run) {
            runs[number - 1] = both;
            return Ok(());
        }
    }
    runs.push(run)?;
    Ok(())
}
