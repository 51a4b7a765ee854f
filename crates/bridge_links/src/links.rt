//! Links of all places of a shape.
ghost use Rattle.std.specs.Prelude.{◌≡◌, ◌<◌, ◌^◌, ◌++◌, ◌∷◌, [], IfOk, OnOk, OnErr, length};
ghost use Rattle.bridge_links.specs.Links.{all_links, link_at, run_links};

use crate::link::Link;
use crate::run::LinkRun;
use std::alloc::{AllocError, Global};
use std::marker::Model;

/// For each place of the near shape, where it is in the far shape.
///
/// Contracts see it as the list of its links.
#[derive(Debug, Drop)]
pub struct Links {
    runs: Vec<LinkRun>,
    count: u64,
}

impl Model for Links {
    ghost use Rattle.std.specs.Prelude.{◌≡◌, List, length};
    ghost use Rattle.bridge_links.specs.declared.link.Link.{Link};

    ghost Value = { List Link };

    ghost use Rattle.bridge_links.specs.Links.{all_links};

    ghost view = { λ l. all_links l.runs.items };

    ghost invariant = { λ l. l.count ≡ length (all_links l.runs.items) };
}

impl Links {
    /// No links. Does not allocate.
    pub fn empty(alloc: Global) -> Links
        ensures { result ≡ [] }
    {
        Links {
            runs: Vec::new(alloc),
            count: 0,
        }
    }

    /// How many places the near shape has.
    pub fn len(&self) -> u64
        ensures { result ≡ length self.now }
    {
        self.count
    }

    /// Puts the links of a run at the end. It becomes one with the last run if it goes on from there, and an empty
    /// run changes nothing.
    ///
    /// A number of links that does not fit in 64 bits is refused as running out of memory.
    #[tactic(auto, using(crate::proofs::LinkLists::empty_rules))]
    pub(crate) fn push(&mut self, run: LinkRun) -> Result<(), AllocError>
        ensures pushed { OnOk result (self.new ≡ self.old ++ run) }
    {
        if run.len() == 0 {
            return Ok(());
        }
        let Some(count) = self.count.checked_add(run.len()) else {
            return Err(AllocError);
        };
        push_run(&mut self.runs, run)?;
        self.count = count;
        Ok(())
    }

    /// Puts so many links at the end, to places that follow one another from that of the first one, or to none.
    ///
    /// A number that does not fit in 64 bits is refused as running out of memory, which is the only refusal.
    pub fn push_run(&mut self, first: Link, count: u64) -> Result<(), AllocError>
        ensures { OnOk result (self.new ≡ self.old ++ run_links first count) }
    {
        self.push(LinkRun::of(first, count)?)
    }

    /// The runs, one after another.
    pub(crate) fn runs(&self) -> &[LinkRun]
        ensures value { all_links result.now ≡ self.now }
        ensures fits { length self.now < 2 ^ 64 }
    {
        let _count = self.count;
        self.runs.as_slice()
    }

    /// The link of a place, counted from 0. A place that the near shape does not have is nowhere.
    ///
    /// It goes over the runs from the first one on.
    #[tactic(auto, using(crate::proofs::LinkLists::read_rules))]
    pub fn get(&self, place: u64) -> Link
        ensures { result ≡ link_at self.now place }
    {
        let runs = self.runs();
        let mut left = place;
        for i in 0..runs.len() {
            let run = &runs[i];
            if left < run.len() {
                return run.get(left);
            }
            left -= run.len();
        }
        Link::Gone
    }
}

// Puts a run behind others. It becomes one with the last of them if it goes on from there.
#[tactic(auto, using(crate::proofs::LinkLists::push_rules))]
fn push_run(runs: &mut Vec<LinkRun>, run: LinkRun) -> Result<(), AllocError>
    ensures pushed { OnOk result (all_links runs.new.items ≡ all_links runs.old.items ++ run) }
    ensures unchanged { OnErr result (runs.new.items ≡ runs.old.items) }
{
    let number = runs.len();
    if number > 0 {
        if let Some(both) = runs[number - 1].joined(&run) {
            runs[number - 1] = both;
            return Ok(());
        }
    }
    runs.push(run)?;
    Ok(())
}
