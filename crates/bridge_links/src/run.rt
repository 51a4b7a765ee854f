//! Runs: links to places that follow one another, or to none.
ghost use Rattle.std.specs.Prelude.{◌≡◌, ◌<◌, ◌≤◌, ◌+◌, ◌-◌, ◌^◌, ◌++◌, ◌∷◌, ℕ, List, [], Some, length, map, take, drop};
ghost use Rattle.std.specs.Prelude.{slice_get, IfSome, IfOk, MatchOption};
ghost use Rattle.bridge_links.specs.Links.{run_links, part_put, link_at};

use crate::link::Link;
use std::alloc::AllocError;
use std::marker::Model;

/// Links to places that follow one another, or to none.
///
/// Contracts see it as the list of its links.
#[derive(Debug, Drop)]
pub(crate) struct LinkRun {
    /// The first link. A run of no places has one too.
    pub(crate) first: Link,
    /// How many links there are.
    pub(crate) count: u64,
}

impl Model for LinkRun {
    ghost use Rattle.std.specs.Prelude.{List};
    ghost use Rattle.bridge_links.specs.declared.link.Link.{Link};

    ghost Value = { List Link };

    ghost use Rattle.bridge_links.specs.Links.{run_links, RunFits};

    ghost view = { λ r. run_links r.first r.count };

    ghost invariant = { λ r. RunFits r.first r.count };
}

impl LinkRun {
    /// A run of links from a first one on.
    ///
    /// A place that does not fit in 64 bits is refused as running out of memory.
    pub(crate) fn of(first: Link, count: u64) -> Result<LinkRun, AllocError>
        ensures { IfOk result (λ run. run ≡ run_links first count) }
    {
        if let Some(place) = first.place() {
            if place.checked_add(count).is_none() {
                return Err(AllocError);
            }
        }
        Ok(LinkRun { first, count })
    }

    /// How many links there are.
    #[tactic(auto, using(crate::proofs::RunLinks::run_rules))]
    pub(crate) fn len(&self) -> u64
        ensures { result ≡ length self.now }
    {
        self.count
    }

    /// The link of a place of the run.
    #[tactic(auto, using(crate::proofs::RunLinks::get_rules))]
    pub(crate) fn get(&self, place: u64) -> Link
        requires { place < length self.now }
        ensures { result ≡ link_at self.now place }
    {
        match self.first {
            Link::Stays(first) => Link::Stays(first + place),
            Link::Moved(first) => Link::Moved(first + place),
            other => other,
        }
    }

    /// A part of the run: so many links from a place of it on.
    #[tactic(auto, using(crate::proofs::RunLinks::part_rules))]
    pub(crate) fn part(&self, skip: u64, count: u64) -> LinkRun
        requires { skip + count ≤ length self.now }
        ensures { result ≡ take count (drop skip self.now) }
    {
        let first = match self.first {
            Link::Stays(place) => Link::Stays(place + skip),
            Link::Moved(place) => Link::Moved(place + skip),
            other => other,
        };
        LinkRun { first, count }
    }

    /// A part of the run, whose places an edit of the near shape may have moved.
    #[tactic(auto, using(crate::proofs::RunLinks::put_rules))]
    pub(crate) fn part_put(&self, skip: u64, count: u64, moved: bool) -> LinkRun
        requires { skip + count ≤ length self.now }
        ensures { result ≡ part_put moved (take count (drop skip self.now)) }
    {
        let part = self.part(skip, count);
        LinkRun {
            first: part.first.put_as(moved),
            count: part.count,
        }
    }

    /// Both runs as one, if the second goes on where the first one ends and their length fits.
    #[tactic(auto, using(crate::proofs::RunLinks::join_rules))]
    pub(crate) fn joined(&self, next: &LinkRun) -> Option<LinkRun>
        ensures { IfSome result (λ both. both ≡ self.now ++ next.now) }
    {
        let count = self.count.checked_add(next.count)?;
        let first = self.first;
        match (first, next.first) {
            (Link::Stays(here), Link::Stays(there)) | (Link::Moved(here), Link::Moved(there)) => {
                if there < here || there - here != self.count {
                    return None;
                }
            }
            (Link::Gone, Link::Gone) | (Link::Missed, Link::Missed) => {}
            _ => return None,
        }
        Some(LinkRun { first, count })
    }
}
