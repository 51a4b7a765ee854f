//! Links after plans of the far shape and of the near one.
ghost use Rattle.std.specs.Prelude.{◌≡◌, ◌<◌, ◌≤◌, ◌+◌, ◌++◌, ◌⊎◌, ℕ, IfOk, IfSome, OnOk, MatchOption, length, map, drop};
ghost use Rattle.bridge_links.specs.Links.{came, ahead, same_places, followed, far_planned, near_planned};
ghost use Rattle.bridge_links.specs.Links.{part_at, part_put, AreBehind, AreInside, GetsRun, IsWithin, first_stay, moved_place};

use crate::link::Link;
use crate::links::Links;
use crate::run::LinkRun;
use std::alloc::{AllocError, Global};

impl LinkRun {
    // Where the old places from one on are, for a plan that begins with this run, and for how many of them, at most so
    // many: in the run, counted from its first place, or behind it.
    #[tactic(auto, using(crate::proofs::Found::within_rules))]
    fn find(&self, place: u64, most: u64) -> (Option<Link>, u64)
        requires { 0 < most }
        ensures some { 0 < result.1 }
        ensures most { result.1 ≤ most }
        ensures within { IfSome result.0 (λ link. IsWithin (length self.now) link) }
        ensures found { MatchOption result.0
            (AreBehind place result.1 self.now)
            (λ link. AreInside place result.1 self.now link) }
    {
        let Some(first) = self.first.place() else {
            return (None, most);
        };
        if place < first {
            return (None, least(most, first - place));
        }
        let at = place - first;
        if at >= self.count {
            return (None, most);
        }
        (Some(self.first.placed(at)), least(most, self.count - at))
    }
}

impl LinkRun {
    // The far place of the first place, from one on, that has not been moved.
    #[tactic(auto, using(crate::proofs::Stays::run_rules))]
    fn staying(&self, from: u64) -> Option<u64>
        ensures { result ≡ first_stay (drop from self.now) }
    {
        match self.first {
            Link::Stays(place) if from < self.count => Some(place + from),
            _ => None,
        }
    }
}

impl Links {
    /// The links of a shape to itself: each place is where it was.
    ///
    /// The only refusal is running out of memory.
    pub fn same(alloc: Global, size: u64) -> Result<Links, AllocError>
        ensures { IfOk result (λ links. links ≡ same_places size) }
    {
        let mut links = Links::empty(alloc);
        links.push_run(Link::Stays(0), size)?;
        Ok(links)
    }

    /// The plan that moves one of so many places to another place of the result.
    ///
    /// The only refusal is running out of memory.
    #[tactic(auto, using(crate::proofs::Stays::move_rules))]
    pub fn moving(alloc: Global, size: u64, from: u64, to: u64) -> Result<Links, AllocError>
        requires old { from < size }
        requires new { to < size }
        ensures { IfOk result (λ links. links ≡ moved_place size from to) }
    {
        if from == to {
            return Links::same(alloc, size);
        }
        let mut links = Links::empty(alloc);
        if to < from {
            links.push_run(Link::Stays(0), to)?;
            links.push_run(Link::Moved(from), 1)?;
            links.push_run(Link::Stays(to), from - to)?;
            links.push_run(Link::Stays(from + 1), size - (from + 1))?;
            return Ok(links);
        }
        links.push_run(Link::Stays(0), from)?;
        links.push_run(Link::Stays(from + 1), to - from)?;
        links.push_run(Link::Moved(from), 1)?;
        links.push_run(Link::Stays(to + 1), size - (to + 1))?;
        Ok(links)
    }

    /// The near place that a far place has come from, as a link of the far shape to the near one.
    ///
    /// Read of a plan, it is where an old place is after it. It goes over the runs from the first one on.
    pub fn place_in_near(&self, place: u64) -> Link
        ensures { result ≡ came 0 place self.now }
    {
        self.find(place, 1).0
    }

    /// The same links.
    ///
    /// The only refusal is running out of memory.
    #[tactic(auto, using(crate::proofs::LinkLists::copy_rules))]
    pub fn copy(&self, alloc: Global) -> Result<Links, AllocError>
        ensures { IfOk result (λ links. links ≡ self.now) }
    {
        let mut links = Links::empty(alloc);
        let runs = self.runs();
        for i in 0..runs.len() {
            let run = &runs[i];
            links.push(run.part(0, run.len()))?;
        }
        Ok(links)
    }

    /// The far place of the first near place, from one on, that no edit of the far shape has moved.
    ///
    /// It goes over the runs from the first one on.
    #[tactic(auto, using(crate::proofs::Stays::stay_rules))]
    pub fn first_staying(&self, from: u64) -> Option<u64>
        ensures { result ≡ first_stay (drop from self.now) }
    {
        let runs = self.runs();
        let mut skip = from;
        for i in 0..runs.len() {
            let run = &runs[i];
            if let Some(place) = run.staying(skip) {
                return Some(place);
            }
            skip = skip.saturating_sub(run.len());
        }
        None
    }

    // Where the old places from one on are after this plan, and for how many of them, at most so many.
    #[tactic(auto, using(crate::proofs::Found::within_rules))]
    fn find(&self, place: u64, most: u64) -> (Link, u64)
        requires { 0 < most }
        ensures some { 0 < result.1 }
        ensures most { result.1 ≤ most }
        ensures found { (d : ℕ) → d < result.1 → came 0 (place + d) self.now ≡ ahead d result.0 }
    {
        let runs = self.runs();
        let mut before = 0;
        let mut left = most;
        for i in 0..runs.len() {
            let run = &runs[i];
            let (found, count) = run.find(place, left);
            left = count;
            if let Some(link) = found {
                return (link.ahead(before), left);
            }
            before += run.len();
        }
        (Link::Gone, left)
    }

    /// The links after an edit of the far shape with this plan: each leads to where its place is now, and one whose
    /// place is no more to nowhere.
    ///
    /// A number that does not fit in 64 bits is refused as running out of memory, which is the only refusal.
    #[tactic(auto, using(crate::proofs::Followed::list_rules))]
    pub fn after_far(&self, alloc: Global, plan: &Links) -> Result<Links, AllocError>
        ensures { IfOk result (λ links. links ≡ far_planned plan.now self.now) }
    {
        let mut links = Links::empty(alloc);
        let runs = self.runs();
        for i in 0..runs.len() {
            push_followed(&mut links, &runs[i], plan)?;
        }
        Ok(links)
    }

    /// The links after an edit of the near shape with this plan: each new place has the link of its old one, and a
    /// fresh one the next far place from `fresh` on.
    ///
    /// A number that does not fit in 64 bits is refused as running out of memory, which is the only refusal.
    #[tactic(auto, using(crate::proofs::Gathered::list_rules))]
    pub fn after_near(&self, alloc: Global, plan: &Links, fresh: u64) -> Result<Links, AllocError>
        ensures { IfOk result (λ links. links ≡ near_planned fresh plan.now self.now) }
    {
        let mut links = Links::empty(alloc);
        let runs = plan.runs();
        let mut next = fresh;
        for i in 0..runs.len() {
            next = push_gathered(&mut links, &runs[i], self, next)?;
        }
        Ok(links)
    }
}

// The smaller one of two numbers.
fn least(left: u64, right: u64) -> u64
    requires left { 0 < left }
    requires right { 0 < right }
    ensures some { 0 < result }
    ensures left { result ≤ left }
    ensures right { result ≤ right }
{
    if left < right { left } else { right }
}

// Puts behind links what becomes of those of a run after a plan of the far shape.
fn push_followed(links: &mut Links, run: &LinkRun, plan: &Links) -> Result<(), AllocError>
    ensures { OnOk result (links.new ≡ links.old ++ map (followed plan.now) run.now) }
{
    let Some(first) = run.first.place() else {
        return links.push(run.part(0, run.len()));
    };
    let mut done = 0;
    for _ in 0..run.count {
        if done >= run.count {
            break;
        }
        let (link, count) = plan.find(first + done, run.count - done);
        links.push(LinkRun::of(run.first.moved_as(link), count)?)?;
        done += count;
    }
    Ok(())
}

// Puts behind links those that the places of a run of a plan of the near shape have, where a fresh place has the next
// far place from one on. Gives the far place after those.
fn push_gathered(
    links: &mut Links,
    run: &LinkRun,
    old: &Links,
    fresh: u64,
) -> Result<u64, AllocError>
    ensures { IfOk result (λ next. GetsRun links.new links.old next fresh run.now old.now) }
{
    if let Some(place) = run.first.place() {
        push_part(links, old, place, run.count, run.first.is_moved())?;
        return Ok(fresh);
    }
    let Some(next) = fresh.checked_add(run.count) else {
        return Err(AllocError);
    };
    links.push(LinkRun::of(Link::Stays(fresh), run.count)?)?;
    Ok(next)
}

// Puts behind links those of other places, which follow one another from a place on; they may have been moved there.
fn push_part(
    links: &mut Links,
    old: &Links,
    place: u64,
    count: u64,
    moved: bool,
) -> Result<(), AllocError>
    ensures { OnOk result (links.new ≡ links.old ++ part_put moved (part_at old.now place count)) }
{
    let runs = old.runs();
    let mut skip = place;
    let mut left = count;
    for i in 0..runs.len() {
        let run = &runs[i];
        if skip >= run.len() {
            skip -= run.len();
        } else {
            let size = smaller(left, run.len() - skip);
            links.push(run.part_put(skip, size, moved))?;
            left -= size;
            skip = 0;
        }
    }
    links.push(LinkRun::of(Link::Gone.put_as(moved), left)?)
}

// The smaller one of two numbers.
fn smaller(left: u64, right: u64) -> u64
    ensures left { result ≤ left }
    ensures right { result ≤ right }
    ensures one { (result ≡ left) ⊎ (result ≡ right) }
{
    if left < right { left } else { right }
}
