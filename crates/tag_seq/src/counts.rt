//! How often each tag occurs in a part of a list.

ghost use Rattle.std.specs.Prelude.{◌≡◌, ◌<◌, ◌≤◌, ◌+◌, ◌^◌, ℕ, [], length, IfOk, IsTrue, ◌↔◌, nat_eq, if◌then◌else◌};
ghost use Rattle.tag_seq.specs.Numbers.{IsMap, number, merged, reduced, pairs_before};
ghost use Rattle.tag_seq.specs.Laws.{MeasureLaws};
ghost use Rattle.tag_seq.specs.MergeLaws.{merged_laws};

use std::alloc::{AllocError, Global};
use std::marker::Model;

/// What is kept of a part of a list and added up, part by part.
pub(crate) trait Measure: Sized {
    ghost nothing: { Self };

    ghost sum: { Self → Self → Self };

    // What the numbers of a machine hold.
    ghost fits: { Self → Self → Type 0 };

    ghost laws: { MeasureLaws nothing sum };

    /// The measure of no tags.
    fn zero(alloc: Global) -> Self
        ensures { result ≡ nothing };

    /// The measure of two parts together. Condition: each sum of two numbers fits.
    fn plus(&self, alloc: Global, other: &Self) -> Result<Self, AllocError>
        requires { fits self.now other.now }
        ensures { IfOk result (λ s. s ≡ sum self.now other.now) };
}

/// The tags that occur in a part, strictly rising, each with its number.
#[derive(Drop)]
pub(crate) struct Counts {
    pub(crate) pairs: Vec<(u32, u64)>,
}

impl Model for Counts {
    ghost use Rattle.std.specs.Prelude.{List, ℕ};
    ghost use Rattle.tag_seq.specs.Numbers.{IsMap};

    ghost Value = { List (ℕ × ℕ) };

    ghost view = { λ c. c.pairs.items };

    ghost invariant = { λ c. IsMap c.pairs.items };
}

impl Counts {
    // So many of one tag.
    pub(crate) fn of_one(alloc: Global, tag: u32, count: u64) -> Result<Counts, AllocError>
        ensures { IfOk result (λ c. (t : ℕ) → number t c ≡ (if nat_eq tag t then count else 0)) }
    {
        let mut pairs = Vec::new(alloc);
        if count > 0 {
            pairs.push((tag, count))?;
        }
        Ok(Counts { pairs })
    }

    // The same counts.
    pub(crate) fn copy(&self, alloc: Global) -> Result<Counts, AllocError>
        ensures { IfOk result (λ c. c ≡ self.now) }
    {
        let pairs = Vec::from_slice(alloc, self.pairs.as_slice())?;
        Ok(Counts { pairs })
    }

    // The number of a tag.
    pub(crate) fn number(&self, tag: u32) -> u64
        ensures { result ≡ number tag self.now }
    {
        let place = place_of(self.pairs.as_slice(), tag);
        if place < self.pairs.len() {
            let pair = self.pairs[place];
            if pair.0 == tag {
                return pair.1;
            }
        }
        0
    }

    // What is left of the counts of a part, without those of a part of it.
    pub(crate) fn minus(&self, alloc: Global, other: &Counts) -> Result<Counts, AllocError>
        requires { (t : ℕ) → number t other.now ≤ number t self.now }
        ensures { IfOk result (λ s. (t : ℕ) → number t s + number t other.now ≡ number t self.now) }
    {
        let pairs = subtract(alloc, self.pairs.as_slice(), other.pairs.as_slice())?;
        Ok(Counts { pairs })
    }

    // Whether every tag that occurs is below a bound.
    pub(crate) fn is_below(&self, bound: u32) -> bool
        ensures { IsTrue result ↔ ((t : ℕ) → 0 < number t self.now → t < bound) }
    {
        let len = self.pairs.len();
        len == 0 || self.pairs[len - 1].0 < bound
    }
}

impl Measure for Counts {
    ghost nothing = { [] };

    ghost sum = { merged };

    ghost fits = { λ a b. (t : ℕ) → number t a + number t b < 2 ^ 64 };

    ghost laws = { merged_laws };

    fn zero(alloc: Global) -> Counts {
        Counts {
            pairs: Vec::new(alloc),
        }
    }

    fn plus(&self, alloc: Global, other: &Counts) -> Result<Counts, AllocError>
        requires { (t : ℕ) → number t self.now + number t other.now < 2 ^ 64 }
        ensures map { IfOk result (λ s. s ≡ merged self.now other.now) }
        ensures each { IfOk result (λ s. (t : ℕ) → number t s ≡ number t self.now + number t other.now) }
    {
        let pairs = merge(alloc, self.pairs.as_slice(), other.pairs.as_slice())?;
        Ok(Counts { pairs })
    }
}

// The pairs of two maps, with one pair for a tag of both.
fn merge(
    alloc: Global,
    ours: &[(u32, u64)],
    theirs: &[(u32, u64)],
) -> Result<Vec<(u32, u64)>, AllocError>
    requires { (t : ℕ) → number t ours.now + number t theirs.now < 2 ^ 64 }
    ensures { IfOk result (λ s. s.items ≡ merged ours.now theirs.now) }
{
    let mut pairs = Vec::new(alloc);
    let (mut i, mut j) = (0, 0);
    while i < ours.len() && j < theirs.len() {
        let (our, their) = (ours[i], theirs[j]);
        if our.0 < their.0 {
            pairs.push(our)?;
            i += 1;
        } else if their.0 < our.0 {
            pairs.push(their)?;
            j += 1;
        } else {
            pairs.push((our.0, our.1 + their.1))?;
            i += 1;
            j += 1;
        }
    }
    pairs.extend_from_slice(&ours[i..])?;
    pairs.extend_from_slice(&theirs[j..])?;
    Ok(pairs)
}

// The pairs of a map less those of another one, whose tags are all among its own.
fn subtract(
    alloc: Global,
    ours: &[(u32, u64)],
    theirs: &[(u32, u64)],
) -> Result<Vec<(u32, u64)>, AllocError>
    ensures { IfOk result (λ s. s.items ≡ reduced ours.now theirs.now) }
{
    let mut pairs = Vec::new(alloc);
    let (mut i, mut j) = (0, 0);
    while i < ours.len() && j < theirs.len() {
        let (our, their) = (ours[i], theirs[j]);
        if our.0 != their.0 {
            pairs.push(our)?;
            i += 1;
        } else if our.1 > their.1 {
            pairs.push((our.0, our.1 - their.1))?;
            i += 1;
            j += 1;
        } else {
            i += 1;
            j += 1;
        }
    }
    pairs.extend_from_slice(&ours[i..])?;
    Ok(pairs)
}

// The place of the first pair whose tag is not below a given one.
fn place_of(pairs: &[(u32, u64)], tag: u32) -> usize
    requires { IsMap pairs.now }
    ensures value { result ≡ pairs_before tag pairs.now }
    ensures within { result ≤ length pairs.now }
{
    let (mut low, mut high) = (0, pairs.len());
    while low < high {
        let middle = low + (high - low) / 2;
        if pairs[middle].0 < tag {
            low = middle + 1;
        } else {
            high = middle;
        }
    }
    low
}
