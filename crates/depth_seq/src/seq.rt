//! The list of depths.

ghost use Rattle.std.specs.Prelude.{◌≡◌, ◌<◌, ◌≤◌, ◌+◌, ◌*◌, ◌^◌, ◌++◌, ◌↔◌, ℕ, [], length, take, drop, slice_get};
ghost use Rattle.std.specs.Prelude.{Some, IsTrue, IfOk};
ghost use Rattle.depth_seq.specs.Searches.{search, EndsBetween};
ghost use Rattle.depth_seq.specs.Trees.{depths};

use crate::found::Found;
use crate::node::DepthTree;
use crate::node::cutting::{concat, first, rest};
use crate::node::making::build;
use crate::node::splicing::{splice, splice_chunk};
use crate::steps::Steps;
use crate::walks;
use std::alloc::{AllocError, Global};
use std::marker::{Brand, Model};
use std::sync::ledger::{Blank, Ledger};

/// The depths of the nodes of a tree, kept as a height-balanced tree whose copies share. Contracts see it as the list.
#[derive(Drop)]
pub struct DepthSeq {
    pub(crate) root: DepthTree,
}

impl Model for DepthSeq {
    ghost use Rattle.std.specs.Prelude.{List, ℕ};

    ghost Value = { List ℕ };

    ghost use Rattle.depth_seq.specs.Trees.{depths};

    ghost view = { λ a. depths a.root };
}

impl DepthSeq {
    /// No depths. Does not allocate.
    pub fn empty() -> DepthSeq
        ensures { result ≡ [] }
    {
        DepthSeq {
            root: DepthTree::Empty,
        }
    }

    /// These depths, in time linear in their number. The only refusal is running out of memory.
    pub fn from_slice(alloc: Global, list: &[u64]) -> Result<DepthSeq, AllocError>
        ensures { IfOk result (λ s. s ≡ list.now) }
    {
        let root = build(alloc, list)?;
        Ok(DepthSeq { root })
    }

    /// The depths of a vector. The only refusal is running out of memory.
    pub fn from_vec(alloc: Global, list: Vec<u64>) -> Result<DepthSeq, AllocError>
        ensures { IfOk result (λ s. s ≡ list.items) }
    {
        DepthSeq::from_slice(alloc, list.as_slice())
    }

    /// The same list, in constant time: the copy shares the complete tree. The only refusal is running out of memory.
    pub fn copy(&self) -> Result<DepthSeq, AllocError>
        ensures { IfOk result (λ s. s ≡ self.now) }
    {
        let root = self.root.share()?;
        Ok(DepthSeq { root })
    }

    /// How many depths there are. Takes constant time.
    pub fn len(&self) -> usize
        ensures { result ≡ length self.now }
    {
        self.root.len()
    }

    /// Whether there are no depths.
    pub fn is_empty(&self) -> bool
        ensures { IsTrue result ↔ (length self.now ≡ 0) }
    {
        self.len() == 0
    }

    /// The depth at a place. Places are counted from 0.
    pub fn get(&self, place: usize) -> &u64
        requires { place < length self.now }
        ensures { slice_get self.now place ≡ Some result.now }
    {
        &self.chunk_from(place)[0]
    }

    /// The depths from a place on that are side by side with the one there.
    pub(crate) fn chunk_from(&self, place: usize) -> &[u64]
        requires { place < length self.now }
        ensures some { 0 < length result.now }
        ensures within { place + length result.now ≤ length self.now }
        ensures items { result.now ++ drop (place + length result.now) self.now ≡ drop place self.now }
    {
        chunk_of::<Brand>(&self.root, place, Blank::new(1))
    }

    /// Where a search for the child number `number`, from 0, of a node of this depth ends. It goes over the depths from
    /// a place on. Places are counted from the first depth of all.
    ///
    /// Does not allocate. With n depths, n below 2^d, it takes at most 8d steps.
    #[tactic(auto, using(crate::proofs::Searches::seq_rules))]
    pub fn search<L: Ledger>(
        &self,
        from: usize,
        depth: u64,
        number: u64,
        steps: &mut Steps<L>,
    ) -> Found
        requires { from ≤ length self.now }
        ensures found { result ≡ search depth number from 0 (drop from self.now) }
        ensures between { EndsBetween from (length self.now) result }
        ensures steps { (d : ℕ) → length self.now < 2 ^ d → steps.new ≤ steps.old + 8 * d }
    {
        let _height = self.root.height();
        let _size = self.root.len();
        walks::find_from(&self.root, from, 0, depth, number, steps)
    }

    /// The same search, whose steps are not counted.
    pub fn find(&self, from: usize, depth: u64, number: u64) -> Found
        requires { from ≤ length self.now }
        ensures found { result ≡ search depth number from 0 (drop from self.now) }
        ensures between { EndsBetween from (length self.now) result }
    {
        counted_search::<Brand>(self, from, depth, number, Blank::new(1))
    }

    /// The depths with those from `from` to before `to` replaced by others. It shares what stays.
    ///
    /// The only refusal is running out of memory.
    pub fn spliced(
        &self,
        alloc: Global,
        from: usize,
        to: usize,
        more: &[u64],
    ) -> Result<DepthSeq, AllocError>
        requires order { from ≤ to }
        requires within { to ≤ length self.now }
        requires fits { length self.now + length more.now < 2 ^ 64 }
        ensures { IfOk result (λ s. s ≡ take from self.now ++ (more.now ++ drop to self.now)) }
    {
        if let Some(root) = splice_chunk(alloc, &self.root, from, to, more)? {
            return Ok(DepthSeq { root });
        }
        let more = build(alloc, more)?;
        let root = splice(alloc, &self.root, from, to, &more)?;
        Ok(DepthSeq { root })
    }

    /// The depths with those of another list put in at a place. It shares the depths of both.
    ///
    /// The only refusal is running out of memory.
    pub fn with_part(
        &self,
        alloc: Global,
        at: usize,
        part: &DepthSeq,
    ) -> Result<DepthSeq, AllocError>
        requires within { at ≤ length self.now }
        requires fits { length self.now + length part.now < 2 ^ 64 }
        ensures { IfOk result (λ s. s ≡ take at self.now ++ (part.now ++ drop at self.now)) }
    {
        let root = splice(alloc, &self.root, at, at, &part.root)?;
        Ok(DepthSeq { root })
    }

    /// Some of the depths, from a place on. Both lists share them. The only refusal is running out of memory.
    #[tactic(auto, using(crate::proofs::Parts::splice_rules))]
    pub fn part(&self, alloc: Global, place: usize, count: usize) -> Result<DepthSeq, AllocError>
        requires { place + count ≤ length self.now }
        ensures { IfOk result (λ s. s ≡ take count (drop place self.now)) }
    {
        let behind = rest(alloc, &self.root, place)?;
        let root = first(alloc, &behind, count)?;
        Ok(DepthSeq { root })
    }

    /// The depths of two lists, one after the other. All three share them. The only refusal is running out of memory.
    pub fn concat(&self, alloc: Global, other: &DepthSeq) -> Result<DepthSeq, AllocError>
        requires { length self.now + length other.now < 2 ^ 64 }
        ensures { IfOk result (λ s. s ≡ self.now ++ other.now) }
    {
        let root = concat(alloc, &self.root, &other.root)?;
        Ok(DepthSeq { root })
    }
}

// The depths from a place on that are side by side with the one there. The steps are dropped.
fn chunk_of<L: Ledger>(tree: &DepthTree, place: usize, blank: Blank) -> &[u64]
    requires name { blank.name ≡ L.name }
    requires parts { blank.parts ≡ L.parts }
    requires one { 0 < L.parts }
    requires place { place < length (depths tree.now) }
    ensures some { 0 < length result.now }
    ensures within { place + length result.now ≤ length (depths tree.now) }
    ensures items { result.now ++ drop (place + length result.now) (depths tree.now) ≡ drop place (depths tree.now) }
{
    let mut steps: Steps<L> = Steps::new(blank);
    walks::chunk_from(tree, place, &mut steps)
}

// A search whose steps are dropped.
fn counted_search<L: Ledger>(
    seq: &DepthSeq,
    from: usize,
    depth: u64,
    number: u64,
    blank: Blank,
) -> Found
    requires name { blank.name ≡ L.name }
    requires parts { blank.parts ≡ L.parts }
    requires one { 0 < L.parts }
    requires within { from ≤ length seq.now }
    ensures found { result ≡ search depth number from 0 (drop from seq.now) }
    ensures between { EndsBetween from (length seq.now) result }
{
    let mut steps: Steps<L> = Steps::new(blank);
    seq.search(from, depth, number, &mut steps)
}
