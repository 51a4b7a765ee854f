//! The list of tags.

ghost use Rattle.std.specs.Prelude.{◌≡◌, ◌<◌, ◌≤◌, ◌+◌, ◌-◌, ◌*◌, ◌^◌, ◌++◌, ◌↔◌, ℕ, [], length, take, replicate};
ghost use Rattle.std.specs.Prelude.{slice_index, slice_set, IfOk, OnOk, OnErr, IsErr, IsSome};
ghost use Rattle.tag_seq.specs.Tags.{count, rank, place, moved, are_below};

use crate::node::TagTree;
use crate::node::cutting::first;
use crate::node::joining::join;
use crate::node::making::{build, repeat};
use crate::node::moving::move_tag;
use crate::node::setting::{Exchange, set};
use crate::steps::Steps;
use crate::walks;
use std::alloc::{AllocError, Global};
use std::marker::Model;
use std::sync::ledger::Ledger;

/// A list of tags, kept as a height-balanced tree whose copies share. Contracts see it as the list.
#[derive(Drop)]
pub struct TagSeq {
    pub(crate) root: TagTree,
    pub(crate) len: u64,
    pub(crate) alloc: Global,
}

impl Model for TagSeq {
    ghost use Rattle.std.specs.Prelude.{◌≡◌, List, ℕ, length};

    ghost Value = { List ℕ };

    ghost use Rattle.tag_seq.specs.Trees.{tags};

    ghost view = { λ a. tags a.root };

    ghost invariant = { λ a. a.len ≡ length (tags a.root) };
}

impl TagSeq {
    /// No tags. Does not allocate; the list keeps the allocator for its changes.
    pub fn new(alloc: Global) -> TagSeq
        ensures { result ≡ [] }
    {
        TagSeq {
            root: TagTree::Empty,
            len: 0,
            alloc,
        }
    }

    /// These tags, in time linear in their number.
    pub fn from_list(alloc: Global, list: &[u32]) -> Result<TagSeq, AllocError>
        ensures { IfOk result (λ s. s ≡ list.now) }
    {
        let root = build(alloc, list)?;
        let len = list.len() as u64;
        Ok(TagSeq { root, len, alloc })
    }

    /// The same list, in constant time: the copy shares the whole tree.
    pub fn twin(&self) -> Result<TagSeq, AllocError>
        ensures { IfOk result (λ s. s ≡ self.now) }
    {
        let root = self.root.share()?;
        Ok(TagSeq {
            root,
            len: self.len,
            alloc: self.alloc,
        })
    }

    /// The number of tags. Does not allocate.
    pub fn len(&self) -> u64
        ensures { result ≡ length self.now }
    {
        self.len
    }

    /// The tag at a place, which is below the length. Does not allocate. With n tags, n below 2^d, it takes at most 2d
    /// steps.
    pub fn tag_at<L: Ledger>(&self, at: u64, steps: &mut Steps<L>) -> u32
        requires { at < length self.now }
        ensures tag { result ≡ slice_index self.now at }
        ensures steps { (d : ℕ) → length self.now < 2 ^ d → steps.new ≤ steps.old + 2 * d }
    {
        let _height = self.root.height();
        walks::tag_at(&self.root, at, steps)
    }

    /// How often a tag occurs before a place, which is at most the length. Does not allocate. With n tags, n below 2^d,
    /// it takes at most 2d steps.
    pub fn rank<L: Ledger>(&self, tag: u32, upto: u64, steps: &mut Steps<L>) -> u64
        requires { upto ≤ length self.now }
        ensures rank { result ≡ rank tag upto self.now }
        ensures steps { (d : ℕ) → length self.now < 2 ^ d → steps.new ≤ steps.old + 2 * d }
    {
        let _height = self.root.height();
        walks::rank(&self.root, tag, upto, steps)
    }

    /// The place of the occurrence number k, from 0, of a tag. None exactly when there are at most k. Does not
    /// allocate. With n tags, n below 2^d, it takes at most 2d steps.
    pub fn select<L: Ledger>(&self, tag: u32, k: u64, steps: &mut Steps<L>) -> Option<u64>
        ensures place { result ≡ place tag k self.now }
        ensures found { IsSome result ↔ (k < count tag self.now) }
        ensures steps { (d : ℕ) → length self.now < 2 ^ d → steps.new ≤ steps.old + 2 * d }
    {
        let _height = self.root.height();
        walks::select(&self.root, tag, k, steps)
    }

    /// Whether every tag is below a bound. Does not allocate, and goes down one edge of the tree.
    pub fn is_below(&self, bound: u32) -> bool
        ensures { result ≡ are_below bound self.now }
    {
        self.root.is_below(bound)
    }

    /// Puts a tag at a place, which is below the length, in place of the one there. Only running out of memory is
    /// refused; the list is then as it was.
    pub fn set_tag(&mut self, at: u64, tag: u32) -> Result<(), AllocError>
        requires { at < length self.old }
        ensures done { OnOk result (self.new ≡ slice_set self.old at tag) }
        ensures kept { OnErr result (self.new ≡ self.old) }
    {
        let Exchange { tree, old: _ } = set(self.alloc, &self.root, at, tag)?;
        self.root = tree;
        Ok(())
    }

    /// Drops the last `count` tags, which are no more than there are. Only running out of memory is refused;
    /// the list is then as it was.
    pub fn cut_last(&mut self, count: u64) -> Result<(), AllocError>
        requires { count ≤ length self.old }
        ensures done { OnOk result (self.new ≡ take (length self.old - count) self.old) }
        ensures kept { OnErr result (self.new ≡ self.old) }
    {
        let len = self.len - count;
        let root = first(self.alloc, &self.root, len)?;
        self.root = root;
        self.len = len;
        Ok(())
    }

    /// Appends `count` of one tag. Only running out of memory is refused, which is also said where the length would not
    /// fit in a `u64`; the list is then as it was.
    pub fn push_many(&mut self, tag: u32, count: u64) -> Result<(), AllocError>
        ensures done { OnOk result (self.new ≡ self.old ++ replicate count tag) }
        ensures too_long { 2 ^ 64 ≤ length self.old + count → IsErr result }
        ensures kept { OnErr result (self.new ≡ self.old) }
    {
        let Some(len) = self.len.checked_add(count) else {
            return Err(AllocError);
        };
        if count == 0 {
            return Ok(());
        }
        let more = repeat(self.alloc, tag, count - 1)?;
        let before = self.root.total(self.alloc)?;
        let root = join(self.alloc, &self.root, before, tag, &more)?;
        self.root = root;
        self.len = len;
        Ok(())
    }

    /// Takes the tag at one place out and puts it at another place of what is left. Both places are below the length.
    /// Only running out of memory is refused; the list is then as it was.
    pub fn move_one(&mut self, from: u64, to: u64) -> Result<(), AllocError>
        requires from { from < length self.old }
        requires to { to < length self.old }
        ensures done { OnOk result (self.new ≡ moved from to self.old) }
        ensures kept { OnErr result (self.new ≡ self.old) }
    {
        let root = move_tag(self.alloc, &self.root, from, to)?;
        self.root = root;
        Ok(())
    }
}
