//! The bridges of the last changes.

ghost use Rattle.std.specs.Prelude.{◌≡◌, ◌<◌, ◌+◌, ◌++◌, ◌∷◌, [], ◌^◌, ◌-◌, length, min, drop, OnOk, OnErr, option_map};
ghost use Rattle.bridge_core.specs.Bridges.{bridge_tree};
ghost use Rattle.based_session.specs.Bases.{bridge_on, since, newest};
ghost use Rattle.based_session.specs.KeptViews.{KeepsSame, kept_tree, kept_trees};

use bridge_core::Bridge;
use std::alloc::{AllocError, Global};
use texts::Side;

// The bridges by which a change led both documents on.
#[derive(Drop)]
pub(crate) struct Kept {
    pub(crate) left: Bridge,
    pub(crate) right: Bridge,
}

// What is kept of the last changes, the oldest first.
#[derive(Drop)]
pub(crate) struct Window {
    pub(crate) kept: Vec<Kept>,
    // How many changes there were.
    pub(crate) number: u64,
    // For how many changes bridges are kept.
    pub(crate) width: u64,
}

impl Kept {
    // The bridge of the document of a side.
    pub(crate) fn on(&self, side: Side) -> &Bridge
        ensures { bridge_tree result.now ≡ bridge_on side (kept_tree self.now) }
    {
        match side {
            Side::Left => &self.left,
            Side::Right => &self.right,
        }
    }
}

impl Window {
    // Nothing is kept before the first change. Does not allocate.
    pub(crate) fn start(alloc: Global, width: u64) -> Window
        ensures kept { kept_trees result ≡ [] }
        ensures number { result.number ≡ 0 }
        ensures width { result.width ≡ width }
    {
        Window {
            kept: Vec::new(alloc),
            number: 0,
            width,
        }
    }

    // The place of the first change behind a base. None where the base is above the number of changes or too old.
    pub(crate) fn since(&self, base: u64) -> Option<usize>
        requires filled { length self.now.kept.items ≡ min self.now.number self.now.width }
        ensures { option_map (λ n. drop n (kept_trees self.now)) result
            ≡ since base self.now.number self.now.width (kept_trees self.now) }
    {
        if base > self.number {
            return None;
        }
        let behind = self.number - base;
        if behind > self.width {
            return None;
        }
        Some(self.kept.len() - behind as usize)
    }

    // Keeps the bridges of one more change; the oldest fall out where there are too many.
    pub(crate) fn push(&mut self, kept: Kept) -> Result<(), AllocError>
        requires filled { length self.old.kept.items ≡ min self.old.number self.old.width }
        requires room { self.old.number < 2 ^ 64 - 1 }
        ensures kept { OnOk result (kept_trees self.new
            ≡ newest self.old.width (kept_trees self.old ++ kept_tree kept ∷ [])) }
        ensures number { OnOk result (self.new.number ≡ self.old.number + 1) }
        ensures width { OnOk result (self.new.width ≡ self.old.width) }
        ensures filled { OnOk result (length self.new.kept.items ≡ min self.new.number self.new.width) }
        ensures unchanged { OnErr result (KeepsSame self.new self.old) }
    {
        self.kept.push(kept)?;
        if self.kept.len() as u64 > self.width {
            drop(self.kept.remove(0));
        }
        self.number += 1;
        Ok(())
    }
}
