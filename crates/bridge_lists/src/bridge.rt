//! A bridge between two lists: it begins with one list twice, and both may be edited.
ghost use Rattle.std.specs.Prelude.{◌≡◌, ◌<◌, ◌≤◌, ◌+◌, ◌-◌, IfOk, length, map};
ghost use Rattle.bridge_links.specs.declared.link.Link.TheVariants.{Stays};
ghost use Rattle.bridge_links.specs.Links.{same_places, moved_place, far_planned};
ghost use Rattle.bridge_lists.specs.Carried.{longer};

use bridge_links::{Link, Links};
use hold_shapes::Places;
use std::alloc::{AllocError, Global};
use std::marker::Model;

/// Where the items of a list, the near one, are in another, the far one.
///
/// Contracts see it as the links of the near items, and the size of the far list.
#[derive(Debug, Drop)]
pub struct ListBridge {
    pub(crate) links: Links,
    pub(crate) far: u64,
}

impl Model for ListBridge {
    ghost use Rattle.std.specs.Prelude.{ℕ, List};
    ghost use Rattle.bridge_links.specs.declared.link.Link.{Link};

    ghost Value = { List Link × ℕ };

    ghost view = { λ b. (b.links, b.far) };
}

impl ListBridge {
    /// The bridge between a list of so many items and itself.
    ///
    /// The only refusal is running out of memory.
    pub fn between_the_same(alloc: Global, size: u64) -> Result<Self, AllocError>
        ensures { IfOk result (λ bridge. bridge ≡ (same_places size, size)) }
    {
        Ok(ListBridge {
            links: Links::same(alloc, size)?,
            far: size,
        })
    }

    /// The links of the near items, in order.
    pub fn links(&self) -> &Links
        ensures { result.now ≡ self.now.0 }
    {
        &self.links
    }

    /// How many items the far list has.
    pub fn far_size(&self) -> u64
        ensures { result ≡ self.now.1 }
    {
        self.far
    }

    /// The bridge after so many items more at the end of the far list.
    ///
    /// A number that does not fit in 64 bits is refused as running out of memory, which is the only refusal.
    pub fn after_insertion(&self, alloc: Global, count: u64) -> Result<ListBridge, AllocError>
        ensures { IfOk result (λ bridge. bridge
            ≡ (far_planned (longer self.now.1 count) self.now.0, self.now.1 + count)) }
    {
        let Some(far) = self.far.checked_add(count) else {
            return Err(AllocError);
        };
        let plan = longer(alloc, self.far, count)?;
        let links = self.links.after_far(alloc, &plan)?;
        Ok(ListBridge { links, far })
    }

    /// The bridge after the last items of the far list are removed.
    ///
    /// The only refusal is running out of memory.
    pub fn after_deletion(&self, alloc: Global, count: u64) -> Result<ListBridge, AllocError>
        requires { count ≤ self.now.1 }
        ensures { IfOk result (λ bridge. bridge
            ≡ (far_planned (same_places (self.now.1 - count)) self.now.0, self.now.1 - count)) }
    {
        let far = self.far - count;
        let plan = Links::same(alloc, far)?;
        let links = self.links.after_far(alloc, &plan)?;
        Ok(ListBridge { links, far })
    }

    /// The bridge after an item of the far list is moved to another place of the result.
    ///
    /// The only refusal is running out of memory.
    pub fn after_move(&self, alloc: Global, from: u64, to: u64) -> Result<ListBridge, AllocError>
        requires old { from < self.now.1 }
        requires new { to < self.now.1 }
        ensures { IfOk result (λ bridge. bridge
            ≡ (far_planned (moved_place self.now.1 from to) self.now.0, self.now.1)) }
    {
        let far = self.far;
        let plan = Links::moving(alloc, far, from, to)?;
        let links = self.links.after_far(alloc, &plan)?;
        Ok(ListBridge { links, far })
    }

    /// The bridge after the far list has its items in another order: its item j is the old one at the place that the
    /// list of places has at j.
    ///
    /// The only refusal is running out of memory.
    pub fn after_reorder(&self, alloc: Global, places: &Places) -> Result<ListBridge, AllocError>
        ensures { IfOk result (λ bridge.
            bridge ≡ (far_planned (map Stays places.now) self.now.0, self.now.1)) }
    {
        let plan = ordered(alloc, places.as_slice())?;
        let links = self.links.after_far(alloc, &plan)?;
        let far = self.far;
        Ok(ListBridge { links, far })
    }
}

/// The plan of so many items more at the end of a list.
pub(crate) fn longer(alloc: Global, size: u64, count: u64) -> Result<Links, AllocError>
    ensures { IfOk result (λ plan. plan ≡ longer size count) }
{
    let mut plan = Links::same(alloc, size)?;
    plan.push_run(Link::Gone, count)?;
    Ok(plan)
}

/// The plan of another order.
pub(crate) fn ordered(alloc: Global, places: &[u64]) -> Result<Links, AllocError>
    ensures { IfOk result (λ plan. plan ≡ map Stays places.now) }
{
    let mut plan = Links::empty(alloc);
    for place in places {
        plan.push_run(Link::Stays(*place), 1)?;
    }
    Ok(plan)
}
