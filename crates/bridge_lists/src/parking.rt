//! Far items that are to go, moved to the end of the far list.
ghost use Rattle.std.specs.Prelude.{◌≡◌, ◌<◌, ◌≤◌, ◌+◌, ◌-◌, ◌++◌, IfOk, length};
ghost use Rattle.bridge_links.specs.Links.{link_at};
ghost use Rattle.bridge_lists.specs.Carried.{far_place, park_edits, park_links, park_free, parked, behind};

use crate::moves::{far_moved, far_place, push_move};
use bridge_links::Links;
use hold_shapes::ShapeEdit;
use std::alloc::{AllocError, Global};

/// The links after far items were moved to the end, and how many far items are in front of these.
#[derive(Debug, Drop)]
pub(crate) struct Parked {
    /// The links.
    pub(crate) links: Links,
    /// How many far items are in front.
    pub(crate) free: u64,
}

/// Edits that move far items to the end, and what is after them.
#[derive(Debug, Drop)]
pub(crate) struct ParkedLast {
    /// The edits.
    pub(crate) edits: Vec<ShapeEdit>,
    /// The links.
    pub(crate) links: Links,
    /// How many far items are in front.
    pub(crate) free: u64,
}

/// Moves the far items of the last near ones to the end of the far list, each in front of those before it.
#[tactic(auto, using(crate::proofs::Steps::behind_rules))]
pub(crate) fn park_last(
    alloc: Global,
    before: Links,
    far: u64,
    count: u64,
) -> Result<ParkedLast, AllocError>
    requires { count ≤ length before }
    ensures edits { IfOk result (λ it.
        it.edits.items ≡ (parked far (length before) count far before).0) }
    ensures links { IfOk result (λ it. it.links ≡ (parked far (length before) count far before).1) }
    ensures free { IfOk result (λ it. it.free ≡ (parked far (length before) count far before).2) }
    ensures within { IfOk result (λ it. it.free ≤ far) }
    ensures few { IfOk result (λ it. far ≤ it.free + count) }
{
    let mut edits = Vec::new(alloc);
    let parked = park(alloc, &mut edits, before, far, count)?;
    Ok(ParkedLast {
        edits,
        links: parked.links,
        free: parked.free,
    })
}

// The same, with the edits behind others.
#[tactic(auto, using(crate::proofs::Steps::park_rules))]
fn park(
    alloc: Global,
    edits: &mut Vec<ShapeEdit>,
    before: Links,
    far: u64,
    count: u64,
) -> Result<Parked, AllocError>
    requires { count ≤ length before }
    ensures value { IfOk result (λ it. (edits.new.items, it.links, it.free)
        ≡ behind edits.old.items (parked far (length before) count far before)) }
    ensures within { IfOk result (λ it. it.free ≤ far) }
    ensures few { IfOk result (λ it. far ≤ it.free + count) }
{
    let size = before.len();
    let mut links = before;
    let mut free = far;
    for k in 0..count {
        let next = park_one(alloc, edits, links, far, free, size - k - 1)?;
        links = next.links;
        free = next.free;
    }
    Ok(Parked { links, free })
}

// Moves the far item of one near item behind the others that are in front.
fn park_one(
    alloc: Global,
    edits: &mut Vec<ShapeEdit>,
    links: Links,
    far: u64,
    free: u64,
    at: u64,
) -> Result<Parked, AllocError>
    requires { free ≤ far }
    ensures edits { IfOk result (λ it.
        edits.new.items ≡ edits.old.items ++ park_edits free (far_place far (link_at links at))) }
    ensures links { IfOk result (λ it.
        it.links ≡ park_links far free links (far_place far (link_at links at))) }
    ensures free { IfOk result (λ it. it.free ≡ park_free free (far_place far (link_at links at))) }
    ensures within { IfOk result (λ it. it.free ≤ far) }
    ensures few { IfOk result (λ it. free ≤ it.free + 1) }
{
    let Some(place) = far_place(&links, far, at) else {
        return Ok(Parked { links, free });
    };
    let to = free.saturating_sub(1);
    push_move(edits, place, to)?;
    let links = far_moved(alloc, &links, far, place, to)?;
    Ok(Parked { links, free: to })
}
