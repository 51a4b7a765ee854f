//! Places of the far list, and moves to them.
ghost use Rattle.std.specs.Prelude.{◌≡◌, ◌<◌, ◌++◌, IfSome, IfOk, OnOk, length};
ghost use Rattle.bridge_links.specs.Links.{link_at, far_planned, moved_place};
ghost use Rattle.bridge_lists.specs.Carried.{place_below, far_place, gap_before, gap_for, put_at, move_edit};

use bridge_links::Links;
use hold_shapes::ShapeEdit;
use std::alloc::{AllocError, Global};

/// A place, if a list of this size has it.
#[tactic(auto, using(crate::proofs::Steps::place_rules))]
pub(crate) fn place_below(size: u64, place: Option<u64>) -> Option<u64>
    ensures value { result ≡ place_below size place }
    ensures below { IfSome result (λ place. place < size) }
{
    match place {
        Some(place) if place < size => Some(place),
        _ => None,
    }
}

/// The far place of an item of the near list, if a far list of this size has the item.
pub(crate) fn far_place(links: &Links, size: u64, at: u64) -> Option<u64>
    ensures value { result ≡ far_place size (link_at links.now at) }
    ensures below { IfSome result (λ place. place < size) }
{
    place_below(size, links.get(at).place())
}

/// The place in front of the next item, counted without the one at a place; without a next item, the last place.
#[tactic(auto, using(crate::proofs::Steps::place_rules))]
pub(crate) fn gap_before(size: u64, place: u64, next: Option<u64>) -> u64
    requires place { place < size }
    requires next { IfSome next (λ next. next < size) }
    ensures value { result ≡ gap_before size place next }
    ensures below { result < size }
{
    match next {
        None => size - 1,
        Some(next) => { if next <= place { next } else { next - 1 } }
    }
}

/// The place of the far list in front of the next near item behind a place that the far list has where it was, for the
/// far item at another place.
pub(crate) fn gap_for(size: u64, to: u64, put: &Links, place: u64) -> u64
    requires room { to < length put.now }
    requires place { place < size }
    ensures value { result ≡ gap_for size to put.now place }
    ensures below { result < size }
{
    let _near = put.len();
    gap_before(size, place, place_below(size, put.first_staying(to + 1)))
}

/// The links after an item of the near list is moved.
#[tactic(auto, using(crate::proofs::Steps::put_rules))]
pub(crate) fn put_at(alloc: Global, links: &Links, from: u64, to: u64) -> Result<Links, AllocError>
    requires old { from < length links.now }
    requires new { to < length links.now }
    ensures put { IfOk result (λ put. put ≡ put_at from to links.now) }
    ensures size { IfOk result (λ put. length put ≡ length links.now) }
{
    let plan = Links::moving(alloc, links.len(), from, to)?;
    links.after_near(alloc, &plan, 0)
}

/// The links after an item of the far list is moved.
pub(crate) fn far_moved(
    alloc: Global,
    links: &Links,
    size: u64,
    from: u64,
    to: u64,
) -> Result<Links, AllocError>
    requires old { from < size }
    requires new { to < size }
    ensures moved { IfOk result (λ moved.
        moved ≡ far_planned (moved_place size from to) links.now) }
    ensures size { IfOk result (λ moved. length moved ≡ length links.now) }
{
    let plan = Links::moving(alloc, size, from, to)?;
    links.after_far(alloc, &plan)
}

/// The links after an item of the near list is moved, and before that the far item at a place to a gap.
pub(crate) fn both_moved(
    alloc: Global,
    links: &Links,
    size: u64,
    place: u64,
    gap: u64,
    from: u64,
    to: u64,
) -> Result<Links, AllocError>
    requires place { place < size }
    requires gap { gap < size }
    requires old { from < length links.now }
    requires new { to < length links.now }
    ensures { IfOk result (λ both.
        both ≡ put_at from to (far_planned (moved_place size place gap) links.now)) }
{
    let moved = far_moved(alloc, links, size, place, gap)?;
    put_at(alloc, &moved, from, to)
}

/// The edit that moves an item, unless it is there.
pub(crate) fn move_edits(alloc: Global, from: u64, to: u64) -> Result<Vec<ShapeEdit>, AllocError>
    ensures { IfOk result (λ edits. edits.items ≡ move_edit from to) }
{
    let mut edits = Vec::new(alloc);
    push_move(&mut edits, from, to)?;
    Ok(edits)
}

/// Puts behind edits one that moves an item, unless it is there.
#[tactic(auto, using(crate::proofs::Steps::edit_rules))]
pub(crate) fn push_move(edits: &mut Vec<ShapeEdit>, from: u64, to: u64) -> Result<(), AllocError>
    ensures { OnOk result (edits.new.items ≡ edits.old.items ++ move_edit from to) }
{
    if from == to {
        return Ok(());
    }
    edits.push(ShapeEdit::MoveItem(from, to))?;
    Ok(())
}
