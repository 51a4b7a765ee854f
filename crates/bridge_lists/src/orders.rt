//! Another order of the near list, carried to the far one.
ghost use Rattle.std.specs.Prelude.{◌≡◌, ◌<◌, ◌≤◌, ◌+◌, ◌++◌, ◌∷◌, [], ℕ, true, false, IfOk, OnOk, length, map, drop};
ghost use Rattle.std.specs.Prelude.{slice_index_or, slice_set};
ghost use Rattle.hold_shapes.specs.Plans.{has_number};
ghost use Rattle.bridge_links.specs.declared.link.Link.TheVariants.{Moved};
ghost use Rattle.bridge_lists.specs.Carried.{with_first, far_places, slot, slots_left, slots, far_order, is_range};
ghost use Rattle.bridge_lists.specs.Carried.{order_edit, carried_reorder};

use crate::bridge::{ListBridge, ordered};
use crate::carry::CarriedEdits;
use crate::moves::far_place;
use bridge_links::{Link, Links};
use hold_shapes::{Places, ShapeEdit};
use std::alloc::{AllocError, Global};

impl ListBridge {
    /// Another order of the near list, carried: the far items that the near list has too stand in that order, at the
    /// places that they have among them, and the others stay.
    pub(crate) fn carry_reorder(
        &self,
        alloc: Global,
        places: &Places,
    ) -> Result<CarriedEdits, AllocError>
        ensures edits { IfOk result (λ it.
            it.edits.items ≡ (carried_reorder places.now self.now.1 self.now.0).0) }
        ensures links { IfOk result (λ it.
            it.bridge.0 ≡ (carried_reorder places.now self.now.1 self.now.0).1) }
        ensures size { IfOk result (λ it.
            it.bridge.1 ≡ (carried_reorder places.now self.now.1 self.now.0).2) }
    {
        let far = self.far;
        let order = far_order(alloc, &self.links, places.as_slice(), far)?;
        let far_plan = ordered(alloc, order.as_slice())?;
        let near_plan = moved_order(alloc, places.as_slice())?;
        let moved = self.links.after_far(alloc, &far_plan)?;
        let links = moved.after_near(alloc, &near_plan, 0)?;
        let mut edits = Vec::new(alloc);
        push_order(&mut edits, order)?;
        let bridge = ListBridge { links, far };
        Ok(CarriedEdits { edits, bridge })
    }
}

// The order of the far list: its items that the near list has too stand in the order of these near items, at the places
// that they have among them.
fn far_order(alloc: Global, links: &Links, items: &[u64], far: u64) -> Result<Vec<u64>, AllocError>
    ensures { IfOk result (λ order. order.items ≡ far_order far links.now items.now) }
{
    let mine = far_places(alloc, links, items, far)?;
    let is_mine = marked(alloc, mine.as_slice(), far)?;
    all_slots(alloc, mine.as_slice(), is_mine.as_slice())
}

// The far places of near items, in order.
#[tactic(auto, using(crate::proofs::OrderSteps::place_rules))]
fn far_places(alloc: Global, links: &Links, items: &[u64], far: u64) -> Result<Vec<u64>, AllocError>
    ensures { IfOk result (λ places. places.items ≡ far_places far links.now items.now) }
{
    let mut places = Vec::new(alloc);
    for i in 0..items.len() {
        push_place(&mut places, far_place(links, far, items[i]))?;
    }
    Ok(places)
}

// Puts a place behind others, if there is one.
fn push_place(places: &mut Vec<u64>, place: Option<u64>) -> Result<(), AllocError>
    ensures { OnOk result (places.new.items ≡ places.old.items ++ with_first place []) }
{
    if let Some(there) = place {
        places.push(there)?;
        return Ok(());
    }
    Ok(())
}

// For each of so many places, whether it is among those of a list.
#[tactic(auto, using(crate::proofs::OrderSteps::mark_rules))]
fn marked(alloc: Global, places: &[u64], size: u64) -> Result<Vec<bool>, AllocError>
    ensures size { IfOk result (λ marks. length marks.items ≡ size) }
    ensures marks { IfOk result (λ marks. (k : ℕ) → k < size
        → slice_index_or marks.items k false ≡ has_number k places.now) }
{
    let mut marks = vec![in alloc; false; size as usize]?;
    for i in 0..places.len() {
        mark(&mut marks, places[i]);
    }
    Ok(marks)
}

// Sets the mark of a place, if there is one.
#[tactic(auto, using(crate::proofs::OrderSteps::mark_rules))]
fn mark(marks: &mut Vec<bool>, place: u64)
    ensures { marks.new.items ≡ slice_set marks.old.items place true }
{
    let at = place as usize;
    if at >= marks.len() {
        return;
    }
    marks[at] = true;
}

// What comes to each far place, where the marked ones get the order of the list.
#[tactic(auto, using(crate::proofs::OrderSteps::slots_rules))]
fn all_slots(alloc: Global, mine: &[u64], is_mine: &[bool]) -> Result<Vec<u64>, AllocError>
    requires { (k : ℕ) → k < length is_mine.now
        → slice_index_or is_mine.now k false ≡ has_number k mine.now }
    ensures { IfOk result (λ order. order.items ≡ slots mine.now 0 (length is_mine.now) mine.now) }
{
    let mut order = Vec::new(alloc);
    let mut next = 0;
    for y in 0..is_mine.len() {
        next = push_slot(&mut order, mine, next, y as u64, is_mine[y])?;
    }
    Ok(order)
}

// Puts behind others what comes to a far place: the next one of a list, if the place is marked, and else itself. Gives
// the number of the next one after that.
#[tactic(auto, using(crate::proofs::OrderSteps::slot_rules))]
fn push_slot(
    order: &mut Vec<u64>,
    mine: &[u64],
    next: usize,
    place: u64,
    is_mine: bool,
) -> Result<usize, AllocError>
    requires { next ≤ place }
    ensures pushed { IfOk result (λ after. order.new.items
        ≡ order.old.items ++ slot is_mine place (drop next mine.now) ∷ []) }
    ensures left { IfOk result (λ after.
        drop after mine.now ≡ slots_left is_mine (drop next mine.now)) }
    ensures near { IfOk result (λ after. after ≤ place + 1) }
{
    if !is_mine {
        order.push(place)?;
        return Ok(next);
    }
    if next >= mine.len() {
        order.push(place)?;
        return Ok(next);
    }
    order.push(mine[next])?;
    Ok(next + 1)
}

// The plan of another order, which puts each item where it then is.
fn moved_order(alloc: Global, places: &[u64]) -> Result<Links, AllocError>
    ensures { IfOk result (λ plan. plan ≡ map Moved places.now) }
{
    let mut plan = Links::empty(alloc);
    for place in places {
        plan.push_run(Link::Moved(*place), 1)?;
    }
    Ok(plan)
}

// Whether the places are in their own order.
#[tactic(auto, using(crate::proofs::OrderSteps::range_rules))]
fn is_in_order(places: &[u64]) -> bool
    ensures { result ≡ is_range 0 places.now }
{
    for i in 0..places.len() {
        if places[i] != i as u64 {
            return false;
        }
    }
    true
}

// Puts behind edits that of another order, unless each place is where it was.
#[tactic(auto, using(crate::proofs::OrderSteps::order_rules))]
fn push_order(edits: &mut Vec<ShapeEdit>, order: Vec<u64>) -> Result<(), AllocError>
    ensures { OnOk result (edits.new.items ≡ edits.old.items ++ order_edit order.items) }
{
    if is_in_order(order.as_slice()) {
        return Ok(());
    }
    edits.push(ShapeEdit::Reorder(Places::from_vec(order)))?;
    Ok(())
}
