//! Edits of the near list, carried to the far one.
ghost use Rattle.std.specs.Prelude.{◌≡◌, ◌<◌, ◌≤◌, ◌++◌, Some, IfOk, IfSome, IfErr, IsOk, OnOk};
ghost use Rattle.std.specs.Prelude.{MatchResult, length};
ghost use Rattle.hold_shapes.specs.Plans.{plan_list};
ghost use Rattle.bridge_links.specs.Links.{link_at, same_places, far_planned, near_planned};
ghost use Rattle.bridge_lists.specs.Carried.{carried, carried_ins, carried_move, carried_del, moved_from, far_place};
ghost use Rattle.bridge_lists.specs.Carried.{del_edit};
ghost use Rattle.bridge_lists.specs.Refusals.{IsCarryRefusal, IsMoveRefusal, IsPlanRefusal};

use crate::bridge::{ListBridge, longer};
use crate::moves::{both_moved, far_place, gap_for, move_edits, put_at};
use crate::parking::park_last;
use bridge_links::Links;
use hold_shapes::{Held, ListShape, PlanFault, ShapeEdit};
use std::alloc::{AllocError, Global};

/// An edit of the near list, carried to the far one.
#[derive(Debug, Drop)]
pub struct CarriedEdits {
    /// What the edit is for the far list: edits, to be made one after another.
    pub edits: Vec<ShapeEdit>,
    /// The bridge between both lists after them.
    pub bridge: ListBridge,
}

/// Why an edit of the near list is not carried to the far one.
#[derive(Clone, Copy, Debug, PartialEq, Eq)]
pub enum CarryFault {
    /// The far list does not have the item that the edit moves.
    Gone,
    /// The edit has no plan for the near list, for this cause; or memory ran out, which is a cause here.
    NoPlan(PlanFault),
}

impl From<AllocError> for CarryFault {
    ghost use Rattle.std.specs.Prelude.{◌≡◌};
    ghost use Rattle.hold_shapes.specs.declared.plan.PlanFault.TheVariants.{NoMemory};
    ghost use Rattle.bridge_lists.specs.declared.carry.CarryFault.TheVariants.{NoPlan};

    ghost from_gives = { λ _ fault. fault ≡ NoPlan NoMemory };

    fn from(_: AllocError) -> CarryFault {
        CarryFault::NoPlan(PlanFault::NoMemory)
    }
}

impl ListBridge {
    /// An edit of the near list, carried to the far one: an insertion, a deletion, a move or a reorder.
    ///
    /// - `planned`: it is carried only if it has a plan for the near list.
    /// - `carried`: what it is for the far list, and the bridge afterwards.
    /// - `refused`: `Gone` comes if and only if the edit has a plan for the near list, and moves an item that the far
    ///   list does not have. `NoPlan` has the cause for which the edit has no plan, or `NoMemory` if memory ran out. A
    ///   number that does not fit in 64 bits is refused so.
    #[tactic(auto, using(crate::proofs::Edits::planned_rules))]
    pub fn carry(&self, alloc: Global, edit: &ShapeEdit) -> Result<CarriedEdits, CarryFault>
        ensures planned { IfOk result (λ it. IsOk (plan_list (length self.now.0) edit.now)) }
        ensures carried { IfOk result (λ it. carried edit.now self.now.1 self.now.0
            ≡ Some (it.edits.items, it.bridge.0, it.bridge.1)) }
        ensures refused { IfErr result (λ fault.
            IsCarryRefusal (length self.now.0) edit.now (carried edit.now self.now.1 self.now.0) fault) }
    {
        check_plan(alloc, self.links.len(), edit)?;
        match edit {
            ShapeEdit::Ins(count) => Ok(self.carry_insertion(alloc, *count)?),
            ShapeEdit::Del(count) => Ok(self.carry_deletion(alloc, *count)?),
            ShapeEdit::MoveItem(from, to) => self.carry_move(alloc, *from, *to),
            ShapeEdit::Reorder(places) => Ok(self.carry_reorder(alloc, places)?),
            _ => Err(CarryFault::NoPlan(PlanFault::Kind)),
        }
    }

    /// The far place of an item of the near list, where a change of its content is carried to.
    ///
    /// None if and only if the far list does not have the item, or the near one has no such place.
    pub fn far_place(&self, at: u64) -> Option<u64>
        ensures place { result ≡ far_place self.now.1 (link_at self.now.0 at) }
        ensures below { IfSome result (λ place. place < self.now.1) }
    {
        far_place(&self.links, self.far, at)
    }

    // Items more at the end of the near list, carried: as many at the end of the far one. A number that does not fit in
    // 64 bits is refused as running out of memory.
    fn carry_insertion(&self, alloc: Global, count: u32) -> Result<CarriedEdits, AllocError>
        ensures edits { IfOk result (λ it.
            it.edits.items ≡ (carried_ins count self.now.1 self.now.0).0) }
        ensures links { IfOk result (λ it.
            it.bridge.0 ≡ (carried_ins count self.now.1 self.now.0).1) }
        ensures size { IfOk result (λ it.
            it.bridge.1 ≡ (carried_ins count self.now.1 self.now.0).2) }
    {
        let Some(far) = self.far.checked_add(count as u64) else {
            return Err(AllocError);
        };
        let near_plan = longer(alloc, self.links.len(), count as u64)?;
        let far_plan = longer(alloc, self.far, count as u64)?;
        let moved = self.links.after_far(alloc, &far_plan)?;
        let links = moved.after_near(alloc, &near_plan, self.far)?;
        let mut edits = Vec::new(alloc);
        edits.push(ShapeEdit::Ins(count))?;
        Ok(CarriedEdits {
            edits,
            bridge: ListBridge { links, far },
        })
    }

    // A move of an item of the near list, carried: the item is moved in front of the next one that the far list has
    // where it was. It is refused if and only if the far list does not have the item.
    #[tactic(auto, using(crate::proofs::Steps::carry_rules))]
    fn carry_move(&self, alloc: Global, from: u64, to: u64) -> Result<CarriedEdits, CarryFault>
        requires old { from < length self.now.0 }
        requires new { to < length self.now.0 }
        ensures { MatchResult result
            (λ it. carried_move from to self.now.1 self.now.0 ≡ Some (it.edits.items, it.bridge.0, it.bridge.1))
            (λ fault. IsMoveRefusal (carried_move from to self.now.1 self.now.0) fault) }
    {
        match far_place(&self.links, self.far, from) {
            Some(place) => Ok(self.carry_move_from(alloc, from, to, place)?),
            None => Err(CarryFault::Gone),
        }
    }

    // That move, where the item is at a place of the far list.
    #[tactic(auto, using(crate::proofs::Steps::move_rules))]
    fn carry_move_from(
        &self,
        alloc: Global,
        from: u64,
        to: u64,
        place: u64,
    ) -> Result<CarriedEdits, AllocError>
        requires old { from < length self.now.0 }
        requires new { to < length self.now.0 }
        requires far { place < self.now.1 }
        ensures { IfOk result (λ it.
            (it.edits.items, it.bridge.0, it.bridge.1) ≡ moved_from from to self.now.1 self.now.0 place) }
    {
        let far = self.far;
        if from == to {
            let links = self.links.copy(alloc)?;
            let bridge = ListBridge { links, far };
            let edits = Vec::new(alloc);
            return Ok(CarriedEdits { edits, bridge });
        }
        let put = put_at(alloc, &self.links, from, to)?;
        let gap = gap_for(far, to, &put, place);
        let links = both_moved(alloc, &self.links, far, place, gap, from, to)?;
        let edits = move_edits(alloc, place, gap)?;
        let bridge = ListBridge { links, far };
        Ok(CarriedEdits { edits, bridge })
    }

    // The last items of the near list are removed, carried: those of them that the far list has are moved to its end,
    // and removed there.
    fn carry_deletion(&self, alloc: Global, count: u32) -> Result<CarriedEdits, AllocError>
        requires { count ≤ length self.now.0 }
        ensures edits { IfOk result (λ it.
            it.edits.items ≡ (carried_del count self.now.1 self.now.0).0) }
        ensures links { IfOk result (λ it.
            it.bridge.0 ≡ (carried_del count self.now.1 self.now.0).1) }
        ensures size { IfOk result (λ it.
            it.bridge.1 ≡ (carried_del count self.now.1 self.now.0).2) }
    {
        let before = self.links.copy(alloc)?;
        let parked = park_last(alloc, before, self.far, count as u64)?;
        let far = parked.free;
        let mut edits = parked.edits;
        push_deletion(&mut edits, (self.far - far) as u32)?;
        let near = self.links.len() - count as u64;
        let links = first_links(alloc, &parked.links, far, near)?;
        let bridge = ListBridge { links, far };
        Ok(CarriedEdits { edits, bridge })
    }
}

// The links after all but the first items of both lists are removed.
fn first_links(alloc: Global, links: &Links, far: u64, near: u64) -> Result<Links, AllocError>
    ensures { IfOk result (λ first.
        first ≡ near_planned 0 (same_places near) (far_planned (same_places far) links.now)) }
{
    let far_plan = Links::same(alloc, far)?;
    let near_plan = Links::same(alloc, near)?;
    let moved = links.after_far(alloc, &far_plan)?;
    moved.after_near(alloc, &near_plan, 0)
}

// Puts behind edits one that removes the last items, unless there are none.
#[tactic(auto, using(crate::proofs::Steps::edit_rules))]
fn push_deletion(edits: &mut Vec<ShapeEdit>, count: u32) -> Result<(), AllocError>
    ensures { OnOk result (edits.new.items ≡ edits.old.items ++ del_edit count) }
{
    if count == 0 {
        return Ok(());
    }
    edits.push(ShapeEdit::Del(count))?;
    Ok(())
}

// Whether an edit has a plan for a list of so many items.
fn check_plan(alloc: Global, size: u64, edit: &ShapeEdit) -> Result<(), CarryFault>
    ensures planned { OnOk result (IsOk (plan_list size edit.now)) }
    ensures refused { IfErr result (λ fault. IsPlanRefusal (plan_list size edit.now) fault) }
{
    let list = ListShape { count: size };
    match list.plan(alloc, edit) {
        Ok(_) => Ok(()),
        Err(fault) => Err(CarryFault::NoPlan(fault)),
    }
}
