//! Any edit of the far list.
ghost use Rattle.std.specs.Prelude.{◌≡◌, IfOk, IfErr, IsOk};
ghost use Rattle.hold_shapes.specs.Causes.{IsRefusal};
ghost use Rattle.hold_shapes.specs.Plans.{plan_list};
ghost use Rattle.bridge_lists.specs.Carried.{led_on};

use crate::bridge::ListBridge;
use hold_shapes::{Held, ListShape, PlanFault, ShapeEdit};
use std::alloc::Global;

impl ListBridge {
    /// The bridge after an edit of the far list: an insertion, a deletion, a move or a reorder.
    ///
    /// - `planned`: there is one only if the edit has a plan for the far list.
    /// - `led`: the links after it, and the size of the far list.
    /// - `refused`: the cause for which the edit has no plan, or `NoMemory` if memory ran out. A number that does not
    ///   fit in 64 bits is refused so.
    #[tactic(auto, using(crate::proofs::Edits::planned_rules))]
    pub fn after_edit(&self, alloc: Global, edit: &ShapeEdit) -> Result<ListBridge, PlanFault>
        ensures planned { IfOk result (λ bridge. IsOk (plan_list self.now.1 edit.now)) }
        ensures led { IfOk result (λ bridge. bridge ≡ led_on edit.now self.now) }
        ensures refused { IfErr result (λ fault. IsRefusal (plan_list self.now.1 edit.now) fault) }
    {
        let list = ListShape { count: self.far };
        match list.plan(alloc, edit) {
            Ok(_) => self.after_planned(alloc, edit),
            Err(fault) => Err(fault),
        }
    }

    // The same, of an edit that has a plan; only memory may run out.
    #[tactic(auto, using(crate::proofs::Edits::planned_rules))]
    fn after_planned(&self, alloc: Global, edit: &ShapeEdit) -> Result<ListBridge, PlanFault>
        requires { IsOk (plan_list self.now.1 edit.now) }
        ensures led { IfOk result (λ bridge. bridge ≡ led_on edit.now self.now) }
        ensures refused { IfErr result (λ fault. IsRefusal (plan_list self.now.1 edit.now) fault) }
    {
        match edit {
            ShapeEdit::Ins(count) => Ok(self.after_insertion(alloc, *count as u64)?),
            ShapeEdit::Del(count) => Ok(self.after_deletion(alloc, *count as u64)?),
            ShapeEdit::MoveItem(from, to) => Ok(self.after_move(alloc, *from, *to)?),
            ShapeEdit::Reorder(places) => Ok(self.after_reorder(alloc, places)?),
            _ => Err(PlanFault::Kind),
        }
    }
}
