//! An edit of the shape of a near list, carried to the far one.
ghost use Rattle.std.specs.Prelude.{◌≡◌, ℕ, Ok, Some, IfOk, MatchResult, Option};
ghost use Rattle.hold_shapes.specs.declared.edit.ShapeEdit.{ShapeEdit};
ghost use Rattle.hold_shapes.specs.Causes.{IsRefusal as IsPlanRefusal};
ghost use Rattle.hold_shapes.specs.Plans.{Planned, plan_list};
ghost use Rattle.bridge_lists.specs.Carried.{carried, Carried as ListCarried};
ghost use Rattle.bridge_lists.specs.Refusals.{IsCarryRefusal};
ghost use Rattle.edit_module.specs.Views.{primitive_tree, word_tree};
ghost use Rattle.edit_module.specs.Words.{shape};
ghost use Rattle.bridge_core.specs.Bridges.{BridgeTrees, bridges_tree, bridges_after, linked};
ghost use Rattle.bridge_core.specs.Carried.{carry_shape, carry_planned, shapes};
ghost use Rattle.bridge_core.specs.Refusals.{carried_tree, IsNotCarried};

use crate::bridge::{Bridge, Bridges};
use crate::carried_word::CarriedWord;
use crate::fault::CarryFault;
use bridge_lists::{CarriedEdits, CarryFault as ListFault, ListBridge};
use edit_module::Cause;
use edit_module::word::{Primitive, Word};
use hold_shapes::{Held, ListShape, Origins, PlanFault, ShapeEdit};
use std::alloc::{AllocError, Global};

// An edit of the shape of the near list, as edits of the far one.
pub(crate) fn reshaped(
    alloc: Global,
    links: &ListBridge,
    bridges: &Bridges,
    edit: &ShapeEdit,
) -> Result<CarriedWord, CarryFault>
    ensures { MatchResult result
        (λ it. carry_shape links.now.0 links.now.1 (bridges_tree bridges.now) edit.now ≡ Ok (carried_tree it))
        (λ fault. IsNotCarried (carry_shape links.now.0 links.now.1 (bridges_tree bridges.now) edit.now) fault) }
{
    match links.carry(alloc, edit) {
        Ok(made) => with_plan(alloc, links.links().len(), bridges, edit, made),
        Err(fault) => Err(refusal(fault)),
    }
}

// The same, with what the edit is for the far list.
fn with_plan(
    alloc: Global,
    size: u64,
    bridges: &Bridges,
    edit: &ShapeEdit,
    made: CarriedEdits,
) -> Result<CarriedWord, CarryFault>
    ensures { MatchResult result
        (λ it. carry_planned (plan_list size edit.now) (Some (made.edits.items, made.bridge.0, made.bridge.1))
        (bridges_tree bridges.now) ≡ Ok (carried_tree it))
        (λ fault. IsNotCarried (carry_planned (plan_list size edit.now)
        (Some (made.edits.items, made.bridge.0, made.bridge.1)) (bridges_tree bridges.now)) fault) }
{
    let list = ListShape { count: size };
    match list.plan(alloc, edit) {
        Ok(plan) => Ok(with_bridges(alloc, bridges, &plan.from, made)?),
        Err(fault) => Err(plan_refusal(fault)),
    }
}

// The word of edits, and the bridges of the near items after a plan.
fn with_bridges(
    alloc: Global,
    bridges: &Bridges,
    from: &Origins,
    made: CarriedEdits,
) -> Result<CarriedWord, AllocError>
    ensures { IfOk result (λ it. carried_tree it
        ≡ (
          shapes made.edits.items,
          linked made.bridge.0 made.bridge.1 (bridges_after from.now (bridges_tree bridges.now)),
        )) }
{
    let word = shapes(alloc, made.edits)?;
    let inner = bridges.after(alloc, from)?;
    let bridge = Bridge::with_links(alloc, made.bridge, inner)?;
    Ok(CarriedWord { word, bridge })
}

// The word of edits of a shape, one after another.
fn shapes(alloc: Global, edits: Vec<ShapeEdit>) -> Result<Word, AllocError>
    ensures { IfOk result (λ w. word_tree w ≡ shapes edits.items) }
{
    let mut out = Vec::new(alloc);
    for edit in edits {
        out.push(shape_of(edit))?;
    }
    Ok(Word::from_vec(out))
}

// The primitive of an edit of a shape.
fn shape_of(edit: ShapeEdit) -> Primitive
    ensures { primitive_tree result ≡ shape edit }
{
    Primitive::Shape(edit)
}

// Why an edit of the near list is not carried.
#[tactic(auto, using(crate::proofs::Walks::planned_rules))]
fn refusal(fault: ListFault) -> CarryFault
    ensures { (n : ℕ) (e : ShapeEdit) (o : Option ListCarried) (bs : BridgeTrees) → IsCarryRefusal n e o fault
        → IsNotCarried (carry_planned (plan_list n e) o bs) result }
{
    match fault {
        ListFault::Gone => CarryFault::Gone,
        ListFault::NoPlan(fault) => plan_refusal(fault),
    }
}

// The same cause.
fn plan_refusal(fault: PlanFault) -> CarryFault
    ensures { (planned : Planned) (o : Option ListCarried) (bs : BridgeTrees) → IsPlanRefusal planned fault
        → IsNotCarried (carry_planned planned o bs) result }
{
    match fault {
        PlanFault::Kind => CarryFault::NoApply(Cause::Kind),
        PlanFault::Place => CarryFault::NoApply(Cause::Place),
        PlanFault::Range => CarryFault::NoApply(Cause::Range),
        PlanFault::Present => CarryFault::NoApply(Cause::Present),
        PlanFault::Length => CarryFault::NoApply(Cause::Length),
        PlanFault::Deep => CarryFault::NoApply(Cause::Deep),
        PlanFault::NoMemory => CarryFault::NoMemory,
    }
}
