//! Beginning the translation of one primitive of a container.

ghost use Rattle.std.specs.Prelude.{◌≡◌, IfOk, MatchResult, Some, option_map};
ghost use Rattle.hold_shapes.specs.Causes.{IsRefusal};
ghost use Rattle.hold_shapes.specs.Plans.{plan, Planned};
ghost use Rattle.hold_shapes.specs.Shapes.{size_of};
ghost use Rattle.hold_shapes.specs.declared.edit.ShapeEdit.{ShapeEdit};
ghost use Rattle.edit_module.specs.Views.{primitive_tree, word_tree};
ghost use Rattle.lens_core.specs.Beginnings.{begun_tree, finished, IsBeginFault};
ghost use Rattle.lens_core.specs.Complements.{CompTree, CompTrees, comp_tree, comps_tree, comp_count};
ghost use Rattle.lens_core.specs.Emitted.{shape_word};
ghost use Rattle.lens_core.specs.Translation.{gathered_comps};
ghost use Rattle.container_lens.specs.HeldSteps.{begin_mod, begin_reshaped, begin_held};

use crate::places::{any_shape, place_in};
use edit_module::Word;
use edit_module::word::Primitive;
use hold_shapes::{Held, Place, PlanFault, Shape, ShapeEdit};
use law_shapes::plans_are_lawful;
use lens_core::{Begun, Carried, CarryFault, Comp, Comps};
use std::alloc::{AllocError, Global};
use texts::Twin;

/// Begins the translation of one primitive through a lens that is mapped over a container, with the complement of each
/// place. `start` is the missing complement of the lens inside.
///
/// Mod of a place needs the lens inside: the result has a copy of the complement of the place and the word to
/// translate. The number of the lens is 0, since a container has one. It takes the time of the path to the place. A
/// shape edit with a plan is finished: the result is the same edit, with the complements gathered by the plan, and
/// `start` at each fresh place.
///
/// - `Unfit`: if and only if there is no such beginning: for other primitives, for a place or an edit of another kind
///   of shape, for a place that the shape does not have, for an edit that has no plan, and where the number of
///   complements is not that of the places.
/// - `NoMemory`: only if memory ran out.
///
/// The arguments stay as they are.
pub fn hold_begin<H: Held>(
    alloc: Global,
    shape: &H,
    comps: &Comps,
    prim: &Primitive,
    start: &Comp,
) -> Result<Begun, CarryFault>
    ensures { MatchResult result
        (λ b. begin_held (comp_tree start.now) (H.shape_of shape.now) (comps_tree comps.now) (primitive_tree prim.now)
        ≡ Some (begun_tree b))
        (IsBeginFault (begin_held (comp_tree start.now) (H.shape_of shape.now) (comps_tree comps.now)
        (primitive_tree prim.now))) }
{
    if comps.len() as u64 != shape.size() {
        return Err(CarryFault::Unfit);
    }
    let shape = any_shape(alloc, shape)?;
    match prim {
        Primitive::Mod(place, word) => begin_mod(alloc, &shape, comps, place, word),
        Primitive::Shape(edit) => begin_reshaped(alloc, &shape, comps, edit, start),
        _ => Err(CarryFault::Unfit),
    }
}

// The word of a place, with the complement there.
fn begin_mod(
    alloc: Global,
    shape: &Shape,
    comps: &Comps,
    place: &Place,
    word: &Word,
) -> Result<Begun, CarryFault>
    requires { comp_count (comps_tree comps.now) ≡ size_of shape.now }
    ensures { MatchResult result
        (λ b. begin_mod shape.now (comps_tree comps.now) place.now (word_tree word.now) ≡ Some (begun_tree b))
        (IsBeginFault (begin_mod shape.now (comps_tree comps.now) place.now (word_tree word.now))) }
{
    let Some(at) = place_in(shape, place) else {
        return Err(CarryFault::Unfit);
    };
    Ok(Begun::Inner {
        part: 0,
        comp: comps.get(at as usize).twin(alloc)?,
        word: word.twin(alloc)?,
    })
}

// The same edit, with the complements gathered by its plan.
#[tactic(auto, using(crate::proofs::HeldSteps::plan_rules))]
fn begin_reshaped(
    alloc: Global,
    shape: &Shape,
    comps: &Comps,
    edit: &ShapeEdit,
    start: &Comp,
) -> Result<Begun, CarryFault>
    requires { comp_count (comps_tree comps.now) ≡ size_of shape.now }
    ensures { MatchResult result
        (λ b. begin_reshaped (comp_tree start.now) shape.now (comps_tree comps.now) edit.now ≡ Some (begun_tree b))
        (IsBeginFault (begin_reshaped (comp_tree start.now) shape.now (comps_tree comps.now) edit.now)) }
{
    plans_are_lawful(shape, edit);
    match shape.plan(alloc, edit) {
        Ok(plan) => {
            let comps = comps.gathered(alloc, &plan.from, start)?;
            let word = shape_word(alloc, edit)?;
            let comp = Comp::Hold(plan.shape, comps);
            Ok(Begun::Done(Carried { word, comp }))
        }
        Err(fault) => Err(no_plan(fault)),
    }
}

// A word of this shape edit alone.
#[tactic(auto, using(crate::proofs::HeldSteps::word_rules))]
fn shape_word(alloc: Global, edit: &ShapeEdit) -> Result<Word, AllocError>
    ensures { IfOk result (λ w. word_tree w ≡ shape_word edit.now) }
{
    let edit = Primitive::Shape(edit.twin(alloc)?);
    Ok(Word::from_vec(vec![in alloc; edit]?))
}

// An edit that has no plan does not fit.
fn no_plan(fault: PlanFault) -> CarryFault
    ensures { (planned : Planned) (start : CompTree) (cs : CompTrees) (e : ShapeEdit) → IsRefusal planned fault
        → IsBeginFault (option_map (λ r. finished r) (gathered_comps cs start planned e)) result }
{
    match fault {
        PlanFault::NoMemory => CarryFault::NoMemory,
        PlanFault::Kind => CarryFault::Unfit,
        PlanFault::Place => CarryFault::Unfit,
        PlanFault::Range => CarryFault::Unfit,
        PlanFault::Present => CarryFault::Unfit,
        PlanFault::Length => CarryFault::Unfit,
        PlanFault::Deep => CarryFault::Unfit,
    }
}
