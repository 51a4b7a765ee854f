//! Translating one primitive through a lens that keeps nothing.

ghost use Rattle.std.specs.Prelude.{◌≡◌, IsTrue, Some, MatchResult};
ghost use Rattle.edit_module.specs.Views.{primitive_tree};
ghost use Rattle.lens_forms.specs.Forms.{form_tree};
ghost use Rattle.lens_core.specs.Complements.{comp_tree};
ghost use Rattle.lens_core.specs.Leaves.{is_leaf};
ghost use Rattle.lens_core.specs.Translation.{translate_one, carried_tree, IsCarryFault};

use edit_module::word::Primitive;
use lens_core::{Carried, CarryFault, Comp, leaf_step};
use lens_forms::Form;
use std::alloc::Global;
use texts::Side;

/// Translates one primitive of a side through an identity, a bijection or a disconnection.
///
/// - `Unfit`: if and only if the translation has no value; so for every complement but Nil.
/// - `NoMemory`: only if memory ran out.
///
/// The arguments stay as they are.
pub fn carry_leaf(
    alloc: Global,
    form: &Form,
    side: Side,
    comp: &Comp,
    prim: &Primitive,
) -> Result<Carried, CarryFault>
    requires { IsTrue (is_leaf (form_tree form.now)) }
    ensures { MatchResult result
        (λ r. translate_one (form_tree form.now) side (comp_tree comp.now) (primitive_tree prim.now)
        ≡ Some (carried_tree r))
        (IsCarryFault (translate_one (form_tree form.now) side (comp_tree comp.now) (primitive_tree prim.now))) }
{
    match comp {
        Comp::Nil => leaf_step(alloc, form, side, prim),
        _ => Err(CarryFault::Unfit),
    }
}
