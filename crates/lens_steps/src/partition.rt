//! Translating one primitive through a partition.

ghost use Rattle.std.specs.Prelude.{◌≡◌, Some, MatchResult};
ghost use Rattle.doc_values.specs.Types.{fields_tree};
ghost use Rattle.edit_module.specs.Views.{primitive_tree};
ghost use Rattle.lens_forms.specs.Forms.{form_part};
ghost use Rattle.lens_core.specs.Complements.{comp_tree};
ghost use Rattle.lens_core.specs.Translation.{translate_one, carried_tree, IsCarryFault};
ghost use Rattle.lens_steps.specs.Ready.{IsReady};

use doc_values::Fields;
use edit_module::word::Primitive;
use lens_core::{Carried, CarryFault, Comp};
use partition_lens::{part_left, part_right};
use std::alloc::Global;
use texts::Side;

/// Translates one primitive of a side through the partition of these tags.
///
/// - `Unfit`: if and only if the translation has no value; so for a complement of another form.
/// - `NoMemory`: only if memory ran out, or if the mixed list would have 2^64 items.
///
/// The arguments stay as they are.
#[tactic(auto, using(crate::proofs::PartRows::part_rules))]
pub fn carry_part(
    alloc: Global,
    tags: &Fields,
    side: Side,
    comp: &Comp,
    prim: &Primitive,
) -> Result<Carried, CarryFault>
    requires { IsReady (form_part (fields_tree tags.now)) }
    ensures { MatchResult result
        (λ r. translate_one (form_part (fields_tree tags.now)) side (comp_tree comp.now) (primitive_tree prim.now)
        ≡ Some (carried_tree r))
        (IsCarryFault (translate_one (form_part (fields_tree tags.now)) side (comp_tree comp.now)
        (primitive_tree prim.now))) }
{
    let Comp::Tags(numbers) = comp else {
        return Err(CarryFault::Unfit);
    };
    match side {
        Side::Left => part_left(alloc, tags, numbers, prim),
        Side::Right => part_right(alloc, tags, numbers, prim),
    }
}
