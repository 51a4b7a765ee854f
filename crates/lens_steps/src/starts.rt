//! The missing complements of the arms of alternatives.

ghost use Rattle.std.specs.Prelude.{◌≡◌, IfOk};
ghost use Rattle.lens_forms.specs.Forms.{arms_tree};
ghost use Rattle.lens_core.specs.Complements.{comps_tree};
ghost use Rattle.lens_branch.specs.AlternativeSteps.{arm_starts};

use lens_core::{Comps, missing};
use lens_forms::FormArms;
use std::alloc::{AllocError, Global};

/// The missing complement of each arm, in written order. Fails only if memory runs out.
pub fn arm_starts(alloc: Global, arms: &FormArms) -> Result<Comps, AllocError>
    ensures { IfOk result (λ cs. comps_tree cs ≡ arm_starts (arms_tree arms.now)) }
{
    let mut items = Vec::new(alloc);
    for arm in arms.as_slice() {
        items.push(missing(alloc, &arm.2)?)?;
    }
    Comps::from_vec(alloc, items)
}
