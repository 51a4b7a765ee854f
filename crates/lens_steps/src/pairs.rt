//! The complements of a composition.

ghost use Rattle.std.specs.Prelude.{◌≡◌, IfOk};
ghost use Rattle.edit_module.specs.Views.{word_tree};
ghost use Rattle.lens_core.specs.Complements.{comp_tree};
ghost use Rattle.lens_core.specs.Translation.{carried_tree};
ghost use Rattle.lens_steps.specs.Pairs.{pair_on};

use lens_core::{Carried, then_join};
use std::alloc::{AllocError, Global};
use texts::Side;

/// The word that went through both lenses of a composition, with their complements. `near` is of the lens of the edited
/// side, and `far` of the other one, whose word it is.
///
/// Fails only if memory runs out; both are then dropped.
pub fn onward(alloc: Global, side: Side, near: Carried, far: Carried) -> Result<Carried, AllocError>
    ensures { IfOk result
        (λ r. carried_tree r ≡ (word_tree far.word, pair_on side (comp_tree near.comp) (comp_tree far.comp))) }
{
    let comp = match side {
        Side::Left => then_join(alloc, near.comp, far.comp)?,
        Side::Right => then_join(alloc, far.comp, near.comp)?,
    };
    Ok(Carried {
        word: far.word,
        comp,
    })
}
