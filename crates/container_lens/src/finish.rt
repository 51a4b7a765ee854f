//! Finishing the translation of one primitive of a container.

ghost use Rattle.std.specs.Prelude.{◌≡◌, IfOk};
ghost use Rattle.edit_module.specs.Views.{primitive_tree, word_tree};
ghost use Rattle.lens_core.specs.Complements.{comps_tree};
ghost use Rattle.lens_core.specs.Emitted.{mod_word};
ghost use Rattle.lens_core.specs.Translation.{carried_tree};
ghost use Rattle.container_lens.specs.HeldSteps.{HasBegun, finish_held};

use crate::places::{any_shape, place_in};
use edit_module::Word;
use edit_module::word::Primitive;
use hold_shapes::{Held, Place};
use lens_core::{Carried, Comp, Comps};
use std::alloc::{AllocError, Global};
use texts::Twin;

/// Finishes the translation of one primitive through a lens that is mapped over a container, from what the lens inside
/// translated: the word at the place, left out where it is empty, and the new complement there.
///
/// `hold_begin` of these arguments, with some complement as `start`, answered `Inner`, and `inner` is the translation
/// that it asked for. It takes the time of the path to the place. Fails only if memory runs out; `inner` is then
/// dropped. The other arguments stay as they are.
#[tactic(auto, using(crate::proofs::HeldSteps::begun_rules))]
pub fn hold_finish<H: Held>(
    alloc: Global,
    shape: &H,
    comps: &Comps,
    prim: &Primitive,
    inner: Carried,
) -> Result<Carried, AllocError>
    requires { HasBegun (H.shape_of shape.now) (comps_tree comps.now) (primitive_tree prim.now) }
    ensures { IfOk result (λ r. carried_tree r
        ≡ finish_held (H.shape_of shape.now) (comps_tree comps.now) (primitive_tree prim.now) (carried_tree inner)) }
{
    let Primitive::Mod(place, _) = prim else {
        unreachable!()
    };
    let shape = any_shape(alloc, shape)?;
    let Some(at) = place_in(&shape, place) else {
        unreachable!()
    };
    let word = mod_word(alloc, place, inner.word)?;
    let mut comps = comps.twin(alloc)?;
    comps.set(alloc, at as usize, inner.comp)?;
    Ok(Carried {
        word,
        comp: Comp::Hold(shape, comps),
    })
}

// Mod of a place, or the empty word where there is nothing to do inside.
#[tactic(auto, using(crate::proofs::HeldSteps::word_rules))]
fn mod_word(alloc: Global, place: &Place, word: Word) -> Result<Word, AllocError>
    ensures { IfOk result (λ w. word_tree w ≡ mod_word place.now (word_tree word)) }
{
    if word.len() == 0 {
        return Ok(word);
    }
    let edit = Primitive::Mod(place.twin(alloc)?, word);
    Ok(Word::from_vec(vec![in alloc; edit]?))
}
