//! Translating one primitive through alternatives, round the translation of the lens inside.

ghost use Rattle.std.specs.Prelude.{◌≡◌, ◌<◌, IfOk, MatchOption, MatchResult, Some, option_map};
ghost use Rattle.edit_module.specs.Views.{primitive_tree, word_tree};
ghost use Rattle.lens_forms.specs.Forms.{form_tree, arms_tree};
ghost use Rattle.lens_forms.specs.Measures.{form_parts, arms_parts};
ghost use Rattle.lens_core.specs.Complements.{comp_tree, comps_tree, alt_comp};
ghost use Rattle.lens_core.specs.Emitted.{stay_word, switch_word};
ghost use Rattle.lens_core.specs.Sides.{near};
ghost use Rattle.lens_core.specs.Translation.{carried_tree};
ghost use Rattle.lens_core.specs.declared.carry.CarryFault.TheVariants.{NoMemory};
ghost use Rattle.lens_core.specs.Beginnings.{begun_tree, inside, IsBeginFault};
ghost use Rattle.lens_branch.specs.AlternativeSteps.{NeedsStarts, HasBegun, far_tag_of, arm_seen, arm_of, arm_lens};
ghost use Rattle.lens_branch.specs.AlternativeSteps.{arm_starts, current_arm, begin_alternatives, finish_alternatives};

use edit_module::Word;
use edit_module::word::Primitive;
use lens_core::{Begun, Carried, CarryFault, Comp, Comps};
use lens_forms::{Form, FormArms};
use std::alloc::{AllocError, Global};
use texts::{Name, Side, Twin};

// The arm of a tag: its number from 0, and the arm.
#[derive(Clone, Copy)]
struct FoundArm<'a> {
    number: usize,
    arm: &'a (Name, Name, Form),
}

/// Begins the translation of one primitive of a side through alternatives, with the complement of a left tag and the
/// complement of its arm. `starts` has the missing complement of each arm; only Switch needs it.
///
/// Stay of the near tag of that arm needs its lens with its complement; Switch from that tag needs the lens of the arm
/// of the new tag with its missing complement. The result says the number of the arm, the complement, and the word to
/// translate. It passes over the arms, and does not translate the word.
///
/// - `Unfit`: if and only if there is no such beginning: for other primitives, where no arm has the left tag, where
///   the first tag of the primitive is not the near tag of that arm, and where no arm has the new tag.
/// - `NoMemory`: only if memory ran out.
///
/// The arguments stay as they are.
#[tactic(auto, using(crate::proofs::ArmSearch::start_rules))]
pub fn alt_begin(
    alloc: Global,
    arms: &FormArms,
    side: Side,
    tag: &Name,
    comp: &Comp,
    prim: &Primitive,
    starts: &Comps,
) -> Result<Begun, CarryFault>
    requires { NeedsStarts (primitive_tree prim.now) → comps_tree starts.now ≡ arm_starts (arms_tree arms.now) }
    ensures { MatchResult result
        (λ b. begin_alternatives (arms_tree arms.now) side tag.now (comp_tree comp.now) (primitive_tree prim.now)
        ≡ Some (begun_tree b))
        (IsBeginFault (begin_alternatives (arms_tree arms.now) side tag.now (comp_tree comp.now)
        (primitive_tree prim.now))) }
{
    match prim {
        Primitive::Stay(near, word) => {
            let Some(here) = current_arm(arms, side, tag, near) else {
                return Err(CarryFault::Unfit);
            };
            inner(alloc, here.number, comp, word)
        }
        Primitive::Switch(from, to, word) => {
            if current_arm(arms, side, tag, from).is_none() {
                return Err(CarryFault::Unfit);
            }
            let Some(next) = find_arm(arms, side, to) else {
                return Err(CarryFault::Unfit);
            };
            inner(alloc, next.number, starts.get(next.number), word)
        }
        _ => Err(CarryFault::Unfit),
    }
}

/// Finishes the translation of one primitive of a side through alternatives, from what the lens inside translated: Stay
/// of the far tag of the arm, or Switch from the far tag of the arm to that of the new one, and the arm's left tag with
/// the new complement.
///
/// `alt_begin` answered `Inner` for this primitive with some complement, and `inner` is the translation that it asked
/// for. Fails only if memory runs out; `inner` is then dropped. The other arguments stay as they are.
#[tactic(auto, using(crate::proofs::ArmSearch::begun_rules))]
pub fn alt_finish(
    alloc: Global,
    arms: &FormArms,
    side: Side,
    prim: &Primitive,
    inner: Carried,
) -> Result<Carried, AllocError>
    requires { HasBegun (arms_tree arms.now) side (primitive_tree prim.now) }
    ensures { IfOk result (λ r. carried_tree r
        ≡ finish_alternatives (arms_tree arms.now) side (primitive_tree prim.now) (carried_tree inner)) }
{
    match prim {
        Primitive::Stay(near, _) => {
            let Some(here) = find_arm(arms, side, near) else {
                unreachable!()
            };
            let word = stay_word(alloc, far_tag(side, &here), inner.word)?;
            in_arm(alloc, &here, word, inner.comp)
        }
        Primitive::Switch(from, to, _) => {
            let Some(old) = find_arm(arms, side, from) else {
                unreachable!()
            };
            let Some(next) = find_arm(arms, side, to) else {
                unreachable!()
            };
            let word = switch_word(alloc, far_tag(side, &old), far_tag(side, &next), inner.word)?;
            in_arm(alloc, &next, word, inner.comp)
        }
        _ => unreachable!(),
    }
}

/// The lens of the arm of a number, which is counted from 0, or `None` where there is no such arm.
///
/// It has fewer parts than the arms.
#[tactic(auto, using(crate::proofs::ArmSearch::place_rules))]
pub fn arm_form(arms: &FormArms, number: u64) -> Option<&Form>
    ensures lens { option_map (λ l. form_tree l.now) result ≡ arm_lens (arms_tree arms.now) number }
    ensures smaller { MatchOption result (Unit {0}) (λ l. form_parts (form_tree l.now) < arms_parts (arms_tree arms.now)) }
{
    let items = arms.as_slice();
    let place = number as usize;
    if place >= items.len() {
        return None;
    }
    Some(&items[place].2)
}

// The lens of an arm is to translate a word, from a complement.
fn inner(alloc: Global, number: usize, comp: &Comp, word: &Word) -> Result<Begun, CarryFault>
    ensures { MatchResult result
        (λ b. begun_tree b ≡ inside number (comp_tree comp.now) (word_tree word.now))
        (λ fault. fault ≡ NoMemory) }
{
    Ok(Begun::Inner {
        part: number as u64,
        comp: comp.twin(alloc)?,
        word: word.twin(alloc)?,
    })
}

// A word, and the left tag of an arm with a complement.
fn in_arm(alloc: Global, found: &FoundArm, word: Word, comp: Comp) -> Result<Carried, AllocError>
    ensures { IfOk result
        (λ r. carried_tree r ≡ (word_tree word, alt_comp (arm_seen found.now).left_tag (comp_tree comp))) }
{
    let tag = found.arm.0.twin(alloc)?;
    let comp = Comp::Alt(tag, Box::new(alloc, comp)?);
    Ok(Carried { word, comp })
}

// The arm with this left tag, where the other name is its tag on this side.
fn current_arm<'a>(arms: &'a FormArms, side: Side, tag: &Name, near: &Name) -> Option<FoundArm<'a>>
    ensures { option_map arm_seen result ≡ current_arm (arms_tree arms.now) side tag.now near.now }
{
    let found = find_arm(arms, Side::Left, tag)?;
    if near_tag(side, found.arm).is_same(near) {
        Some(found)
    } else {
        None
    }
}

// The first arm with this tag on this side.
#[tactic(auto, using(crate::proofs::ArmSearch::arm_rules))]
fn find_arm<'a>(arms: &'a FormArms, side: Side, tag: &Name) -> Option<FoundArm<'a>>
    ensures { option_map arm_seen result ≡ arm_of (arms_tree arms.now) side tag.now }
{
    let items = arms.as_slice();
    for number in 0..items.len() {
        let arm = &items[number];
        if near_tag(side, arm).is_same(tag) {
            return Some(FoundArm { number, arm });
        }
    }
    None
}

// The tag of an arm on this side.
fn near_tag<'a>(side: Side, arm: &'a (Name, Name, Form)) -> &'a Name
    ensures { result.now ≡ near side arm.now.0 arm.now.1 }
{
    match side {
        Side::Left => &arm.0,
        Side::Right => &arm.1,
    }
}

// The tag of an arm on the other side.
fn far_tag<'a>(side: Side, found: &'a FoundArm) -> &'a Name
    ensures { result.now ≡ far_tag_of side (arm_seen found.now) }
{
    match side {
        Side::Left => &found.arm.1,
        Side::Right => &found.arm.0,
    }
}

// Stay of a tag, or the empty word where there is nothing to do inside.
#[tactic(auto, using(crate::proofs::EmittedWords::word_rules))]
fn stay_word(alloc: Global, tag: &Name, word: Word) -> Result<Word, AllocError>
    ensures { IfOk result (λ w. word_tree w ≡ stay_word tag.now (word_tree word)) }
{
    if word.len() == 0 {
        return Ok(word);
    }
    let stay = Primitive::Stay(tag.twin(alloc)?, word);
    Ok(Word::from_vec(vec![in alloc; stay]?))
}

// Switch from a tag to another.
#[tactic(auto, using(crate::proofs::EmittedWords::word_rules))]
fn switch_word(alloc: Global, from: &Name, to: &Name, word: Word) -> Result<Word, AllocError>
    ensures { IfOk result (λ w. word_tree w ≡ switch_word from.now to.now (word_tree word)) }
{
    let switch = Primitive::Switch(from.twin(alloc)?, to.twin(alloc)?, word);
    Ok(Word::from_vec(vec![in alloc; switch]?))
}
