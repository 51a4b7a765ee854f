//! Translating a word through every form: one recursion over the form.

ghost use Rattle.std.specs.Prelude.{◌≡◌, Some, MatchResult};
ghost use Rattle.edit_module.specs.Views.{primitive_tree, word_tree};
ghost use Rattle.lens_forms.specs.Forms.{form_tree, rows_tree, arms_tree, form_then, form_rec, form_alt};
ghost use Rattle.lens_core.specs.Complements.{comp_tree};
ghost use Rattle.lens_core.specs.Translation.{translate, translate_one, carried_tree, IsCarryFault};
ghost use Rattle.lens_branch.specs.AlternativeSteps.{arm_translation};
ghost use Rattle.lens_branch.specs.RecordSteps.{row_translation};
ghost use Rattle.lens_steps.specs.Kinds.{mapped};
ghost use Rattle.lens_steps.specs.Ready.{IsReady};

use container_lens::{hold_begin, hold_finish};
use edit_module::Word;
use edit_module::word::Primitive;
use lens_branch::{alt_begin, alt_finish, arm_form, rec_begin, rec_finish, row_form};
use lens_core::{Begun, Carried, CarryFault, Comp, missing};
use lens_forms::{Form, FormArms, FormRows};
use lens_steps::{Kind, arm_starts, carry_leaf, carry_part, held_as, onward};
use std::alloc::Global;
use texts::{Side, Twin};

/// Translates a word of a side through a form, with a complement: its primitives one after another, each with the
/// complement that the one before left, and the words joined.
///
/// - `Unfit`: if and only if the translation has no value.
/// - `NoMemory`: only if memory ran out.
///
/// The arguments stay as they are. It takes time in proportion to the word and to what it touches of the complement.
#[cycle(carry)]
pub(crate) fn carry_word(
    alloc: Global,
    form: &Form,
    side: Side,
    comp: &Comp,
    word: &Word,
) -> Result<Carried, CarryFault>
    requires { IsReady (form_tree form.now) }
    ensures { MatchResult result
        (λ r. translate (form_tree form.now) side (comp_tree comp.now) (word_tree word.now) ≡ Some (carried_tree r))
        (IsCarryFault (translate (form_tree form.now) side (comp_tree comp.now) (word_tree word.now))) }
{
    let primitives = word.as_slice();
    if primitives.len() == 1 {
        // Most words have one primitive, behind which there is nothing to join.
        return carry_one(alloc, form, side, comp, &primitives[0]);
    }
    let mut carried = Word::from_vec(Vec::new(alloc));
    let mut current = comp.twin(alloc)?;
    for primitive in primitives {
        let next = carry_one(alloc, form, side, &current, primitive)?;
        carried = carried.joined(next.word)?;
        current = next.comp;
    }
    Ok(Carried {
        word: carried,
        comp: current,
    })
}

// Translates one primitive of a side through a form.
#[cycle(carry)]
fn carry_one(
    alloc: Global,
    form: &Form,
    side: Side,
    comp: &Comp,
    prim: &Primitive,
) -> Result<Carried, CarryFault>
    requires { IsReady (form_tree form.now) }
    ensures { MatchResult result
        (λ r. translate_one (form_tree form.now) side (comp_tree comp.now) (primitive_tree prim.now)
        ≡ Some (carried_tree r))
        (IsCarryFault (translate_one (form_tree form.now) side (comp_tree comp.now) (primitive_tree prim.now))) }
{
    match form {
        Form::Id(_) => carry_leaf(alloc, form, side, comp, prim),
        Form::Bij(_, _) => carry_leaf(alloc, form, side, comp, prim),
        Form::Disc(_, _) => carry_leaf(alloc, form, side, comp, prim),
        Form::Then(first, second) => carry_then(alloc, first, second, side, comp, prim),
        Form::Rec(rows) => carry_record(alloc, rows, side, comp, prim),
        Form::Alt(arms) => carry_alternatives(alloc, arms, side, comp, prim),
        Form::Each(inner) => carry_held(alloc, Kind::List, inner, side, comp, prim),
        Form::Keyed(inner) => carry_held(alloc, Kind::Keyed, inner, side, comp, prim),
        Form::Tree(inner) => carry_held(alloc, Kind::Tree, inner, side, comp, prim),
        Form::Part(tags) => carry_part(alloc, tags, side, comp, prim),
        Form::Inv(inner) => carry_one(alloc, inner, side.other(), comp, prim),
    }
}

// Through a composition: through the lens of the edited side, and then through the other one.
#[cycle(carry)]
#[tactic(auto, using(lens_steps::proofs::Compositions::then_rules))]
fn carry_then(
    alloc: Global,
    first: &Form,
    second: &Form,
    side: Side,
    comp: &Comp,
    prim: &Primitive,
) -> Result<Carried, CarryFault>
    requires { IsReady (form_then (form_tree first.now) (form_tree second.now)) }
    ensures { MatchResult result
        (λ r. translate_one (form_then (form_tree first.now) (form_tree second.now)) side (comp_tree comp.now)
        (primitive_tree prim.now) ≡ Some (carried_tree r))
        (IsCarryFault (translate_one (form_then (form_tree first.now) (form_tree second.now)) side (comp_tree comp.now)
        (primitive_tree prim.now))) }
{
    let Comp::Then(first_comp, second_comp) = comp else {
        return Err(CarryFault::Unfit);
    };
    match side {
        Side::Left => {
            let near = carry_one(alloc, first, side, first_comp, prim)?;
            let far = carry_word(alloc, second, side, second_comp, &near.word)?;
            Ok(onward(alloc, side, near, far)?)
        }
        Side::Right => {
            let near = carry_one(alloc, second, side, second_comp, prim)?;
            let far = carry_word(alloc, first, side, first_comp, &near.word)?;
            Ok(onward(alloc, side, near, far)?)
        }
    }
}

// Through a record.
#[cycle(carry)]
#[tactic(auto, using(lens_steps::proofs::Rounds::needs_inside))]
fn carry_record(
    alloc: Global,
    rows: &FormRows,
    side: Side,
    comp: &Comp,
    prim: &Primitive,
) -> Result<Carried, CarryFault>
    requires { IsReady (form_rec (rows_tree rows.now)) }
    ensures { MatchResult result
        (λ r. translate_one (form_rec (rows_tree rows.now)) side (comp_tree comp.now) (primitive_tree prim.now)
        ≡ Some (carried_tree r))
        (IsCarryFault (translate_one (form_rec (rows_tree rows.now)) side (comp_tree comp.now)
        (primitive_tree prim.now))) }
{
    let Comp::Rec(comps) = comp else {
        return Err(CarryFault::Unfit);
    };
    match rec_begin(alloc, rows, side, comps, prim)? {
        Begun::Done(carried) => Ok(carried),
        Begun::Inner { part, comp, word } => {
            let inner = carry_row(alloc, rows, part, side, &comp, &word)?;
            Ok(rec_finish(alloc, rows, side, comps, prim, inner)?)
        }
    }
}

// Through the lens of the row of a number.
#[cycle(carry)]
#[tactic(auto, using(lens_steps::proofs::ReadyForms::ready_row))]
fn carry_row(
    alloc: Global,
    rows: &FormRows,
    part: u64,
    side: Side,
    comp: &Comp,
    word: &Word,
) -> Result<Carried, CarryFault>
    requires { IsReady (form_rec (rows_tree rows.now)) }
    ensures { MatchResult result
        (λ r. row_translation (rows_tree rows.now) side part (comp_tree comp.now) (word_tree word.now)
        ≡ Some (carried_tree r))
        (IsCarryFault (row_translation (rows_tree rows.now) side part (comp_tree comp.now) (word_tree word.now))) }
{
    match row_form(rows, part) {
        Some(form) => carry_word(alloc, form, side, comp, word),
        None => Err(CarryFault::Unfit),
    }
}

// Through alternatives.
#[cycle(carry)]
#[tactic(auto, using(lens_steps::proofs::Rounds::has_begun))]
fn carry_alternatives(
    alloc: Global,
    arms: &FormArms,
    side: Side,
    comp: &Comp,
    prim: &Primitive,
) -> Result<Carried, CarryFault>
    requires { IsReady (form_alt (arms_tree arms.now)) }
    ensures { MatchResult result
        (λ r. translate_one (form_alt (arms_tree arms.now)) side (comp_tree comp.now) (primitive_tree prim.now)
        ≡ Some (carried_tree r))
        (IsCarryFault (translate_one (form_alt (arms_tree arms.now)) side (comp_tree comp.now)
        (primitive_tree prim.now))) }
{
    let Comp::Alt(tag, part_comp) = comp else {
        return Err(CarryFault::Unfit);
    };
    let starts = arm_starts(alloc, arms)?;
    match alt_begin(alloc, arms, side, tag, part_comp, prim, &starts)? {
        Begun::Done(carried) => Ok(carried),
        Begun::Inner { part, comp, word } => {
            let inner = carry_arm(alloc, arms, part, side, &comp, &word)?;
            Ok(alt_finish(alloc, arms, side, prim, inner)?)
        }
    }
}

// Through the lens of the arm of a number.
#[cycle(carry)]
#[tactic(auto, using(lens_steps::proofs::ReadyForms::ready_arm))]
fn carry_arm(
    alloc: Global,
    arms: &FormArms,
    part: u64,
    side: Side,
    comp: &Comp,
    word: &Word,
) -> Result<Carried, CarryFault>
    requires { IsReady (form_alt (arms_tree arms.now)) }
    ensures { MatchResult result
        (λ r. arm_translation (arms_tree arms.now) side part (comp_tree comp.now) (word_tree word.now)
        ≡ Some (carried_tree r))
        (IsCarryFault (arm_translation (arms_tree arms.now) side part (comp_tree comp.now) (word_tree word.now))) }
{
    match arm_form(arms, part) {
        Some(form) => carry_word(alloc, form, side, comp, word),
        None => Err(CarryFault::Unfit),
    }
}

// Through the map of a lens over a kind of container.
#[cycle(carry)]
fn carry_held(
    alloc: Global,
    kind: Kind,
    inner: &Form,
    side: Side,
    comp: &Comp,
    prim: &Primitive,
) -> Result<Carried, CarryFault>
    requires { IsReady (mapped kind (form_tree inner.now)) }
    ensures { MatchResult result
        (λ r. translate_one (mapped kind (form_tree inner.now)) side (comp_tree comp.now) (primitive_tree prim.now)
        ≡ Some (carried_tree r))
        (IsCarryFault (translate_one (mapped kind (form_tree inner.now)) side (comp_tree comp.now)
        (primitive_tree prim.now))) }
{
    let Some((shape, comps)) = held_as(kind, comp) else {
        return Err(CarryFault::Unfit);
    };
    let start = missing(alloc, inner)?;
    match hold_begin(alloc, shape, comps, prim, &start)? {
        Begun::Done(carried) => Ok(carried),
        Begun::Inner {
            part: _,
            comp,
            word,
        } => {
            let carried = carry_word(alloc, inner, side, &comp, &word)?;
            Ok(hold_finish(alloc, shape, comps, prim, carried)?)
        }
    }
}
