//! Translating a word down the nodes of a table.

ghost use Rattle.std.specs.Prelude.{◌≡◌, ◌<◌, Some, MatchResult, slice_get};
ghost use Rattle.edit_module.specs.Views.{primitive_tree, word_tree};
ghost use Rattle.lens_forms.specs.Forms.{rows_tree, arms_tree, form_then, form_rec, form_alt};
ghost use Rattle.lens_core.specs.Complements.{comp_tree};
ghost use Rattle.lens_core.specs.Translation.{translate, translate_one, carried_tree, IsCarryFault};
ghost use Rattle.lens_branch.specs.AlternativeSteps.{arm_translation};
ghost use Rattle.lens_branch.specs.RecordSteps.{row_translation};
ghost use Rattle.lens_steps.specs.Kinds.{mapped};
ghost use Rattle.lens_flat.specs.Tables.{form_at, IsReadyAt, IsAt};
ghost use Rattle.lens_flat.specs.declared.node.Node.TheVariants.{Record, Alternatives};

use crate::node::{Entry, Node, missing_at, node_at};
use container_lens::{hold_begin, hold_finish};
use edit_module::Word;
use edit_module::word::Primitive;
use lens_branch::{alt_begin, alt_finish, rec_begin, rec_finish};
use lens_core::{Begun, Carried, CarryFault, Comp, Comps};
use lens_forms::{FormArms, FormRows};
use lens_steps::{Kind, carry_leaf, carry_part, held_as, onward};
use std::alloc::Global;
use texts::{Side, Twin};

/// Translates a word of a side through the node of a number, with a complement: its primitives one after another, each
/// with the complement that the one before left, and the words joined.
///
/// - `Unfit`: if and only if the translation has no value.
/// - `NoMemory`: only if memory ran out.
///
/// The arguments stay as they are. It takes time in proportion to the word and to what it touches of the complement.
#[cycle(carry)]
pub(crate) fn carry_word(
    alloc: Global,
    table: &[Entry],
    number: usize,
    side: Side,
    comp: &Comp,
    word: &Word,
) -> Result<Carried, CarryFault>
    requires { IsReadyAt table.now number }
    ensures { MatchResult result
        (λ r. translate (form_at table.now number) side (comp_tree comp.now) (word_tree word.now)
        ≡ Some (carried_tree r))
        (IsCarryFault (translate (form_at table.now number) side (comp_tree comp.now) (word_tree word.now))) }
{
    let primitives = word.as_slice();
    if primitives.len() == 1 {
        // Most words have one primitive, behind which there is nothing to join.
        return carry_one(alloc, table, number, side, comp, &primitives[0]);
    }
    let mut carried = Word::from_vec(Vec::new(alloc));
    let mut current = comp.twin(alloc)?;
    for primitive in primitives {
        let next = carry_one(alloc, table, number, side, &current, primitive)?;
        carried = carried.joined(next.word)?;
        current = next.comp;
    }
    Ok(Carried {
        word: carried,
        comp: current,
    })
}

// Translates one primitive of a side through the node of a number.
#[cycle(carry)]
fn carry_one(
    alloc: Global,
    table: &[Entry],
    number: usize,
    side: Side,
    comp: &Comp,
    prim: &Primitive,
) -> Result<Carried, CarryFault>
    requires { IsReadyAt table.now number }
    ensures { MatchResult result
        (λ r. translate_one (form_at table.now number) side (comp_tree comp.now) (primitive_tree prim.now)
        ≡ Some (carried_tree r))
        (IsCarryFault (translate_one (form_at table.now number) side (comp_tree comp.now) (primitive_tree prim.now))) }
{
    match node_at(table, number) {
        Node::Leaf(form) => carry_leaf(alloc, form, side, comp, prim),
        Node::Then(first, second) => {
            carry_then(alloc, table, number, *first, *second, side, comp, prim)
        }
        Node::Record(rows, inside) => {
            carry_record(alloc, table, number, rows, inside, side, comp, prim)
        }
        Node::Alternatives(arms, starts, inside) => {
            carry_alternatives(alloc, table, number, arms, starts, inside, side, comp, prim)
        }
        Node::Held(kind, inside) => {
            carry_held(alloc, table, number, *kind, *inside, side, comp, prim)
        }
        Node::Partition(tags) => carry_part(alloc, tags, side, comp, prim),
        Node::Inverse(inside) => carry_one(alloc, table, *inside, side.other(), comp, prim),
    }
}

// Through a composition: through the lens of the edited side, and then through the other one.
#[cycle(carry)]
fn carry_then(
    alloc: Global,
    table: &[Entry],
    number: usize,
    first: usize,
    second: usize,
    side: Side,
    comp: &Comp,
    prim: &Primitive,
) -> Result<Carried, CarryFault>
    requires { (first < number) × (second < number) × IsReadyAt table.now first × IsReadyAt table.now second }
    ensures { MatchResult result
        (λ r. translate_one (form_then (form_at table.now first) (form_at table.now second)) side (comp_tree comp.now)
        (primitive_tree prim.now)
        ≡ Some (carried_tree r))
        (IsCarryFault (translate_one (form_then (form_at table.now first) (form_at table.now second)) side
        (comp_tree comp.now) (primitive_tree prim.now))) }
{
    let Comp::Then(first_comp, second_comp) = comp else {
        return Err(CarryFault::Unfit);
    };
    match side {
        Side::Left => {
            let near = carry_one(alloc, table, first, side, first_comp, prim)?;
            let far = carry_word(alloc, table, second, side, second_comp, &near.word)?;
            Ok(onward(alloc, side, near, far)?)
        }
        Side::Right => {
            let near = carry_one(alloc, table, second, side, second_comp, prim)?;
            let far = carry_word(alloc, table, first, side, first_comp, &near.word)?;
            Ok(onward(alloc, side, near, far)?)
        }
    }
}

// Through a record.
#[cycle(carry)]
#[tactic(auto, using(lens_steps::proofs::Rounds::needs_inside))]
fn carry_record(
    alloc: Global,
    table: &[Entry],
    number: usize,
    rows: &FormRows,
    inside: &Vec<usize>,
    side: Side,
    comp: &Comp,
    prim: &Primitive,
) -> Result<Carried, CarryFault>
    requires { IsAt table.now number (Record rows.now inside.now) }
    ensures { MatchResult result
        (λ r. translate_one (form_rec (rows_tree rows.now)) side (comp_tree comp.now) (primitive_tree prim.now)
        ≡ Some (carried_tree r))
        (IsCarryFault (translate_one (form_rec (rows_tree rows.now)) side (comp_tree comp.now)
        (primitive_tree prim.now))) }
{
    let Comp::Rec(comps) = comp else {
        return Err(CarryFault::Unfit);
    };
    match rec_begin(alloc, rows, side, comps, prim)? {
        Begun::Done(carried) => Ok(carried),
        Begun::Inner { part, comp, word } => {
            let inner = carry_row(alloc, table, number, rows, inside, part, side, &comp, &word)?;
            Ok(rec_finish(alloc, rows, side, comps, prim, inner)?)
        }
    }
}

// Through the lens of the paired row of a place.
#[cycle(carry)]
fn carry_row(
    alloc: Global,
    table: &[Entry],
    number: usize,
    rows: &FormRows,
    inside: &Vec<usize>,
    part: u64,
    side: Side,
    comp: &Comp,
    word: &Word,
) -> Result<Carried, CarryFault>
    requires { IsAt table.now number (Record rows.now inside.now) }
    ensures { MatchResult result
        (λ r. row_translation (rows_tree rows.now) side part (comp_tree comp.now) (word_tree word.now)
        ≡ Some (carried_tree r))
        (IsCarryFault (row_translation (rows_tree rows.now) side part (comp_tree comp.now) (word_tree word.now))) }
{
    match lens_at(inside, part) {
        Some(lens) => carry_word(alloc, table, lens, side, comp, word),
        None => Err(CarryFault::Unfit),
    }
}

// Through alternatives.
#[cycle(carry)]
#[tactic(auto, using(lens_steps::proofs::Rounds::has_begun))]
fn carry_alternatives(
    alloc: Global,
    table: &[Entry],
    number: usize,
    arms: &FormArms,
    starts: &Comps,
    inside: &Vec<usize>,
    side: Side,
    comp: &Comp,
    prim: &Primitive,
) -> Result<Carried, CarryFault>
    requires { IsAt table.now number (Alternatives arms.now starts.now inside.now) }
    ensures { MatchResult result
        (λ r. translate_one (form_alt (arms_tree arms.now)) side (comp_tree comp.now) (primitive_tree prim.now)
        ≡ Some (carried_tree r))
        (IsCarryFault (translate_one (form_alt (arms_tree arms.now)) side (comp_tree comp.now)
        (primitive_tree prim.now))) }
{
    let Comp::Alt(tag, part_comp) = comp else {
        return Err(CarryFault::Unfit);
    };
    match alt_begin(alloc, arms, side, tag, part_comp, prim, starts)? {
        Begun::Done(carried) => Ok(carried),
        Begun::Inner { part, comp, word } => {
            let inner = carry_arm(
                alloc, table, number, arms, starts, inside, part, side, &comp, &word,
            )?;
            Ok(alt_finish(alloc, arms, side, prim, inner)?)
        }
    }
}

// Through the lens of the arm of a place.
#[cycle(carry)]
fn carry_arm(
    alloc: Global,
    table: &[Entry],
    number: usize,
    arms: &FormArms,
    starts: &Comps,
    inside: &Vec<usize>,
    part: u64,
    side: Side,
    comp: &Comp,
    word: &Word,
) -> Result<Carried, CarryFault>
    requires { IsAt table.now number (Alternatives arms.now starts.now inside.now) }
    ensures { MatchResult result
        (λ r. arm_translation (arms_tree arms.now) side part (comp_tree comp.now) (word_tree word.now)
        ≡ Some (carried_tree r))
        (IsCarryFault (arm_translation (arms_tree arms.now) side part (comp_tree comp.now) (word_tree word.now))) }
{
    match lens_at(inside, part) {
        Some(lens) => carry_word(alloc, table, lens, side, comp, word),
        None => Err(CarryFault::Unfit),
    }
}

// Through a lens at each place of a container of a kind.
#[cycle(carry)]
fn carry_held(
    alloc: Global,
    table: &[Entry],
    number: usize,
    kind: Kind,
    inside: usize,
    side: Side,
    comp: &Comp,
    prim: &Primitive,
) -> Result<Carried, CarryFault>
    requires { (inside < number) × IsReadyAt table.now inside }
    ensures { MatchResult result
        (λ r. translate_one (mapped kind (form_at table.now inside)) side (comp_tree comp.now) (primitive_tree prim.now)
        ≡ Some (carried_tree r))
        (IsCarryFault (translate_one (mapped kind (form_at table.now inside)) side (comp_tree comp.now)
        (primitive_tree prim.now))) }
{
    let Some((shape, comps)) = held_as(kind, comp) else {
        return Err(CarryFault::Unfit);
    };
    let start = missing_at(table, inside);
    match hold_begin(alloc, shape, comps, prim, start)? {
        Begun::Done(carried) => Ok(carried),
        Begun::Inner {
            part: _,
            comp,
            word,
        } => {
            let carried = carry_word(alloc, table, inside, side, &comp, &word)?;
            Ok(hold_finish(alloc, shape, comps, prim, carried)?)
        }
    }
}

// The number at a place of a list of numbers.
#[tactic(auto, using(crate::proofs::InsideNodes::place_rules))]
fn lens_at(numbers: &Vec<usize>, place: u64) -> Option<usize>
    ensures { result ≡ slice_get numbers.now.items place }
{
    let place = place as usize;
    if place >= numbers.len() {
        return None;
    }
    Some(numbers[place])
}
