//! Translating one primitive through a record, round the translation of the lens inside.

ghost use Rattle.std.specs.Prelude.{◌≡◌, ◌+◌, ◌<◌, ◌≤◌, IfOk, IsTrue, MatchOption, MatchResult, Some, option_map};
ghost use Rattle.edit_module.specs.Views.{primitive_tree, word_tree};
ghost use Rattle.edit_module.specs.Words.{no_primitives};
ghost use Rattle.lens_forms.specs.Forms.{form_tree, row_tree, form_row_list, rows_tree, paired_rows};
ghost use Rattle.lens_forms.specs.Measures.{form_parts, rows_parts};
ghost use Rattle.lens_core.specs.Complements.{comp_tree, comps_tree, comp_count, rec_comp, nil};
ghost use Rattle.lens_core.specs.Emitted.{at_word};
ghost use Rattle.lens_core.specs.Sides.{far};
ghost use Rattle.lens_core.specs.Translation.{carried_tree, put_comp};
ghost use Rattle.lens_core.specs.Beginnings.{begun_tree, IsBeginFault, IsInside};
ghost use Rattle.lens_branch.specs.RecordSteps.{has_near, pairs_of, row_seen, row_of, row_lens, begin_record};
ghost use Rattle.lens_branch.specs.RecordSteps.{finish_record};

use edit_module::Word;
use edit_module::word::Primitive;
use lens_core::{Begun, Carried, CarryFault, Comp, Comps};
use lens_forms::{Form, FormRow, FormRows};
use std::alloc::{AllocError, Global};
use texts::{Name, Side, Twin};

// The row of a field: how many paired rows are before it, and the row.
#[derive(Clone, Copy)]
struct FoundRow<'a> {
    pairs: usize,
    row: &'a FormRow,
}

/// Begins the translation of one primitive of a side through a record, with the complements of its paired rows.
///
/// At of a field of a paired row needs the lens of that row: the result says the number of that lens, counted from 0
/// among the paired rows, its complement, and the word to translate. At of a field of this side alone is translated to
/// the empty word, and the complements stay. It passes over the rows, and does not translate the word.
///
/// - `Unfit`: if and only if there is no such beginning: for other primitives, for a field of no row, and where the
///   number of complements is not that of the paired rows.
/// - `NoMemory`: only if memory ran out.
///
/// The arguments stay as they are.
pub fn rec_begin(
    alloc: Global,
    rows: &FormRows,
    side: Side,
    comps: &Comps,
    prim: &Primitive,
) -> Result<Begun, CarryFault>
    ensures { MatchResult result
        (λ b. begin_record (rows_tree rows.now) side (comps_tree comps.now) (primitive_tree prim.now)
        ≡ Some (begun_tree b))
        (IsBeginFault (begin_record (rows_tree rows.now) side (comps_tree comps.now) (primitive_tree prim.now))) }
{
    let Primitive::At(field, word) = prim else {
        return Err(CarryFault::Unfit);
    };
    if comps.len() != paired_rows(rows) {
        return Err(CarryFault::Unfit);
    }
    let Some(found) = find_row(rows, side, field) else {
        return Err(CarryFault::Unfit);
    };
    match found.row {
        FormRow::Both(_, _, _) => Ok(Begun::Inner {
            part: found.pairs as u64,
            comp: comps.get(found.pairs).twin(alloc)?,
            word: word.twin(alloc)?,
        }),
        FormRow::OnlyLeft(_, _) => Ok(Begun::Done(nothing(alloc, comps)?)),
        FormRow::OnlyRight(_, _) => Ok(Begun::Done(nothing(alloc, comps)?)),
    }
}

/// Finishes the translation of one primitive of a side through a record, from what the lens inside translated: the word
/// at the far field of the row, and the new complement in its place.
///
/// `rec_begin` of the same arguments answered `Inner`, and `inner` is the translation that it asked for. Fails only if
/// memory runs out; `inner` is then dropped. The other arguments stay as they are.
#[tactic(auto, using(crate::proofs::RowSearch::begun_rules))]
pub fn rec_finish(
    alloc: Global,
    rows: &FormRows,
    side: Side,
    comps: &Comps,
    prim: &Primitive,
    inner: Carried,
) -> Result<Carried, AllocError>
    requires { IsInside (begin_record (rows_tree rows.now) side (comps_tree comps.now) (primitive_tree prim.now)) }
    ensures { IfOk result (λ r. carried_tree r
        ≡ finish_record (rows_tree rows.now) side (comps_tree comps.now) (primitive_tree prim.now) (carried_tree inner)) }
{
    let Primitive::At(field, _) = prim else {
        unreachable!()
    };
    let Some(found) = find_row(rows, side, field) else {
        unreachable!()
    };
    match found.row {
        FormRow::Both(left, right, _) => {
            let word = at_word(alloc, far(side, left, right), inner.word)?;
            let comp = with_comp(alloc, comps, found.pairs, inner.comp)?;
            Ok(Carried { word, comp })
        }
        FormRow::OnlyLeft(_, _) => unreachable!(),
        FormRow::OnlyRight(_, _) => unreachable!(),
    }
}

// The complements of a record with another one at a place. One that keeps nothing, as the one before it, changes
// nothing.
#[tactic(auto, using(crate::proofs::NilPlaces::put_nil))]
fn with_comp(alloc: Global, comps: &Comps, place: usize, comp: Comp) -> Result<Comp, AllocError>
    requires { place < comp_count (comps_tree comps.now) }
    ensures { IfOk result (λ c. comp_tree c ≡ rec_comp (put_comp (comps_tree comps.now) place (comp_tree comp))) }
{
    let mut copy = comps.twin(alloc)?;
    if are_nil(comps.get(place), &comp) {
        return Ok(Comp::Rec(copy));
    }
    copy.set(alloc, place, comp)?;
    Ok(Comp::Rec(copy))
}

// Whether both complements are Nil.
fn are_nil(first: &Comp, second: &Comp) -> bool
    ensures { IsTrue result → (comp_tree first.now ≡ nil) × (comp_tree second.now ≡ nil) }
{
    match (first, second) {
        (Comp::Nil, Comp::Nil) => true,
        _ => false,
    }
}

/// The lens of the paired row of a number, which is counted from 0 among the paired rows, or `None` where there are
/// fewer.
///
/// It has fewer parts than the rows.
#[tactic(auto, using(crate::proofs::RowSearch::place_rules))]
pub fn row_form(rows: &FormRows, number: u64) -> Option<&Form>
    ensures lens { option_map (λ l. form_tree l.now) result ≡ row_lens (form_row_list (rows_tree rows.now)) number }
    ensures smaller { MatchOption result (Unit {0}) (λ l. form_parts (form_tree l.now) < rows_parts (rows_tree rows.now)) }
{
    let mut before = number;
    for row in rows.as_slice() {
        match row {
            FormRow::Both(_, _, form) => {
                if before == 0 {
                    return Some(form);
                }
                before -= 1;
            }
            FormRow::OnlyLeft(_, _) => {}
            FormRow::OnlyRight(_, _) => {}
        }
    }
    None
}

// The empty word, and the complements as they are.
fn nothing(alloc: Global, comps: &Comps) -> Result<Carried, AllocError>
    ensures { IfOk result (λ r. carried_tree r ≡ (no_primitives, rec_comp (comps_tree comps.now))) }
{
    Ok(Carried {
        word: Word::from_vec(Vec::new(alloc)),
        comp: Comp::Rec(comps.twin(alloc)?),
    })
}

// The first row with this field on this side.
#[tactic(auto, using(crate::proofs::RowSearch::row_rules))]
fn find_row<'a>(rows: &'a FormRows, side: Side, field: &Name) -> Option<FoundRow<'a>>
    ensures found { option_map row_seen result ≡ row_of (form_row_list (rows_tree rows.now)) side field.now }
    ensures within { MatchOption result (Unit {0}) (λ r. r.pairs + pairs_of (row_tree r.row.now)
        ≤ paired_rows (rows_tree rows.now)) }
{
    let mut pairs = 0;
    for row in rows.as_slice() {
        if has_near(row, side, field) {
            return Some(FoundRow { pairs, row });
        }
        pairs += pairs_of(row);
    }
    None
}

// How many paired rows there are.
#[tactic(auto, using(crate::proofs::RowSearch::row_rules))]
fn paired_rows(rows: &FormRows) -> usize
    ensures { result ≡ paired_rows (rows_tree rows.now) }
{
    let mut count = 0;
    for row in rows.as_slice() {
        count += pairs_of(row);
    }
    count
}

// Whether the row has this field on this side.
fn has_near(row: &FormRow, side: Side, field: &Name) -> bool
    ensures { result ≡ has_near side field.now (row_tree row.now) }
{
    match (row, side) {
        (FormRow::Both(left, _, _), Side::Left) => left.is_same(field),
        (FormRow::Both(_, right, _), Side::Right) => right.is_same(field),
        (FormRow::OnlyLeft(left, _), Side::Left) => left.is_same(field),
        (FormRow::OnlyLeft(_, _), Side::Right) => false,
        (FormRow::OnlyRight(_, _), Side::Left) => false,
        (FormRow::OnlyRight(right, _), Side::Right) => right.is_same(field),
    }
}

// 1 for a paired row, and 0 for another one.
fn pairs_of(row: &FormRow) -> usize
    ensures number { result ≡ pairs_of (row_tree row.now) }
    ensures most { result ≤ 1 }
{
    match row {
        FormRow::Both(_, _, _) => 1,
        FormRow::OnlyLeft(_, _) => 0,
        FormRow::OnlyRight(_, _) => 0,
    }
}

// At of a field, or the empty word where there is nothing to do inside.
#[tactic(auto, using(crate::proofs::EmittedWords::word_rules))]
fn at_word(alloc: Global, field: &Name, word: Word) -> Result<Word, AllocError>
    ensures { IfOk result (λ w. word_tree w ≡ at_word field.now (word_tree word)) }
{
    if word.len() == 0 {
        return Ok(word);
    }
    let at = Primitive::At(field.twin(alloc)?, word);
    Ok(Word::from_vec(vec![in alloc; at]?))
}

// The name of the other side.
fn far<'a>(side: Side, left: &'a Name, right: &'a Name) -> &'a Name
    ensures { result.now ≡ far side left.now right.now }
{
    match side {
        Side::Left => right,
        Side::Right => left,
    }
}
