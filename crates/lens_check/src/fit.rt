//! Whether a complement fits a form.

ghost use Rattle.std.specs.Prelude.{◌≡◌, ◌↔◌, ◌≤◌, IsTrue};
ghost use Rattle.tag_seq.specs.Tags.{are_below};
ghost use Rattle.doc_values.specs.Types.{fields_tree};
ghost use Rattle.doc_values.specs.Typing.{is_list_of, is_keyed_of, is_tree_of};
ghost use Rattle.lens_forms.specs.Forms.{form_tree, rows_tree, arms_tree};
ghost use Rattle.lens_forms.specs.Measures.{form_parts, rows_parts, arms_parts, fields_parts};
ghost use Rattle.lens_forms.specs.declared.limits.TheConstants.{MOST_PARTS};
ghost use Rattle.lens_core.specs.Complements.{comp_tree, comps_tree, Fits};
ghost use Rattle.lens_core.specs.Tags.{tag_count};
ghost use Rattle.lens_check.specs.FitTest.{fits, rows_fit, arm_fits, all_pass};

use doc_values::{Fields, is_keyed_of, is_list_of, is_tree_of};
use lens_core::{Comp, Comps};
use lens_forms::{Form, FormArms, FormRow, FormRows};
use lens_types::Typed;
use tag_seq::TagSeq;
use texts::Name;

/// Whether the complement is one of the form's, through all levels. docs/FORMATS.md says which complements fit a form.
///
/// Does not allocate. It takes time in proportion to the complement.
pub fn conforms(typed: &Typed, comp: &Comp) -> bool
    ensures { IsTrue result ↔ Fits (form_tree typed.now) (comp_tree comp.now) }
{
    fits_form(typed.form(), comp)
}

#[cycle(fits_form)]
fn fits_form(form: &Form, comp: &Comp) -> bool
    requires { form_parts (form_tree form.now) ≤ MOST_PARTS }
    ensures { result ≡ fits (form_tree form.now) (comp_tree comp.now) }
{
    match (form, comp) {
        (Form::Id(_), Comp::Nil) => true,
        (Form::Bij(_, _), Comp::Nil) => true,
        (Form::Disc(_, _), Comp::Nil) => true,
        (Form::Then(first, second), Comp::Then(c, d)) => {
            fits_form(first, c) && fits_form(second, d)
        }
        (Form::Rec(rows), Comp::Rec(comps)) => fits_rows(rows, comps),
        (Form::Alt(arms), Comp::Alt(tag, part)) => fits_arm(arms, tag, part),
        (Form::Each(inner), Comp::Hold(shape, comps)) => {
            is_list_of(shape, comps.len()) && fits_each(inner, comps)
        }
        (Form::Keyed(inner), Comp::Hold(shape, comps)) => {
            is_keyed_of(shape, comps.len()) && fits_each(inner, comps)
        }
        (Form::Tree(inner), Comp::Hold(shape, comps)) => {
            is_tree_of(shape, comps.len()) && fits_each(inner, comps)
        }
        (Form::Part(tags), Comp::Tags(numbers)) => fits_tags(tags, numbers),
        (Form::Inv(inner), _) => fits_form(inner, comp),
        _ => false,
    }
}

// One complement for each paired row, in written order.
#[cycle(fits_form)]
fn fits_rows(rows: &FormRows, comps: &Comps) -> bool
    requires { rows_parts (rows_tree rows.now) ≤ MOST_PARTS }
    ensures { result ≡ rows_fit (rows_tree rows.now) (comps_tree comps.now) }
{
    let mut next = 0;
    for row in rows.as_slice() {
        match row {
            FormRow::Both(_, _, form) => {
                if next >= comps.len() {
                    return false;
                }
                if !fits_form(form, comps.get(next)) {
                    return false;
                }
                next += 1;
            }
            FormRow::OnlyLeft(_, _) => {}
            FormRow::OnlyRight(_, _) => {}
        }
    }
    comps.len() <= next
}

// A complement of an arm with this left tag.
#[cycle(fits_form)]
fn fits_arm(arms: &FormArms, tag: &Name, part: &Comp) -> bool
    requires { arms_parts (arms_tree arms.now) ≤ MOST_PARTS }
    ensures { result ≡ arm_fits (arms_tree arms.now) tag.now (comp_tree part.now) }
{
    for arm in arms.as_slice() {
        if tag.is_same(&arm.0) && fits_form(&arm.2, part) {
            return true;
        }
    }
    false
}

// Every complement of a container fits the inner form.
#[cycle(fits_form)]
fn fits_each(inner: &Form, comps: &Comps) -> bool
    requires { form_parts (form_tree inner.now) ≤ MOST_PARTS }
    ensures { result ≡ all_pass (fits (form_tree inner.now)) (comps_tree comps.now) }
{
    for i in 0..comps.len() {
        if !fits_form(inner, comps.get(i)) {
            return false;
        }
    }
    true
}

// Every number is that of a tag.
#[tactic(auto, using(crate::proofs::TagNumbers::tag_rules))]
fn fits_tags(tags: &Fields, numbers: &TagSeq) -> bool
    requires { fields_parts (fields_tree tags.now) ≤ MOST_PARTS }
    ensures { result ≡ are_below (tag_count (fields_tree tags.now)) numbers.now }
{
    numbers.is_below(tags.len() as u32)
}
