//! The first failure among the nodes of a lens, and the heights of its two types.

ghost use Rattle.std.specs.Prelude.{◌≡◌, ◌+◌, MatchResult, None, option_map};
ghost use Rattle.std.specs.Option.{option_or};
ghost use Rattle.doc_values.specs.Types.{ty_tree};
ghost use Rattle.lens_forms.specs.Forms.{FormTree, form_bij, form_then, form_each, form_inv, form_rec, RowTrees};
ghost use Rattle.lens_forms.specs.Forms.{ArmTrees, left_type, right_type};
ghost use Rattle.program_terms.specs.Terms.{id_of, disc_of, then_of, part_of};
ghost use Rattle.program_terms.specs.Views.{lens_tree, rows_tree, row_tree, arms_tree, fields_tree, type_tree};
ghost use Rattle.lens_types.specs.Checking.{lens_failure, rows_failure, arms_failure, middle_failure, sides_failure};
ghost use Rattle.lens_types.specs.Checking.{repeated_field, repeated_tag};
ghost use Rattle.lens_types.specs.Earlier.{expanded_form, expanded_rows, expanded_arms, alternatives_form};
ghost use Rattle.lens_types.specs.Faults.{IsFaultOf};
ghost use Rattle.lens_types.specs.Entries.{earlier_tree};
ghost use Rattle.lens_types.specs.Heights.{capped, HasHeights, HasRowHeights, HasArmHeights};
ghost use Rattle.lens_types.specs.Repeats.{first_repeat, row_names, arm_names};
ghost use Rattle.lens_types.specs.Nodes.{IsLowForm, IsRowChecked, bijection_failure};

use crate::earlier::Earlier;
use crate::fault::TypeFault;
use crate::heights::{fields_height, type_height};
use crate::known::SideHeights;
use crate::limits::next_height;
use crate::made::both;
use crate::members::check_pairs;
use crate::names::{arm_names, distinct_fields, distinct_tags, field_names, row_names};
use crate::sides::side_type;
use crate::types::{check_fields, check_type};
use doc_values::Ty;
use lens_forms::GREATEST_HEIGHT;
use program_terms::{Arms, Lens, Pairs, Row, Rows, TyExpr, TyFields};
use std::alloc::Global;
use texts::{Name, Side};

// The heights of both sides of a lens, or the first failure among its nodes.
#[cycle(checked_lens)]
pub(crate) fn checked_lens(
    alloc: Global,
    earlier: &Earlier<'_>,
    lens: &Lens,
) -> Result<SideHeights, TypeFault>
    ensures { MatchResult result
        (λ h. (lens_failure (earlier_tree earlier.now) (lens_tree lens.now) ≡ None)
        × HasHeights (expanded_form (earlier_tree earlier.now) (lens_tree lens.now)) h)
        (λ fault. IsFaultOf (lens_failure (earlier_tree earlier.now) (lens_tree lens.now)) fault) }
{
    match lens {
        Lens::Id(ty) => checked_identity(alloc, earlier, ty),
        Lens::Bij(pairs, value) => checked_bijection(alloc, pairs, value),
        Lens::Disc(left, right) => checked_disc(alloc, earlier, left, right),
        Lens::Then(first, second) => checked_composition(alloc, earlier, first, second),
        Lens::Rec(rows) => {
            let highest = checked_rows(alloc, earlier, rows)?;
            checked_record(alloc, rows, highest)
        }
        Lens::Alt(arms) => {
            let highest = checked_arms(alloc, earlier, arms)?;
            checked_alternatives(alloc, arms, highest)
        }
        Lens::Each(inner) => checked_lens(alloc, earlier, inner).and_then(low_container),
        Lens::Keyed(inner) => checked_lens(alloc, earlier, inner).and_then(low_container),
        Lens::Tree(inner) => checked_lens(alloc, earlier, inner).and_then(low_container),
        Lens::Part(fields) => checked_partition(alloc, earlier, fields),
        Lens::Inv(inner) => checked_lens(alloc, earlier, inner).and_then(low_inverse),
        Lens::Named(name) => Ok(earlier.side_heights(name)),
    }
}

#[cycle(checked_lens)]
fn checked_composition(
    alloc: Global,
    earlier: &Earlier<'_>,
    first: &Lens,
    second: &Lens,
) -> Result<SideHeights, TypeFault>
    ensures { MatchResult result
        (λ h. (lens_failure (earlier_tree earlier.now) (then_of (lens_tree first.now) (lens_tree second.now)) ≡ None)
        × HasHeights (expanded_form (earlier_tree earlier.now) (then_of (lens_tree first.now) (lens_tree second.now)))
        h)
        (λ fault. IsFaultOf
        (lens_failure (earlier_tree earlier.now) (then_of (lens_tree first.now) (lens_tree second.now))) fault) }
{
    let before = checked_lens(alloc, earlier, first)?;
    let after = checked_lens(alloc, earlier, second)?;
    same_middle(alloc, earlier, first, second)?;
    low_composition(before, after)
}

// The greatest heights of the fields of both sides, or the first failure among the rows.
#[cycle(checked_lens)]
fn checked_rows(alloc: Global, earlier: &Earlier<'_>, rows: &Rows) -> Result<SideHeights, TypeFault>
    ensures { MatchResult result
        (λ h. (rows_failure (earlier_tree earlier.now) (rows_tree rows.now) ≡ None)
        × HasRowHeights (expanded_rows (earlier_tree earlier.now) (rows_tree rows.now)) h)
        (λ fault. IsFaultOf (rows_failure (earlier_tree earlier.now) (rows_tree rows.now)) fault) }
{
    let mut left = 0;
    let mut right = 0;
    for row in rows.as_slice() {
        let sides = checked_row(alloc, earlier, row)?;
        left = left.max(sides.left);
        right = right.max(sides.right);
    }
    Ok(SideHeights { left, right })
}

// The heights of the fields that a row has on both sides, 0 where it has none.
#[cycle(checked_lens)]
fn checked_row(alloc: Global, earlier: &Earlier<'_>, row: &Row) -> Result<SideHeights, TypeFault>
    ensures { IsRowChecked (earlier_tree earlier.now) (row_tree row.now) result }
{
    match row {
        Row::Both(_, _, lens) => checked_lens(alloc, earlier, lens),
        Row::OnlyLeft(_, ty) => {
            check_type(alloc, ty)?;
            let left = type_height(earlier, ty);
            Ok(SideHeights { left, right: 0 })
        }
        Row::OnlyRight(_, ty) => {
            check_type(alloc, ty)?;
            let right = type_height(earlier, ty);
            Ok(SideHeights { left: 0, right })
        }
    }
}

// The greatest heights of the contents of both sides, or the first failure among the arms.
#[cycle(checked_lens)]
fn checked_arms(alloc: Global, earlier: &Earlier<'_>, arms: &Arms) -> Result<SideHeights, TypeFault>
    ensures { MatchResult result
        (λ h. (arms_failure (earlier_tree earlier.now) (arms_tree arms.now) ≡ None)
        × HasArmHeights (expanded_arms (earlier_tree earlier.now) (arms_tree arms.now)) h)
        (λ fault. IsFaultOf (arms_failure (earlier_tree earlier.now) (arms_tree arms.now)) fault) }
{
    let mut left = 0;
    let mut right = 0;
    for arm in arms.as_slice() {
        let sides = checked_lens(alloc, earlier, &arm.2)?;
        left = left.max(sides.left);
        right = right.max(sides.right);
    }
    Ok(SideHeights { left, right })
}

fn checked_identity(
    alloc: Global,
    earlier: &Earlier<'_>,
    ty: &TyExpr,
) -> Result<SideHeights, TypeFault>
    ensures { MatchResult result
        (λ h. (lens_failure (earlier_tree earlier.now) (id_of (type_tree ty.now)) ≡ None)
        × HasHeights (expanded_form (earlier_tree earlier.now) (id_of (type_tree ty.now))) h)
        (λ fault. IsFaultOf (lens_failure (earlier_tree earlier.now) (id_of (type_tree ty.now))) fault) }
{
    check_type(alloc, ty)?;
    let height = type_height(earlier, ty);
    low_sides(SideHeights {
        left: height,
        right: height,
    })
}

fn checked_disc(
    alloc: Global,
    earlier: &Earlier<'_>,
    left: &TyExpr,
    right: &TyExpr,
) -> Result<SideHeights, TypeFault>
    ensures { MatchResult result
        (λ h. (lens_failure (earlier_tree earlier.now) (disc_of (type_tree left.now) (type_tree right.now)) ≡ None)
        × HasHeights (expanded_form (earlier_tree earlier.now) (disc_of (type_tree left.now) (type_tree right.now))) h)
        (λ fault. IsFaultOf
        (lens_failure (earlier_tree earlier.now) (disc_of (type_tree left.now) (type_tree right.now))) fault) }
{
    check_type(alloc, left)?;
    check_type(alloc, right)?;
    low_sides(SideHeights {
        left: type_height(earlier, left),
        right: type_height(earlier, right),
    })
}

fn checked_bijection(alloc: Global, pairs: &Pairs, value: &Name) -> Result<SideHeights, TypeFault>
    ensures { MatchResult result
        (λ h. (bijection_failure pairs.now value.now ≡ None) × HasHeights (form_bij pairs.now value.now) h)
        (λ fault. IsFaultOf (bijection_failure pairs.now value.now) fault) }
{
    check_pairs(alloc, pairs, value)?;
    low_sides(SideHeights { left: 1, right: 1 })
}

// A partition; that of nothing is the record of nothing.
fn checked_partition(
    alloc: Global,
    earlier: &Earlier<'_>,
    fields: &TyFields,
) -> Result<SideHeights, TypeFault>
    ensures { MatchResult result
        (λ h. (lens_failure (earlier_tree earlier.now) (part_of (fields_tree fields.now)) ≡ None)
        × HasHeights (expanded_form (earlier_tree earlier.now) (part_of (fields_tree fields.now))) h)
        (λ fault. IsFaultOf (lens_failure (earlier_tree earlier.now) (part_of (fields_tree fields.now))) fault) }
{
    check_fields(alloc, fields)?;
    distinct_tags(alloc, &field_names(alloc, fields.as_slice())?)?;
    if fields.as_slice().is_empty() {
        return low_sides(SideHeights { left: 1, right: 1 });
    }
    let height = next_height(next_height(fields_height(earlier, fields)));
    low_sides(SideHeights {
        left: height,
        right: height,
    })
}

// Refuses two lenses of which the right type of the first is not the left type of the second.
fn same_middle(
    alloc: Global,
    earlier: &Earlier<'_>,
    first: &Lens,
    second: &Lens,
) -> Result<(), TypeFault>
    ensures { MatchResult result
        (λ _. middle_failure (expanded_form (earlier_tree earlier.now) (lens_tree first.now))
        (expanded_form (earlier_tree earlier.now) (lens_tree second.now)) ≡ None)
        (λ fault. IsFaultOf (middle_failure (expanded_form (earlier_tree earlier.now) (lens_tree first.now))
        (expanded_form (earlier_tree earlier.now) (lens_tree second.now))) fault) }
{
    let left = side_type(alloc, earlier, earlier.len(), Side::Right, first);
    let right = side_type(alloc, earlier, earlier.len(), Side::Left, second);
    let (left, right) = both(left, right)?;
    same_types(left, right)
}

// Refuses a right type of a first lens that is not the left type of a second.
fn same_types(left: Ty, right: Ty) -> Result<(), TypeFault>
    ensures { (l : FormTree) (k : FormTree) → ty_tree left ≡ right_type l → ty_tree right ≡ left_type k
        → MatchResult result (λ _. middle_failure l k ≡ None) (λ fault. IsFaultOf (middle_failure l k) fault) }
{
    if !left.is_same(&right) {
        return Err(TypeFault::MiddleDiffers { left, right });
    }
    Ok(())
}

// The heights of a composition of two forms of these heights, where no side is too high.
fn low_composition(before: SideHeights, after: SideHeights) -> Result<SideHeights, TypeFault>
    ensures { (l : FormTree) (k : FormTree) → HasHeights l before → HasHeights k after
        → IsLowForm (form_then l k) result }
{
    low_sides(SideHeights {
        left: before.left,
        right: after.right,
    })
}

// The heights of the inverse of a form of these heights, where no side is too high.
fn low_inverse(sides: SideHeights) -> Result<SideHeights, TypeFault>
    ensures { (form : FormTree) → HasHeights form sides → IsLowForm (form_inv form) result }
{
    low_sides(SideHeights {
        left: sides.right,
        right: sides.left,
    })
}

// The heights of a container of forms of these heights, where no side is too high.
fn low_container(part: SideHeights) -> Result<SideHeights, TypeFault>
    ensures { (form : FormTree) → HasHeights form part → IsLowForm (form_each form) result }
{
    low_sides(container_heights(part))
}

// The heights of a record whose highest fields are so high, where its fields are distinct and no side is too high.
fn checked_record(
    alloc: Global,
    rows: &Rows,
    highest: SideHeights,
) -> Result<SideHeights, TypeFault>
    ensures { (forms : RowTrees) → HasRowHeights forms highest → MatchResult result
        (λ h. (option_or (option_map repeated_field (first_repeat (row_names (rows_tree rows.now))))
        (sides_failure (form_rec forms)) ≡ None)
        × HasHeights (form_rec forms) h)
        (λ fault. IsFaultOf (option_or (option_map repeated_field (first_repeat (row_names (rows_tree rows.now))))
        (sides_failure (form_rec forms))) fault) }
{
    distinct_fields(alloc, &row_names(alloc, rows.as_slice())?)?;
    low_record(highest)
}

// The heights of alternatives whose highest contents are so high, where their tags are distinct and no side is too
// high.
fn checked_alternatives(
    alloc: Global,
    arms: &Arms,
    highest: SideHeights,
) -> Result<SideHeights, TypeFault>
    ensures { (forms : ArmTrees) → HasArmHeights forms highest → MatchResult result
        (λ h. (option_or (option_map repeated_tag (first_repeat (arm_names (arms_tree arms.now))))
        (sides_failure (alternatives_form forms)) ≡ None)
        × HasHeights (alternatives_form forms) h)
        (λ fault. IsFaultOf (option_or (option_map repeated_tag (first_repeat (arm_names (arms_tree arms.now))))
        (sides_failure (alternatives_form forms))) fault) }
{
    distinct_tags(alloc, &arm_names(alloc, arms.as_slice())?)?;
    low_alternatives(highest)
}

// The heights of a record whose highest fields are so high, where no side is too high.
fn low_record(highest: SideHeights) -> Result<SideHeights, TypeFault>
    ensures { (rows : RowTrees) → HasRowHeights rows highest → IsLowForm (form_rec rows) result }
{
    low_sides(container_heights(highest))
}

// The heights of alternatives whose highest contents are so high, where no side is too high.
fn low_alternatives(highest: SideHeights) -> Result<SideHeights, TypeFault>
    ensures { (arms : ArmTrees) → HasArmHeights arms highest → IsLowForm (alternatives_form arms) result }
{
    low_sides(container_heights(highest))
}

// The heights of what contains a part of these heights.
fn container_heights(part: SideHeights) -> SideHeights
    ensures left { result.left ≡ capped (part.left + 1) }
    ensures right { result.right ≡ capped (part.right + 1) }
{
    SideHeights {
        left: next_height(part.left),
        right: next_height(part.right),
    }
}

// The heights themselves, where no side is too high.
fn low_sides(sides: SideHeights) -> Result<SideHeights, TypeFault>
    ensures { (form : FormTree) → HasHeights form sides → IsLowForm form result }
{
    if sides.left > GREATEST_HEIGHT {
        return Err(TypeFault::TooDeep);
    }
    if sides.right > GREATEST_HEIGHT {
        return Err(TypeFault::TooDeep);
    }
    Ok(sides)
}
