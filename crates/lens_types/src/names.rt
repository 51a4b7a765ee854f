//! Names that occur twice on a side.

ghost use Rattle.std.specs.Prelude.{◌≡◌, IfOk, MatchResult, None, option_map, map};
ghost use Rattle.program_terms.specs.Terms.{term_fields_of, term_rows_of, term_arms_of};
ghost use Rattle.program_terms.specs.Views.{field_tree, row_tree, arm_tree};
ghost use Rattle.lens_types.specs.Repeats.{is_same_side, sided, first_repeat, sided_members, field_names, pair_names};
ghost use Rattle.lens_types.specs.Repeats.{row_names, arm_names};
ghost use Rattle.lens_types.specs.Checking.{repeated_field, repeated_tag, repeated_member};
ghost use Rattle.lens_types.specs.Faults.{IsFaultOf};
ghost use Rattle.texts.specs.declared.side.Side;

use crate::fault::TypeFault;
use indexmap::IndexSet;
use program_terms::{Lens, Row, TyExpr};
use std::alloc::{AllocError, Global};
use texts::{Name, Side, Twin};

// Refuses a member that occurs twice on its side.
pub(crate) fn distinct_members(alloc: Global, names: &[(Side, &Name)]) -> Result<(), TypeFault>
    ensures { MatchResult result
        (λ _. option_map repeated_member (first_repeat (map sided names.now)) ≡ None)
        (λ fault. IsFaultOf (option_map repeated_member (first_repeat (map sided names.now))) fault) }
{
    match first_repeat(alloc, names)? {
        Some(name) => Err(TypeFault::RepeatedMember {
            name: name.twin(alloc)?,
        }),
        None => Ok(()),
    }
}

// Refuses a field that occurs twice on its side.
pub(crate) fn distinct_fields(alloc: Global, names: &[(Side, &Name)]) -> Result<(), TypeFault>
    ensures { MatchResult result
        (λ _. option_map repeated_field (first_repeat (map sided names.now)) ≡ None)
        (λ fault. IsFaultOf (option_map repeated_field (first_repeat (map sided names.now))) fault) }
{
    match first_repeat(alloc, names)? {
        Some(name) => Err(TypeFault::RepeatedField {
            name: name.twin(alloc)?,
        }),
        None => Ok(()),
    }
}

// Refuses a tag that occurs twice on its side.
pub(crate) fn distinct_tags(alloc: Global, names: &[(Side, &Name)]) -> Result<(), TypeFault>
    ensures { MatchResult result
        (λ _. option_map repeated_tag (first_repeat (map sided names.now)) ≡ None)
        (λ fault. IsFaultOf (option_map repeated_tag (first_repeat (map sided names.now))) fault) }
{
    match first_repeat(alloc, names)? {
        Some(name) => Err(TypeFault::RepeatedTag {
            name: name.twin(alloc)?,
        }),
        None => Ok(()),
    }
}

// The first name that equals an earlier one of its side.
fn first_repeat<'a>(
    alloc: Global,
    names: &[(Side, &'a Name)],
) -> Result<Option<&'a Name>, AllocError>
    ensures { IfOk result (λ found. option_map (λ n. n.now) found ≡ first_repeat (map sided names.now)) }
{
    let mut known = IndexSet::new(alloc);
    for name in names {
        if !known.insert((is_left(name.0), name.1.as_str()))? {
            return Ok(Some(name.1));
        }
    }
    Ok(None)
}

fn is_left(side: Side) -> bool
    ensures { result ≡ is_same_side side Side.Left }
{
    match side {
        Side::Left => true,
        Side::Right => false,
    }
}

pub(crate) fn member_names(
    alloc: Global,
    members: &[Name],
) -> Result<Vec<(Side, &Name)>, AllocError>
    ensures { IfOk result (λ ns. map sided ns.items ≡ sided_members members.now) }
{
    let mut names = Vec::new(alloc);
    for member in members {
        names.push((Side::Left, member))?;
    }
    Ok(names)
}

pub(crate) fn field_names(
    alloc: Global,
    fields: &[(Name, TyExpr)],
) -> Result<Vec<(Side, &Name)>, AllocError>
    ensures { IfOk result (λ ns. map sided ns.items ≡ field_names (term_fields_of (map field_tree fields.now))) }
{
    let mut names = Vec::new(alloc);
    for field in fields {
        names.push((Side::Left, &field.0))?;
    }
    Ok(names)
}

pub(crate) fn pair_names(
    alloc: Global,
    pairs: &[(Name, Name)],
) -> Result<Vec<(Side, &Name)>, AllocError>
    ensures { IfOk result (λ ns. map sided ns.items ≡ pair_names pairs.now) }
{
    let mut names = Vec::new(alloc);
    for pair in pairs {
        names.push((Side::Left, &pair.0))?;
        names.push((Side::Right, &pair.1))?;
    }
    Ok(names)
}

pub(crate) fn row_names(alloc: Global, rows: &[Row]) -> Result<Vec<(Side, &Name)>, AllocError>
    ensures { IfOk result (λ ns. map sided ns.items ≡ row_names (term_rows_of (map row_tree rows.now))) }
{
    let mut names = Vec::new(alloc);
    for row in rows {
        match row {
            Row::Both(left, right, _) => {
                names.push((Side::Left, left))?;
                names.push((Side::Right, right))?;
            }
            Row::OnlyLeft(name, _) => names.push((Side::Left, name))?,
            Row::OnlyRight(name, _) => names.push((Side::Right, name))?,
        }
    }
    Ok(names)
}

pub(crate) fn arm_names(
    alloc: Global,
    arms: &[(Name, Name, Lens)],
) -> Result<Vec<(Side, &Name)>, AllocError>
    ensures { IfOk result (λ ns. map sided ns.items ≡ arm_names (term_arms_of (map arm_tree arms.now))) }
{
    let mut names = Vec::new(alloc);
    for arm in arms {
        names.push((Side::Left, &arm.0))?;
        names.push((Side::Right, &arm.1))?;
    }
    Ok(names)
}
