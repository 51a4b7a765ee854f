//! The type of a side of a lens, all names expanded.

ghost use Rattle.std.specs.Prelude.{◌≡◌, IfOk, map, take, option_map};
ghost use Rattle.doc_values.specs.Types.{ty_tree, ty_list, ty_alt, ty_rec, type_fields_of as ty_fields_of};
ghost use Rattle.doc_values.specs.Types.{field_tree as ty_field};
ghost use Rattle.program_terms.specs.Views.{lens_tree, row_tree, rows_tree, arms_tree};
ghost use Rattle.lens_forms.specs.Forms.{form_bij, partner_of, sorted, lists_of};
ghost use Rattle.lens_types.specs.Earlier.{expanded_form, expanded_rows, expanded_arms, alternatives_type, partition};
ghost use Rattle.lens_types.specs.Entries.{earlier_tree};
ghost use Rattle.lens_types.specs.SideTypes.{pick, type_on, fields_on, tags_on, field_on, members_on, value_on};

use crate::earlier::Earlier;
use crate::expansion::{alternatives_type, enum_type, expanded_fields, expanded_type, record_type};
use crate::made::{add, both, boxed};
use doc_values::{Fields, Ty};
use program_terms::{Arms, Lens, Pairs, Row, Rows};
use std::alloc::{AllocError, Global};
use texts::{Name, Names, Side, Twin};

// The type of a side of a lens.
#[cycle(side_type)]
pub(crate) fn side_type(
    alloc: Global,
    earlier: &Earlier<'_>,
    scope: usize,
    side: Side,
    lens: &Lens,
) -> Result<Ty, AllocError>
    ensures { IfOk result
        (λ t. ty_tree t ≡ type_on side (expanded_form (take scope (earlier_tree earlier.now)) (lens_tree lens.now))) }
{
    match lens {
        Lens::Id(ty) => expanded_type(alloc, earlier, scope, ty),
        Lens::Bij(pairs, value) => bijection_side(alloc, side, pairs, value),
        Lens::Disc(left, right) => expanded_type(alloc, earlier, scope, pick(side, left, right)),
        Lens::Then(first, second) => match side {
            Side::Left => side_type(alloc, earlier, scope, side, first),
            Side::Right => side_type(alloc, earlier, scope, side, second),
        },
        Lens::Rec(rows) => side_fields(alloc, earlier, scope, side, rows).and_then(record_type),
        Lens::Alt(arms) => side_tags(alloc, earlier, scope, side, arms).map(alternatives_type),
        Lens::Each(inner) => {
            boxed(alloc, side_type(alloc, earlier, scope, side, inner)).map(Ty::List)
        }
        Lens::Keyed(inner) => {
            boxed(alloc, side_type(alloc, earlier, scope, side, inner)).map(Ty::Keyed)
        }
        Lens::Tree(inner) => {
            boxed(alloc, side_type(alloc, earlier, scope, side, inner)).map(Ty::Tree)
        }
        Lens::Part(fields) => {
            partition_side(alloc, side, expanded_fields(alloc, earlier, scope, fields)?)
        }
        Lens::Inv(inner) => side_type(alloc, earlier, scope, side.other(), inner),
        Lens::Named(name) => match earlier.lens_named(name, scope) {
            Some(known) => side_type(alloc, earlier, known.scope, side, known.lens),
            None => Ok(Ty::Unit),
        },
    }
}

// The fields of a side of a record, in written order.
#[cycle(side_type)]
fn side_fields(
    alloc: Global,
    earlier: &Earlier<'_>,
    scope: usize,
    side: Side,
    rows: &Rows,
) -> Result<Vec<(Name, Ty)>, AllocError>
    ensures { IfOk result (λ fs. ty_fields_of (map ty_field fs.items)
        ≡ fields_on side (expanded_rows (take scope (earlier_tree earlier.now)) (rows_tree rows.now))) }
{
    let mut fields = Vec::new(alloc);
    for row in rows.as_slice() {
        if let Some(field) = side_field(alloc, earlier, scope, side, row)? {
            fields.push(field)?;
        }
    }
    Ok(fields)
}

// The field that a row has on a side.
#[cycle(side_type)]
fn side_field(
    alloc: Global,
    earlier: &Earlier<'_>,
    scope: usize,
    side: Side,
    row: &Row,
) -> Result<Option<(Name, Ty)>, AllocError>
    ensures { IfOk result (λ f. option_map ty_field f ≡ field_on side (take scope (earlier_tree earlier.now))
        (row_tree row.now)) }
{
    match (row, side) {
        (Row::Both(left, right, lens), _) => {
            let name = pick(side, left, right).twin(alloc);
            both(name, side_type(alloc, earlier, scope, side, lens)).map(Some)
        }
        (Row::OnlyLeft(name, ty), Side::Left) => {
            both(name.twin(alloc), expanded_type(alloc, earlier, scope, ty)).map(Some)
        }
        (Row::OnlyRight(name, ty), Side::Right) => {
            both(name.twin(alloc), expanded_type(alloc, earlier, scope, ty)).map(Some)
        }
        _ => Ok(None),
    }
}

// The tags of a side of alternatives, in written order.
#[cycle(side_type)]
fn side_tags(
    alloc: Global,
    earlier: &Earlier<'_>,
    scope: usize,
    side: Side,
    arms: &Arms,
) -> Result<Vec<(Name, Ty)>, AllocError>
    ensures { IfOk result (λ fs. ty_fields_of (map ty_field fs.items)
        ≡ tags_on side (expanded_arms (take scope (earlier_tree earlier.now)) (arms_tree arms.now))) }
{
    let mut tags = Vec::new(alloc);
    for arm in arms.as_slice() {
        let name = pick(side, &arm.0, &arm.1).twin(alloc);
        let ty = side_type(alloc, earlier, scope, side, &arm.2);
        add(&mut tags, both(name, ty))?;
    }
    Ok(tags)
}

// Of two things of the two sides, that of a side.
fn pick<'a, T>(side: Side, left: &'a T, right: &'a T) -> &'a T
    ensures { result.now ≡ pick side left.now right.now }
{
    match side {
        Side::Left => left,
        Side::Right => right,
    }
}

// The type of a side of a bijection.
fn bijection_side(alloc: Global, side: Side, pairs: &Pairs, value: &Name) -> Result<Ty, AllocError>
    ensures { IfOk result (λ t. ty_tree t ≡ type_on side (form_bij pairs.now value.now)) }
{
    let pairs = pairs.as_slice();
    enum_type(
        side_members(alloc, side, pairs),
        side_value(alloc, side, pairs, value),
    )
}

// The members of a side of a bijection.
fn side_members(alloc: Global, side: Side, pairs: &[(Name, Name)]) -> Result<Names, AllocError>
    ensures { IfOk result (λ ns. ns ≡ members_on side pairs.now) }
{
    let mut members = Vec::new(alloc);
    for pair in pairs {
        add(&mut members, pick(side, &pair.0, &pair.1).twin(alloc))?;
    }
    Ok(Names::from_vec(members))
}

// The initial value of a side of a bijection: the declared one on the left, and its partner on the right.
fn side_value(
    alloc: Global,
    side: Side,
    pairs: &[(Name, Name)],
    value: &Name,
) -> Result<Name, AllocError>
    ensures { IfOk result (λ n. n ≡ value_on side pairs.now value.now) }
{
    match side {
        Side::Left => value.twin(alloc),
        Side::Right => partner(alloc, pairs, value),
    }
}

// The right member of the first pair with this left member; the empty name if no pair has it.
fn partner(alloc: Global, pairs: &[(Name, Name)], left: &Name) -> Result<Name, AllocError>
    ensures { IfOk result (λ n. n ≡ partner_of pairs.now left.now) }
{
    for pair in pairs {
        if pair.0.is_same(left) {
            return pair.1.twin(alloc);
        }
    }
    Ok(Name::from_string(String::new(alloc)))
}

// The type of a side of a partition; that of nothing is the record of nothing.
fn partition_side(alloc: Global, side: Side, tags: Vec<(Name, Ty)>) -> Result<Ty, AllocError>
    ensures { IfOk result (λ t. ty_tree t ≡ type_on side (partition (ty_fields_of (map ty_field tags.items)))) }
{
    if tags.as_slice().is_empty() {
        return Ok(Ty::Rec(Fields::from_vec(tags)));
    }
    match side {
        Side::Left => list_of_alternatives(alloc, tags),
        Side::Right => record_of_lists(alloc, tags),
    }
}

fn list_of_alternatives(alloc: Global, tags: Vec<(Name, Ty)>) -> Result<Ty, AllocError>
    ensures { IfOk result (λ t. ty_tree t ≡ ty_list (ty_alt (ty_fields_of (map ty_field tags.items)))) }
{
    boxed(alloc, Ok(Ty::Alt(Fields::from_vec(tags)))).map(Ty::List)
}

fn record_of_lists(alloc: Global, tags: Vec<(Name, Ty)>) -> Result<Ty, AllocError>
    ensures { IfOk result (λ t. ty_tree t ≡ ty_rec (sorted (lists_of (ty_fields_of (map ty_field tags.items))))) }
{
    lists_of(alloc, tags.as_slice()).and_then(record_type)
}

// The same names, each with a list of its type.
fn lists_of(alloc: Global, fields: &[(Name, Ty)]) -> Result<Vec<(Name, Ty)>, AllocError>
    ensures { IfOk result (λ fs. ty_fields_of (map ty_field fs.items)
        ≡ lists_of (ty_fields_of (map ty_field fields.now))) }
{
    let mut lists = Vec::new(alloc);
    for field in fields {
        add(
            &mut lists,
            both(field.0.twin(alloc), list_of(alloc, &field.1)),
        )?;
    }
    Ok(lists)
}

// A list of this type.
fn list_of(alloc: Global, ty: &Ty) -> Result<Ty, AllocError>
    ensures { IfOk result (λ t. ty_tree t ≡ ty_list (ty_tree ty.now)) }
{
    boxed(alloc, ty.twin(alloc)).map(Ty::List)
}
