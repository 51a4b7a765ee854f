//! Types, forms and sides with all names expanded.
//!
//! A lens is seen among the first `scope` definitions of a program. Only the main lens is expanded to its
//! form; a side is expanded where a composition compares it, and for the main lens.

ghost use Rattle.std.specs.Prelude.{◌≡◌, ℕ, List, IfOk, map, take};
ghost use Rattle.std.specs.declared.result.Result.TheVariants.{Ok};
ghost use Rattle.doc_values.specs.Types.{ty_tree, ty_enum, ty_rec, type_fields_of as ty_fields_of};
ghost use Rattle.doc_values.specs.Types.{field_tree as ty_field};
ghost use Rattle.program_terms.specs.Views.{type_tree, fields_tree, lens_tree, row_tree as lens_row};
ghost use Rattle.program_terms.specs.Views.{rows_tree as lens_rows, arms_tree as lens_arms};
ghost use Rattle.lens_forms.specs.Forms.{form_tree, form_rec, no_rows, row_tree, rows_tree, arms_tree, sorted};
ghost use Rattle.lens_types.specs.Earlier.{expanded_type, expanded_fields, expanded_form, expanded_rows, expanded_arms};
ghost use Rattle.lens_types.specs.Earlier.{alternatives_type, alternatives_form, partition};
ghost use Rattle.lens_types.specs.Entries.{earlier_tree};
ghost use Rattle.lens_types.specs.Nodes.{expanded_row};

use crate::earlier::Earlier;
use crate::made::{add, both, boxed};
use doc_values::{Fields, Ty};
use lens_forms::{Form, FormArms, FormRow, FormRows};
use program_terms::{Arms, Lens, Row, Rows, TyExpr, TyFields};
use std::alloc::{AllocError, Global};
use texts::{Name, Names, Twin};

// ---- types

// The type with its names expanded.
#[cycle(expanded_type)]
pub(crate) fn expanded_type(
    alloc: Global,
    earlier: &Earlier<'_>,
    scope: usize,
    ty: &TyExpr,
) -> Result<Ty, AllocError>
    ensures { IfOk result (λ t. ty_tree t ≡ expanded_type (take scope (earlier_tree earlier.now)) (type_tree ty.now)) }
{
    match ty {
        TyExpr::Unit => Ok(Ty::Unit),
        TyExpr::Bool => Ok(Ty::Bool),
        TyExpr::Int(value) => Ok(Ty::Int(*value)),
        TyExpr::Text(value) => value.twin(alloc).map(Ty::Text),
        TyExpr::Enum(members, value) => enum_type(members.twin(alloc), value.twin(alloc)),
        TyExpr::Rec(fields) => {
            expanded_fields(alloc, earlier, scope, fields).and_then(record_type)
        }
        TyExpr::Alt(fields) => {
            expanded_fields(alloc, earlier, scope, fields).map(alternatives_type)
        }
        TyExpr::List(inner) => {
            boxed(alloc, expanded_type(alloc, earlier, scope, inner)).map(Ty::List)
        }
        TyExpr::Keyed(inner) => {
            boxed(alloc, expanded_type(alloc, earlier, scope, inner)).map(Ty::Keyed)
        }
        TyExpr::Tree(inner) => {
            boxed(alloc, expanded_type(alloc, earlier, scope, inner)).map(Ty::Tree)
        }
        TyExpr::Named(name) => match earlier.type_named(name, scope) {
            Some(known) => expanded_type(alloc, earlier, known.scope, known.ty),
            None => Ok(Ty::Unit),
        },
    }
}

// Fields, or tags, with the names in their types expanded, in written order.
#[cycle(expanded_type)]
pub(crate) fn expanded_fields(
    alloc: Global,
    earlier: &Earlier<'_>,
    scope: usize,
    fields: &TyFields,
) -> Result<Vec<(Name, Ty)>, AllocError>
    ensures { IfOk result (λ fs. ty_fields_of (map ty_field fs.items)
        ≡ expanded_fields (take scope (earlier_tree earlier.now)) (fields_tree fields.now)) }
{
    let mut items = Vec::new(alloc);
    for field in fields.as_slice() {
        let ty = expanded_type(alloc, earlier, scope, &field.1);
        add(&mut items, both(field.0.twin(alloc), ty))?;
    }
    Ok(items)
}

// An enum with these members and this initial value.
pub(crate) fn enum_type(
    members: Result<Names, AllocError>,
    value: Result<Name, AllocError>,
) -> Result<Ty, AllocError>
    ensures { IfOk result (λ t. (ms : List (List ℕ)) × (v : List ℕ) × (members ≡ Ok ms) × (value ≡ Ok v)
        × (ty_tree t ≡ ty_enum ms v)) }
{
    let (members, value) = both(members, value)?;
    Ok(Ty::Enum(members, value))
}

// A record with these fields, which are sorted by bytes.
pub(crate) fn record_type(fields: Vec<(Name, Ty)>) -> Result<Ty, AllocError>
    ensures { IfOk result (λ t. ty_tree t ≡ ty_rec (sorted (ty_fields_of (map ty_field fields.items)))) }
{
    Ok(Ty::Rec(Fields::from_vec(sorted(fields)?)))
}

// Alternatives; those of nothing are the record of nothing.
pub(crate) fn alternatives_type(tags: Vec<(Name, Ty)>) -> Ty
    ensures { ty_tree result ≡ alternatives_type (ty_fields_of (map ty_field tags.items)) }
{
    let tags = Fields::from_vec(tags);
    if tags.is_empty() {
        Ty::Rec(tags)
    } else {
        Ty::Alt(tags)
    }
}

// The fields sorted by bytes.
fn sorted(fields: Vec<(Name, Ty)>) -> Result<Vec<(Name, Ty)>, AllocError>
    ensures { IfOk result (λ fs. ty_fields_of (map ty_field fs.items)
        ≡ sorted (ty_fields_of (map ty_field fields.items))) }
{
    let mut sorted = fields;
    sorted.sort_by(|a, b| a.0.as_str().cmp(b.0.as_str()))?;
    Ok(sorted)
}

// ---- forms

// The lens with its names expanded.
#[cycle(expanded_lens)]
pub(crate) fn expanded_lens(
    alloc: Global,
    earlier: &Earlier<'_>,
    scope: usize,
    lens: &Lens,
) -> Result<Form, AllocError>
    ensures { IfOk result (λ f. form_tree f ≡ expanded_form (take scope (earlier_tree earlier.now))
        (lens_tree lens.now)) }
{
    match lens {
        Lens::Id(ty) => expanded_type(alloc, earlier, scope, ty).map(Form::Id),
        Lens::Bij(pairs, value) => {
            let (pairs, value) = both(pairs.twin(alloc), value.twin(alloc))?;
            Ok(Form::Bij(pairs, value))
        }
        Lens::Disc(left, right) => {
            let left = expanded_type(alloc, earlier, scope, left);
            let (left, right) = both(left, expanded_type(alloc, earlier, scope, right))?;
            Ok(Form::Disc(left, right))
        }
        Lens::Then(first, second) => {
            let first = boxed(alloc, expanded_lens(alloc, earlier, scope, first));
            let second = boxed(alloc, expanded_lens(alloc, earlier, scope, second));
            let (first, second) = both(first, second)?;
            Ok(Form::Then(first, second))
        }
        Lens::Rec(rows) => expanded_rows(alloc, earlier, scope, rows).map(Form::Rec),
        Lens::Alt(arms) => Ok(alternatives(alloc, expanded_arms(alloc, earlier, scope, arms)?)),
        Lens::Each(inner) => {
            boxed(alloc, expanded_lens(alloc, earlier, scope, inner)).map(Form::Each)
        }
        Lens::Keyed(inner) => {
            boxed(alloc, expanded_lens(alloc, earlier, scope, inner)).map(Form::Keyed)
        }
        Lens::Tree(inner) => {
            boxed(alloc, expanded_lens(alloc, earlier, scope, inner)).map(Form::Tree)
        }
        Lens::Part(fields) => {
            Ok(partition(alloc, expanded_fields(alloc, earlier, scope, fields)?))
        }
        Lens::Inv(inner) => {
            boxed(alloc, expanded_lens(alloc, earlier, scope, inner)).map(Form::Inv)
        }
        Lens::Named(name) => match earlier.lens_named(name, scope) {
            Some(known) => expanded_lens(alloc, earlier, known.scope, known.lens),
            None => Ok(Form::Id(Ty::Unit)),
        },
    }
}

#[cycle(expanded_lens)]
fn expanded_rows(
    alloc: Global,
    earlier: &Earlier<'_>,
    scope: usize,
    rows: &Rows,
) -> Result<FormRows, AllocError>
    ensures { IfOk result (λ rs. rows_tree rs ≡ expanded_rows (take scope (earlier_tree earlier.now))
        (lens_rows rows.now)) }
{
    let mut items = Vec::new(alloc);
    for row in rows.as_slice() {
        add(&mut items, expanded_row(alloc, earlier, scope, row))?;
    }
    Ok(FormRows::from_vec(items))
}

#[cycle(expanded_lens)]
fn expanded_row(
    alloc: Global,
    earlier: &Earlier<'_>,
    scope: usize,
    row: &Row,
) -> Result<FormRow, AllocError>
    ensures { IfOk result (λ r. row_tree r ≡ expanded_row (take scope (earlier_tree earlier.now)) (lens_row row.now)) }
{
    match row {
        Row::Both(left, right, lens) => {
            let form = expanded_lens(alloc, earlier, scope, lens);
            let names = both(left.twin(alloc), right.twin(alloc));
            let ((left, right), form) = both(names, form)?;
            Ok(FormRow::Both(left, right, form))
        }
        Row::OnlyLeft(name, ty) => {
            let ty = expanded_type(alloc, earlier, scope, ty);
            let (name, ty) = both(name.twin(alloc), ty)?;
            Ok(FormRow::OnlyLeft(name, ty))
        }
        Row::OnlyRight(name, ty) => {
            let ty = expanded_type(alloc, earlier, scope, ty);
            let (name, ty) = both(name.twin(alloc), ty)?;
            Ok(FormRow::OnlyRight(name, ty))
        }
    }
}

#[cycle(expanded_lens)]
fn expanded_arms(
    alloc: Global,
    earlier: &Earlier<'_>,
    scope: usize,
    arms: &Arms,
) -> Result<FormArms, AllocError>
    ensures { IfOk result (λ others. arms_tree others ≡ expanded_arms (take scope (earlier_tree earlier.now))
        (lens_arms arms.now)) }
{
    let mut items = Vec::new(alloc);
    for arm in arms.as_slice() {
        let names = both(arm.0.twin(alloc), arm.1.twin(alloc));
        let form = expanded_lens(alloc, earlier, scope, &arm.2);
        let ((left, right), form) = both(names, form)?;
        items.push((left, right, form))?;
    }
    Ok(FormArms::from_vec(items))
}

// Alternatives; those of nothing are the record of nothing.
fn alternatives(alloc: Global, arms: FormArms) -> Form
    ensures { form_tree result ≡ alternatives_form (arms_tree arms) }
{
    if arms.as_slice().is_empty() {
        empty_record(alloc)
    } else {
        Form::Alt(arms)
    }
}

// A partition; that of nothing is the record of nothing.
fn partition(alloc: Global, tags: Vec<(Name, Ty)>) -> Form
    ensures { form_tree result ≡ partition (ty_fields_of (map ty_field tags.items)) }
{
    let tags = Fields::from_vec(tags);
    if tags.is_empty() {
        empty_record(alloc)
    } else {
        Form::Part(tags)
    }
}

fn empty_record(alloc: Global) -> Form
    ensures { form_tree result ≡ form_rec no_rows }
{
    Form::Rec(FormRows::from_vec(Vec::new(alloc)))
}
