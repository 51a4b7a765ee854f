//! Heights of types and lenses, names expanded. A height over the limit counts as one more than the limit.

ghost use Rattle.std.specs.Prelude.{◌≡◌};
ghost use Rattle.doc_values.specs.Types.{height, highest};
ghost use Rattle.program_terms.specs.Views.{type_tree, fields_tree, lens_tree, row_tree, rows_tree, arms_tree};
ghost use Rattle.lens_forms.specs.Measures.{form_height, highest_row, highest_arm};
ghost use Rattle.lens_types.specs.Earlier.{expanded_type, expanded_fields, expanded_form, expanded_rows, expanded_arms};
ghost use Rattle.lens_types.specs.Checking.{written_height, rows_written, arms_written};
ghost use Rattle.lens_types.specs.Entries.{earlier_tree};
ghost use Rattle.lens_types.specs.Heights.{capped, row_height, row_written};

use crate::earlier::Earlier;
use crate::limits::next_height;
use program_terms::{Arms, Lens, Row, Rows, TyExpr, TyFields};

// The height of a type.
#[cycle(type_height)]
#[tactic(auto, using(crate::proofs::CappedHeights::type_height_rules))]
pub(crate) fn type_height(earlier: &Earlier<'_>, ty: &TyExpr) -> u32
    ensures { result ≡ capped (height (expanded_type (earlier_tree earlier.now) (type_tree ty.now))) }
{
    match ty {
        TyExpr::Unit => 1,
        TyExpr::Bool => 1,
        TyExpr::Int(_) => 1,
        TyExpr::Text(_) => 1,
        TyExpr::Enum(_, _) => 1,
        TyExpr::Rec(fields) => next_height(fields_height(earlier, fields)),
        TyExpr::Alt(fields) => next_height(fields_height(earlier, fields)),
        TyExpr::List(inner) => next_height(type_height(earlier, inner)),
        TyExpr::Keyed(inner) => next_height(type_height(earlier, inner)),
        TyExpr::Tree(inner) => next_height(type_height(earlier, inner)),
        TyExpr::Named(name) => earlier.type_height(name),
    }
}

// The greatest height of the type of a field, or 0.
#[cycle(type_height)]
#[tactic(auto, using(crate::proofs::CappedHeights::type_height_rules))]
pub(crate) fn fields_height(earlier: &Earlier<'_>, fields: &TyFields) -> u32
    ensures { result ≡ capped (highest (expanded_fields (earlier_tree earlier.now) (fields_tree fields.now))) }
{
    let mut highest = 0;
    for field in fields.as_slice() {
        highest = highest.max(type_height(earlier, &field.1));
    }
    highest
}

// The height of a lens.
#[cycle(lens_height)]
#[tactic(auto, using(crate::proofs::CappedHeights::lens_height_rules))]
pub(crate) fn lens_height(earlier: &Earlier<'_>, lens: &Lens) -> u32
    ensures { result ≡ capped (form_height (expanded_form (earlier_tree earlier.now) (lens_tree lens.now))) }
{
    match lens {
        Lens::Id(_) => 1,
        Lens::Bij(_, _) => 1,
        Lens::Disc(_, _) => 1,
        Lens::Then(first, second) => {
            let first = lens_height(earlier, first);
            next_height(first.max(lens_height(earlier, second)))
        }
        Lens::Rec(rows) => next_height(rows_height(earlier, rows)),
        Lens::Alt(arms) => next_height(arms_height(earlier, arms)),
        Lens::Each(inner) => next_height(lens_height(earlier, inner)),
        Lens::Keyed(inner) => next_height(lens_height(earlier, inner)),
        Lens::Tree(inner) => next_height(lens_height(earlier, inner)),
        Lens::Part(_) => 1,
        Lens::Inv(inner) => next_height(lens_height(earlier, inner)),
        Lens::Named(name) => earlier.lens_height(name),
    }
}

#[cycle(lens_height)]
#[tactic(auto, using(crate::proofs::CappedHeights::lens_height_rules))]
fn rows_height(earlier: &Earlier<'_>, rows: &Rows) -> u32
    ensures { result ≡ capped (highest_row (expanded_rows (earlier_tree earlier.now) (rows_tree rows.now))) }
{
    let mut highest = 0;
    for row in rows.as_slice() {
        highest = highest.max(row_height(earlier, row));
    }
    highest
}

// The height of the lens of a row, or 0.
#[cycle(lens_height)]
#[tactic(auto, using(crate::proofs::CappedHeights::lens_height_rules))]
fn row_height(earlier: &Earlier<'_>, row: &Row) -> u32
    ensures { result ≡ capped (row_height (earlier_tree earlier.now) (row_tree row.now)) }
{
    match row {
        Row::Both(_, _, lens) => lens_height(earlier, lens),
        Row::OnlyLeft(_, _) => 0,
        Row::OnlyRight(_, _) => 0,
    }
}

#[cycle(lens_height)]
#[tactic(auto, using(crate::proofs::CappedHeights::lens_height_rules))]
fn arms_height(earlier: &Earlier<'_>, arms: &Arms) -> u32
    ensures { result ≡ capped (highest_arm (expanded_arms (earlier_tree earlier.now) (arms_tree arms.now))) }
{
    let mut highest = 0;
    for arm in arms.as_slice() {
        highest = highest.max(lens_height(earlier, &arm.2));
    }
    highest
}

// The greatest height of a type that is written in a lens, or 0.
#[cycle(written_height)]
#[tactic(auto, using(crate::proofs::CappedHeights::written_rules))]
pub(crate) fn written_height(earlier: &Earlier<'_>, lens: &Lens) -> u32
    ensures { result ≡ capped (written_height (earlier_tree earlier.now) (lens_tree lens.now)) }
{
    match lens {
        Lens::Id(ty) => type_height(earlier, ty),
        Lens::Bij(_, _) => 0,
        Lens::Disc(left, right) => {
            let left = type_height(earlier, left);
            left.max(type_height(earlier, right))
        }
        Lens::Then(first, second) => {
            let first = written_height(earlier, first);
            first.max(written_height(earlier, second))
        }
        Lens::Rec(rows) => rows_written(earlier, rows),
        Lens::Alt(arms) => arms_written(earlier, arms),
        Lens::Each(inner) => written_height(earlier, inner),
        Lens::Keyed(inner) => written_height(earlier, inner),
        Lens::Tree(inner) => written_height(earlier, inner),
        Lens::Part(fields) => fields_height(earlier, fields),
        Lens::Inv(inner) => written_height(earlier, inner),
        Lens::Named(_) => 0,
    }
}

#[cycle(written_height)]
#[tactic(auto, using(crate::proofs::CappedHeights::written_rules))]
fn rows_written(earlier: &Earlier<'_>, rows: &Rows) -> u32
    ensures { result ≡ capped (rows_written (earlier_tree earlier.now) (rows_tree rows.now)) }
{
    let mut highest = 0;
    for row in rows.as_slice() {
        highest = highest.max(row_written(earlier, row));
    }
    highest
}

#[cycle(written_height)]
#[tactic(auto, using(crate::proofs::CappedHeights::written_rules))]
fn row_written(earlier: &Earlier<'_>, row: &Row) -> u32
    ensures { result ≡ capped (row_written (earlier_tree earlier.now) (row_tree row.now)) }
{
    match row {
        Row::Both(_, _, lens) => written_height(earlier, lens),
        Row::OnlyLeft(_, ty) => type_height(earlier, ty),
        Row::OnlyRight(_, ty) => type_height(earlier, ty),
    }
}

#[cycle(written_height)]
#[tactic(auto, using(crate::proofs::CappedHeights::written_rules))]
fn arms_written(earlier: &Earlier<'_>, arms: &Arms) -> u32
    ensures { result ≡ capped (arms_written (earlier_tree earlier.now) (arms_tree arms.now)) }
{
    let mut highest = 0;
    for arm in arms.as_slice() {
        highest = highest.max(written_height(earlier, &arm.2));
    }
    highest
}
