//! The text of lenses.
ghost use Rattle.std.specs.Prelude.{◌≡◌, [], ◌++◌, OnOk, string_bytes};
ghost use Rattle.program_terms.specs.Views.{lens_tree, row_tree, rows_tree, arms_tree};
ghost use Rattle.program_writing.specs.Canonical.{put_lens, put_rows, put_arms};
ghost use Rattle.program_writing.specs.Puts.{Puts, put_row};

use crate::initial_text::put_initial_left;
use crate::name_text::{put_comma, put_name, put_pairs, put_text};
use crate::type_text::{put_fields, put_type};
use program_terms::{Arms, Lens, Row, Rows};
use std::alloc::AllocError;

#[cycle(put_lens)]
pub(crate) fn put_lens(out: &mut String, lens: &Lens) -> Result<(), AllocError>
    ensures { OnOk result (Puts (string_bytes out.old) (string_bytes out.new) (put_lens (lens_tree lens.now))) }
{
    match lens {
        Lens::Id(ty) => {
            put_text(out, "id ")?;
            put_type(out, ty)
        }
        Lens::Bij(pairs, value) => {
            put_text(out, "bij[")?;
            put_pairs(out, pairs.as_slice())?;
            put_text(out, "]")?;
            put_initial_left(out, pairs.as_slice(), value)
        }
        Lens::Disc(left, right) => {
            put_text(out, "disc ")?;
            put_type(out, left)?;
            put_text(out, " ")?;
            put_type(out, right)
        }
        Lens::Then(first, second) => {
            put_text(out, "then(")?;
            put_lens(out, first)?;
            put_text(out, ", ")?;
            put_lens(out, second)?;
            put_text(out, ")")
        }
        Lens::Rec(rows) => {
            put_text(out, "{")?;
            put_rows(out, rows)?;
            put_text(out, "}")
        }
        Lens::Alt(arms) => {
            put_text(out, "<")?;
            put_arms(out, arms)?;
            put_text(out, ">")
        }
        Lens::Each(inner) => {
            put_text(out, "each ")?;
            put_lens(out, inner)
        }
        Lens::Keyed(inner) => {
            put_text(out, "keyed ")?;
            put_lens(out, inner)
        }
        Lens::Tree(inner) => {
            put_text(out, "tree ")?;
            put_lens(out, inner)
        }
        Lens::Part(tags) => {
            put_text(out, "part <")?;
            put_fields(out, tags)?;
            put_text(out, ">")
        }
        Lens::Inv(inner) => {
            put_text(out, "inv ")?;
            put_lens(out, inner)
        }
        Lens::Named(name) => put_name(out, name),
    }
}

#[cycle(put_lens)]
fn put_row(out: &mut String, row: &Row) -> Result<(), AllocError>
    ensures { OnOk result (Puts (string_bytes out.old) (string_bytes out.new) (put_row (row_tree row.now))) }
{
    match row {
        Row::Both(left, right, lens) => {
            put_name(out, left)?;
            put_text(out, " ~ ")?;
            put_name(out, right)?;
            put_text(out, ": ")?;
            put_lens(out, lens)
        }
        Row::OnlyLeft(field, ty) => {
            put_text(out, "left ")?;
            put_name(out, field)?;
            put_text(out, ": ")?;
            put_type(out, ty)
        }
        Row::OnlyRight(field, ty) => {
            put_text(out, "right ")?;
            put_name(out, field)?;
            put_text(out, ": ")?;
            put_type(out, ty)
        }
    }
}

// Rows with commas between them.
#[cycle(put_lens)]
fn put_rows(out: &mut String, rows: &Rows) -> Result<(), AllocError>
    ensures { OnOk result (Puts (string_bytes out.old) (string_bytes out.new) (put_rows [] (rows_tree rows.now))) }
{
    let mut first = true;
    for row in rows.as_slice() {
        put_comma(out, first)?;
        put_row(out, row)?;
        first = false;
    }
    Ok(())
}

// Arms with commas between them.
#[cycle(put_lens)]
fn put_arms(out: &mut String, arms: &Arms) -> Result<(), AllocError>
    ensures { OnOk result (Puts (string_bytes out.old) (string_bytes out.new) (put_arms [] (arms_tree arms.now))) }
{
    let mut first = true;
    for arm in arms.as_slice() {
        put_comma(out, first)?;
        put_name(out, &arm.0)?;
        put_text(out, " ~ ")?;
        put_name(out, &arm.1)?;
        put_text(out, ": ")?;
        put_lens(out, &arm.2)?;
        first = false;
    }
    Ok(())
}
