//! The counted parts of a definition, names expanded, which are counted before any name is expanded.
//!
//! A count is given the room that there is for parts, and returns the room that is left: None where there are too many.
//! So it stops as soon as there are too many.

ghost use Rattle.std.specs.Prelude.{◌≡◌, map, option_and_then};
ghost use Rattle.program_terms.specs.Terms.{term_fields_of, term_rows_of, term_arms_of};
ghost use Rattle.program_terms.specs.Views.{type_tree, fields_tree, lens_tree, row_tree, rows_tree, arms_tree};
ghost use Rattle.lens_types.specs.Earlier.{expanded_type, expanded_form};
ghost use Rattle.lens_forms.specs.Measures.{type_parts, form_parts};
ghost use Rattle.lens_types.specs.Entries.{earlier_tree};
ghost use Rattle.lens_types.specs.PartRooms.{IsCountOf, room_after, type_room, fields_room, lens_room, row_room};
ghost use Rattle.lens_types.specs.PartRooms.{rows_room, arms_room};

use crate::earlier::Earlier;
use lens_forms::MOST_PARTS;
use program_terms::{Arms, Lens, Row, Rows, TyExpr, TyFields};

// The parts of a type. None where there are too many.
pub(crate) fn counted_type(earlier: &Earlier<'_>, ty: &TyExpr) -> Option<usize>
    ensures { IsCountOf (type_parts (expanded_type (earlier_tree earlier.now) (type_tree ty.now))) result }
{
    let room = type_room(earlier, ty, Some(MOST_PARTS))?;
    Some(MOST_PARTS - room)
}

// The parts of a lens. None where there are too many.
pub(crate) fn counted_lens(earlier: &Earlier<'_>, lens: &Lens) -> Option<usize>
    ensures { IsCountOf (form_parts (expanded_form (earlier_tree earlier.now) (lens_tree lens.now))) result }
{
    let room = lens_room(earlier, lens, Some(MOST_PARTS))?;
    Some(MOST_PARTS - room)
}

fn room_after(parts: usize, room: usize) -> Option<usize>
    ensures { result ≡ room_after parts room }
{
    if parts <= room {
        Some(room - parts)
    } else {
        None
    }
}

#[cycle(type_room)]
fn type_room(earlier: &Earlier<'_>, ty: &TyExpr, room: Option<usize>) -> Option<usize>
    ensures { result ≡ option_and_then (type_room (earlier_tree earlier.now) (type_tree ty.now)) room }
{
    let room = room?;
    match ty {
        TyExpr::Unit => room_after(1, room),
        TyExpr::Bool => room_after(1, room),
        TyExpr::Int(_) => room_after(1, room),
        TyExpr::Text(_) => room_after(1, room),
        TyExpr::Enum(members, _) => room_after(members.len(), room_after(1, room)?),
        TyExpr::Rec(fields) => fields_room(earlier, fields, room_after(1, room)),
        TyExpr::Alt(fields) => fields_room(earlier, fields, room_after(1, room)),
        TyExpr::List(inner) => type_room(earlier, inner, room_after(1, room)),
        TyExpr::Keyed(inner) => type_room(earlier, inner, room_after(1, room)),
        TyExpr::Tree(inner) => type_room(earlier, inner, room_after(1, room)),
        TyExpr::Named(name) => room_after(earlier.type_parts(name), room),
    }
}

#[cycle(type_room)]
fn fields_room(earlier: &Earlier<'_>, fields: &TyFields, room: Option<usize>) -> Option<usize>
    ensures { result ≡ option_and_then (fields_room (earlier_tree earlier.now) (fields_tree fields.now)) room }
{
    let mut left = room?;
    for field in fields.as_slice() {
        left = type_room(earlier, &field.1, room_after(1, left))?;
    }
    Some(left)
}

#[cycle(lens_room)]
fn lens_room(earlier: &Earlier<'_>, lens: &Lens, room: Option<usize>) -> Option<usize>
    ensures { result ≡ option_and_then (lens_room (earlier_tree earlier.now) (lens_tree lens.now)) room }
{
    let room = room?;
    match lens {
        Lens::Id(ty) => type_room(earlier, ty, room_after(1, room)),
        Lens::Bij(pairs, _) => room_after(pairs.as_slice().len(), room_after(1, room)?),
        Lens::Disc(left, right) => {
            let rest = type_room(earlier, left, room_after(1, room));
            type_room(earlier, right, rest)
        }
        Lens::Then(first, second) => {
            let rest = lens_room(earlier, first, room_after(1, room));
            lens_room(earlier, second, rest)
        }
        Lens::Rec(rows) => rows_room(earlier, rows, room_after(1, room)),
        Lens::Alt(arms) => arms_room(earlier, arms, room_after(1, room)),
        Lens::Each(inner) => lens_room(earlier, inner, room_after(1, room)),
        Lens::Keyed(inner) => lens_room(earlier, inner, room_after(1, room)),
        Lens::Tree(inner) => lens_room(earlier, inner, room_after(1, room)),
        Lens::Part(fields) => fields_room(earlier, fields, room_after(1, room)),
        Lens::Inv(inner) => lens_room(earlier, inner, room_after(1, room)),
        Lens::Named(name) => room_after(earlier.lens_parts(name), room),
    }
}

#[cycle(lens_room)]
fn rows_room(earlier: &Earlier<'_>, rows: &Rows, room: Option<usize>) -> Option<usize>
    ensures { result ≡ option_and_then (rows_room (earlier_tree earlier.now) (rows_tree rows.now)) room }
{
    let mut left = room?;
    for row in rows.as_slice() {
        left = row_room(earlier, row, room_after(1, left))?;
    }
    Some(left)
}

#[cycle(lens_room)]
fn row_room(earlier: &Earlier<'_>, row: &Row, room: Option<usize>) -> Option<usize>
    ensures { result ≡ option_and_then (row_room (earlier_tree earlier.now) (row_tree row.now)) room }
{
    match row {
        Row::Both(_, _, lens) => lens_room(earlier, lens, room),
        Row::OnlyLeft(_, ty) => type_room(earlier, ty, room),
        Row::OnlyRight(_, ty) => type_room(earlier, ty, room),
    }
}

#[cycle(lens_room)]
fn arms_room(earlier: &Earlier<'_>, arms: &Arms, room: Option<usize>) -> Option<usize>
    ensures { result ≡ option_and_then (arms_room (earlier_tree earlier.now) (arms_tree arms.now)) room }
{
    let mut left = room?;
    for arm in arms.as_slice() {
        left = lens_room(earlier, &arm.2, room_after(1, left))?;
    }
    Some(left)
}
