//! The fields of a record: the near field of a row by its place, and the far fields in order.

ghost use Rattle.std.specs.Prelude.{◌≡◌, ◌≤◌, [], IsTrue, OnOk, length, map};
ghost use Rattle.std.specs.List.{insert};
ghost use Rattle.texts.specs.Keys.{has_name, is_rising, key_rank};
ghost use Rattle.doc_values.specs.Types.{names_of};
ghost use Rattle.lens_forms.specs.Forms.{row_tree, rows_tree};
ghost use Rattle.lens_core.specs.Sides.{fields_on};
ghost use Rattle.law_images.specs.Image.{patterns_by_name};
ghost use Rattle.law_images.specs.Patterns.{pattern_tree, hole};
ghost use Rattle.lens_check.specs.ImageParts.{field_pattern, has_field_before, if_far, place_among, names_in};
ghost use Rattle.lens_check.specs.ImageParts.{patterns_in};

use crate::owned::put_at;
use law_images::Pattern;
use lens_forms::{FormRow, FormRows};
use std::alloc::{AllocError, Global};
use texts::{Name, Side, Twin};

// Patterns of fields, sorted by the bytes of their names.
#[derive(Drop)]
pub(crate) struct SortedFields {
    names: Vec<Name>,
    pub(crate) patterns: Vec<Pattern>,
}

impl SortedFields {
    // No fields. Does not allocate.
    pub(crate) fn new(alloc: Global) -> SortedFields
        ensures names { names_in result ≡ [] }
        ensures patterns { patterns_in result ≡ [] }
    {
        SortedFields {
            names: Vec::new(alloc),
            patterns: Vec::new(alloc),
        }
    }

    // Puts a field at its place. Fails only if memory runs out.
    #[tactic(auto, using(crate::proofs::SortedNames::put_rules))]
    pub(crate) fn put(
        &mut self,
        alloc: Global,
        name: &Name,
        pattern: Pattern,
    ) -> Result<(), AllocError>
        requires { length (names_in self.old) ≡ length (patterns_in self.old) }
        ensures names { OnOk result
            (names_in self.new ≡ insert (names_in self.old) (place_among name.now (names_in self.old)) name.now) }
        ensures patterns { OnOk result (patterns_in self.new
            ≡ insert (patterns_in self.old) (place_among name.now (names_in self.old)) (pattern_tree pattern)) }
    {
        let place = place_among(&self.names, name);
        put_at(&mut self.patterns, place, pattern)?;
        put_at(&mut self.names, place, name.twin(alloc)?)
    }

    // Puts a field that a row has on one side alone, with a hole, where that is not the side of the pattern. Fails only
    // if memory runs out.
    pub(crate) fn put_alone(
        &mut self,
        alloc: Global,
        name: &Name,
        of: Side,
        side: Side,
    ) -> Result<(), AllocError>
        requires { length (names_in self.old) ≡ length (patterns_in self.old) }
        ensures names { OnOk result (names_in self.new
            ≡ if_far of side (insert (names_in self.old) (place_among name.now (names_in self.old)) name.now)
            (names_in self.old)) }
        ensures patterns { OnOk result (patterns_in self.new
            ≡ if_far of side (insert (patterns_in self.old) (place_among name.now (names_in self.old)) hole)
            (patterns_in self.old)) }
    {
        match (of, side) {
            (Side::Left, Side::Right) => self.put(alloc, name, Pattern::Hole),
            (Side::Right, Side::Left) => self.put(alloc, name, Pattern::Hole),
            _ => Ok(()),
        }
    }
}

// The place of a name among sorted names: how many are before it, from the first on.
#[tactic(auto, using(crate::proofs::FieldPlaces::place_rules))]
fn place_among(names: &[Name], name: &Name) -> usize
    ensures value { result ≡ place_among name.now names.now }
    ensures within { result ≤ length names.now }
{
    for place in 0..names.len() {
        if !names[place].is_before(name) {
            return place;
        }
    }
    names.len()
}

// The pattern at a field of a side, in the pattern of a record: a hole where the pattern has none, which is
// `otherwise`.
//
// It passes over the rows, to count the fields that are before this one.
#[tactic(auto, using(crate::proofs::FieldPlaces::near_place))]
pub(crate) fn near_pattern<'a>(
    rows: &FormRows,
    side: Side,
    name: &Name,
    pattern: &'a Pattern,
    otherwise: &'a Pattern,
) -> &'a Pattern
    requires is_hole { pattern_tree otherwise.now ≡ hole }
    requires among { IsTrue (has_name name.now (names_of (fields_on side (rows_tree rows.now)))) }
    requires apart { IsTrue (is_rising (names_of (fields_on side (rows_tree rows.now)))) }
    ensures { pattern_tree result.now ≡ patterns_by_name (fields_on side (rows_tree rows.now))
        (pattern_tree pattern.now) name.now }
{
    field_pattern(pattern, field_place(rows, side, name), otherwise)
}

// The place of a field among the fields of a side: how many of them are before it.
#[tactic(auto, using(crate::proofs::FieldPlaces::count_rules))]
fn field_place(rows: &FormRows, side: Side, name: &Name) -> usize
    ensures { result ≡ key_rank name.now (names_of (fields_on side (rows_tree rows.now))) }
{
    let mut place = 0;
    for row in rows.as_slice() {
        if has_field_before(row, side, name) {
            place += 1;
        }
    }
    place
}

// Whether a row has a field on the side that is before a name.
fn has_field_before(row: &FormRow, side: Side, name: &Name) -> bool
    ensures { result ≡ has_field_before side name.now (row_tree row.now) }
{
    match (row, side) {
        (FormRow::Both(left, _, _), Side::Left) => left.is_before(name),
        (FormRow::Both(_, right, _), Side::Right) => right.is_before(name),
        (FormRow::OnlyLeft(left, _), Side::Left) => left.is_before(name),
        (FormRow::OnlyLeft(_, _), Side::Right) => false,
        (FormRow::OnlyRight(_, _), Side::Left) => false,
        (FormRow::OnlyRight(right, _), Side::Right) => right.is_before(name),
    }
}

// The pattern at a place of a record's pattern, or `otherwise`, a hole, where there is none.
#[tactic(auto, using(crate::proofs::FieldPlaces::field_rules))]
fn field_pattern<'a>(pattern: &'a Pattern, place: usize, otherwise: &'a Pattern) -> &'a Pattern
    requires { pattern_tree otherwise.now ≡ hole }
    ensures { pattern_tree result.now ≡ field_pattern (pattern_tree pattern.now) place }
{
    match pattern {
        Pattern::Rec(patterns) => {
            if place < patterns.len() {
                patterns.get(place)
            } else {
                otherwise
            }
        }
        _ => otherwise,
    }
}
