//! Reading a complement from the tokens of a text, without a tree.
ghost use Rattle.std.specs.Prelude.{◌≡◌, ◌+◌, ◌≤◌, ◌∷◌, ℕ, List, Some, true, length, IfSome, IsTrue};
ghost use Rattle.json.specs.Json.{read_key};
ghost use Rattle.json.specs.Token.{Token as TokenSpec, begin_array, begin_object};
ghost use Rattle.serde_json.specs.Data.{string};
ghost use Rattle.hold_shapes.specs.Trees.{is_valid};
ghost use Rattle.hold_shapes.specs.declared.shape.Shape.TheVariants.{Tree as TreeOf};
ghost use Rattle.doc_values.specs.Types.{fields_tree};
ghost use Rattle.lens_forms.specs.Forms.{form_tree, rows_tree, arms_tree, form_then, form_rec, form_alt};
ghost use Rattle.lens_forms.specs.Forms.{form_each, form_keyed, form_ordered, form_part};
ghost use Rattle.lens_forms.specs.Measures.{form_parts, rows_parts, arms_parts, fields_parts};
ghost use Rattle.lens_forms.specs.Typing.{is_typed, are_typed_rows};
ghost use Rattle.lens_forms.specs.declared.limits.TheConstants.{MOST_PARTS};
ghost use Rattle.lens_core.specs.Complements.{comp_tree, comps_tree, comp_count, hold_comp};
ghost use Rattle.complement_file.specs.Reading.{IsTag};
ghost use Rattle.complement_file.specs.Taken.{TakesNothing, TakesComp, TakesPlaces, TakesRows, TakesTags, TakesContents};

use crate::lookup::find_arm;
use doc_tokens::{rises, take_counts};
use doc_values::Fields;
use hold_shapes::{DepthSeq, KeyedShape, ListShape, Shape, TreeShape};
use json::{Reader, Token};
use json_tokens::{closes_object, next_key, opens_array, opens_object, take_text, takes_key};
use lens_core::{Comp, Comps, then_join};
use lens_forms::{Form, FormArms, FormRow, FormRows};
use lens_types::Typed;
use shared_lists::SharedList;
use std::alloc::Global;
use tag_seq::TagSeq;
use texts::Name;

/// The complement of a lens that the next value is, which nests no deeper than the number. What is returned is what
/// `read_comp` reads from the tree of these tokens.
///
/// `None` says nothing of the value, and the reader is of no more use.
pub fn take_comp<'a>(
    alloc: Global,
    typed: &Typed,
    reader: &mut Reader<'a>,
    depth: usize,
) -> Option<Comp>
    ensures { IfSome result (λ comp. TakesComp (form_tree typed.now) depth reader.old (comp_tree comp) reader.new) }
{
    take(alloc, typed.form(), reader, depth)
}

#[cycle(take)]
fn take<'a>(alloc: Global, form: &Form, reader: &mut Reader<'a>, depth: usize) -> Option<Comp>
    requires typed { IsTrue (is_typed (form_tree form.now)) }
    requires small { form_parts (form_tree form.now) ≤ MOST_PARTS }
    ensures { IfSome result (λ comp. TakesComp (form_tree form.now) depth reader.old (comp_tree comp) reader.new) }
{
    match form {
        Form::Id(_) => take_nothing(reader, depth),
        Form::Bij(_, _) => take_nothing(reader, depth),
        Form::Disc(_, _) => take_nothing(reader, depth),
        Form::Then(first, second) => take_pair(alloc, first, second, reader, depth),
        Form::Rec(rows) => take_record(alloc, rows, reader, depth),
        Form::Alt(arms) => take_tagged(alloc, arms, reader, depth),
        Form::Each(inner) => take_list(alloc, inner, reader, depth),
        Form::Keyed(inner) => take_keyed(alloc, inner, reader, depth),
        Form::Tree(inner) => take_nodes(alloc, inner, reader, depth),
        Form::Part(tags) => take_tags(alloc, tags, reader, depth),
        Form::Inv(inner) => take(alloc, inner, reader, depth),
    }
}

fn take_nothing<'a>(reader: &mut Reader<'a>, depth: usize) -> Option<Comp>
    ensures { IfSome result (λ comp. TakesNothing depth reader.old (comp_tree comp) reader.new) }
{
    match reader.next() {
        Some(Token::Null) => Some(Comp::Nil),
        _ => None,
    }
}

// Takes what stands before the content of an object's one member of this name, where that content is an array.
fn opens_array_in<'a>(reader: &mut Reader<'a>, name: &str) -> bool
    ensures { IsTrue result → (before : List TokenSpec) × (reader.old ≡ begin_object ∷ before)
        × (read_key before ≡ Some (Some name.now, begin_array ∷ reader.new)) }
{
    opens_object(reader) && takes_key(reader, name) && opens_array(reader)
}

// The same where that content is an object.
fn opens_object_in<'a>(reader: &mut Reader<'a>, name: &str) -> bool
    ensures { IsTrue result → (before : List TokenSpec) × (reader.old ≡ begin_object ∷ before)
        × (read_key before ≡ Some (Some name.now, begin_object ∷ reader.new)) }
{
    opens_object(reader) && takes_key(reader, name) && opens_object(reader)
}

#[cycle(take)]
fn take_pair<'a>(
    alloc: Global,
    first: &Form,
    second: &Form,
    reader: &mut Reader<'a>,
    depth: usize,
) -> Option<Comp>
    requires typed { IsTrue (is_typed (form_tree first.now)) }
    requires also { IsTrue (is_typed (form_tree second.now)) }
    requires small { form_parts (form_tree first.now) + form_parts (form_tree second.now) ≤ MOST_PARTS }
    ensures { IfSome result (λ comp. TakesComp (form_then (form_tree first.now) (form_tree second.now)) depth
        reader.old (comp_tree comp) reader.new) }
{
    if depth < 2 || !opens_array_in(reader, "then") {
        return None;
    }
    let one = take(alloc, first, reader, depth - 2)?;
    let other = take(alloc, second, reader, depth - 2)?;
    if !reader.take_end_array() || !closes_object(reader) {
        return None;
    }
    match then_join(alloc, one, other) {
        Ok(comp) => Some(comp),
        Err(_) => None,
    }
}

#[cycle(take)]
fn take_record<'a>(
    alloc: Global,
    rows: &FormRows,
    reader: &mut Reader<'a>,
    depth: usize,
) -> Option<Comp>
    requires typed { IsTrue (are_typed_rows (rows_tree rows.now)) }
    requires small { rows_parts (rows_tree rows.now) ≤ MOST_PARTS }
    ensures { IfSome result (λ comp. TakesComp (form_rec (rows_tree rows.now)) depth reader.old (comp_tree comp)
        reader.new) }
{
    if depth < 2 || !opens_array_in(reader, "rec") {
        return None;
    }
    let comps = take_rows(alloc, rows, reader, depth - 2)?;
    if !closes_object(reader) {
        return None;
    }
    Some(Comp::Rec(comps))
}

// The complements of the paired rows, up to the bracket that closes an array.
#[cycle(take)]
fn take_rows<'a>(
    alloc: Global,
    rows: &FormRows,
    reader: &mut Reader<'a>,
    depth: usize,
) -> Option<Comps>
    requires typed { IsTrue (are_typed_rows (rows_tree rows.now)) }
    requires small { rows_parts (rows_tree rows.now) ≤ MOST_PARTS }
    ensures { IfSome result (λ comps. TakesRows (rows_tree rows.now) depth reader.old (comps_tree comps) reader.new) }
{
    let mut comps = Vec::new(alloc);
    for row in rows.as_slice() {
        match row {
            FormRow::Both(_, _, form) => {
                let comp = take(alloc, form, reader, depth)?;
                let Ok(()) = comps.push(comp) else {
                    return None;
                };
            }
            FormRow::OnlyLeft(_, _) => {}
            FormRow::OnlyRight(_, _) => {}
        }
    }
    if !reader.take_end_array() {
        return None;
    }
    match Comps::from_vec(alloc, comps) {
        Ok(comps) => Some(comps),
        Err(_) => None,
    }
}

// The left tag of an arm, and the complement of the arm.
#[cycle(take)]
fn take_tagged<'a>(
    alloc: Global,
    arms: &FormArms,
    reader: &mut Reader<'a>,
    depth: usize,
) -> Option<Comp>
    requires typed { IsTrue (is_typed (form_alt (arms_tree arms.now))) }
    requires small { arms_parts (arms_tree arms.now) ≤ MOST_PARTS }
    ensures { IfSome result (λ comp. TakesComp (form_alt (arms_tree arms.now)) depth reader.old (comp_tree comp)
        reader.new) }
{
    if depth < 2 || !opens_array_in(reader, "alt") {
        return None;
    }
    let tag = take_text(reader)?;
    let Some(form) = find_arm(arms, tag) else {
        return None;
    };
    let content = take(alloc, form, reader, depth - 2)?;
    if !reader.take_end_array() || !closes_object(reader) {
        return None;
    }
    let tag = name_of(alloc, tag)?;
    match Box::new(alloc, content) {
        Ok(content) => Some(Comp::Alt(tag, content)),
        Err(_) => None,
    }
}

fn name_of(alloc: Global, text: &str) -> Option<Name>
    ensures { IfSome result (λ name. name ≡ text.now) }
{
    Some(Name::from_string(String::from_str(alloc, text).ok()?))
}

#[cycle(take)]
fn take_list<'a>(alloc: Global, inner: &Form, reader: &mut Reader<'a>, depth: usize) -> Option<Comp>
    requires typed { IsTrue (is_typed (form_tree inner.now)) }
    requires small { form_parts (form_tree inner.now) ≤ MOST_PARTS }
    ensures { IfSome result (λ comp. TakesComp (form_each (form_tree inner.now)) depth reader.old (comp_tree comp)
        reader.new) }
{
    if depth < 2 || !opens_array_in(reader, "list") {
        return None;
    }
    let comps = take_places(alloc, inner, reader, depth - 2)?;
    if !closes_object(reader) {
        return None;
    }
    let count = comps.len() as u64;
    Some(Comp::Hold(Shape::List(ListShape { count }), comps))
}

#[cycle(take)]
fn take_keyed<'a>(
    alloc: Global,
    inner: &Form,
    reader: &mut Reader<'a>,
    depth: usize,
) -> Option<Comp>
    requires typed { IsTrue (is_typed (form_tree inner.now)) }
    requires small { form_parts (form_tree inner.now) ≤ MOST_PARTS }
    ensures { IfSome result (λ comp. TakesComp (form_keyed (form_tree inner.now)) depth reader.old (comp_tree comp)
        reader.new) }
{
    if depth < 2 || !opens_object_in(reader, "keyed") {
        return None;
    }
    let (names, comps) = take_contents(alloc, inner, reader, depth - 2)?;
    if !closes_object(reader) {
        return None;
    }
    let Ok(names) = SharedList::from_vec(alloc, names) else {
        return None;
    };
    let Some(keys) = KeyedShape::from_names(names) else {
        return None;
    };
    Some(Comp::Hold(Shape::Keyed(keys), comps))
}

// The names of the members up to the brace that closes an object, and the complements that are their contents. The
// names have to rise.
#[cycle(take)]
fn take_contents<'a>(
    alloc: Global,
    inner: &Form,
    reader: &mut Reader<'a>,
    depth: usize,
) -> Option<(Vec<Name>, Comps)>
    requires typed { IsTrue (is_typed (form_tree inner.now)) }
    requires small { form_parts (form_tree inner.now) ≤ MOST_PARTS }
    ensures { IfSome result (λ p. TakesContents (form_tree inner.now) depth reader.old p.0.items (comps_tree p.1)
        reader.new) }
{
    let mut names: Vec<Name> = Vec::new(alloc);
    let mut comps = Vec::new(alloc);
    while let Some(key) = next_key(reader)? {
        let name = name_of(alloc, key)?;
        if !rises(&names, &name) {
            return None;
        }
        let comp = take(alloc, inner, reader, depth)?;
        let Ok(()) = names.push(name) else {
            return None;
        };
        let Ok(()) = comps.push(comp) else {
            return None;
        };
    }
    match Comps::from_vec(alloc, comps) {
        Ok(comps) => Some((names, comps)),
        Err(_) => None,
    }
}

#[cycle(take)]
fn take_nodes<'a>(
    alloc: Global,
    inner: &Form,
    reader: &mut Reader<'a>,
    depth: usize,
) -> Option<Comp>
    requires typed { IsTrue (is_typed (form_tree inner.now)) }
    requires small { form_parts (form_tree inner.now) ≤ MOST_PARTS }
    ensures { IfSome result (λ comp. TakesComp (form_ordered (form_tree inner.now)) depth reader.old (comp_tree comp)
        reader.new) }
{
    if depth < 3 || !opens_object_in(reader, "tree") {
        return None;
    }
    if !takes_key(reader, "depths") || !opens_array(reader) {
        return None;
    }
    let depths = take_counts(alloc, reader)?;
    if !takes_key(reader, "items") || !opens_array(reader) {
        return None;
    }
    let comps = take_places(alloc, inner, reader, depth - 3)?;
    if !closes_object(reader) || !closes_object(reader) {
        return None;
    }
    nodes(alloc, depths, comps)
}

// The complement of an ordered tree of these depths.
fn nodes(alloc: Global, depths: Vec<u64>, comps: Comps) -> Option<Comp>
    ensures { IfSome result (λ comp. (nodes : List ℕ) × (nodes ≡ depths.items) × (is_valid nodes ≡ true)
        × (length depths.items ≡ comp_count (comps_tree comps))
        × (comp_tree comp ≡ hold_comp (TreeOf nodes) (comps_tree comps))) }
{
    if depths.len() != comps.len() {
        return None;
    }
    let Ok(depths) = DepthSeq::from_vec(alloc, depths) else {
        return None;
    };
    let Some(nodes) = TreeShape::from_depths(depths) else {
        return None;
    };
    Some(Comp::Hold(Shape::Tree(nodes), comps))
}

// The complements that are the items up to the bracket that closes an array.
#[cycle(take)]
fn take_places<'a>(
    alloc: Global,
    inner: &Form,
    reader: &mut Reader<'a>,
    depth: usize,
) -> Option<Comps>
    requires typed { IsTrue (is_typed (form_tree inner.now)) }
    requires small { form_parts (form_tree inner.now) ≤ MOST_PARTS }
    ensures { IfSome result (λ comps. TakesPlaces (form_tree inner.now) depth reader.old (comps_tree comps)
        reader.new) }
{
    let mut comps = Vec::new(alloc);
    while !reader.take_end_array() {
        let comp = take(alloc, inner, reader, depth)?;
        let Ok(()) = comps.push(comp) else {
            return None;
        };
    }
    match Comps::from_vec(alloc, comps) {
        Ok(comps) => Some(comps),
        Err(_) => None,
    }
}

fn take_tags<'a>(
    alloc: Global,
    tags: &Fields,
    reader: &mut Reader<'a>,
    depth: usize,
) -> Option<Comp>
    requires small { fields_parts (fields_tree tags.now) ≤ MOST_PARTS }
    ensures { IfSome result (λ comp. TakesComp (form_part (fields_tree tags.now)) depth reader.old (comp_tree comp)
        reader.new) }
{
    if depth < 2 || !opens_array_in(reader, "tags") {
        return None;
    }
    let numbers = take_tag_numbers(alloc, tags, reader, depth - 2)?;
    if !closes_object(reader) {
        return None;
    }
    match TagSeq::from_list(alloc, &numbers) {
        Ok(seq) => Some(Comp::Tags(seq)),
        Err(_) => None,
    }
}

// The number of the tag that each item names, up to the bracket that closes an array.
fn take_tag_numbers<'a>(
    alloc: Global,
    tags: &Fields,
    reader: &mut Reader<'a>,
    depth: usize,
) -> Option<Vec<u32>>
    requires small { fields_parts (fields_tree tags.now) ≤ MOST_PARTS }
    ensures { IfSome result (λ numbers. TakesTags (fields_tree tags.now) depth reader.old numbers.items reader.new) }
{
    let mut numbers = Vec::new(alloc);
    while !reader.take_end_array() {
        let name = take_text(reader)?;
        let number = tag_called(tags, name)?;
        let Ok(()) = numbers.push(number) else {
            return None;
        };
    }
    Some(numbers)
}

// The number of the tag with this name.
fn tag_called(tags: &Fields, name: &str) -> Option<u32>
    requires small { fields_parts (fields_tree tags.now) ≤ MOST_PARTS }
    ensures { IfSome result (λ number. IsTag (fields_tree tags.now) (string name.now) number) }
{
    let (place, _) = tags.find(name)?;
    Some(place as u32)
}
