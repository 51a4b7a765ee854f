//! Writing a complement as a JSON tree.

ghost use Rattle.std.specs.Prelude.{◌≡◌, IfOk, IsTrue, codes, length};
ghost use Rattle.serde_json.specs.Data.{array, object, member, no_members};
ghost use Rattle.serde_json.specs.View.{view};
ghost use Rattle.texts.specs.Keys.{is_rising};
ghost use Rattle.doc_values.specs.Typing.{is_keyed_of};
ghost use Rattle.value_json.specs.Numbers.{count_items};
ghost use Rattle.lens_forms.specs.Forms.{form_tree, rows_tree, arms_tree, form_rec, form_alt, form_keyed};
ghost use Rattle.lens_forms.specs.Typing.{is_typed};
ghost use Rattle.lens_core.specs.Complements.{comp_tree, comps_tree, rec_comp, alt_comp, hold_comp, comp_count, Fits};
ghost use Rattle.lens_core.specs.Complements.{AllFit};
ghost use Rattle.complement_file.specs.ComplementJson.{tree_of_complement, place_items, place_members};
ghost use Rattle.value_json.specs.SmallTrees.{one_member, array_of_two};

use crate::lookup::find_arm;
use crate::tags::write_tags;
use hold_shapes::{DepthSeq, Shape};
use lens_core::{Comp, Comps};
use lens_forms::{Form, FormArms, FormRow, FormRows};
use lens_types::Typed;
use serde_json::{Map, Value, put};
use shared_lists::SharedList;
use std::alloc::{AllocError, Global};
use texts::Name;
use value_json::{write_depths, write_text};

/// The tree of a complement of a lens; the page docs/FORMATS.md says which tree this is.
///
/// The complement fits the lens. A partition's complement is written with the names of its tags. The tree has no float.
/// Fails only if memory runs out.
pub fn write_comp(alloc: Global, typed: &Typed, comp: &Comp) -> Result<Value, AllocError>
    requires fits { Fits (form_tree typed.now) (comp_tree comp.now) }
    ensures tree { IfOk result (λ tree. view tree ≡ tree_of_complement (form_tree typed.now) (comp_tree comp.now)) }
{
    write(alloc, typed.form(), comp)
}

#[cycle(write)]
fn write(alloc: Global, form: &Form, comp: &Comp) -> Result<Value, AllocError>
    requires typed { IsTrue (is_typed (form_tree form.now)) }
    requires fits { Fits (form_tree form.now) (comp_tree comp.now) }
    ensures { IfOk result (λ tree. view tree ≡ tree_of_complement (form_tree form.now) (comp_tree comp.now)) }
{
    match (form, comp) {
        (Form::Id(_), _) => Ok(Value::Null),
        (Form::Bij(_, _), _) => Ok(Value::Null),
        (Form::Disc(_, _), _) => Ok(Value::Null),
        (Form::Then(first, second), Comp::Then(one, other)) => {
            let one = write(alloc, first, one)?;
            write_pair(alloc, "then", one, write(alloc, second, other)?)
        }
        (Form::Rec(rows), Comp::Rec(comps)) => write_record(alloc, rows, comps),
        (Form::Alt(arms), Comp::Alt(tag, inner)) => write_tagged(alloc, arms, tag, inner),
        (Form::Each(inner), Comp::Hold(Shape::List(_), comps)) => {
            one_member(alloc, "list", write_places(alloc, inner, comps)?)
        }
        (Form::Keyed(inner), Comp::Hold(shape, comps)) => write_map(alloc, inner, shape, comps),
        (Form::Tree(inner), Comp::Hold(Shape::Tree(nodes), comps)) => {
            one_member(
                alloc,
                "tree",
                write_nodes(alloc, inner, nodes.depths(), comps)?,
            )
        }
        (Form::Part(tags), Comp::Tags(seq)) => {
            one_member(alloc, "tags", write_tags(alloc, tags, seq)?)
        }
        (Form::Inv(inner), _) => write(alloc, inner, comp),
        _ => unreachable!(),
    }
}

// An object with one member.
fn one_member(alloc: Global, name: &str, content: Value) -> Result<Value, AllocError>
    ensures { IfOk result (λ tree. view tree ≡ one_member name.now (view content)) }
{
    let mut members = Map::new(alloc);
    put(&mut members, alloc, name, content)?;
    Ok(Value::Object(members))
}

// An object with one member, an array of two items.
fn write_pair(alloc: Global, name: &str, first: Value, second: Value) -> Result<Value, AllocError>
    ensures { IfOk result (λ tree. view tree ≡ one_member name.now (array_of_two (view first) (view second))) }
{
    let items = vec![in alloc; first, second]?;
    one_member(alloc, name, Value::Array(items))
}

// An array with an item for each paired row.
#[cycle(write)]
fn write_record(alloc: Global, rows: &FormRows, comps: &Comps) -> Result<Value, AllocError>
    requires typed { IsTrue (is_typed (form_rec (rows_tree rows.now))) }
    requires fits { Fits (form_rec (rows_tree rows.now)) (rec_comp (comps_tree comps.now)) }
    ensures { IfOk result
        (λ tree. view tree ≡ tree_of_complement (form_rec (rows_tree rows.now)) (rec_comp (comps_tree comps.now))) }
{
    let mut items = Vec::new(alloc);
    for row in rows.as_slice() {
        match row {
            FormRow::Both(_, _, form) => {
                let part = write(alloc, form, comps.get(items.len()))?;
                items.push(part)?;
            }
            FormRow::OnlyLeft(_, _) => {}
            FormRow::OnlyRight(_, _) => {}
        }
    }
    one_member(alloc, "rec", Value::Array(items))
}

// The left tag of the arm, and the complement of the arm.
#[cycle(write)]
fn write_tagged(
    alloc: Global,
    arms: &FormArms,
    tag: &Name,
    inner: &Comp,
) -> Result<Value, AllocError>
    requires typed { IsTrue (is_typed (form_alt (arms_tree arms.now))) }
    requires fits { Fits (form_alt (arms_tree arms.now)) (alt_comp tag.now (comp_tree inner.now)) }
    ensures { IfOk result (λ tree. view tree
        ≡ tree_of_complement (form_alt (arms_tree arms.now)) (alt_comp tag.now (comp_tree inner.now))) }
{
    let name = tag.as_str();
    let Some(form) = find_arm(arms, name) else {
        unreachable!()
    };
    let part = write(alloc, form, inner)?;
    write_pair(alloc, "alt", write_text(alloc, name)?, part)
}

// An array with an item for each place.
#[cycle(write)]
fn write_places(alloc: Global, inner: &Form, comps: &Comps) -> Result<Value, AllocError>
    requires typed { IsTrue (is_typed (form_tree inner.now)) }
    requires fits { AllFit (Fits (form_tree inner.now)) (comps_tree comps.now) }
    ensures { IfOk result
        (λ tree. view tree ≡ array (place_items (tree_of_complement (form_tree inner.now)) (comps_tree comps.now))) }
{
    let count = comps.len();
    let mut items = Vec::with_capacity(alloc, count)?;
    for i in 0..count {
        items.push(write(alloc, inner, comps.get(i))?)?;
    }
    Ok(Value::Array(items))
}

// The keys, each with its complement.
#[cycle(write)]
#[tactic(auto, using(crate::proofs::Levels::keyed_rules))]
fn write_map(alloc: Global, inner: &Form, shape: &Shape, comps: &Comps) -> Result<Value, AllocError>
    requires typed { IsTrue (is_typed (form_tree inner.now)) }
    requires shape { IsTrue (is_keyed_of shape.now (comp_count (comps_tree comps.now))) }
    requires fits { AllFit (Fits (form_tree inner.now)) (comps_tree comps.now) }
    ensures { IfOk result (λ tree. view tree
        ≡ tree_of_complement (form_keyed (form_tree inner.now)) (hold_comp shape.now (comps_tree comps.now))) }
{
    let Shape::Keyed(keys) = shape else {
        unreachable!()
    };
    one_member(
        alloc,
        "keyed",
        write_keyed(alloc, inner, keys.names(), comps)?,
    )
}

// An object with a member for each key.
#[cycle(write)]
fn write_keyed(
    alloc: Global,
    inner: &Form,
    keys: &SharedList<Name>,
    comps: &Comps,
) -> Result<Value, AllocError>
    requires typed { IsTrue (is_typed (form_tree inner.now)) }
    requires rising { IsTrue (is_rising keys.now) }
    requires many { length keys.now ≡ comp_count (comps_tree comps.now) }
    requires fits { AllFit (Fits (form_tree inner.now)) (comps_tree comps.now) }
    ensures { IfOk result (λ tree. view tree
        ≡ object (place_members (tree_of_complement (form_tree inner.now)) keys.now (comps_tree comps.now))) }
{
    let mut members = Map::new(alloc);
    for i in 0..comps.len() {
        let key = keys.get(i);
        let part = write(alloc, inner, comps.get(i))?;
        put(&mut members, alloc, key.as_str(), part)?;
    }
    Ok(Value::Object(members))
}

// An object with the depths and the complements of the nodes of a tree.
#[cycle(write)]
fn write_nodes(
    alloc: Global,
    inner: &Form,
    depths: &DepthSeq,
    comps: &Comps,
) -> Result<Value, AllocError>
    requires typed { IsTrue (is_typed (form_tree inner.now)) }
    requires fits { AllFit (Fits (form_tree inner.now)) (comps_tree comps.now) }
    ensures { IfOk result (λ tree. view tree
        ≡ object (member (codes "depths") (array (count_items depths.now)) (member (codes "items")
        (array (place_items (tree_of_complement (form_tree inner.now)) (comps_tree comps.now))) no_members))) }
{
    let mut members = Map::new(alloc);
    put(&mut members, alloc, "depths", write_depths(alloc, depths)?)?;
    put(
        &mut members,
        alloc,
        "items",
        write_places(alloc, inner, comps)?,
    )?;
    Ok(Value::Object(members))
}
