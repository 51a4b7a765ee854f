//! Reading a complement from a JSON tree.

ghost use Rattle.std.specs.Prelude.{◌≡◌, ◌+◌, ◌≤◌, IfOk, IsErrOf, IsTrue};
ghost use Rattle.serde_json.specs.View.{view, items_view, members_view};
ghost use Rattle.value_json.specs.DocumentJson.{member_names};
ghost use Rattle.lens_forms.specs.Forms.{form_tree, rows_tree, arms_tree, form_then, form_rec, form_alt, form_each};
ghost use Rattle.lens_forms.specs.Forms.{form_keyed, form_ordered};
ghost use Rattle.lens_forms.specs.Measures.{form_parts, rows_parts, arms_parts};
ghost use Rattle.lens_forms.specs.Typing.{is_typed, are_typed_rows};
ghost use Rattle.lens_forms.specs.declared.limits.TheConstants.{MOST_PARTS};
ghost use Rattle.lens_core.specs.Complements.{CompTree, comp_tree, comps_tree, Fits};
ghost use Rattle.complement_file.specs.ComplementJson.{tree_of_complement};
ghost use Rattle.complement_file.specs.Reading.{Finds, IsNothing, IsComplement, ArePlaces, AreRows, member_contents};
ghost use Rattle.complement_file.specs.declared.fault.CompFault;

use crate::fault::CompFault;
use crate::lookup::find_arm;
use crate::numbers::read_tags;
use crate::trees::{array_in, nodes_in, object_in, pair_in};
use hold_shapes::{DepthSeq, KeyedShape, ListShape, Shape, TreeShape};
use lens_core::{Comp, Comps, then_join};
use lens_forms::{Form, FormArms, FormRow, FormRows};
use lens_types::Typed;
use serde_json::{Map, Value};
use shared_lists::SharedList;
use std::alloc::{AllocError, Global};
use texts::Name;
use value_json::read_counts;

/// The complement of a lens that has this tree.
///
/// `NotAComplement` if and only if no complement that fits the lens has this tree; the page docs/FORMATS.md says which
/// tree a complement has. The tree may be any tree. Nothing of it is copied but its texts.
pub fn read_comp(alloc: Global, typed: &Typed, tree: &Value) -> Result<Comp, CompFault>
    // What is read fits the lens and has this tree.
    ensures fits { IfOk result (λ comp. Fits (form_tree typed.now) (comp_tree comp)) }
    ensures tree { IfOk result (λ comp. tree_of_complement (form_tree typed.now) (comp_tree comp) ≡ view tree.now) }

    // Where it is refused, no complement that fits the lens has this tree.
    ensures refused { IsErrOf result CompFault.NotAComplement → (comp : CompTree)
        → Fits (form_tree typed.now) comp → tree_of_complement (form_tree typed.now) comp ≡ view tree.now → ⊥ }

    // A complement that fits the lens and has this tree is the one that is read.
    ensures only { IfOk result (λ found. (comp : CompTree)
        → Fits (form_tree typed.now) comp → tree_of_complement (form_tree typed.now) comp ≡ view tree.now
        → comp_tree found ≡ comp) }
{
    read(alloc, typed.form(), tree)
}

#[cycle(read)]
fn read(alloc: Global, form: &Form, tree: &Value) -> Result<Comp, CompFault>
    requires typed { IsTrue (is_typed (form_tree form.now)) }
    requires small { form_parts (form_tree form.now) ≤ MOST_PARTS }
    ensures { Finds (IsComplement (form_tree form.now) (view tree.now)) comp_tree result }
{
    match form {
        Form::Id(_) => read_nothing(tree),
        Form::Bij(_, _) => read_nothing(tree),
        Form::Disc(_, _) => read_nothing(tree),
        Form::Then(first, second) => read_pair(alloc, first, second, tree),
        Form::Rec(rows) => read_record(alloc, rows, tree),
        Form::Alt(arms) => read_tagged(alloc, arms, tree),
        Form::Each(inner) => read_list(alloc, inner, tree),
        Form::Keyed(inner) => read_keyed(alloc, inner, tree),
        Form::Tree(inner) => read_nodes(alloc, inner, tree),
        Form::Part(tags) => read_tags(alloc, tags, tree),
        Form::Inv(inner) => read(alloc, inner, tree),
    }
}

fn read_nothing(tree: &Value) -> Result<Comp, CompFault>
    ensures { Finds (IsNothing (view tree.now)) comp_tree result }
{
    if tree.is_null() {
        Ok(Comp::Nil)
    } else {
        Err(CompFault::NotAComplement)
    }
}

#[cycle(read)]
fn read_pair(alloc: Global, first: &Form, second: &Form, tree: &Value) -> Result<Comp, CompFault>
    requires typed { IsTrue (is_typed (form_tree first.now)) }
    requires also { IsTrue (is_typed (form_tree second.now)) }
    requires small { form_parts (form_tree first.now) + form_parts (form_tree second.now) ≤ MOST_PARTS }
    ensures { Finds (IsComplement (form_then (form_tree first.now) (form_tree second.now)) (view tree.now)) comp_tree
        result }
{
    let Some((one, other)) = pair_in(tree, "then") else {
        return Err(CompFault::NotAComplement);
    };
    let one = read(alloc, first, one)?;
    let other = read(alloc, second, other)?;
    Ok(then_join(alloc, one, other)?)
}

#[cycle(read)]
fn read_record(alloc: Global, rows: &FormRows, tree: &Value) -> Result<Comp, CompFault>
    requires typed { IsTrue (are_typed_rows (rows_tree rows.now)) }
    requires small { rows_parts (rows_tree rows.now) ≤ MOST_PARTS }
    ensures { Finds (IsComplement (form_rec (rows_tree rows.now)) (view tree.now)) comp_tree result }
{
    let Some(items) = array_in(tree, "rec") else {
        return Err(CompFault::NotAComplement);
    };
    Ok(Comp::Rec(read_rows(alloc, rows, items)?))
}

// The complements of the paired rows, one for each item.
#[cycle(read)]
fn read_rows(alloc: Global, rows: &FormRows, items: &[Value]) -> Result<Comps, CompFault>
    requires typed { IsTrue (are_typed_rows (rows_tree rows.now)) }
    requires small { rows_parts (rows_tree rows.now) ≤ MOST_PARTS }
    ensures { Finds (AreRows (rows_tree rows.now) (items_view items.now)) comps_tree result }
{
    let mut comps = Vec::new(alloc);
    for row in rows.as_slice() {
        match row {
            FormRow::Both(_, _, form) => {
                let next = comps.len();
                if next == items.len() {
                    return Err(CompFault::NotAComplement);
                }
                let comp = read(alloc, form, &items[next])?;
                comps.push(comp)?;
            }
            FormRow::OnlyLeft(_, _) => {}
            FormRow::OnlyRight(_, _) => {}
        }
    }
    if comps.len() != items.len() {
        return Err(CompFault::NotAComplement);
    }
    Ok(Comps::from_vec(alloc, comps)?)
}

// The left tag of an arm, and the complement of the arm.
#[cycle(read)]
fn read_tagged(alloc: Global, arms: &FormArms, tree: &Value) -> Result<Comp, CompFault>
    requires typed { IsTrue (is_typed (form_alt (arms_tree arms.now))) }
    requires small { arms_parts (arms_tree arms.now) ≤ MOST_PARTS }
    ensures { Finds (IsComplement (form_alt (arms_tree arms.now)) (view tree.now)) comp_tree result }
{
    let Some((tag, content)) = pair_in(tree, "alt") else {
        return Err(CompFault::NotAComplement);
    };
    let Some(tag) = tag.as_str() else {
        return Err(CompFault::NotAComplement);
    };
    let Some(form) = find_arm(arms, tag) else {
        return Err(CompFault::NotAComplement);
    };
    let content = read(alloc, form, content)?;
    let tag = Name::from_string(String::from_str(alloc, tag)?);
    Ok(Comp::Alt(tag, Box::new(alloc, content)?))
}

#[cycle(read)]
fn read_list(alloc: Global, inner: &Form, tree: &Value) -> Result<Comp, CompFault>
    requires typed { IsTrue (is_typed (form_tree inner.now)) }
    requires small { form_parts (form_tree inner.now) ≤ MOST_PARTS }
    ensures { Finds (IsComplement (form_each (form_tree inner.now)) (view tree.now)) comp_tree result }
{
    let Some(items) = array_in(tree, "list") else {
        return Err(CompFault::NotAComplement);
    };
    let comps = read_places(alloc, inner, items)?;
    let count = comps.len() as u64;
    Ok(Comp::Hold(Shape::List(ListShape { count }), comps))
}

#[cycle(read)]
fn read_keyed(alloc: Global, inner: &Form, tree: &Value) -> Result<Comp, CompFault>
    requires typed { IsTrue (is_typed (form_tree inner.now)) }
    requires small { form_parts (form_tree inner.now) ≤ MOST_PARTS }
    ensures { Finds (IsComplement (form_keyed (form_tree inner.now)) (view tree.now)) comp_tree result }
{
    let Some(members) = object_in(tree, "keyed") else {
        return Err(CompFault::NotAComplement);
    };
    let Some(keys) = KeyedShape::from_names(names_of(alloc, members)?) else {
        return Err(CompFault::NotAComplement);
    };
    let comps = read_contents(alloc, inner, members)?;
    Ok(Comp::Hold(Shape::Keyed(keys), comps))
}

#[cycle(read)]
fn read_nodes(alloc: Global, inner: &Form, tree: &Value) -> Result<Comp, CompFault>
    requires typed { IsTrue (is_typed (form_tree inner.now)) }
    requires small { form_parts (form_tree inner.now) ≤ MOST_PARTS }
    ensures { Finds (IsComplement (form_ordered (form_tree inner.now)) (view tree.now)) comp_tree result }
{
    let Some((depths, items)) = nodes_in(tree) else {
        return Err(CompFault::NotAComplement);
    };
    let Some(depths) = read_counts(alloc, depths)? else {
        return Err(CompFault::NotAComplement);
    };
    if depths.len() != items.len() {
        return Err(CompFault::NotAComplement);
    }
    let Some(nodes) = TreeShape::from_depths(DepthSeq::from_vec(alloc, depths)?) else {
        return Err(CompFault::NotAComplement);
    };
    let comps = read_places(alloc, inner, items)?;
    Ok(Comp::Hold(Shape::Tree(nodes), comps))
}

// The names of an object's members.
fn names_of(alloc: Global, members: &Map<String, Value>) -> Result<SharedList<Name>, AllocError>
    ensures { IfOk result (λ names. names ≡ member_names (members_view members.now.entries)) }
{
    let mut names = Vec::new(alloc);
    for (name, _) in members.iter() {
        names.push(Name::from_string(name.clone()?))?;
    }
    SharedList::from_vec(alloc, names)
}

// The complements that the contents of an object's members are.
#[cycle(read)]
fn read_contents(
    alloc: Global,
    inner: &Form,
    members: &Map<String, Value>,
) -> Result<Comps, CompFault>
    requires typed { IsTrue (is_typed (form_tree inner.now)) }
    requires small { form_parts (form_tree inner.now) ≤ MOST_PARTS }
    ensures { Finds (ArePlaces (form_tree inner.now) (member_contents (members_view members.now.entries))) comps_tree
        result }
{
    let mut comps = Vec::new(alloc);
    for (_, content) in members.iter() {
        comps.push(read(alloc, inner, content)?)?;
    }
    Ok(Comps::from_vec(alloc, comps)?)
}

// The complements that an array's items are.
#[cycle(read)]
fn read_places(alloc: Global, inner: &Form, items: &[Value]) -> Result<Comps, CompFault>
    requires typed { IsTrue (is_typed (form_tree inner.now)) }
    requires small { form_parts (form_tree inner.now) ≤ MOST_PARTS }
    ensures { Finds (ArePlaces (form_tree inner.now) (items_view items.now)) comps_tree result }
{
    let mut comps = Vec::new(alloc);
    for item in items {
        comps.push(read(alloc, inner, item)?)?;
    }
    Ok(Comps::from_vec(alloc, comps)?)
}
