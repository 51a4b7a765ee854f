//! Compiling a form to a table of nodes.

ghost use Rattle.std.specs.Prelude.{◌≡◌, length, IfOk};
ghost use Rattle.lens_forms.specs.Forms.{form_tree, form_rec, form_alt, form_row_list, rows_tree, arms_tree};
ghost use Rattle.lens_branch.specs.AlternativeSteps.{arm_lens};
ghost use Rattle.lens_branch.specs.RecordSteps.{row_lens};
ghost use Rattle.lens_flat.specs.Tables.{form_at, node_form, IsNode, AreSound, Adds, Readies, AddsLenses};

use crate::node::{Entry, Node};
use lens_core::missing;
use lens_forms::{Form, FormArms, FormRow, FormRows};
use lens_steps::{Kind, arm_starts};
use std::alloc::{AllocError, Global};
use texts::Twin;

/// Adds the nodes of a form to a table, the lenses inside before the lens round them. The result is the number of the
/// form's node.
///
/// The nodes that were there keep their numbers. Fails only if memory runs out; the table may then have some of the
/// nodes.
#[cycle(compile)]
#[tactic(auto, using(crate::proofs::Growth::growth_rules))]
pub(crate) fn compile_form(
    alloc: Global,
    table: &mut Vec<Entry>,
    form: &Form,
) -> Result<usize, AllocError>
    requires { AreSound table.old.items }
    ensures { IfOk result (Adds table.old.items table.new.items (form_tree form.now)) }
{
    let node = node_of(alloc, table, form)?;
    add(alloc, table, form, node)
}

// Adds the node of a form, whose lenses inside are there.
#[tactic(auto, using(crate::proofs::Growth::growth_rules))]
fn add(alloc: Global, table: &mut Vec<Entry>, form: &Form, node: Node) -> Result<usize, AllocError>
    requires sound { AreSound table.old.items }
    requires inside { IsNode (form_at table.old.items) (length table.old.items) node }
    requires is { node_form (form_at table.old.items) node ≡ form_tree form.now }
    ensures { IfOk result (Adds table.old.items table.new.items (form_tree form.now)) }
{
    let missing = missing(alloc, form)?;
    let number = table.as_slice().len();
    table.push(Entry { node, missing })?;
    Ok(number)
}

// The node of a form; the nodes of the lenses inside are added.
#[cycle(compile)]
#[tactic(auto, using(crate::proofs::Growth::node_rules))]
fn node_of(alloc: Global, table: &mut Vec<Entry>, form: &Form) -> Result<Node, AllocError>
    requires { AreSound table.old.items }
    ensures { IfOk result (Readies table.old.items table.new.items (form_tree form.now)) }
{
    match form {
        Form::Id(_) => Ok(Node::Leaf(form.twin(alloc)?)),
        Form::Bij(_, _) => Ok(Node::Leaf(form.twin(alloc)?)),
        Form::Disc(_, _) => Ok(Node::Leaf(form.twin(alloc)?)),
        Form::Then(first, second) => {
            let first = compile_form(alloc, table, first)?;
            let second = compile_form(alloc, table, second)?;
            Ok(Node::Then(first, second))
        }
        Form::Rec(rows) => record_of(alloc, table, rows),
        Form::Alt(arms) => alternatives_of(alloc, table, arms),
        Form::Each(inner) => Ok(Node::Held(Kind::List, compile_form(alloc, table, inner)?)),
        Form::Keyed(inner) => Ok(Node::Held(Kind::Keyed, compile_form(alloc, table, inner)?)),
        Form::Tree(inner) => Ok(Node::Held(Kind::Tree, compile_form(alloc, table, inner)?)),
        Form::Part(tags) => Ok(Node::Partition(tags.twin(alloc)?)),
        Form::Inv(inner) => Ok(Node::Inverse(compile_form(alloc, table, inner)?)),
    }
}

// The node of a record.
#[cycle(compile)]
#[tactic(auto, using(crate::proofs::Growth::node_rules))]
fn record_of(alloc: Global, table: &mut Vec<Entry>, rows: &FormRows) -> Result<Node, AllocError>
    requires { AreSound table.old.items }
    ensures { IfOk result (Readies table.old.items table.new.items (form_rec (rows_tree rows.now))) }
{
    let inside = row_nodes(alloc, table, rows)?;
    Ok(Node::Record(rows.twin(alloc)?, inside))
}

// The numbers of the lenses of the paired rows, in written order.
#[cycle(compile)]
fn row_nodes(
    alloc: Global,
    table: &mut Vec<Entry>,
    rows: &FormRows,
) -> Result<Vec<usize>, AllocError>
    requires { AreSound table.old.items }
    ensures { IfOk result (λ inside. AddsLenses table.old.items table.new.items
        (row_lens (form_row_list (rows_tree rows.now))) inside.items) }
{
    let mut inside = Vec::new(alloc);
    for row in rows.as_slice() {
        match row {
            FormRow::Both(_, _, form) => inside.push(compile_form(alloc, table, form)?)?,
            FormRow::OnlyLeft(_, _) => {}
            FormRow::OnlyRight(_, _) => {}
        }
    }
    Ok(inside)
}

// The node of alternatives.
#[cycle(compile)]
#[tactic(auto, using(crate::proofs::Growth::node_rules))]
fn alternatives_of(
    alloc: Global,
    table: &mut Vec<Entry>,
    arms: &FormArms,
) -> Result<Node, AllocError>
    requires { AreSound table.old.items }
    ensures { IfOk result (Readies table.old.items table.new.items (form_alt (arms_tree arms.now))) }
{
    let inside = arm_nodes(alloc, table, arms)?;
    let starts = arm_starts(alloc, arms)?;
    Ok(Node::Alternatives(arms.twin(alloc)?, starts, inside))
}

// The numbers of the lenses of the arms, in written order.
#[cycle(compile)]
fn arm_nodes(
    alloc: Global,
    table: &mut Vec<Entry>,
    arms: &FormArms,
) -> Result<Vec<usize>, AllocError>
    requires { AreSound table.old.items }
    ensures { IfOk result (λ inside. AddsLenses table.old.items table.new.items
        (arm_lens (arms_tree arms.now)) inside.items) }
{
    let mut inside = Vec::new(alloc);
    for arm in arms.as_slice() {
        inside.push(compile_form(alloc, table, &arm.2)?)?;
    }
    Ok(inside)
}
