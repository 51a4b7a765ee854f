//! The nodes of a table.

ghost use Rattle.std.specs.Prelude.{◌≡◌};
ghost use Rattle.lens_core.specs.Complements.{comp_tree, missing};
ghost use Rattle.lens_flat.specs.Tables.{form_at, IsAt, IsReadyAt};

use doc_values::Fields;
use lens_core::{Comp, Comps};
use lens_forms::{Form, FormArms, FormRows};
use lens_steps::Kind;

/// One constructor of a form. Each lens inside is a node before it, and comes as the number of that node.
#[derive(Drop)]
pub(crate) enum Node {
    /// A lens that keeps nothing: an identity, a bijection or a disconnection.
    Leaf(Form),
    /// The first lens, and then the second.
    Then(usize, usize),
    /// A record: its rows, and the lens of each paired row, in written order.
    Record(FormRows, Vec<usize>),
    /// Alternatives: their arms, and the missing complement and the lens of each arm, in written order.
    Alternatives(FormArms, Comps, Vec<usize>),
    /// A lens at each place of a container of a kind.
    Held(Kind, usize),
    /// A partition of these tags.
    Partition(Fields),
    /// A lens with its sides exchanged.
    Inverse(usize),
}

/// A node with its missing complement.
#[derive(Drop)]
pub(crate) struct Entry {
    pub(crate) node: Node,
    pub(crate) missing: Comp,
}

/// The node of a number.
pub(crate) fn node_at(table: &[Entry], number: usize) -> &Node
    requires { IsReadyAt table.now number }
    ensures { IsAt table.now number result.now }
{
    &table[number].node
}

/// The missing complement of the node of a number.
pub(crate) fn missing_at(table: &[Entry], number: usize) -> &Comp
    requires { IsReadyAt table.now number }
    ensures { comp_tree result.now ≡ missing (form_at table.now number) }
{
    &table[number].missing
}
