//! What every plan keeps, as laws for code that is generic over the kind of shape.
//!
//! A function here does nothing when it runs. Its clauses are known to its caller, for the shape and
//! the edit that are passed: before gathering by a plan, that its origins are old places. The table
//! of edits is in docs/EDITS.md.
#![tactic(auto)]

ghost use Rattle.std.specs.Prelude.{◌≡◌, List, Ok, length, true, is_some, nat_lt};
ghost use Rattle.hold_shapes.specs.declared.shape.Shape.{Shape};
ghost use Rattle.hold_shapes.specs.declared.shape.Shape.TheVariants.{Tree as TreeOf};
ghost use Rattle.hold_shapes.specs.declared.origins.Origin.{Origin};
ghost use Rattle.hold_shapes.specs.declared.origins.Origin.TheVariants.{Fresh};
ghost use Rattle.hold_shapes.specs.declared.edit.ShapeEdit.TheVariants.{Graft, Prune, Shift, Hang};
ghost use Rattle.hold_shapes.specs.Shapes.{size_of};
ghost use Rattle.hold_shapes.specs.Plans.{plan};
ghost use Rattle.hold_shapes.specs.Trees.{child, children};
ghost use Rattle.law_shapes.specs.Children.{GainsLastChild, LosesLastChild, MovesChild, HangsLastChild};
ghost use Rattle.law_shapes.specs.Laws.{IsArranged, IsOnce, KeepsPlaces, KeepsContent, KeepsFamily, is_same_kind};

use hold_shapes::{Held, Path, ShapeEdit, TreeShape};

/// What the plan of an edit keeps, if there is one.
///
/// - `as_many`: the number of origins is the number of places of the new shape.
/// - `once`: each origin is an old place or fresh, and no old place occurs twice.
/// - `kept`: an insertion keeps all old places, a deletion adds no fresh one, and a rearrangement
///   does both.
/// - `arranged`: the origins of an insertion are all old places and some fresh ones in some order,
///   those of a deletion some old places, and those of a rearrangement a permutation of them.
/// - `same_kind`: the new shape is of the same kind.
/// - `content`: in keyed maps and trees every remaining place keeps its own content: names and depths
///   move with their places, but for the key that is renamed and the nodes that are hung elsewhere.
/// - `family`: every node that remains in a tree keeps its parent, but for the root of a subtree
///   that is moved.
pub fn plans_are_lawful<H: Held>(_held: &H, _edit: &ShapeEdit)
    ensures as_many { (shape : Shape) (from : List Origin)
        → plan (H.shape_of _held.now) _edit.now ≡ Ok (shape, from) → length from ≡ size_of shape }
    ensures once { (shape : Shape) (from : List Origin)
        → plan (H.shape_of _held.now) _edit.now ≡ Ok (shape, from)
        → IsOnce (size_of (H.shape_of _held.now)) from }
    ensures kept { (shape : Shape) (from : List Origin)
        → plan (H.shape_of _held.now) _edit.now ≡ Ok (shape, from)
        → KeepsPlaces _edit.now (size_of (H.shape_of _held.now)) from }
    ensures arranged { (shape : Shape) (from : List Origin)
        → plan (H.shape_of _held.now) _edit.now ≡ Ok (shape, from)
        → IsArranged _edit.now (size_of (H.shape_of _held.now)) from }
    ensures same_kind { (shape : Shape) (from : List Origin)
        → plan (H.shape_of _held.now) _edit.now ≡ Ok (shape, from)
        → is_same_kind (H.shape_of _held.now) shape ≡ true }
    ensures content { (shape : Shape) (from : List Origin)
        → plan (H.shape_of _held.now) _edit.now ≡ Ok (shape, from)
        → KeepsContent _edit.now (H.shape_of _held.now) shape from }
    ensures family { (shape : Shape) (from : List Origin)
        → plan (H.shape_of _held.now) _edit.now ≡ Ok (shape, from)
        → KeepsFamily _edit.now (H.shape_of _held.now) shape from }
{}

/// A number names a child of a node if and only if it is below the number of its children.
pub fn children_are_numbered(_tree: &TreeShape, _place: u64, _number: u64)
    ensures { is_some (child _tree.now _place _number) ≡ nat_lt _number (children _tree.now _place) }
{}

/// A graft adds one child: the node that the path names has a last child more, and it is fresh.
#[tactic(auto, using(crate::proofs::ChildLaws::child_laws))]
pub fn graft_adds_the_last_child(_tree: &TreeShape, _path: &Path)
    ensures { (shape : Shape) (from : List Origin)
        → plan (TreeOf _tree.now) (Graft _path.now) ≡ Ok (shape, from)
        → GainsLastChild _tree.now _path.now Fresh shape from }
{
    let _depths = _tree.depths();
}

/// A prune removes the last child of the node that the path names: the places of its subtree, and
/// no others.
#[tactic(auto, using(crate::proofs::ChildLaws::child_laws))]
pub fn prune_removes_the_last_child(_tree: &TreeShape, _path: &Path)
    ensures { (shape : Shape) (from : List Origin)
        → plan (TreeOf _tree.now) (Prune _path.now) ≡ Ok (shape, from)
        → LosesLastChild _tree.now _path.now shape from }
{
    let _depths = _tree.depths();
}

/// After a shift, child number `_to` of the node is what its child number `_number` was, the node has
/// the same number of children, and its other children are the same nodes in the same order.
#[tactic(auto, using(crate::proofs::ChildLaws::child_laws))]
pub fn shift_moves_the_child(_tree: &TreeShape, _path: &Path, _number: u64, _to: u64)
    ensures { (shape : Shape) (from : List Origin)
        → plan (TreeOf _tree.now) (Shift _path.now _number _to) ≡ Ok (shape, from)
        → MovesChild _tree.now _path.now _number _to shape from }
{
    let _depths = _tree.depths();
}

/// After a hang, the node that was moved is the last child of its new parent. The path to the new
/// parent is read in the tree that remains without the moved subtree.
#[tactic(auto, using(crate::proofs::ChildLaws::child_laws))]
pub fn hang_adds_the_last_child(_tree: &TreeShape, _part: &Path, _below: &Path)
    ensures { (shape : Shape) (from : List Origin)
        → plan (TreeOf _tree.now) (Hang _part.now _below.now) ≡ Ok (shape, from)
        → HangsLastChild _tree.now _part.now _below.now shape from }
{
    let _depths = _tree.depths();
}
