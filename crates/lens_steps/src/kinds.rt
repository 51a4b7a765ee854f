//! The kinds of containers.

ghost use Rattle.std.specs.Prelude.{◌≡◌, None, MatchOption};
ghost use Rattle.texts.specs.declared.side.Side.{Side};
ghost use Rattle.edit_module.specs.Words.{PrimitiveTree};
ghost use Rattle.lens_forms.specs.Forms.{FormTree};
ghost use Rattle.lens_core.specs.Complements.{comp_tree, comps_tree, missing};
ghost use Rattle.lens_core.specs.Translation.{translate, translate_one, translate_held};
ghost use Rattle.lens_steps.specs.Kinds.{mapped, is_of_kind};

use hold_shapes::Shape;
use lens_core::{Comp, Comps};

/// A kind of container.
#[derive(Clone, Copy, PartialEq, Eq)]
pub enum Kind {
    /// A list.
    List,
    /// A keyed map.
    Keyed,
    /// An ordered tree.
    Tree,
}

/// The shape and the complements of a container's complement.
///
/// `None` for a complement that is not of a container of this kind: then nothing is translated.
#[tactic(auto, using(crate::proofs::KindRows::kind_rules))]
pub fn held_as(kind: Kind, comp: &Comp) -> Option<(&Shape, &Comps)>
    ensures { MatchOption result
        ((l : FormTree) (side : Side) (p : PrimitiveTree) → translate_one (mapped kind l) side (comp_tree comp.now) p
        ≡ None)
        (λ r. (l : FormTree) (side : Side) (p : PrimitiveTree)
        → translate_one (mapped kind l) side (comp_tree comp.now) p
        ≡ translate_held (translate l side) (missing l) r.0.now (comps_tree r.1.now) p) }
{
    let Comp::Hold(shape, comps) = comp else {
        return None;
    };
    if is_of_kind(kind, shape) {
        Some((shape, comps))
    } else {
        None
    }
}

// Whether a shape is of this kind.
fn is_of_kind(kind: Kind, shape: &Shape) -> bool
    ensures { result ≡ is_of_kind kind shape.now }
{
    match (kind, shape) {
        (Kind::List, Shape::List(_)) => true,
        (Kind::Keyed, Shape::Keyed(_)) => true,
        (Kind::Tree, Shape::Tree(_)) => true,
        _ => false,
    }
}
