//! The shape of a complement, and its places.

ghost use Rattle.std.specs.Prelude.{◌≡◌, ◌<◌, IfOk, MatchOption};
ghost use Rattle.hold_shapes.specs.Shapes.{size_of, place_of};

use hold_shapes::{Held, Place, Shape};
use std::alloc::{AllocError, Global};
use texts::Twin;

// A copy, as one of the three kinds.
pub(crate) fn any_shape<H: Held>(alloc: Global, shape: &H) -> Result<Shape, AllocError>
    ensures { IfOk result (λ s. s ≡ H.shape_of shape.now) }
{
    let copy = shape.twin(alloc)?;
    Ok(copy.into_shape())
}

// The number of a place, which is below the size.
#[tactic(auto, using(crate::proofs::PlacesWithin::within_rules))]
pub(crate) fn place_in(shape: &Shape, place: &Place) -> Option<u64>
    ensures number { result ≡ place_of shape.now place.now }
    ensures within { MatchOption result (Unit {0}) (λ i. i < size_of shape.now) }
{
    match shape {
        Shape::List(list) => list.place(place),
        Shape::Keyed(keys) => {
            let _names = keys.names();
            keys.place(place)
        }
        Shape::Tree(tree) => {
            let _depths = tree.depths();
            tree.place(place)
        }
    }
}
