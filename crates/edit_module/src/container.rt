//! The three kinds of container.
ghost use Rattle.std.specs.Prelude.{◌≡◌};
ghost use Rattle.edit_module.specs.Containers.{has_places_like};

use hold_shapes::Place;

// A kind of container.
#[derive(Clone, Copy)]
pub(crate) enum Container {
    List,
    Keyed,
    Tree,
}

impl Container {
    // Whether the places of these containers are written like this one.
    pub(crate) fn has_places_like(self, place: &Place) -> bool
        ensures { result ≡ has_places_like self place.now }
    {
        match (self, place) {
            (Container::List, Place::Index(_)) => true,
            (Container::Keyed, Place::Key(_)) => true,
            (Container::Tree, Place::Node(_)) => true,
            _ => false,
        }
    }
}
