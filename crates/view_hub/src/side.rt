//! Which document is edited, and the words that acted.

use edit_module::Word;
use edit_module::change::Words;
use std::alloc::{AllocError, Global};
use texts::Twin;

/// The document that is edited.
#[derive(Clone, Copy, Debug, PartialEq, Eq)]
pub enum HubSide {
    /// The hub's.
    Hub,
    /// That of the view with this number, from 0.
    View(u64),
}

/// The words that acted in a step.
#[derive(Drop)]
pub struct HubCarried {
    /// The word of the hub.
    pub hub: Word,
    /// The words of the views, one for each and in their order.
    pub views: Words,
}

impl Twin for HubSide {
    ghost use Rattle.view_hub.specs.declared.side.HubSide.{HubSide};

    ghost Meaning = { HubSide };

    ghost meaning = { λ side. side };

    fn twin(&self, _alloc: Global) -> Result<Self, AllocError> {
        Ok(*self)
    }
}

impl Twin for HubCarried {
    ghost use Rattle.view_hub.specs.Hubs.{CarriedTree};
    ghost use Rattle.view_hub.specs.Views.{hub_carried_tree};

    ghost Meaning = { CarriedTree };

    ghost meaning = { hub_carried_tree };

    fn twin(&self, alloc: Global) -> Result<Self, AllocError> {
        Ok(HubCarried {
            hub: self.hub.twin(alloc)?,
            views: self.views.twin(alloc)?,
        })
    }
}
