//! A plan of a shape edit, and why an edit has none.
use crate::origins::Origins;
use std::alloc::{AllocError, AllocFailed, Global};
use texts::Twin;

/// What an edit makes of a shape.
#[derive(Drop)]
pub struct Plan<H> {
    /// The new shape.
    pub shape: H,
    /// Where each place of the new shape comes from, in order.
    pub from: Origins,
}

impl<H: Twin + Drop> Twin for Plan<H> {
    ghost use Rattle.std.specs.Prelude.{List};
    ghost use Rattle.hold_shapes.specs.declared.origins.Origin.{Origin};

    ghost Meaning = { H.Meaning × List Origin };

    ghost meaning = { λ p. (H.meaning p.shape, p.from) };

    fn twin(&self, alloc: Global) -> Result<Self, AllocError> {
        Ok(Plan {
            shape: self.shape.twin(alloc)?,
            from: self.from.twin(alloc)?,
        })
    }
}

/// Why an edit has no plan. docs/EDITS.md says which edit has which cause, and in which order.
#[derive(Clone, Copy, Debug, PartialEq, Eq)]
pub enum PlanFault {
    /// The edit is of another kind of shape.
    Kind,
    /// The shape does not have the place.
    Place,
    /// A number is out of its range.
    Range,
    /// The new key is a key already.
    Present,
    /// A reorder has another number of places than the list.
    Length,
    /// A node would be more than 15 below the root.
    Deep,
    /// Memory ran out. This does not come from the edit: with more memory there may be a plan.
    NoMemory,
}

impl From<AllocError> for PlanFault {
    ghost use Rattle.std.specs.Prelude.{◌≡◌};
    ghost use Rattle.hold_shapes.specs.declared.plan.PlanFault.TheVariants.{NoMemory};

    ghost from_gives = { λ _ fault. fault ≡ NoMemory };

    fn from(_: AllocError) -> PlanFault {
        PlanFault::NoMemory
    }
}

impl<T: Drop> From<AllocFailed<T>> for PlanFault {
    ghost use Rattle.std.specs.Prelude.{◌≡◌};
    ghost use Rattle.hold_shapes.specs.declared.plan.PlanFault.TheVariants.{NoMemory};

    ghost from_gives = { λ _ fault. fault ≡ NoMemory };

    fn from(_: AllocFailed<T>) -> PlanFault {
        PlanFault::NoMemory
    }
}

impl Twin for PlanFault {
    ghost use Rattle.hold_shapes.specs.declared.plan.PlanFault.{PlanFault};

    ghost Meaning = { PlanFault };

    ghost meaning = { λ f. f };

    fn twin(&self, _alloc: Global) -> Result<Self, AllocError> {
        Ok(*self)
    }
}
