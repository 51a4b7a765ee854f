//! Where a form is not fit, and why.

ghost use Rattle.std.specs.Prelude.{◌≡◌, IfOk};
ghost use Rattle.file_forms.specs.Misfits.{inside, misfit_view};

use std::alloc::AllocError;
use texts::Name;

/// Why a form is not fit.
#[derive(Clone, Copy, Debug, PartialEq, Eq, Drop)]
pub enum FormFault {
    /// A field of a record is not after the field before it, in byte order.
    FieldOrder,
    /// A tag comes again.
    TagTwice,
    /// A content that is written alone may look like that of a later tag.
    SameSlot,
    /// A member of an enum comes again.
    MemberTwice,
    /// A literal of a member is also that of a later one, or false and true have one literal.
    SameLiteral,
    /// A literal is a number, and its letters are not those of a number of JSON.
    NotANumber,
}

/// A step from a form to a part of it.
#[derive(Debug, Drop)]
pub enum FormStep {
    /// To a field of a record, to a tag, or to a member of an enum.
    Named(Name),
    /// To the contents of a list or of a keyed map.
    Inside,
}

/// Where a form is not fit, and why.
#[derive(Debug, Drop)]
pub struct FormMisfit {
    /// The steps from the form to the part that is not fit.
    pub place: Vec<FormStep>,
    /// Why that part is not fit.
    pub fault: FormFault,
}

impl FormMisfit {
    // The same misfit, seen from one step further out. Fails only if memory runs out.
    pub(crate) fn inside(self, step: FormStep) -> Result<FormMisfit, AllocError>
        ensures { IfOk result (λ misfit. misfit_view misfit ≡ inside step (misfit_view self)) }
    {
        let mut place = self.place;
        place.insert(0, step)?;
        Ok(FormMisfit {
            place,
            fault: self.fault,
        })
    }
}
