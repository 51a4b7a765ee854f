//! How high the lenses of a hub are.

ghost use Rattle.lens_forms.specs.Forms.{form_tree};
ghost use Rattle.hub_run.specs.RunStates.{forms_of_lenses};
ghost use Rattle.hub_records.specs.LowForms.{AllLow, IsLow};

use lens_flat::Flat;
use lens_types::Typed;

/// Changes nothing. No lens of a hub, and none of their types, is too high for the reader of JSON.
pub fn lenses_are_low(lenses: &[Flat])
    ensures { AllLow (forms_of_lenses lenses.now) }
{
    for lens in lenses {
        is_low(lens.typed());
    }
}

fn is_low(typed: &Typed)
    ensures { IsLow (form_tree typed.now) }
{
    let (_form, _left, _right) = (typed.form(), typed.left(), typed.right());
}
