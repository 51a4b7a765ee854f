//! The arms of alternatives by their left tags.

ghost use Rattle.std.specs.Prelude.{◌≡◌, option_map};
ghost use Rattle.lens_forms.specs.Forms.{form_tree, arms_tree};
ghost use Rattle.complement_file.specs.ComplementJson.{arm_with};

use lens_forms::{Form, FormArms};

/// The lens of the first arm with a left tag. None if and only if no arm has it.
pub(crate) fn find_arm<'a>(arms: &'a FormArms, tag: &str) -> Option<&'a Form>
    ensures { option_map (λ f. form_tree f.now) result ≡ arm_with (arms_tree arms.now) tag.now }
{
    for arm in arms.as_slice() {
        if arm.0.as_str() == tag {
            return Some(&arm.2);
        }
    }
    None
}
