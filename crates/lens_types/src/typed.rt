//! A form with its two types.

ghost use Rattle.std.specs.Prelude.{◌≡◌, ◌≤◌, IsTrue};
ghost use Rattle.doc_values.specs.Types.{ty_tree, height, is_well_formed};
ghost use Rattle.lens_forms.specs.Forms.{form_tree, left_type, right_type};
ghost use Rattle.lens_forms.specs.Measures.{form_parts, form_height, longest_list};
ghost use Rattle.lens_forms.specs.Typing.{IsTyped, is_typed};
ghost use Rattle.lens_forms.specs.declared.limits.TheConstants.{GREATEST_HEIGHT, MOST_PARTS};
ghost use Rattle.lens_types.specs.Sound.{is_sound};

use crate::made::both;
use doc_values::Ty;
use lens_forms::Form;
use std::alloc::{AllocError, Global};
use std::marker::Model;
use texts::Twin;

/// A form that is typed, with its two types. Contracts see it as its form.
///
/// [`check`](crate::check) makes it. The form and its types keep the limits of docs/LANGUAGE.md.
#[derive(Drop)]
pub struct Typed {
    form: Form,
    left: Ty,
    right: Ty,
}

impl Model for Typed {
    ghost use Rattle.std.specs.Coded.{codes};
    ghost use Rattle.doc_values.specs.Types.{ty_tree};
    ghost use Rattle.lens_forms.specs.declared.form.Form.{Form};
    ghost use Rattle.lens_forms.specs.contracts.form.Form as form_type;
    ghost use Rattle.lens_forms.specs.Forms.{form_tree};
    ghost use Rattle.lens_types.specs.Sound.{IsSoundWith};

    ghost Value = { Form };

    ghost coded = { Prim.hlevel (codes, form_type.the_row.coded) };

    ghost view = { λ t. t.form };

    ghost invariant = { λ t. IsSoundWith (form_tree t.form) (ty_tree t.left) (ty_tree t.right) };
}

impl Typed {
    // A sound form with its two types. It does not allocate.
    pub(crate) fn new(form: Form, left: Ty, right: Ty) -> Typed
        requires sound { IsTrue (is_sound (form_tree form)) }
        requires left_is { ty_tree left ≡ left_type (form_tree form) }
        requires right_is { ty_tree right ≡ right_type (form_tree form) }
        ensures { form_tree result ≡ form_tree form }
    {
        Typed { form, left, right }
    }

    /// The form.
    ///
    /// It is typed, with [`left`](Typed::left) and [`right`](Typed::right): in all its parts names are distinct on each
    /// side, and a bijection, alternatives and a partition have at least one; the initial value of an enum is one of
    /// its members, and that of a bijection is a left member. It has at most 4,096 parts, no list in it or in its types
    /// has more than 4,096 names, and its height is at most 32.
    pub fn form(&self) -> &Form
        ensures is { result.now ≡ self.now }
        ensures typed { IsTyped (form_tree result.now) (left_type (form_tree result.now))
            (right_type (form_tree result.now)) }
        ensures tested { IsTrue (is_typed (form_tree result.now)) }
        ensures small { form_parts (form_tree result.now) ≤ MOST_PARTS }
        ensures short { longest_list (form_tree result.now) ≤ MOST_PARTS }
        ensures low { form_height (form_tree result.now) ≤ GREATEST_HEIGHT }
    {
        &self.form
    }

    /// The left type. It keeps the condition on types, and its height is at most 32.
    pub fn left(&self) -> &Ty
        ensures left { ty_tree result.now ≡ left_type (form_tree self.now) }
        ensures well_formed { IsTrue (is_well_formed (ty_tree result.now)) }
        ensures low { height (ty_tree result.now) ≤ GREATEST_HEIGHT }
    {
        &self.left
    }

    /// The right type. It keeps the condition on types, and its height is at most 32.
    pub fn right(&self) -> &Ty
        ensures right { ty_tree result.now ≡ right_type (form_tree self.now) }
        ensures well_formed { IsTrue (is_well_formed (ty_tree result.now)) }
        ensures low { height (ty_tree result.now) ≤ GREATEST_HEIGHT }
    {
        &self.right
    }
}

impl Twin for Typed {
    ghost use Rattle.lens_forms.specs.Forms.{FormTree, form_tree};

    ghost Meaning = { FormTree };

    ghost meaning = { form_tree };

    fn twin(&self, alloc: Global) -> Result<Self, AllocError> {
        let sides = both(self.left.twin(alloc), self.right.twin(alloc));
        let (form, (left, right)) = both(self.form.twin(alloc), sides)?;
        Ok(Typed { form, left, right })
    }
}
