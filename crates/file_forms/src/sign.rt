//! How the slots of one form are told from those of another.

ghost use Rattle.std.specs.Prelude.{◌≡◌};
ghost use Rattle.file_forms.specs.Forms.{file_form_tree};
ghost use Rattle.file_forms.specs.Signs.{sign_view, sort_view};
ghost use Rattle.file_forms.specs.Slots.{exactly, any_of, sign, clash};

use crate::form::FileForm;
use crate::literal::Literal;
use crate::sort::Sort;

// A form writes one literal, or trees of one sort.
#[derive(Clone, Copy)]
pub(crate) enum Sign<'a> {
    Exactly(&'a Literal),
    AnyOf(Sort),
}

// The sign of a form that has one alone: not of `Bare`, `Truths` and `Words`.
pub(crate) fn sign_of(form: &FileForm) -> Sign<'_>
    ensures { sign_view result ≡ sign (file_form_tree form.now) }
{
    match form {
        FileForm::Literal(literal) => Sign::Exactly(literal),
        FileForm::Bool => Sign::AnyOf(Sort::Truths),
        FileForm::Truths(_, _) => Sign::AnyOf(Sort::Others),
        FileForm::Int(_) => Sign::AnyOf(Sort::Numbers),
        FileForm::Text(_) => Sign::AnyOf(Sort::Strings),
        FileForm::Enum(_, _) => Sign::AnyOf(Sort::Strings),
        FileForm::Words(_, _) => Sign::AnyOf(Sort::Others),
        FileForm::Number(_) => Sign::AnyOf(Sort::Numbers),
        FileForm::Object(_) => Sign::AnyOf(Sort::Objects),
        FileForm::Tagged(_) => Sign::AnyOf(Sort::Objects),
        FileForm::Bare(_) => Sign::AnyOf(Sort::Others),
        FileForm::Items(_) => Sign::AnyOf(Sort::Arrays),
        FileForm::Map(_) => Sign::AnyOf(Sort::Objects),
    }
}

// Whether some slot may show both signs.
pub(crate) fn clash(one: &Sign<'_>, other: &Sign<'_>) -> bool
    ensures { result ≡ clash (sign_view one.now) (sign_view other.now) }
{
    match one {
        Sign::Exactly(literal) => literal_clashes(literal, other),
        Sign::AnyOf(sort) => sort_clashes(*sort, other),
    }
}

fn literal_clashes(literal: &Literal, other: &Sign<'_>) -> bool
    ensures { result ≡ clash (exactly literal.now) (sign_view other.now) }
{
    match other {
        Sign::Exactly(second) => literal.is_same(second),
        Sign::AnyOf(sort) => sort.is_same(literal.sort()),
    }
}

fn sort_clashes(sort: Sort, other: &Sign<'_>) -> bool
    ensures { result ≡ clash (any_of (sort_view sort)) (sign_view other.now) }
{
    match other {
        Sign::Exactly(literal) => sort.is_same(literal.sort()),
        Sign::AnyOf(second) => sort.is_same(*second),
    }
}
