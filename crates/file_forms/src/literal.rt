//! What stands in a file for a tag without content.

ghost use Rattle.std.specs.Prelude.{◌≡◌};
ghost use Rattle.file_forms.specs.Signs.{sort_view};
ghost use Rattle.file_forms.specs.Slots.{is_literal, literal_slot, sort_of};

use crate::sort::Sort;
use texts::Str;

/// What stands in a file in the place of null: nothing at all, or a value without parts.
#[derive(Debug, Drop)]
pub enum Literal {
    /// No member.
    Gone,
    /// Null.
    Null,
    /// True or false.
    Bool(bool),
    /// A number with these letters.
    Number(Str),
    /// A string.
    Text(Str),
}

impl Literal {
    /// Whether both are the same, to the letter.
    pub fn is_same(&self, other: &Literal) -> bool
        ensures { result ≡ is_literal self.now (literal_slot other.now) }
    {
        match (self, other) {
            (Literal::Gone, Literal::Gone) => true,
            (Literal::Null, Literal::Null) => true,
            (Literal::Bool(one), Literal::Bool(other)) => *one == *other,
            (Literal::Number(one), Literal::Number(other)) => one.is_same(other),
            (Literal::Text(one), Literal::Text(other)) => one.is_same(other),
            _ => false,
        }
    }

    // The sort of the slot that it stands for.
    pub(crate) fn sort(&self) -> Sort
        ensures { sort_view result ≡ sort_of (literal_slot self.now) }
    {
        match self {
            Literal::Gone => Sort::Others,
            Literal::Null => Sort::Others,
            Literal::Bool(_) => Sort::Truths,
            Literal::Number(_) => Sort::Numbers,
            Literal::Text(_) => Sort::Strings,
        }
    }
}
