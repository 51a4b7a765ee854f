//! The sorts of trees that forms write.

ghost use Rattle.std.specs.Prelude.{◌≡◌};
ghost use Rattle.file_forms.specs.Signs.{sort_view};
ghost use Rattle.file_forms.specs.Slots.{sort_number, same_sort};

/// The sort of what is in the place of a member.
#[derive(Clone, Copy)]
pub enum Sort {
    /// True and false.
    Truths,
    /// Numbers.
    Numbers,
    /// Strings.
    Strings,
    /// Arrays.
    Arrays,
    /// Objects.
    Objects,
    /// Null and nothing, which only a literal writes.
    Others,
}

impl Sort {
    fn number(self) -> u8
        ensures { result ≡ sort_number (sort_view self) }
    {
        match self {
            Sort::Truths => 0,
            Sort::Numbers => 1,
            Sort::Strings => 2,
            Sort::Arrays => 3,
            Sort::Objects => 4,
            Sort::Others => 5,
        }
    }

    /// Whether both are one sort.
    pub fn is_same(self, other: Sort) -> bool
        ensures { result ≡ same_sort (sort_view self) (sort_view other) }
    {
        self.number() == other.number()
    }
}
