//! Why the document of a script is refused.
ghost use Rattle.std.specs.Prelude.{◌≡◌};
ghost use Rattle.store_new.specs.Import.{import_line};

/// Why `import` refuses the journal part of a script, in the order in which it is tested.
#[derive(Clone, Copy, Debug, PartialEq, Eq)]
pub enum ImportRefusal {
    /// All lines are blank.
    NoDocument,
    /// More than one line is not blank.
    ExtraLine,
    /// The line has more than 1,048,576 bytes.
    LineTooLong,
    /// The line is not JSON.
    NotJson,
    /// No document of the left type has the tree of the line.
    NotOfType,
}

impl ImportRefusal {
    /// The line that says so, with a line feed.
    pub fn line(self) -> &'static [u8]
        ensures { result.now ≡ import_line self }
    {
        match self {
            ImportRefusal::NoDocument => b"import refused: no-document\n",
            ImportRefusal::ExtraLine => b"import refused: extra-line\n",
            ImportRefusal::LineTooLong => b"import refused: line-too-long\n",
            ImportRefusal::NotJson => b"import refused: not-json\n",
            ImportRefusal::NotOfType => b"import refused: not-of-type\n",
        }
    }
}
