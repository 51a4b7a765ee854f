//! The words that the language keeps for itself.
ghost use Rattle.std.specs.Prelude.{◌≡◌, bytes_eq, find};
ghost use Rattle.program_tokens.specs.Words.{keyword_text, keyword_of};

use std::alloc::{AllocError, Global};
use texts::Twin;

/// A word that the language keeps for itself, so that it is never a name.
#[derive(Clone, Copy, Debug, PartialEq, Eq)]
pub enum Keyword {
    Type,
    Lens,
    Main,
    Unit,
    Bool,
    Int,
    Text,
    Enum,
    List,
    Keyed,
    Tree,
    Id,
    Bij,
    Disc,
    Then,
    Left,
    Right,
    Each,
    Part,
    Inv,
}

/// All keywords, each once.
pub const KEYWORDS: [Keyword; 20] = [
    Keyword::Type,
    Keyword::Lens,
    Keyword::Main,
    Keyword::Unit,
    Keyword::Bool,
    Keyword::Int,
    Keyword::Text,
    Keyword::Enum,
    Keyword::List,
    Keyword::Keyed,
    Keyword::Tree,
    Keyword::Id,
    Keyword::Bij,
    Keyword::Disc,
    Keyword::Then,
    Keyword::Left,
    Keyword::Right,
    Keyword::Each,
    Keyword::Part,
    Keyword::Inv,
];

impl Keyword {
    /// The word as it is written.
    pub fn text(self) -> &'static str
        ensures { result.now ≡ keyword_text self }
    {
        match self {
            Keyword::Type => "type",
            Keyword::Lens => "lens",
            Keyword::Main => "main",
            Keyword::Unit => "unit",
            Keyword::Bool => "bool",
            Keyword::Int => "int",
            Keyword::Text => "text",
            Keyword::Enum => "enum",
            Keyword::List => "list",
            Keyword::Keyed => "keyed",
            Keyword::Tree => "tree",
            Keyword::Id => "id",
            Keyword::Bij => "bij",
            Keyword::Disc => "disc",
            Keyword::Then => "then",
            Keyword::Left => "left",
            Keyword::Right => "right",
            Keyword::Each => "each",
            Keyword::Part => "part",
            Keyword::Inv => "inv",
        }
    }

    /// The keyword that is written so, or `None` where the bytes are not a keyword.
    #[tactic(auto, unfolding(crate::specs::Words::keyword_of))]
    pub fn from_bytes(word: &[u8]) -> Option<Keyword>
        ensures { result ≡ keyword_of word.now }
    {
        find_keyword(&KEYWORDS, word)
    }
}

impl Twin for Keyword {
    ghost use Rattle.program_tokens.specs.declared.keyword.Keyword.{Keyword};

    ghost Meaning = { Keyword };

    ghost meaning = { λ x. x };

    fn twin(&self, _alloc: Global) -> Result<Self, AllocError> {
        Ok(*self)
    }
}

/// The first of some keywords that is written so.
fn find_keyword(keywords: &[Keyword], word: &[u8]) -> Option<Keyword>
    ensures { result ≡ find (λ k. bytes_eq (keyword_text k) word.now) keywords.now }
{
    keywords
        .iter()
        .copied()
        .find(|keyword| keyword.text().as_bytes() == word)
}
