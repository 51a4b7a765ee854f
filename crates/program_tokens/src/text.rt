//! Which texts a string may hold.
ghost use Rattle.std.specs.Prelude.{◌≡◌, length};
ghost use Rattle.std.specs.List.{list_all};
ghost use Rattle.std.specs.Str.{chars};
ghost use Rattle.program_tokens.specs.Words.{in_text, is_text};

/// Whether a string may hold this character: one from U+0020 up, but neither `"` nor `\`.
#[tactic(auto, unfolding(crate::specs::Words::in_text))]
fn in_text(c: char) -> bool
    ensures { result ≡ in_text c }
{
    c >= ' ' && c != '"' && c != '\\'
}

/// Whether a string may hold this text: 1 to 64 such characters.
#[tactic(auto, unfolding(crate::specs::Words::is_text))]
pub fn is_text(text: &str) -> bool
    ensures { result ≡ is_text text.now }
{
    let count = count_chars(text);
    1 <= count && count <= 64 && all_in_text(text)
}

fn count_chars(text: &str) -> usize
    ensures { result ≡ length (chars text.now) }
{
    text.chars().count()
}

fn all_in_text(text: &str) -> bool
    ensures { result ≡ list_all in_text (chars text.now) }
{
    text.chars().all(|c| in_text(c))
}
