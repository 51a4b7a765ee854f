//! Members of an enum and truth values that a file has as literals.

ghost use Rattle.std.specs.Prelude.{◌≡◌, [], ◌∷◌, option_map};
ghost use Rattle.file_forms.specs.Forms.{word_literals};
ghost use Rattle.file_forms.specs.Slots.{literal_slot, is_any};
ghost use Rattle.file_forms.specs.FileValues.{truth_of, truth_literal, word_of, word_slot};
ghost use Rattle.file_values.specs.Reading.{slot_of};

use crate::slots::is_literal;
use file_forms::Literal;
use file_trees::FileTree;
use texts::Name;

// The first member whose literal is there.
pub(crate) fn word_of<'a>(words: &'a [(Name, Literal)], slot: Option<&FileTree>) -> Option<&'a Name>
    ensures { option_map (λ n. n.now) result ≡ word_of words.now (slot_of slot.entry) }
{
    for word in words {
        if is_literal(&word.1, slot) {
            return Some(&word.0);
        }
    }
    None
}

// Whether the literal of a member is there.
pub(crate) fn is_word(words: &[(Name, Literal)], slot: Option<&FileTree>) -> bool
    ensures { result ≡ is_any (word_literals words.now) (slot_of slot.entry) }
{
    for word in words {
        if is_literal(&word.1, slot) {
            return true;
        }
    }
    false
}

// The literal of a member.
pub(crate) fn word_literal<'a>(words: &'a [(Name, Literal)], name: &Name) -> Option<&'a Literal>
    ensures { option_map (λ l. literal_slot l.now) result ≡ word_slot words.now name.now }
{
    for word in words {
        if word.0.is_same(name) {
            return Some(&word.1);
        }
    }
    None
}

// The truth value whose literal is there.
pub(crate) fn truth_of(no: &Literal, yes: &Literal, slot: Option<&FileTree>) -> Option<bool>
    ensures { result ≡ truth_of no.now yes.now (slot_of slot.entry) }
{
    if is_literal(no, slot) {
        Some(false)
    } else if is_literal(yes, slot) {
        Some(true)
    } else {
        None
    }
}

// Whether the literal of false or of true is there.
pub(crate) fn is_one(no: &Literal, yes: &Literal, slot: Option<&FileTree>) -> bool
    ensures { result ≡ is_any (no.now ∷ yes.now ∷ []) (slot_of slot.entry) }
{
    if is_literal(no, slot) {
        return true;
    }
    is_literal(yes, slot)
}

// The literal of a truth value.
pub(crate) fn truth_literal<'a>(no: &'a Literal, yes: &'a Literal, truth: bool) -> &'a Literal
    ensures { result.now ≡ truth_literal no.now yes.now truth }
{
    if truth { yes } else { no }
}
