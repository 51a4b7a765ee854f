//! Literals of the members of an enum, and of truth values.

ghost use Rattle.std.specs.Prelude.{◌≡◌, [], ◌∷◌, IfOk, option_map};
ghost use Rattle.texts.specs.Keys.{has_name};
ghost use Rattle.file_forms.specs.Forms.{word_names, word_literals};
ghost use Rattle.file_forms.specs.Signs.{sign_view};
ghost use Rattle.file_forms.specs.Slots.{literal_slot, is_any, sign_meets_literals};
ghost use Rattle.file_forms.specs.Fitting.{is_writable};
ghost use Rattle.file_forms.specs.Misfits.{member_twice, same_literal, not_writable};

use crate::literal::Literal;
use crate::sign::{Sign, clash};
use json::is_number;
use texts::Name;

// A literal that is a number has the letters of one.
pub(crate) fn is_writable(literal: &Literal) -> bool
    ensures { result ≡ is_writable literal.now }
{
    match literal {
        Literal::Gone => true,
        Literal::Null => true,
        Literal::Bool(_) => true,
        Literal::Number(text) => is_number(text.as_str()),
        Literal::Text(_) => true,
    }
}

// The first member that comes again.
pub(crate) fn member_twice(words: &[(Name, Literal)]) -> Option<&Name>
    ensures { option_map (λ n. n.now) result ≡ member_twice words.now }
{
    for i in 0..words.len() {
        if has_member(&words[i + 1..], &words[i].0) {
            return Some(&words[i].0);
        }
    }
    None
}

fn has_member(words: &[(Name, Literal)], name: &Name) -> bool
    ensures { result ≡ has_name name.now (word_names words.now) }
{
    for word in words {
        if name.is_same(&word.0) {
            return true;
        }
    }
    false
}

// The first member with the literal of a later one.
pub(crate) fn same_literal(words: &[(Name, Literal)]) -> Option<&Name>
    ensures { option_map (λ n. n.now) result ≡ same_literal words.now }
{
    for i in 0..words.len() {
        if is_any(&words[i + 1..], &words[i].1) {
            return Some(&words[i].0);
        }
    }
    None
}

fn is_any(words: &[(Name, Literal)], literal: &Literal) -> bool
    ensures { result ≡ is_any (word_literals words.now) (literal_slot literal.now) }
{
    for word in words {
        if word.1.is_same(literal) {
            return true;
        }
    }
    false
}

// The first member whose literal is no number, though it is to be one.
pub(crate) fn not_writable(words: &[(Name, Literal)]) -> Option<&Name>
    ensures { option_map (λ n. n.now) result ≡ not_writable words.now }
{
    for word in words {
        if !is_writable(&word.1) {
            return Some(&word.0);
        }
    }
    None
}

// Whether some slot with the sign may be the literal of a member.
pub(crate) fn sign_meets_words(own: &Sign<'_>, words: &[(Name, Literal)]) -> bool
    ensures { result ≡ sign_meets_literals (sign_view own.now) (word_literals words.now) }
{
    for word in words {
        if clash(own, &Sign::Exactly(&word.1)) {
            return true;
        }
    }
    false
}

// Whether some slot with the sign may be the literal of false or of true.
pub(crate) fn sign_meets_truths(own: &Sign<'_>, no: &Literal, yes: &Literal) -> bool
    ensures { result ≡ sign_meets_literals (sign_view own.now) (no.now ∷ yes.now ∷ []) }
{
    if clash(own, &Sign::Exactly(no)) {
        return true;
    }
    clash(own, &Sign::Exactly(yes))
}
