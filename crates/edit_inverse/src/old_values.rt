//! Words that bring back what a primitive took: a value, the characters of a text, or the content of a tag.

ghost use Rattle.std.specs.Prelude.{◌≡◌, true, IfOk, string_bytes};
ghost use Rattle.std.specs.Str.{IsUtf8};
ghost use Rattle.doc_values.specs.Documents.{DocTree, doc_tree};
ghost use Rattle.doc_values.specs.Types.{TyTree, ty_tree};
ghost use Rattle.doc_values.specs.Typing.{has};
ghost use Rattle.texts.specs.Characters.{character_count};
ghost use Rattle.edit_module.specs.Words.{WordTree, set, splice, switch};
ghost use Rattle.edit_module.specs.Views.{word_tree};
ghost use Rattle.edit_inverse.specs.Construct.{only};
ghost use Rattle.edit_inverse.specs.Inverse.{atom_of_value, cut_out, inverse_primitive};
ghost use Rattle.edit_inverse.specs.Texts.{PrimitiveMeets};

use crate::construction::construct;
use crate::words::{one, switch_word};
use doc_values::{Doc, Ty};
use edit_module::Atom;
use edit_module::word::{Primitive, Word};
use hold_shapes::{Name, Str, Twin};
use std::alloc::{AllocError, Global};

// The word that sets a value to what it was.
pub(crate) fn set_back(alloc: Global, doc: &Doc) -> Result<Word, AllocError>
    ensures { IfOk result (λ w. word_tree w ≡ only (set (atom_of_value (doc_tree doc.now)))) }
{
    let atom = atom_of(alloc, doc)?;
    one(alloc, Primitive::Set(atom))
}

// The atom of a value. A value that has none gives any, since nothing sets it.
fn atom_of(alloc: Global, doc: &Doc) -> Result<Atom, AllocError>
    ensures { IfOk result (λ a. a ≡ atom_of_value (doc_tree doc.now)) }
{
    match doc {
        Doc::Bool(truth) => Ok(Atom::Truth(*truth)),
        Doc::Int(number) => Ok(Atom::Number(*number)),
        Doc::Text(text) => Ok(Atom::Letters(text.twin(alloc)?)),
        Doc::Pick(member) => {
            let text = String::from_str(alloc, member.as_str())?;
            Ok(Atom::Letters(Str::from_string(text)))
        }
        _ => Ok(Atom::Truth(true)),
    }
}

// The word that brings back the characters that a splice replaced. Both texts are UTF-8, as each `Str` is.
pub(crate) fn splice_back(
    alloc: Global,
    from: u64,
    count: u64,
    with: &Str,
    doc: &Doc,
) -> Result<Word, AllocError>
    ensures back { (t : TyTree) → IfOk result (λ w.
        word_tree w ≡ inverse_primitive t (splice from count with.now) (doc_tree doc.now)) }
    ensures meets { (t : TyTree) → PrimitiveMeets t (splice from count with.now) (doc_tree doc.now) }
{
    let Doc::Text(text) = doc else {
        return Ok(Word::from_vec(Vec::new(alloc)));
    };
    let new = count_of(with.as_str());
    let taken = characters(alloc, text.as_str(), from, count)?;
    one(alloc, Primitive::Splice(from, new, Str::from_string(taken)))
}

// How many characters a text has.
#[tactic(auto, using(crate::proofs::Cuts::count_rules))]
fn count_of(text: &str) -> u64
    ensures count { result ≡ character_count text.now }
    ensures utf8 { IsUtf8 text.now }
{
    text.chars().count() as u64
}

// The characters of a text from a place on, this many at most.
fn characters(alloc: Global, text: &str, from: u64, count: u64) -> Result<String, AllocError>
    ensures text { IfOk result (λ s. string_bytes s ≡ cut_out text.now from count) }
    ensures utf8 { IsUtf8 text.now }
{
    let mut cut = String::new(alloc);
    let mut before = from;
    let mut left = count;
    for character in text.chars() {
        if before > 0 {
            before -= 1;
        } else if left > 0 {
            left -= 1;
            cut.push(character)?;
        }
    }
    Ok(cut)
}

// The word that goes back to a tag, with the content that it had.
pub(crate) fn switch_back(
    alloc: Global,
    ty: &Ty,
    from: &Name,
    to: &Name,
    doc: &Doc,
) -> Result<Word, AllocError>
    requires { has (ty_tree ty.now) (doc_tree doc.now) ≡ true }
    ensures { (w : WordTree) → IfOk result (λ back.
        word_tree back ≡ inverse_primitive (ty_tree ty.now) (switch from.now to.now w) (doc_tree doc.now)) }
{
    let Ty::Alt(tags) = ty else {
        return Ok(Word::from_vec(Vec::new(alloc)));
    };
    let Doc::Alt(held, content) = doc else {
        return Ok(Word::from_vec(Vec::new(alloc)));
    };
    let Some((_, inner)) = tags.find(held.as_str()) else {
        return Ok(Word::from_vec(Vec::new(alloc)));
    };
    let word = construct(alloc, inner, content)?;
    switch_word(alloc, to, from, word)
}
