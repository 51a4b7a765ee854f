//! What is in the place of a member of a file.

ghost use Rattle.std.specs.Prelude.{◌≡◌, None, Some};
ghost use Rattle.file_trees.specs.FileTrees.{file_tree, items_view, members_view};
ghost use Rattle.file_forms.specs.Forms.{file_form_tree, forms_view};
ghost use Rattle.file_forms.specs.Signs.{sort_view};
ghost use Rattle.file_forms.specs.Slots.{is_literal, sort_of, takes, any_takes};
ghost use Rattle.file_forms.specs.declared.literal.Literal.TheVariants.{Null, Bool as Truth, Number, Text};
ghost use Rattle.file_values.specs.Reading.{Reads, slot_of, truth_in, number_in, string_in, items_in, members_in};

use crate::misfit::{ReadCause, ReadFault};
use crate::words::{is_one, is_word};
use file_forms::{FileForm, Literal, Sort};
use file_trees::FileTree;
use std::alloc::Global;
use texts::{Name, Str};

// The truth value there.
pub(crate) fn truth_in(alloc: Global, slot: Option<&FileTree>) -> Result<bool, ReadFault>
    ensures { Reads (λ b. b) result (truth_in (slot_of slot.entry)) }
{
    let Some(tree) = slot else {
        return Err(ReadFault::here(alloc, ReadCause::Missing));
    };
    if let FileTree::Bool(truth) = tree {
        Ok(*truth)
    } else {
        Err(ReadFault::here(alloc, ReadCause::OtherSort))
    }
}

// The text of the number there.
pub(crate) fn number_in(alloc: Global, slot: Option<&FileTree>) -> Result<&Str, ReadFault>
    ensures { Reads (λ s. s.now) result (number_in (slot_of slot.entry)) }
{
    let Some(tree) = slot else {
        return Err(ReadFault::here(alloc, ReadCause::Missing));
    };
    if let FileTree::Number(text) = tree {
        Ok(text)
    } else {
        Err(ReadFault::here(alloc, ReadCause::OtherSort))
    }
}

// The string there.
pub(crate) fn string_in(alloc: Global, slot: Option<&FileTree>) -> Result<&Str, ReadFault>
    ensures { Reads (λ s. s.now) result (string_in (slot_of slot.entry)) }
{
    let Some(tree) = slot else {
        return Err(ReadFault::here(alloc, ReadCause::Missing));
    };
    if let FileTree::Text(text) = tree {
        Ok(text)
    } else {
        Err(ReadFault::here(alloc, ReadCause::OtherSort))
    }
}

// The items of the array there.
pub(crate) fn items_in(alloc: Global, slot: Option<&FileTree>) -> Result<&[FileTree], ReadFault>
    ensures { Reads (λ items. items_view items.now) result (items_in (slot_of slot.entry)) }
{
    let Some(tree) = slot else {
        return Err(ReadFault::here(alloc, ReadCause::Missing));
    };
    if let FileTree::Array(items) = tree {
        Ok(items.as_slice())
    } else {
        Err(ReadFault::here(alloc, ReadCause::OtherSort))
    }
}

// The members of the object there.
pub(crate) fn members_in(
    alloc: Global,
    slot: Option<&FileTree>,
) -> Result<&[(Name, FileTree)], ReadFault>
    ensures { Reads (λ members. members_view members.now) result (members_in (slot_of slot.entry)) }
{
    let Some(tree) = slot else {
        return Err(ReadFault::here(alloc, ReadCause::Missing));
    };
    if let FileTree::Object(members) = tree {
        Ok(members.as_slice())
    } else {
        Err(ReadFault::here(alloc, ReadCause::OtherSort))
    }
}

// Whether the literal is there, to the letter.
pub(crate) fn is_literal(literal: &Literal, slot: Option<&FileTree>) -> bool
    ensures { result ≡ is_literal literal.now (slot_of slot.entry) }
{
    let Some(tree) = slot else {
        return is_gone(literal);
    };
    match literal {
        Literal::Gone => false,
        Literal::Null => is_null(tree),
        Literal::Bool(truth) => is_truth(*truth, tree),
        Literal::Number(text) => is_number(text, tree),
        Literal::Text(text) => is_text(text, tree),
    }
}

fn is_gone(literal: &Literal) -> bool
    ensures { result ≡ is_literal literal.now None }
{
    match literal {
        Literal::Gone => true,
        Literal::Null => false,
        Literal::Bool(_) => false,
        Literal::Number(_) => false,
        Literal::Text(_) => false,
    }
}

fn is_null(tree: &FileTree) -> bool
    ensures { result ≡ is_literal Null (Some (file_tree tree.now)) }
{
    if let FileTree::Null = tree {
        true
    } else {
        false
    }
}

fn is_truth(truth: bool, tree: &FileTree) -> bool
    ensures { result ≡ is_literal (Truth truth) (Some (file_tree tree.now)) }
{
    if let FileTree::Bool(other) = tree {
        truth == *other
    } else {
        false
    }
}

fn is_number(text: &Str, tree: &FileTree) -> bool
    ensures { result ≡ is_literal (Number text.now) (Some (file_tree tree.now)) }
{
    if let FileTree::Number(other) = tree {
        text.is_same(other)
    } else {
        false
    }
}

fn is_text(text: &Str, tree: &FileTree) -> bool
    ensures { result ≡ is_literal (Text text.now) (Some (file_tree tree.now)) }
{
    if let FileTree::Text(other) = tree {
        text.is_same(other)
    } else {
        false
    }
}

// The sort of what is there.
pub(crate) fn sort_of(slot: Option<&FileTree>) -> Sort
    ensures { sort_view result ≡ sort_of (slot_of slot.entry) }
{
    let Some(tree) = slot else {
        return Sort::Others;
    };
    match tree {
        FileTree::Null => Sort::Others,
        FileTree::Bool(_) => Sort::Truths,
        FileTree::Number(_) => Sort::Numbers,
        FileTree::Text(_) => Sort::Strings,
        FileTree::Array(_) => Sort::Arrays,
        FileTree::Object(_) => Sort::Objects,
    }
}

// Whether what is there begins as the form writes it.
#[cycle(takes)]
pub(crate) fn takes(form: &FileForm, slot: Option<&FileTree>) -> bool
    ensures { result ≡ takes (file_form_tree form.now) (slot_of slot.entry) }
{
    match form {
        FileForm::Literal(literal) => is_literal(literal, slot),
        FileForm::Bool => Sort::Truths.is_same(sort_of(slot)),
        FileForm::Truths(no, yes) => is_one(no, yes, slot),
        FileForm::Int(_) => Sort::Numbers.is_same(sort_of(slot)),
        FileForm::Text(_) => Sort::Strings.is_same(sort_of(slot)),
        FileForm::Enum(_, _) => Sort::Strings.is_same(sort_of(slot)),
        FileForm::Words(words, _) => is_word(words.as_slice(), slot),
        FileForm::Number(_) => Sort::Numbers.is_same(sort_of(slot)),
        FileForm::Object(_) => Sort::Objects.is_same(sort_of(slot)),
        FileForm::Tagged(_) => Sort::Objects.is_same(sort_of(slot)),
        FileForm::Bare(tags) => any_takes(tags, slot),
        FileForm::Items(_) => Sort::Arrays.is_same(sort_of(slot)),
        FileForm::Map(_) => Sort::Objects.is_same(sort_of(slot)),
    }
}

#[cycle(takes)]
fn any_takes(tags: &Vec<(Name, FileForm)>, slot: Option<&FileTree>) -> bool
    ensures { result ≡ any_takes (forms_view tags.now.items) (slot_of slot.entry) }
{
    for tag in tags {
        if takes(&tag.1, slot) {
            return true;
        }
    }
    false
}
