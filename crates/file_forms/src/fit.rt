//! Where a form is not fit, and why.

ghost use Rattle.std.specs.Prelude.{◌≡◌, [], ◌∷◌, IfOk, option_map};
ghost use Rattle.texts.specs.Keys.{has_name};
ghost use Rattle.file_forms.specs.Forms.{as_bare, file_form_tree, forms_view, form_names, word_literals};
ghost use Rattle.file_forms.specs.Signs.{sign_view};
ghost use Rattle.file_forms.specs.Slots.{sign_meets, sign_meets_any, meets_any, some_meets_any};
ghost use Rattle.file_forms.specs.Slots.{some_literal_meets};
ghost use Rattle.file_forms.specs.Misfits.{misfit_view, inside, at_field, literal_misfit, out_of_order, tag_twice};
ghost use Rattle.file_forms.specs.Misfits.{same_slot, own_misfit, first_misfit, part_misfit, truths_misfit};
ghost use Rattle.file_forms.specs.Misfits.{words_misfit};
ghost use Rattle.file_forms.specs.declared.misfit.FormStep.TheVariants.{Inside};

use crate::form::FileForm;
use crate::literal::Literal;
use crate::misfit::{FormFault, FormMisfit, FormStep};
use crate::sign::{Sign, clash, sign_of};
use crate::words::{
    is_writable, member_twice, not_writable, same_literal, sign_meets_truths, sign_meets_words,
};
use std::alloc::{AllocError, Global};
use texts::{Name, Twin};

// What is wrong with the form first: with itself, or with a part of it. Fails only if memory runs out.
#[cycle(fit)]
pub(crate) fn first_misfit(alloc: Global, form: &FileForm) -> Result<Option<FormMisfit>, AllocError>
    ensures { IfOk result (λ misfit. option_map misfit_view misfit ≡ first_misfit (file_form_tree form.now)) }
{
    if let Some(misfit) = own_misfit(alloc, form)? {
        return Ok(Some(misfit));
    }
    match form {
        FileForm::Literal(_) => Ok(None),
        FileForm::Bool => Ok(None),
        FileForm::Truths(_, _) => Ok(None),
        FileForm::Int(_) => Ok(None),
        FileForm::Text(_) => Ok(None),
        FileForm::Enum(_, _) => Ok(None),
        FileForm::Words(_, _) => Ok(None),
        FileForm::Number(_) => Ok(None),
        FileForm::Object(fields) => part_misfit(alloc, fields),
        FileForm::Tagged(tags) => part_misfit(alloc, tags),
        FileForm::Bare(tags) => part_misfit(alloc, tags),
        FileForm::Items(inner) => inside(first_misfit(alloc, inner)?),
        FileForm::Map(inner) => inside(first_misfit(alloc, inner)?),
    }
}

// The misfit of the first field or tag that has one inside.
#[cycle(fit)]
fn part_misfit(
    alloc: Global,
    fields: &Vec<(Name, FileForm)>,
) -> Result<Option<FormMisfit>, AllocError>
    ensures { IfOk result (λ misfit. option_map misfit_view misfit ≡ part_misfit (forms_view fields.now.items)) }
{
    for field in fields {
        if let Some(misfit) = first_misfit(alloc, &field.1)? {
            let step = FormStep::Named(field.0.twin(alloc)?);
            return Ok(Some(misfit.inside(step)?));
        }
    }
    Ok(None)
}

// The misfit of what a list or a keyed map has.
fn inside(misfit: Option<FormMisfit>) -> Result<Option<FormMisfit>, AllocError>
    ensures { IfOk result (λ outer. option_map misfit_view outer
        ≡ option_map (inside Inside) (option_map misfit_view misfit)) }
{
    match misfit {
        Some(misfit) => Ok(Some(misfit.inside(FormStep::Inside)?)),
        None => Ok(None),
    }
}

// What is wrong with the form, whatever its parts are.
fn own_misfit(alloc: Global, form: &FileForm) -> Result<Option<FormMisfit>, AllocError>
    ensures { IfOk result (λ misfit. option_map misfit_view misfit ≡ own_misfit (file_form_tree form.now)) }
{
    match form {
        FileForm::Literal(literal) => Ok(literal_misfit(alloc, is_writable(literal))),
        FileForm::Bool => Ok(None),
        FileForm::Truths(no, yes) => Ok(truths_misfit(alloc, no, yes)),
        FileForm::Int(_) => Ok(None),
        FileForm::Text(_) => Ok(None),
        FileForm::Enum(_, _) => Ok(None),
        FileForm::Words(words, _) => words_misfit(alloc, words.as_slice()),
        FileForm::Number(_) => Ok(None),
        FileForm::Object(fields) => {
            at_field(
                alloc,
                FormFault::FieldOrder,
                out_of_order(fields.as_slice()),
            )
        }
        FileForm::Tagged(tags) => at_field(alloc, FormFault::TagTwice, tag_twice(tags.as_slice())),
        FileForm::Bare(tags) => bare_misfit(alloc, tags.as_slice()),
        FileForm::Items(_) => Ok(None),
        FileForm::Map(_) => Ok(None),
    }
}

fn bare_misfit(alloc: Global, tags: &[(Name, FileForm)]) -> Result<Option<FormMisfit>, AllocError>
    ensures { IfOk result (λ misfit. option_map misfit_view misfit ≡ own_misfit (as_bare (forms_view tags.now))) }
{
    match at_field(alloc, FormFault::TagTwice, tag_twice(tags))? {
        Some(misfit) => Ok(Some(misfit)),
        None => at_field(alloc, FormFault::SameSlot, same_slot(tags)),
    }
}

fn truths_misfit(alloc: Global, no: &Literal, yes: &Literal) -> Option<FormMisfit>
    ensures { option_map misfit_view result ≡ truths_misfit no.now yes.now }
{
    if yes.is_same(no) {
        return Some(FormMisfit {
            place: Vec::new(alloc),
            fault: FormFault::SameLiteral,
        });
    }
    literal_misfit(alloc, is_writable(no) && is_writable(yes))
}

fn words_misfit(alloc: Global, words: &[(Name, Literal)]) -> Result<Option<FormMisfit>, AllocError>
    ensures { IfOk result (λ misfit. option_map misfit_view misfit ≡ words_misfit words.now) }
{
    if let Some(misfit) = at_field(alloc, FormFault::MemberTwice, member_twice(words))? {
        return Ok(Some(misfit));
    }
    match at_field(alloc, FormFault::SameLiteral, same_literal(words))? {
        Some(misfit) => Ok(Some(misfit)),
        None => at_field(alloc, FormFault::NotANumber, not_writable(words)),
    }
}

// The misfit at a field, a tag or a member, if there is one.
fn at_field(
    alloc: Global,
    fault: FormFault,
    name: Option<&Name>,
) -> Result<Option<FormMisfit>, AllocError>
    ensures { IfOk result (λ misfit. option_map misfit_view misfit
        ≡ option_map (at_field fault) (option_map (λ n. n.now) name.entry)) }
{
    let Some(name) = name else {
        return Ok(None);
    };
    let step = FormStep::Named(name.twin(alloc)?);
    Ok(Some(FormMisfit {
        place: vec![in alloc; step]?,
        fault,
    }))
}

fn literal_misfit(alloc: Global, writable: bool) -> Option<FormMisfit>
    ensures { option_map misfit_view result ≡ literal_misfit writable }
{
    if writable {
        return None;
    }
    Some(FormMisfit {
        place: Vec::new(alloc),
        fault: FormFault::NotANumber,
    })
}

// The first field that is not after the field before it, in byte order.
fn out_of_order(fields: &[(Name, FileForm)]) -> Option<&Name>
    ensures { option_map (λ n. n.now) result ≡ out_of_order (forms_view fields.now) }
{
    for i in 1..fields.len() {
        if !fields[i - 1].0.is_before(&fields[i].0) {
            return Some(&fields[i].0);
        }
    }
    None
}

// The first tag that comes again.
fn tag_twice(tags: &[(Name, FileForm)]) -> Option<&Name>
    ensures { option_map (λ n. n.now) result ≡ tag_twice (forms_view tags.now) }
{
    for i in 0..tags.len() {
        if has_tag(&tags[i + 1..], &tags[i].0) {
            return Some(&tags[i].0);
        }
    }
    None
}

fn has_tag(tags: &[(Name, FileForm)], name: &Name) -> bool
    ensures { result ≡ has_name name.now (form_names (forms_view tags.now)) }
{
    for tag in tags {
        if name.is_same(&tag.0) {
            return true;
        }
    }
    false
}

// The first tag with a slot that is also one of a later tag.
fn same_slot(tags: &[(Name, FileForm)]) -> Option<&Name>
    ensures { option_map (λ n. n.now) result ≡ same_slot (forms_view tags.now) }
{
    for i in 0..tags.len() {
        if meets_any(&tags[i].1, &tags[i + 1..]) {
            return Some(&tags[i].0);
        }
    }
    None
}

// Whether some slot may be taken by the form and by one of the others.
#[cycle(meets)]
fn meets_any(form: &FileForm, others: &[(Name, FileForm)]) -> bool
    ensures { result ≡ meets_any (file_form_tree form.now) (forms_view others.now) }
{
    if let FileForm::Bare(tags) = form {
        some_meets_any(tags, others)
    } else if let FileForm::Truths(no, yes) = form {
        some_truth_meets(no, yes, others)
    } else if let FileForm::Words(words, _) = form {
        some_word_meets(words, others)
    } else {
        sign_meets_any(&sign_of(form), others)
    }
}

#[cycle(meets)]
fn some_meets_any(tags: &Vec<(Name, FileForm)>, others: &[(Name, FileForm)]) -> bool
    ensures { result ≡ some_meets_any (forms_view tags.now.items) (forms_view others.now) }
{
    for tag in tags {
        if meets_any(&tag.1, others) {
            return true;
        }
    }
    false
}

// Whether one of the forms may take the literal of false or of true.
fn some_truth_meets(no: &Literal, yes: &Literal, others: &[(Name, FileForm)]) -> bool
    ensures { result ≡ some_literal_meets (no.now ∷ yes.now ∷ []) (forms_view others.now) }
{
    if sign_meets_any(&Sign::Exactly(no), others) {
        return true;
    }
    sign_meets_any(&Sign::Exactly(yes), others)
}

// Whether one of the forms may take the literal of a member.
fn some_word_meets(words: &Vec<(Name, Literal)>, others: &[(Name, FileForm)]) -> bool
    ensures { result ≡ some_literal_meets (word_literals words.now.items) (forms_view others.now) }
{
    for word in words {
        if sign_meets_any(&Sign::Exactly(&word.1), others) {
            return true;
        }
    }
    false
}

// Whether some slot with the sign may be taken by one of the forms.
fn sign_meets_any(own: &Sign<'_>, others: &[(Name, FileForm)]) -> bool
    ensures { result ≡ sign_meets_any (sign_view own.now) (forms_view others.now) }
{
    for other in others {
        if sign_meets(own, &other.1) {
            return true;
        }
    }
    false
}

#[cycle(sign_meets)]
fn sign_meets(own: &Sign<'_>, other: &FileForm) -> bool
    ensures { result ≡ sign_meets (sign_view own.now) (file_form_tree other.now) }
{
    if let FileForm::Bare(tags) = other {
        sign_meets_tags(own, tags)
    } else if let FileForm::Truths(no, yes) = other {
        sign_meets_truths(own, no, yes)
    } else if let FileForm::Words(words, _) = other {
        sign_meets_words(own, words.as_slice())
    } else {
        clash(own, &sign_of(other))
    }
}

#[cycle(sign_meets)]
fn sign_meets_tags(own: &Sign<'_>, tags: &Vec<(Name, FileForm)>) -> bool
    ensures { result ≡ sign_meets_any (sign_view own.now) (forms_view tags.now.items) }
{
    for tag in tags {
        if sign_meets(own, &tag.1) {
            return true;
        }
    }
    false
}
