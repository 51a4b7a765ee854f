//! Forms of lenses.

ghost use Rattle.std.specs.Prelude.{◌≡◌, IfOk, map};
ghost use Rattle.lens_forms.specs.Forms.{form_tree, row_tree, rows_tree, form_rows_of, arm_tree, arms_tree};
ghost use Rattle.lens_forms.specs.Forms.{form_arms_of};

use doc_values::{Fields, Ty};
use program_terms::Pairs;
use std::alloc::{AllocError, Global};
use texts::{Name, Twin};

/// A lens with all names expanded. Each list is in written order.
///
/// Contracts see it as a `FormTree`. docs/LANGUAGE.md has the two types of each form.
#[derive(Drop)]
#[cycle(form)]
pub enum Form {
    /// The identity of a type.
    Id(Ty),
    /// Members of an enum joined to members of another, with the initial one on the left.
    Bij(Pairs, Name),
    /// Two types of which no edit is carried.
    Disc(Ty, Ty),
    /// The first form, and then the second.
    Then(Box<Form>, Box<Form>),
    /// A record on each side, row by row.
    Rec(FormRows),
    /// Alternatives on each side, tag by tag.
    Alt(FormArms),
    /// A form at each place of a list.
    Each(Box<Form>),
    /// A form at each key of a keyed map.
    Keyed(Box<Form>),
    /// A form at each node of an ordered tree.
    Tree(Box<Form>),
    /// A list of alternatives, parted into a record of a list for each tag.
    Part(Fields),
    /// The form with its sides exchanged.
    Inv(Box<Form>),
}

/// One row of a record.
#[derive(Drop)]
#[cycle(form)]
pub enum FormRow {
    /// A left field paired with a right field, and the form between their contents.
    Both(Name, Name, Form),
    /// A field on the left alone, with its type.
    OnlyLeft(Name, Ty),
    /// A field on the right alone, with its type.
    OnlyRight(Name, Ty),
}

/// The rows of a record, in written order.
#[derive(Drop)]
#[cycle(form)]
pub struct FormRows {
    pub(crate) items: Vec<FormRow>,
}

/// The arms of alternatives, in written order: a left tag, a right tag, and the form between their contents.
#[derive(Drop)]
#[cycle(form)]
pub struct FormArms {
    pub(crate) items: Vec<(Name, Name, Form)>,
}

impl FormRows {
    /// These rows, in this order. It does not allocate.
    pub fn from_vec(items: Vec<FormRow>) -> FormRows
        ensures { rows_tree result ≡ form_rows_of (map row_tree items.items) }
    {
        FormRows { items }
    }

    /// The rows in order.
    pub fn as_slice(&self) -> &[FormRow]
        ensures { form_rows_of (map row_tree result.now) ≡ rows_tree self.now }
    {
        self.items.as_slice()
    }

    /// The rows in order. It does not allocate.
    pub fn into_vec(self) -> Vec<FormRow>
        ensures { form_rows_of (map row_tree result.items) ≡ rows_tree self }
    {
        self.items
    }
}

impl FormArms {
    /// These arms, in this order. It does not allocate.
    pub fn from_vec(items: Vec<(Name, Name, Form)>) -> FormArms
        ensures { arms_tree result ≡ form_arms_of (map arm_tree items.items) }
    {
        FormArms { items }
    }

    /// The arms in order.
    pub fn as_slice(&self) -> &[(Name, Name, Form)]
        ensures { form_arms_of (map arm_tree result.now) ≡ arms_tree self.now }
    {
        self.items.as_slice()
    }

    /// The arms in order. It does not allocate.
    pub fn into_vec(self) -> Vec<(Name, Name, Form)>
        ensures { form_arms_of (map arm_tree result.items) ≡ arms_tree self }
    {
        self.items
    }
}

impl Twin for Form {
    ghost use Rattle.lens_forms.specs.Forms.{FormTree, form_tree};

    ghost Meaning = { FormTree };

    ghost meaning = { form_tree };

    fn twin(&self, alloc: Global) -> Result<Self, AllocError> {
        copy_form(alloc, self)
    }
}

impl Twin for FormRow {
    ghost use Rattle.lens_forms.specs.Forms.{FormRowTree, row_tree};

    ghost Meaning = { FormRowTree };

    ghost meaning = { row_tree };

    fn twin(&self, alloc: Global) -> Result<Self, AllocError> {
        copy_row(alloc, self)
    }
}

impl Twin for FormRows {
    ghost use Rattle.lens_forms.specs.Forms.{RowTrees, rows_tree};

    ghost Meaning = { RowTrees };

    ghost meaning = { rows_tree };

    fn twin(&self, alloc: Global) -> Result<Self, AllocError> {
        copy_rows(alloc, self)
    }
}

impl Twin for FormArms {
    ghost use Rattle.lens_forms.specs.Forms.{ArmTrees, arms_tree};

    ghost Meaning = { ArmTrees };

    ghost meaning = { arms_tree };

    fn twin(&self, alloc: Global) -> Result<Self, AllocError> {
        copy_arms(alloc, self)
    }
}

#[cycle(copy_form)]
fn copy_form(alloc: Global, form: &Form) -> Result<Form, AllocError>
    ensures { IfOk result (λ f. form_tree f ≡ form_tree form.now) }
{
    match form {
        Form::Id(ty) => Ok(Form::Id(ty.twin(alloc)?)),
        Form::Bij(pairs, value) => Ok(Form::Bij(pairs.twin(alloc)?, value.twin(alloc)?)),
        Form::Disc(left, right) => Ok(Form::Disc(left.twin(alloc)?, right.twin(alloc)?)),
        Form::Then(first, second) => {
            let first = Box::new(alloc, copy_form(alloc, first)?)?;
            let second = Box::new(alloc, copy_form(alloc, second)?)?;
            Ok(Form::Then(first, second))
        }
        Form::Rec(rows) => Ok(Form::Rec(copy_rows(alloc, rows)?)),
        Form::Alt(arms) => Ok(Form::Alt(copy_arms(alloc, arms)?)),
        Form::Each(inner) => Ok(Form::Each(Box::new(alloc, copy_form(alloc, inner)?)?)),
        Form::Keyed(inner) => Ok(Form::Keyed(Box::new(alloc, copy_form(alloc, inner)?)?)),
        Form::Tree(inner) => Ok(Form::Tree(Box::new(alloc, copy_form(alloc, inner)?)?)),
        Form::Part(fields) => Ok(Form::Part(fields.twin(alloc)?)),
        Form::Inv(inner) => Ok(Form::Inv(Box::new(alloc, copy_form(alloc, inner)?)?)),
    }
}

#[cycle(copy_form)]
fn copy_row(alloc: Global, row: &FormRow) -> Result<FormRow, AllocError>
    ensures { IfOk result (λ r. row_tree r ≡ row_tree row.now) }
{
    match row {
        FormRow::Both(left, right, form) => Ok(FormRow::Both(
            left.twin(alloc)?,
            right.twin(alloc)?,
            copy_form(alloc, form)?,
        )),
        FormRow::OnlyLeft(name, ty) => Ok(FormRow::OnlyLeft(name.twin(alloc)?, ty.twin(alloc)?)),
        FormRow::OnlyRight(name, ty) => Ok(FormRow::OnlyRight(name.twin(alloc)?, ty.twin(alloc)?)),
    }
}

#[cycle(copy_form)]
fn copy_rows(alloc: Global, rows: &FormRows) -> Result<FormRows, AllocError>
    ensures { IfOk result (λ rs. rows_tree rs ≡ rows_tree rows.now) }
{
    let mut items = Vec::new(alloc);
    for row in &rows.items {
        items.push(copy_row(alloc, row)?)?;
    }
    Ok(FormRows { items })
}

#[cycle(copy_form)]
fn copy_arms(alloc: Global, arms: &FormArms) -> Result<FormArms, AllocError>
    ensures { IfOk result (λ others. arms_tree others ≡ arms_tree arms.now) }
{
    let mut items = Vec::new(alloc);
    for arm in &arms.items {
        let left = arm.0.twin(alloc)?;
        let right = arm.1.twin(alloc)?;
        let form = copy_form(alloc, &arm.2)?;
        items.push((left, right, form))?;
    }
    Ok(FormArms { items })
}
