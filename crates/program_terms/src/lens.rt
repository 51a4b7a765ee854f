//! Lenses as they are written.

ghost use Rattle.std.specs.Prelude.{◌≡◌, IfOk, map};
ghost use Rattle.program_terms.specs.Terms.{term_rows_of, term_arms_of};
ghost use Rattle.program_terms.specs.Views.{lens_tree, row_tree, rows_tree, arms_tree, arm_tree};

use crate::pairs::Pairs;
use crate::types::{TyExpr, TyFields};
use std::alloc::{AllocError, Global};
use texts::{Name, Twin};

/// A lens as a program writes it, in which a name may refer to a lens that is defined.
///
/// Contracts see it as a `LensTree`. docs/LANGUAGE.md has the grammar and the types of each lens.
#[derive(Drop)]
#[cycle(lens)]
pub enum Lens {
    /// The identity of a type: `id int`.
    Id(TyExpr),
    /// Members of an enum joined to members of another, and the initial value on the left:
    /// `bij["on"="yes", "off"="no"] = "off"`. The initial value that is left out is the first left member.
    Bij(Pairs, Name),
    /// Two types of which no edit is translated: `disc int text`.
    Disc(TyExpr, TyExpr),
    /// The first lens, and then the second: `then(id int, id int)`.
    Then(Box<Lens>, Box<Lens>),
    /// A record on each side, row by row: `{a ~ b: id int, left f: unit}`.
    Rec(Rows),
    /// Alternatives on each side, tag by tag: `<p ~ q: id int>`.
    Alt(Arms),
    /// A lens at each place of a list: `each id int`.
    Each(Box<Lens>),
    /// A lens at each key of a keyed map: `keyed id int`.
    Keyed(Box<Lens>),
    /// A lens at each node of an ordered tree: `tree id int`.
    Tree(Box<Lens>),
    /// A list of alternatives, parted into a record of a list for each tag: `part <p: text, o: int>`.
    Part(TyFields),
    /// The lens with its sides exchanged: `inv id int`.
    Inv(Box<Lens>),
    /// The lens that the name is defined as: `swap`.
    Named(Name),
}

/// A row of a record.
#[derive(Drop)]
#[cycle(lens)]
pub enum Row {
    /// A left field paired with a right field, and the lens between their contents: `a ~ b: id int`.
    Both(Name, Name, Lens),
    /// A field on the left alone, with its type: `left f: unit`.
    OnlyLeft(Name, TyExpr),
    /// A field on the right alone, with its type: `right g: text`.
    OnlyRight(Name, TyExpr),
}

/// The rows of a record, in written order.
#[derive(Drop)]
#[cycle(lens)]
pub struct Rows {
    pub(crate) items: Vec<Row>,
}

/// The arms of alternatives, in written order: a left tag, a right tag, and the lens between their contents.
#[derive(Drop)]
#[cycle(lens)]
pub struct Arms {
    pub(crate) items: Vec<(Name, Name, Lens)>,
}

impl Rows {
    /// These rows, in this order. Does not allocate.
    pub fn from_vec(items: Vec<Row>) -> Rows
        ensures { rows_tree result ≡ term_rows_of (map row_tree items.items) }
    {
        Rows { items }
    }

    /// The rows in order.
    pub fn as_slice(&self) -> &[Row]
        ensures { term_rows_of (map row_tree result.now) ≡ rows_tree self.now }
    {
        self.items.as_slice()
    }

    /// The rows in order. Does not allocate.
    pub fn into_vec(self) -> Vec<Row>
        ensures { term_rows_of (map row_tree result.items) ≡ rows_tree self }
    {
        self.items
    }
}

impl Arms {
    /// These arms, in this order. Does not allocate.
    pub fn from_vec(items: Vec<(Name, Name, Lens)>) -> Arms
        ensures { arms_tree result ≡ term_arms_of (map arm_tree items.items) }
    {
        Arms { items }
    }

    /// The arms in order.
    pub fn as_slice(&self) -> &[(Name, Name, Lens)]
        ensures { term_arms_of (map arm_tree result.now) ≡ arms_tree self.now }
    {
        self.items.as_slice()
    }

    /// The arms in order. Does not allocate.
    pub fn into_vec(self) -> Vec<(Name, Name, Lens)>
        ensures { term_arms_of (map arm_tree result.items) ≡ arms_tree self }
    {
        self.items
    }
}

impl Twin for Lens {
    ghost use Rattle.program_terms.specs.Terms.{LensTree};
    ghost use Rattle.program_terms.specs.Views.{lens_tree};

    ghost Meaning = { LensTree };

    ghost meaning = { lens_tree };

    fn twin(&self, alloc: Global) -> Result<Self, AllocError> {
        copy_lens(alloc, self)
    }
}

impl Twin for Row {
    ghost use Rattle.program_terms.specs.Terms.{RowTree};
    ghost use Rattle.program_terms.specs.Views.{row_tree};

    ghost Meaning = { RowTree };

    ghost meaning = { row_tree };

    fn twin(&self, alloc: Global) -> Result<Self, AllocError> {
        copy_row(alloc, self)
    }
}

impl Twin for Rows {
    ghost use Rattle.program_terms.specs.Terms.{TermRows};
    ghost use Rattle.program_terms.specs.Views.{rows_tree};

    ghost Meaning = { TermRows };

    ghost meaning = { rows_tree };

    fn twin(&self, alloc: Global) -> Result<Self, AllocError> {
        copy_rows(alloc, self)
    }
}

impl Twin for Arms {
    ghost use Rattle.program_terms.specs.Terms.{TermArms};
    ghost use Rattle.program_terms.specs.Views.{arms_tree};

    ghost Meaning = { TermArms };

    ghost meaning = { arms_tree };

    fn twin(&self, alloc: Global) -> Result<Self, AllocError> {
        copy_arms(alloc, self)
    }
}

#[cycle(copy_lens)]
fn copy_lens(alloc: Global, lens: &Lens) -> Result<Lens, AllocError>
    ensures { IfOk result (λ l. lens_tree l ≡ lens_tree lens.now) }
{
    match lens {
        Lens::Id(ty) => Ok(Lens::Id(ty.twin(alloc)?)),
        Lens::Bij(pairs, name) => Ok(Lens::Bij(pairs.twin(alloc)?, name.twin(alloc)?)),
        Lens::Disc(left, right) => Ok(Lens::Disc(left.twin(alloc)?, right.twin(alloc)?)),
        Lens::Then(first, second) => {
            let first = Box::new(alloc, copy_lens(alloc, first)?)?;
            let second = Box::new(alloc, copy_lens(alloc, second)?)?;
            Ok(Lens::Then(first, second))
        }
        Lens::Rec(rows) => Ok(Lens::Rec(copy_rows(alloc, rows)?)),
        Lens::Alt(arms) => Ok(Lens::Alt(copy_arms(alloc, arms)?)),
        Lens::Each(inner) => Ok(Lens::Each(Box::new(alloc, copy_lens(alloc, inner)?)?)),
        Lens::Keyed(inner) => Ok(Lens::Keyed(Box::new(alloc, copy_lens(alloc, inner)?)?)),
        Lens::Tree(inner) => Ok(Lens::Tree(Box::new(alloc, copy_lens(alloc, inner)?)?)),
        Lens::Part(fields) => Ok(Lens::Part(fields.twin(alloc)?)),
        Lens::Inv(inner) => Ok(Lens::Inv(Box::new(alloc, copy_lens(alloc, inner)?)?)),
        Lens::Named(name) => Ok(Lens::Named(name.twin(alloc)?)),
    }
}

#[cycle(copy_lens)]
fn copy_row(alloc: Global, row: &Row) -> Result<Row, AllocError>
    ensures { IfOk result (λ r. row_tree r ≡ row_tree row.now) }
{
    match row {
        Row::Both(left, right, lens) => Ok(Row::Both(
            left.twin(alloc)?,
            right.twin(alloc)?,
            copy_lens(alloc, lens)?,
        )),
        Row::OnlyLeft(name, ty) => Ok(Row::OnlyLeft(name.twin(alloc)?, ty.twin(alloc)?)),
        Row::OnlyRight(name, ty) => Ok(Row::OnlyRight(name.twin(alloc)?, ty.twin(alloc)?)),
    }
}

#[cycle(copy_lens)]
fn copy_rows(alloc: Global, rows: &Rows) -> Result<Rows, AllocError>
    ensures { IfOk result (λ rs. rows_tree rs ≡ rows_tree rows.now) }
{
    let mut items = Vec::new(alloc);
    for row in &rows.items {
        items.push(copy_row(alloc, row)?)?;
    }
    Ok(Rows { items })
}

#[cycle(copy_lens)]
fn copy_arms(alloc: Global, arms: &Arms) -> Result<Arms, AllocError>
    ensures { IfOk result (λ others. arms_tree others ≡ arms_tree arms.now) }
{
    let mut items = Vec::new(alloc);
    for arm in &arms.items {
        let left = arm.0.twin(alloc)?;
        let right = arm.1.twin(alloc)?;
        let lens = copy_lens(alloc, &arm.2)?;
        items.push((left, right, lens))?;
    }
    Ok(Arms { items })
}
