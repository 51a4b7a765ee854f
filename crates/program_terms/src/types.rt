//! Types as they are written.

ghost use Rattle.std.specs.Prelude.{◌≡◌, IfOk, map};
ghost use Rattle.program_terms.specs.Terms.{term_fields_of};
ghost use Rattle.program_terms.specs.Views.{type_tree, fields_tree, field_tree};

use std::alloc::{AllocError, Global};
use texts::{Name, Names, Str, Twin};

/// A type as a program writes it, in which a name may refer to a type that is defined.
///
/// Contracts see it as a `TypeTree`. docs/LANGUAGE.md has the grammar.
#[derive(Drop)]
#[cycle(types)]
pub enum TyExpr {
    /// Null alone: `unit`.
    Unit,
    /// True and false: `bool`.
    Bool,
    /// A whole number, with the initial value: `int = 5`, and `int` for 0.
    Int(i64),
    /// A text, with the initial value: `text = "x"`, and `text` for the empty text.
    Text(Str),
    /// One of the members, in written order, and the initial value: `enum["on", "off"] = "off"`. The initial value that
    /// is left out is the first member. It need not be a member here; whether it may be in a program is a question of
    /// typing.
    Enum(Names, Name),
    /// A record, with a content for each field: `{a: int, b: text}`.
    Rec(TyFields),
    /// Alternatives, one tag with a content of its type: `<p: text, o: int>`.
    Alt(TyFields),
    /// A list of contents of one type: `list int`.
    List(Box<TyExpr>),
    /// A map from names to contents of one type: `keyed int`.
    Keyed(Box<TyExpr>),
    /// An ordered tree with a content of one type at each node: `tree int`.
    Tree(Box<TyExpr>),
    /// The type that the name is defined as: `point`.
    Named(Name),
}

/// The fields of a record or the tags of alternatives: names, each with its type, in written order.
///
/// A name may occur more than once; whether it may in a program is a question of typing.
#[derive(Drop)]
#[cycle(types)]
pub struct TyFields {
    pub(crate) items: Vec<(Name, TyExpr)>,
}

impl TyFields {
    /// The fields with these names and types, in this order. Does not allocate.
    pub fn from_vec(items: Vec<(Name, TyExpr)>) -> TyFields
        ensures { fields_tree result ≡ term_fields_of (map field_tree items.items) }
    {
        TyFields { items }
    }

    /// The names and types in order.
    pub fn as_slice(&self) -> &[(Name, TyExpr)]
        ensures { term_fields_of (map field_tree result.now) ≡ fields_tree self.now }
    {
        self.items.as_slice()
    }

    /// The names and types in order. Does not allocate.
    pub fn into_vec(self) -> Vec<(Name, TyExpr)>
        ensures { term_fields_of (map field_tree result.items) ≡ fields_tree self }
    {
        self.items
    }
}

impl Twin for TyExpr {
    ghost use Rattle.program_terms.specs.Terms.{TypeTree};
    ghost use Rattle.program_terms.specs.Views.{type_tree};

    ghost Meaning = { TypeTree };

    ghost meaning = { type_tree };

    fn twin(&self, alloc: Global) -> Result<Self, AllocError> {
        copy_type(alloc, self)
    }
}

impl Twin for TyFields {
    ghost use Rattle.program_terms.specs.Terms.{TermFields};
    ghost use Rattle.program_terms.specs.Views.{fields_tree};

    ghost Meaning = { TermFields };

    ghost meaning = { fields_tree };

    fn twin(&self, alloc: Global) -> Result<Self, AllocError> {
        copy_fields(alloc, self)
    }
}

#[cycle(copy_type)]
fn copy_type(alloc: Global, ty: &TyExpr) -> Result<TyExpr, AllocError>
    ensures { IfOk result (λ t. type_tree t ≡ type_tree ty.now) }
{
    match ty {
        TyExpr::Unit => Ok(TyExpr::Unit),
        TyExpr::Bool => Ok(TyExpr::Bool),
        TyExpr::Int(number) => Ok(TyExpr::Int(*number)),
        TyExpr::Text(text) => Ok(TyExpr::Text(text.twin(alloc)?)),
        TyExpr::Enum(members, name) => Ok(TyExpr::Enum(members.twin(alloc)?, name.twin(alloc)?)),
        TyExpr::Rec(fields) => Ok(TyExpr::Rec(copy_fields(alloc, fields)?)),
        TyExpr::Alt(fields) => Ok(TyExpr::Alt(copy_fields(alloc, fields)?)),
        TyExpr::List(inner) => Ok(TyExpr::List(Box::new(alloc, copy_type(alloc, inner)?)?)),
        TyExpr::Keyed(inner) => Ok(TyExpr::Keyed(Box::new(alloc, copy_type(alloc, inner)?)?)),
        TyExpr::Tree(inner) => Ok(TyExpr::Tree(Box::new(alloc, copy_type(alloc, inner)?)?)),
        TyExpr::Named(name) => Ok(TyExpr::Named(name.twin(alloc)?)),
    }
}

#[cycle(copy_type)]
fn copy_fields(alloc: Global, fields: &TyFields) -> Result<TyFields, AllocError>
    ensures { IfOk result (λ fs. fields_tree fs ≡ fields_tree fields.now) }
{
    let mut items = Vec::new(alloc);
    for field in &fields.items {
        let name = field.0.twin(alloc)?;
        let ty = copy_type(alloc, &field.1)?;
        items.push((name, ty))?;
    }
    Ok(TyFields { items })
}
