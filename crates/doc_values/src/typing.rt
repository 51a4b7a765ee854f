//! When a document has a type.

ghost use Rattle.std.specs.Prelude.{◌≡◌};
ghost use Rattle.doc_values.specs.Documents.{doc_tree, docs_tree};
ghost use Rattle.doc_values.specs.Types.{ty_tree, fields_tree};
ghost use Rattle.doc_values.specs.Typing.{has, has_fields, has_each, is_list_of, is_keyed_of, is_tree_of};

use crate::doc::{Doc, Docs};
use crate::ty::{Fields, Ty};
use hold_shapes::Shape;

#[cycle(fits)]
#[tactic(auto, using(crate::proofs::Rules::typing_rules))]
pub(crate) fn fits(ty: &Ty, doc: &Doc) -> bool
    ensures { result ≡ has (ty_tree ty.now) (doc_tree doc.now) }
{
    match (ty, doc) {
        (Ty::Unit, Doc::Unit) => true,
        (Ty::Bool, Doc::Bool(_)) => true,
        (Ty::Int(_), Doc::Int(_)) => true,
        (Ty::Text(_), Doc::Text(_)) => true,
        (Ty::Enum(members, _), Doc::Pick(name)) => members.has(name),
        (Ty::Rec(fields), Doc::Rec(docs)) => fit_fields(fields, docs),
        (Ty::Alt(fields), Doc::Alt(tag, content)) => match fields.position(tag.as_str()) {
            Some(at) => fits(&fields.items[at].1, content),
            None => false,
        },
        (Ty::List(inner), Doc::Hold(shape, docs)) => {
            is_list_of(shape, docs.len()) && fit_each(inner, docs)
        }
        (Ty::Keyed(inner), Doc::Hold(shape, docs)) => {
            is_keyed_of(shape, docs.len()) && fit_each(inner, docs)
        }
        (Ty::Tree(inner), Doc::Hold(shape, docs)) => {
            is_tree_of(shape, docs.len()) && fit_each(inner, docs)
        }
        _ => false,
    }
}

#[cycle(fits)]
#[tactic(auto, using(crate::proofs::Rules::typing_rules))]
fn fit_fields(fields: &Fields, docs: &Docs) -> bool
    ensures { result ≡ has_fields (fields_tree fields.now) (docs_tree docs.now) }
{
    if fields.items.len() != docs.layout.len() {
        return false;
    }
    for i in 0..docs.layout.len() {
        if !fits(&fields.items[i].1, docs.layout.get(i)) {
            return false;
        }
    }
    true
}

#[cycle(fits)]
#[tactic(auto, using(crate::proofs::Rules::typing_rules))]
fn fit_each(ty: &Ty, docs: &Docs) -> bool
    ensures { result ≡ has_each (ty_tree ty.now) (docs_tree docs.now) }
{
    for i in 0..docs.layout.len() {
        if !fits(ty, docs.layout.get(i)) {
            return false;
        }
    }
    true
}

/// Whether the shape is that of a list with this number of items.
pub fn is_list_of(shape: &Shape, count: usize) -> bool
    ensures { result ≡ is_list_of shape.now count }
{
    match shape {
        Shape::List(list) => list.count == count as u64,
        Shape::Keyed(_) => false,
        Shape::Tree(_) => false,
    }
}

/// Whether the shape is that of a keyed map with this number of keys, which rise strictly by the type of a shape.
pub fn is_keyed_of(shape: &Shape, count: usize) -> bool
    ensures { result ≡ is_keyed_of shape.now count }
{
    match shape {
        Shape::List(_) => false,
        Shape::Keyed(keyed) => keyed.names().len() == count,
        Shape::Tree(_) => false,
    }
}

/// Whether the shape is that of a tree with this number of nodes, whose depths are a tree's by the type of a shape.
pub fn is_tree_of(shape: &Shape, count: usize) -> bool
    ensures { result ≡ is_tree_of shape.now count }
{
    match shape {
        Shape::List(_) => false,
        Shape::Keyed(_) => false,
        Shape::Tree(tree) => tree.depths().len() == count,
    }
}
