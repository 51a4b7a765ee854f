//! Sameness of types and of documents: equality of their trees.

ghost use Rattle.std.specs.Prelude.{◌≡◌, ◌↔◌, IsTrue};
ghost use Rattle.doc_values.specs.Documents.{doc_tree, docs_tree};
ghost use Rattle.doc_values.specs.Types.{ty_tree, fields_tree};

use crate::doc::{Doc, Docs};
use crate::ty::{Fields, Ty};

#[cycle(same_ty)]
#[tactic(auto, using(crate::proofs::Rules::same_field_rules))]
pub(crate) fn same_ty(left: &Ty, right: &Ty) -> bool
    ensures { IsTrue result ↔ (ty_tree left.now ≡ ty_tree right.now) }
{
    match (left, right) {
        (Ty::Unit, Ty::Unit) => true,
        (Ty::Bool, Ty::Bool) => true,
        (Ty::Int(a), Ty::Int(b)) => *a == *b,
        (Ty::Text(a), Ty::Text(b)) => a.is_same(b),
        (Ty::Enum(a, x), Ty::Enum(b, y)) => a.is_same(b) && x.is_same(y),
        (Ty::Rec(a), Ty::Rec(b)) => same_fields(a, b),
        (Ty::Alt(a), Ty::Alt(b)) => same_fields(a, b),
        (Ty::List(a), Ty::List(b)) => same_ty(a, b),
        (Ty::Keyed(a), Ty::Keyed(b)) => same_ty(a, b),
        (Ty::Tree(a), Ty::Tree(b)) => same_ty(a, b),
        _ => false,
    }
}

#[cycle(same_ty)]
#[tactic(auto, using(crate::proofs::Rules::same_field_rules))]
fn same_fields(left: &Fields, right: &Fields) -> bool
    ensures { IsTrue result ↔ (fields_tree left.now ≡ fields_tree right.now) }
{
    if left.items.len() != right.items.len() {
        return false;
    }
    for i in 0..left.items.len() {
        if !left.items[i].0.is_same(&right.items[i].0) {
            return false;
        }
        if !same_ty(&left.items[i].1, &right.items[i].1) {
            return false;
        }
    }
    true
}

#[cycle(same_doc)]
#[tactic(auto, using(crate::proofs::Rules::same_rules))]
pub(crate) fn same_doc(left: &Doc, right: &Doc) -> bool
    ensures { IsTrue result ↔ (doc_tree left.now ≡ doc_tree right.now) }
{
    match (left, right) {
        (Doc::Unit, Doc::Unit) => true,
        (Doc::Bool(a), Doc::Bool(b)) => *a == *b,
        (Doc::Int(a), Doc::Int(b)) => *a == *b,
        (Doc::Text(a), Doc::Text(b)) => a.is_same(b),
        (Doc::Pick(a), Doc::Pick(b)) => a.is_same(b),
        (Doc::Rec(a), Doc::Rec(b)) => same_docs(a, b),
        (Doc::Alt(a, x), Doc::Alt(b, y)) => a.is_same(b) && same_doc(x, y),
        (Doc::Hold(a, x), Doc::Hold(b, y)) => a.is_same(b) && same_docs(x, y),
        _ => false,
    }
}

#[cycle(same_doc)]
#[tactic(auto, using(crate::proofs::Rules::same_rules))]
fn same_docs(left: &Docs, right: &Docs) -> bool
    ensures { IsTrue result ↔ (docs_tree left.now ≡ docs_tree right.now) }
{
    if left.layout.len() != right.layout.len() {
        return false;
    }
    for i in 0..left.layout.len() {
        if !same_doc(left.layout.get(i), right.layout.get(i)) {
            return false;
        }
    }
    true
}
