//! The initial document of a type.

ghost use Rattle.std.specs.Prelude.{◌≡◌, true, IfOk, [], ◌∷◌};
ghost use Rattle.hold_shapes.specs.declared.shape.Shape.TheVariants.{Tree as TreeOf};
ghost use Rattle.doc_values.specs.Documents.{doc_tree, docs_tree, hold, more_docs, no_docs};
ghost use Rattle.doc_values.specs.Types.{ty_tree, fields_tree, is_well_formed};
ghost use Rattle.doc_values.specs.Typing.{has};
ghost use Rattle.doc_values.specs.Initial.{initial, initial_fields, initial_tag};

use crate::doc::{Doc, Docs, with_tag};
use crate::ty::{Fields, Ty};
use hold_shapes::{DepthSeq, KeyedShape, ListShape, Shape, TreeShape, Twin};
use shared_lists::SharedList;
use std::alloc::{AllocError, Global};

/// The initial document of a type: null, false, the declared value of an int, a text or an enum, a record of initial
/// documents, the first tag with its initial document, an empty list, an empty keyed map, a tree of one node with
/// the initial content.
///
/// The type is well formed, so the declared value of an enum is a member and there is a first tag, and the document
/// has the type. Only memory can fail it. See docs/MEANING.md.
#[tactic(auto, using(crate::proofs::InitialTypes::has_initial))]
pub fn init(alloc: Global, ty: &Ty) -> Result<Doc, AllocError>
    requires { is_well_formed (ty_tree ty.now) ≡ true }
    ensures value { IfOk result (λ d. doc_tree d ≡ initial (ty_tree ty.now)) }
    ensures typed { IfOk result (λ d. has (ty_tree ty.now) (doc_tree d) ≡ true) }
{
    initial_doc(alloc, ty)
}

#[cycle(initial_doc)]
fn initial_doc(alloc: Global, ty: &Ty) -> Result<Doc, AllocError>
    ensures { IfOk result (λ d. doc_tree d ≡ initial (ty_tree ty.now)) }
{
    match ty {
        Ty::Unit => Ok(Doc::Unit),
        Ty::Bool => Ok(Doc::Bool(false)),
        Ty::Int(value) => Ok(Doc::Int(*value)),
        Ty::Text(value) => Ok(Doc::Text(value.twin(alloc)?)),
        Ty::Enum(_, value) => Ok(Doc::Pick(value.twin(alloc)?)),
        Ty::Rec(fields) => Ok(Doc::Rec(initial_fields(alloc, fields)?)),
        Ty::Alt(fields) => initial_tag(alloc, fields),
        Ty::List(_) => Ok(Doc::Hold(Shape::List(ListShape { count: 0 }), Docs::empty())),
        Ty::Keyed(_) => Ok(Doc::Hold(Shape::Keyed(no_keys()), Docs::empty())),
        Ty::Tree(inner) => one_node(alloc, initial_doc(alloc, inner)?),
    }
}

#[cycle(initial_doc)]
#[tactic(auto, using(crate::proofs::Rules::initial_rules))]
fn initial_fields(alloc: Global, fields: &Fields) -> Result<Docs, AllocError>
    ensures { IfOk result (λ ds. docs_tree ds ≡ initial_fields (fields_tree fields.now)) }
{
    let mut items = Vec::new(alloc);
    for field in &fields.items {
        items.push(initial_doc(alloc, &field.1)?)?;
    }
    Docs::from_vec(alloc, items)
}

#[cycle(initial_doc)]
fn initial_tag(alloc: Global, fields: &Fields) -> Result<Doc, AllocError>
    ensures { IfOk result (λ d. doc_tree d ≡ initial_tag (fields_tree fields.now)) }
{
    if fields.items.is_empty() {
        return Ok(Doc::Unit);
    }
    let content = initial_doc(alloc, &fields.items[0].1)?;
    with_tag(alloc, &fields.items[0].0, content)
}

// A keyed map's shape with no key.
fn no_keys() -> KeyedShape
    ensures { result ≡ [] }
{
    match KeyedShape::from_names(SharedList::empty()) {
        Some(keys) => keys,
        None => unreachable!(),
    }
}

// A tree's shape of one node.
fn root_alone(alloc: Global) -> Result<TreeShape, AllocError>
    ensures { IfOk result (λ s. s ≡ 0 ∷ []) }
{
    let depths = DepthSeq::from_vec(alloc, vec![in alloc; 0]?)?;
    match TreeShape::from_depths(depths) {
        Some(shape) => Ok(shape),
        None => unreachable!(),
    }
}

// The contents of which this is the only one.
#[tactic(auto, using(crate::proofs::Rules::initial_rules))]
fn content_alone(alloc: Global, content: Doc) -> Result<Docs, AllocError>
    ensures { IfOk result (λ ds. docs_tree ds ≡ more_docs (doc_tree content) no_docs) }
{
    Docs::from_vec(alloc, vec![in alloc; content]?)
}

// A tree of one node with a content.
fn one_node(alloc: Global, content: Doc) -> Result<Doc, AllocError>
    ensures { IfOk result (λ d. doc_tree d ≡ hold (TreeOf (0 ∷ [])) (more_docs (doc_tree content) no_docs)) }
{
    let contents = content_alone(alloc, content)?;
    Ok(Doc::Hold(Shape::Tree(root_alone(alloc)?), contents))
}
