//! Documents.

ghost use Rattle.std.specs.Prelude.{◌≡◌, ◌↔◌, IsTrue, IfOk, OnOk, OnErr, ◌<◌, All, map, length, slice_set};
ghost use Rattle.std.specs.Prelude.{slice_index_or};
ghost use Rattle.hold_shapes.specs.Gather.{content_at, IsBelow};
ghost use Rattle.doc_values.specs.Documents.{doc_tree, docs_tree, docs_of, doc_list, unit, alt, hold, no_docs};
ghost use Rattle.doc_values.specs.Types.{ty_tree};
ghost use Rattle.doc_values.specs.Typing.{has};

use crate::iter::Iter;
use crate::layout::Layout;
use crate::ty::Ty;
use crate::{light, same, typing};
use hold_shapes::{Name, Origins, Shape, Str, Twin, gather};
use shared_lists::{Hint, SharedList};
use std::alloc::{AllocError, Global};
use std::rc::Rc;
use texts::twin_all;

/// One document.
///
/// A copy shares the contents of its records and containers. It copies the tags above them, and a text or a member
/// of an enum that is not inside one.
///
/// Dropping a document is a recursion, which leaves out what a copy still has. A record or a container on the way to
/// a content adds as many levels as the balanced tree of its [`SharedList`] is high, fewer than 40 for a hundred
/// million contents, and a few more. A tag adds one. A document nests at most as deep as its type.
#[derive(Drop)]
#[cycle(doc)]
pub enum Doc {
    /// Null.
    Unit,
    /// True or false.
    Bool(bool),
    /// A whole number.
    Int(i64),
    /// A text.
    Text(Str),
    /// A member of an enum.
    Pick(Name),
    /// A record: its contents in the order of its type's fields.
    Rec(Docs),
    /// A tag with its content.
    Alt(Name, Box<Doc>),
    /// A container: its shape, and the content of each place.
    Hold(Shape, Docs),
}

impl Doc {
    /// Whether two documents are equal.
    pub fn is_same(&self, other: &Doc) -> bool
        ensures { IsTrue result ↔ (doc_tree self.now ≡ doc_tree other.now) }
    {
        same::same_doc(self, other)
    }

    /// Whether the document has the type. See docs/MEANING.md.
    pub fn has_type(&self, ty: &Ty) -> bool
        ensures { result ≡ has (ty_tree ty.now) (doc_tree self.now) }
    {
        typing::fits(ty, self)
    }
}

/// The contents of a record or of a container, in order. A copy shares them.
///
/// At most 16 documents that came in together stand side by side in one block, if all of them are light: null, truth
/// values, whole numbers, and texts or members of at most 64 bytes. A change of one of them copies the others. All
/// other documents are in a [`SharedList`], where a change copies none.
#[derive(Drop)]
#[cycle(doc)]
pub struct Docs {
    pub(crate) layout: Layout<Doc>,
}

impl Docs {
    /// No documents. Does not allocate.
    pub fn empty() -> Docs
        ensures { docs_tree result ≡ no_docs }
    {
        Docs {
            layout: Layout::List(SharedList::empty()),
        }
    }

    /// These documents, in this order.
    ///
    /// Fails only if memory runs out; the documents are then dropped.
    pub fn from_vec(alloc: Global, items: Vec<Doc>) -> Result<Docs, AllocError>
        ensures { IfOk result (λ ds. docs_tree ds ≡ docs_of (map doc_tree items.items)) }
    {
        let layout = if light::fit_a_block(items.as_slice()) {
            Layout::Block(Rc::new(alloc, items)?)
        } else {
            Layout::List(SharedList::from_vec(alloc, items)?)
        };
        Ok(Docs { layout })
    }

    /// The document at a place. Takes time that grows with the logarithm of the number of documents.
    ///
    /// The place is counted from 0 and is one of the places.
    #[tactic(auto, using(crate::proofs::Rules::place_rules))]
    pub fn get(&self, place: usize) -> &Doc
        requires { place < length (doc_list (docs_tree self.now)) }
        ensures { doc_tree result.now ≡ slice_index_or (doc_list (docs_tree self.now)) place unit }
    {
        self.layout.get(place)
    }

    /// The documents in order. Does not allocate.
    #[tactic(auto, using(crate::proofs::Rules::layout_rules))]
    pub fn iter(&self) -> Iter<'_, Doc>
        ensures { docs_of (map doc_tree result) ≡ docs_tree self.now }
    {
        self.layout.iter()
    }

    /// The number of documents.
    #[tactic(auto, using(crate::proofs::Rules::layout_rules))]
    pub fn len(&self) -> usize
        ensures { result ≡ length (doc_list (docs_tree self.now)) }
    {
        self.layout.len()
    }

    /// Whether there are no documents.
    pub fn is_empty(&self) -> bool
        ensures { IsTrue result ↔ (length (doc_list (docs_tree self.now)) ≡ 0) }
    {
        self.len() == 0
    }

    /// Replaces the document at a place. Takes time that grows with the logarithm of the number of documents.
    ///
    /// The place is counted from 0 and is one of the places. Fails only if memory runs out; the documents are then as
    /// they were, and the new one is dropped.
    #[tactic(auto, using(crate::proofs::Rules::set_rules))]
    pub fn set(&mut self, alloc: Global, place: usize, doc: Doc) -> Result<(), AllocError>
        requires { place < length (doc_list (docs_tree self.old)) }
        ensures replaced { OnOk result (docs_tree self.new
            ≡ docs_of (slice_set (doc_list (docs_tree self.old)) place (doc_tree doc))) }
        ensures unchanged { OnErr result (docs_tree self.new ≡ docs_tree self.old) }
    {
        match &mut self.layout {
            Layout::Block(items) => {
                let changed = light::with_doc(alloc, items.as_slice(), place, doc)?;
                *self = Docs::from_vec(alloc, changed)?;
                Ok(())
            }
            Layout::List(items) => items.set(alloc, place, doc),
        }
    }

    /// A copy of the document of each old place that is named, and of the fresh one elsewhere, in the order of the
    /// origins. Fails only if memory runs out.
    ///
    /// Each old place is one of the places.
    pub fn gathered(&self, alloc: Global, from: &Origins, fresh: &Doc) -> Result<Docs, AllocError>
        requires { All (IsBelow (length (doc_list (docs_tree self.now)))) from.now }
        ensures { IfOk result (λ ds. docs_tree ds
            ≡ docs_of (map (content_at (doc_list (docs_tree self.now)) (doc_tree fresh.now)) from.now)) }
    {
        let old = self.list(alloc)?;
        let new = gather(alloc, from, &old, fresh)?;
        Ok(Docs {
            layout: Layout::List(new),
        })
    }

    // A list of the documents, which shares all but those of a block.
    #[tactic(auto, using(crate::proofs::Rules::layout_rules))]
    fn list(&self, alloc: Global) -> Result<SharedList<Doc>, AllocError>
        ensures { IfOk result (λ items. docs_of (map doc_tree items) ≡ docs_tree self.now) }
    {
        match &self.layout {
            Layout::Block(items) => SharedList::from_vec(alloc, twin_all(alloc, items.as_slice())?),
            Layout::List(items) => items.copy(alloc),
        }
    }
}

impl Hint for Doc {}

impl Twin for Doc {
    ghost use Rattle.doc_values.specs.Documents.{DocTree, doc_tree};

    ghost Meaning = { DocTree };

    ghost meaning = { doc_tree };

    fn twin(&self, alloc: Global) -> Result<Self, AllocError> {
        copy(alloc, self)
    }
}

impl Twin for Docs {
    ghost use Rattle.doc_values.specs.Documents.{DocTrees, docs_tree};

    ghost Meaning = { DocTrees };

    ghost meaning = { docs_tree };

    fn twin(&self, alloc: Global) -> Result<Self, AllocError> {
        copy_docs(alloc, self)
    }
}

#[cycle(copy)]
fn copy(alloc: Global, doc: &Doc) -> Result<Doc, AllocError>
    ensures { IfOk result (λ d. doc_tree d ≡ doc_tree doc.now) }
{
    match doc {
        Doc::Unit => Ok(Doc::Unit),
        Doc::Bool(b) => Ok(Doc::Bool(*b)),
        Doc::Int(n) => Ok(Doc::Int(*n)),
        Doc::Text(text) => Ok(Doc::Text(text.twin(alloc)?)),
        Doc::Pick(name) => Ok(Doc::Pick(name.twin(alloc)?)),
        Doc::Rec(docs) => Ok(Doc::Rec(copy_docs(alloc, docs)?)),
        Doc::Alt(tag, content) => with_tag(alloc, tag, copy(alloc, content)?),
        Doc::Hold(shape, docs) => copy_hold(alloc, shape, docs),
    }
}

// A copy of a tag, with a content.
pub(crate) fn with_tag(alloc: Global, tag: &Name, content: Doc) -> Result<Doc, AllocError>
    ensures { IfOk result (λ d. doc_tree d ≡ alt tag.now (doc_tree content)) }
{
    let content = Box::new(alloc, content)?;
    Ok(Doc::Alt(tag.twin(alloc)?, content))
}

// A copy of a shape with its contents.
fn copy_hold(alloc: Global, shape: &Shape, docs: &Docs) -> Result<Doc, AllocError>
    ensures { IfOk result (λ d. doc_tree d ≡ hold shape.now (docs_tree docs.now)) }
{
    let contents = copy_docs(alloc, docs)?;
    Ok(Doc::Hold(shape.twin(alloc)?, contents))
}

#[tactic(auto, using(crate::proofs::Rules::layout_rules))]
fn copy_docs(alloc: Global, docs: &Docs) -> Result<Docs, AllocError>
    ensures { IfOk result (λ ds. docs_tree ds ≡ docs_tree docs.now) }
{
    let layout = docs.layout.copy(alloc)?;
    Ok(Docs { layout })
}
