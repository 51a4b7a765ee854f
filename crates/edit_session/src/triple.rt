//! Two documents with the complement between them.

ghost use Rattle.std.specs.Prelude.{◌≡◌};
ghost use Rattle.doc_values.specs.Documents.{doc_tree};
ghost use Rattle.lens_core.specs.Complements.{comp_tree};
ghost use Rattle.edit_session.specs.Step.{document_on, triple_from};
ghost use Rattle.edit_session.specs.Views.{triple_tree};

use doc_values::Doc;
use lens_core::Comp;
use std::alloc::{AllocError, Global};
use texts::{Side, Twin};

/// A left document, a complement and a right document.
#[derive(Drop)]
pub struct Triple {
    /// The left document.
    pub left: Doc,
    /// What is remembered beside the documents.
    pub comp: Comp,
    /// The right document.
    pub right: Doc,
}

impl Triple {
    // The triple of a side's document, a complement, and the document of the other side.
    pub(crate) fn from_side(side: Side, own: Doc, comp: Comp, other: Doc) -> Triple
        ensures { triple_tree result ≡ triple_from side (doc_tree own) (comp_tree comp) (doc_tree other) }
    {
        match side {
            Side::Left => Triple {
                left: own,
                comp,
                right: other,
            },
            Side::Right => Triple {
                left: other,
                comp,
                right: own,
            },
        }
    }

    /// The document of a side.
    pub fn document(&self, side: Side) -> &Doc
        ensures { doc_tree result.now ≡ document_on side (triple_tree self.now) }
    {
        match side {
            Side::Left => &self.left,
            Side::Right => &self.right,
        }
    }
}

impl Twin for Triple {
    ghost use Rattle.edit_session.specs.Step.{TripleTree};
    ghost use Rattle.edit_session.specs.Views.{triple_tree};

    ghost Meaning = { TripleTree };

    ghost meaning = { triple_tree };

    fn twin(&self, alloc: Global) -> Result<Self, AllocError> {
        let left = self.left.twin(alloc)?;
        let comp = self.comp.twin(alloc)?;
        let right = self.right.twin(alloc)?;
        Ok(Triple { left, comp, right })
    }
}
