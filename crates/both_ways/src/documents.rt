//! Documents of a type, read in both ways.

use crate::counts::Way;
use crate::ways::{Pair, Texts};
use anyhow::{Result, bail};
use doc_values::{Doc, Ty};
use edit_journal::{EntryFault, read_tree};
use json::Scratch;
use lens_tokens::document_of_tokens;
use serde_json::Value;
use std::alloc::Global;
use value_json::{DocFault, read_doc};

/// Documents of a type.
#[derive(Clone, Copy)]
pub struct Documents<'a> {
    pub ty: &'a Ty,
}

impl<'a> Texts for Documents<'a> {
    fn way(&self, alloc: Global, both: &Pair<'_>, scratch: &mut Scratch) -> Result<Option<Way>> {
        let as_tree = doc_as_tree(alloc, self.ty, both.as_tree)?;
        let by_tokens = doc_by_tokens(alloc, self.ty, both.by_tokens, scratch);
        Ok(doc_way(&by_tokens, &as_tree))
    }
}

// How a document was read. `None` if one was read by tokens, and not the same one as a tree.
fn doc_way(by_tokens: &Option<Box<Doc>>, as_tree: &Option<Box<Doc>>) -> Option<Way> {
    match (by_tokens, as_tree) {
        (Some(one), Some(other)) if one.is_same(other) => Some(Way::Tokens),
        (Some(_), _) => None,
        (None, Some(_)) => Some(Way::Tree),
        (None, None) => Some(Way::Refused),
    }
}

// The document of the type that a text is by its tokens. `None` says nothing of the text.
fn doc_by_tokens(alloc: Global, ty: &Ty, text: &[u8], scratch: &mut Scratch) -> Option<Box<Doc>> {
    let doc = document_of_tokens(alloc, ty, text, scratch)?;
    Box::new(alloc, doc).ok()
}

// The document of the type that a text is, if it is one.
fn doc_as_tree(alloc: Global, ty: &Ty, text: &[u8]) -> Result<Option<Box<Doc>>> {
    match read_tree(alloc, text) {
        Ok(tree) => doc_of_tree(alloc, ty, &tree),
        Err(EntryFault::NoMemory) => bail!("out of memory"),
        Err(_) => Ok(None),
    }
}

// Whether a tree is that of a document of the type.
pub(crate) fn is_doc(alloc: Global, ty: &Ty, tree: &Value) -> Result<bool> {
    Ok(doc_of_tree(alloc, ty, tree)?.is_some())
}

// The document of the type that a tree is, if it is one.
pub(crate) fn doc_of_tree(alloc: Global, ty: &Ty, tree: &Value) -> Result<Option<Box<Doc>>> {
    match read_doc(alloc, ty, tree) {
        Ok(doc) => Ok(Some(Box::new(alloc, doc)?)),
        Err(DocFault::NotOfType) => Ok(None),
        Err(DocFault::NoMemory) => bail!("out of memory"),
    }
}
