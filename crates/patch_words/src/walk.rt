//! A walk over the operations of a patch: the file now, the last document that was read, and the word up to it.

ghost use Rattle.std.specs.Prelude.{◌≡◌, ℕ, [], true, IfOk, None, Some, option_map};
ghost use Rattle.doc_values.specs.Documents.{doc_tree};
ghost use Rattle.doc_values.specs.Types.{TyTree, ty_tree};
ghost use Rattle.doc_values.specs.Typing.{has};
ghost use Rattle.file_trees.specs.FileTrees.{file_tree};
ghost use Rattle.file_forms.specs.Forms.{FileFormTree, file_form_tree, type_of};
ghost use Rattle.file_forms.specs.Fitting.{is_fit};
ghost use Rattle.file_values.specs.Reading.{misfit_view};
ghost use Rattle.file_patches.specs.Operations.{operation_tree};
ghost use Rattle.file_patches.specs.Patching.{operated};
ghost use Rattle.edit_module.specs.Words.{joined};
ghost use Rattle.edit_module.specs.Views.{word_tree};
ghost use Rattle.edit_between.specs.Between.{between};
ghost use Rattle.patch_words.specs.ToWord.{first_unread};
ghost use Rattle.patch_words.specs.Walks.{Makes, IsDone, GoesOn, on_from, unread_view};

use crate::fault::WordFault;
use doc_values::{Doc, Ty};
use edit_between::between;
use edit_module::Word;
use file_forms::FileForm;
use file_patches::{Fault, Operation, patched};
use file_trees::FileTree;
use file_values::{FileMisfit, ReadFault, read_tree};
use std::alloc::{AllocError, Global};
use std::slice;

#[derive(Drop)]
pub(crate) struct Walk {
    // The file after the operations so far.
    pub(crate) tree: FileTree,
    // The last document that was read.
    pub(crate) doc: Doc,
    // The word from the first document to that one.
    pub(crate) word: Word,
    // The first operation since then, with the misfit of the file after it; none if the file now is read.
    pub(crate) unread: Option<(usize, FileMisfit)>,
}

impl Walk {
    // The walk after one more operation, which has this number.
    pub(crate) fn after(
        self,
        alloc: Global,
        form: &FileForm,
        ty: &Ty,
        number: usize,
        operation: &Operation,
    ) -> Result<Walk, WordFault>
        requires fit { is_fit (file_form_tree form.now) ≡ true }
        requires same { type_of (file_form_tree form.now) ≡ ty_tree ty.now }
        requires typed { has (ty_tree ty.now) (doc_tree self.doc) ≡ true }
        ensures goes { GoesOn (ty_tree ty.now) (file_form_tree form.now) number self
            (operation_tree operation.now) result }
        ensures typed { IfOk result (λ next. has (ty_tree ty.now) (doc_tree next.doc) ≡ true) }
    {
        let tree = operated(alloc, &self.tree, number, operation)?;
        match read_tree(alloc, form, &tree) {
            Ok(doc) => Ok(self.read(alloc, ty, tree, doc)?),
            Err(ReadFault::Misfit(misfit)) => Ok(self.unread(number, tree, misfit)),
            Err(ReadFault::NoMemory) => Err(WordFault::NoMemory),
        }
    }

    // The file is read as a document, to which the word goes on.
    fn read(self, alloc: Global, ty: &Ty, tree: FileTree, doc: Doc) -> Result<Walk, AllocError>
        requires from { has (ty_tree ty.now) (doc_tree self.doc) ≡ true }
        requires to { has (ty_tree ty.now) (doc_tree doc) ≡ true }
        ensures word { IfOk result (λ next. word_tree next.word ≡ joined (word_tree self.word)
            (between (ty_tree ty.now) (doc_tree self.doc) (doc_tree doc))) }
        ensures state { IfOk result (λ next. (next.tree ≡ tree) × (next.doc ≡ doc) × (next.unread ≡ None)) }
    {
        let next = between(alloc, ty, &self.doc, &doc)?;
        let word = self.word.joined(next)?;
        Ok(Walk {
            tree,
            doc,
            word,
            unread: None,
        })
    }

    // The file is not read after the operation of this number.
    fn unread(self, number: usize, tree: FileTree, misfit: FileMisfit) -> Walk
        ensures first { option_map unread_view result.unread
            ≡ first_unread (option_map unread_view self.unread) number (misfit_view misfit) }
        ensures state { (result.tree ≡ tree) × (result.doc ≡ self.doc) × (result.word ≡ self.word) }
    {
        let Walk {
            tree: _,
            doc,
            word,
            unread,
        } = self;
        let unread = Some(first_unread(unread, number, misfit));
        Walk {
            tree,
            doc,
            word,
            unread,
        }
    }

    // The word, where the file now is read.
    pub(crate) fn end(self) -> Result<Word, WordFault>
        ensures { (t : TyTree) (f : FileFormTree) (n : ℕ) → Makes result (on_from t f n self []) }
    {
        let Walk {
            tree: _,
            doc: _,
            word,
            unread,
        } = self;
        if let Some((number, misfit)) = unread {
            return Err(WordFault::NotRead(number, misfit));
        }
        Ok(word)
    }
}

// The first operation after which the file is not read, or this one.
fn first_unread(
    before: Option<(usize, FileMisfit)>,
    number: usize,
    misfit: FileMisfit,
) -> (usize, FileMisfit)
    ensures { Some (unread_view result) ≡ first_unread (option_map unread_view before) number (misfit_view misfit) }
{
    if let Some(first) = before {
        return first;
    }
    (number, misfit)
}

// What an operation of this number makes of a file.
fn operated(
    alloc: Global,
    tree: &FileTree,
    number: usize,
    operation: &Operation,
) -> Result<FileTree, WordFault>
    ensures { IsDone number result (operated (operation_tree operation.now) (file_tree tree.now)) }
{
    match patched(alloc, tree, slice::from_ref(operation)) {
        Ok(tree) => Ok(tree),
        Err(Fault::Refused((_, cause))) => Err(WordFault::NotDone(number, cause)),
        Err(Fault::NoMemory) => Err(WordFault::NoMemory),
    }
}
