//! A patch of the file of a document becomes a word of the document.

ghost use Rattle.std.specs.Prelude.{◌≡◌, true, None, IfOk};
ghost use Rattle.doc_values.specs.Documents.{doc_tree};
ghost use Rattle.doc_values.specs.Types.{ty_tree, is_well_formed};
ghost use Rattle.doc_values.specs.Typing.{has};
ghost use Rattle.edit_module.specs.Views.{word_tree};
ghost use Rattle.file_trees.specs.FileTrees.{file_tree};
ghost use Rattle.file_forms.specs.Forms.{file_form_tree, type_of};
ghost use Rattle.file_forms.specs.Fitting.{is_fit};
ghost use Rattle.file_patches.specs.Operations.{patch_view};
ghost use Rattle.patch_words.specs.ToWord.{to_word, words_from};
ghost use Rattle.patch_words.specs.Laws.{LeadsTo};
ghost use Rattle.patch_words.specs.Walks.{Makes};

use crate::fault::WordFault;
use crate::walk::Walk;
use doc_values::{Doc, Ty};
use edit_module::Word;
use file_forms::FileForm;
use file_patches::Operation;
use file_trees::FileTree;
use file_values::{WriteFault, write_tree};
use hold_shapes::Twin;
use std::alloc::Global;

/// The word of a patch of the file of a document. The document, the form and the patch stay as they are.
///
/// The operations are done one after another on the file. Wherever the file is read again, the word goes on from the
/// last document that was read to the one now. The form is fit, and it is one of the type.
///
/// - `NoFile`: if and only if no file of the form shows the document
/// - `NotDone`: if and only if an operation cannot be done; it has the number of the first one, from 0, and the cause
/// - `NotRead`: if and only if all operations can be done, and the file after them is not as the form has it. It has
///   the number of the first operation after which no file is read, and the misfit of the file after that operation.
pub fn to_word(
    alloc: Global,
    form: &FileForm,
    ty: &Ty,
    doc: &Doc,
    patch: &[Operation],
) -> Result<Word, WordFault>
    requires fit { is_fit (file_form_tree form.now) ≡ true }
    requires same { type_of (file_form_tree form.now) ≡ ty_tree ty.now }

    // The word and the refusal are the definition's, both ways.
    ensures exact { Makes result
        (to_word (ty_tree ty.now) (file_form_tree form.now) (doc_tree doc.now) (patch_view patch.now)) }

    // The word takes the document to that of the patched file, which is written as that file again.
    ensures leads { is_well_formed (ty_tree ty.now) ≡ true → IfOk result (λ w.
        LeadsTo (ty_tree ty.now) (file_form_tree form.now) (doc_tree doc.now) (patch_view patch.now)
        (word_tree w)) }
{
    match write_tree(alloc, form, doc) {
        Ok(tree) => made(alloc, form, ty, doc, tree, patch),
        Err(WriteFault::NoFile) => Err(WordFault::NoFile),
        Err(WriteFault::NoMemory) => Err(WordFault::NoMemory),
    }
}

// The words of the pieces of a patch, joined.
fn made(
    alloc: Global,
    form: &FileForm,
    ty: &Ty,
    doc: &Doc,
    tree: FileTree,
    patch: &[Operation],
) -> Result<Word, WordFault>
    requires fit { is_fit (file_form_tree form.now) ≡ true }
    requires same { type_of (file_form_tree form.now) ≡ ty_tree ty.now }
    requires typed { has (ty_tree ty.now) (doc_tree doc.now) ≡ true }
    ensures { Makes result (words_from (ty_tree ty.now) (file_form_tree form.now) 0 None (doc_tree doc.now)
        (file_tree tree) (patch_view patch.now)) }
{
    let mut walk = Walk {
        tree,
        doc: doc.twin(alloc)?,
        word: Word::from_vec(Vec::new(alloc)),
        unread: None,
    };
    for i in 0..patch.len() {
        walk = walk.after(alloc, form, ty, i, &patch[i])?;
    }
    walk.end()
}
