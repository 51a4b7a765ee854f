//! The law of words that are made of patches, for use by the crates above.

ghost use Rattle.patch_words.specs.Laws.{PatchesLead};

/// The word of a patch takes the document to the one that the patched file is read as, which is written as that file
/// again, up to the order of members.
///
/// A refusal comes only where the document has no file, where the patch refuses its file with the same number and
/// cause, or where the file that the patch makes is not read.
pub fn patches_lead()
    ensures { PatchesLead }
{}
