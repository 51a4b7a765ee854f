//! Laws of words and their trees.
//!
//! Each function here does nothing: its clauses are the laws, which other crates rely on.

ghost use Rattle.std.specs.Prelude.{◌≡◌, ◌≤◌, ◌*◌, ◌+◌, true, false, Some};
ghost use Rattle.serde_json.specs.Data.{Data, depth};
ghost use Rattle.serde_json.specs.Read.{read, max_depth};
ghost use Rattle.serde_json.specs.Written.{has_float, compact_text};
ghost use Rattle.edit_module.specs.Words.{WordTree};
ghost use Rattle.edit_json.specs.WordJson.{tree_of_word, word_of_tree, counts_fit, numbers_fit};
ghost use Rattle.edit_json.specs.Depths.{word_depth};

/// Two different words never have the same tree, whatever their counts and numbers are.
pub fn trees_differ()
    ensures { (one other : WordTree) → tree_of_word one ≡ tree_of_word other → one ≡ other }
{}

/// Reading a tree and writing it are inverse.
pub fn reading_inverts_writing()
    // A word whose counts and numbers fit is what its tree reads as.
    ensures reads_back { (word : WordTree) → counts_fit word ≡ true → numbers_fit word ≡ true
        → word_of_tree (tree_of_word word) ≡ Some word }

    // What a tree reads as has counts and numbers that fit, and has this tree.
    ensures writes_back { (tree : Data) (word : WordTree) → word_of_tree tree ≡ Some word
        → (counts_fit word ≡ true) × (numbers_fit word ≡ true) × (tree_of_word word ≡ tree) }
{}

/// The tree of a word has no float, and each level of words adds three levels to it.
pub fn trees_are_shallow()
    ensures no_float { (word : WordTree) → has_float (tree_of_word word) ≡ false }
    ensures nests { (word : WordTree) → depth (tree_of_word word) ≤ 3 * word_depth word + 1 }
{}

/// The text of the tree of a word whose counts and numbers fit is read back as the tree, unless words
/// are nested too deep for a reader of JSON.
pub fn texts_read_back()
    ensures { (word : WordTree) → counts_fit word ≡ true → numbers_fit word ≡ true
        → 3 * word_depth word + 1 ≤ max_depth
        → read (compact_text (tree_of_word word)) ≡ Some (tree_of_word word) }
{}
