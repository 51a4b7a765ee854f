//! Laws of lines that come in pieces, and of changes and their trees.
//!
//! Each function here does nothing: its clauses are the laws, which other crates rely on.

ghost use Rattle.std.specs.Prelude.{◌≡◌, ◌≤◌, ◌*◌, ◌+◌, ◌++◌, ℕ, List, true, false, Some, Ok, option_to_list};
ghost use Rattle.std.specs.List.{All};
ghost use Rattle.serde_json.specs.Data.{Data, depth};
ghost use Rattle.serde_json.specs.Read.{read, max_depth};
ghost use Rattle.serde_json.specs.Written.{has_float, compact_text};
ghost use Rattle.texts.specs.declared.side.Side.{Side};
ghost use Rattle.edit_module.specs.Changes.{ChangeTree, entries_of};
ghost use Rattle.edit_module.specs.Words.{WordTree};
ghost use Rattle.edit_json.specs.WordJson.{tree_of_word, counts_fit, numbers_fit};
ghost use Rattle.edit_json.specs.Depths.{word_depth};
ghost use Rattle.edit_journal.specs.Pieces.{FedLines, nothing_fed, fed, last_line, lines_of};
ghost use Rattle.edit_journal.specs.EntryJson.{tree_of_entry, tree_of_entries, tree_of_change, parts_of};
ghost use Rattle.edit_journal.specs.EntryJson.{entry_of_tree, change_of_tree, change_counts_fit, change_numbers_fit};

/// Feeding two pieces one after the other leaves what feeding the joined piece leaves.
pub fn feeding_joins()
    ensures { (lines : FedLines) (piece next : List ℕ)
        → fed (fed lines piece) next ≡ fed lines (piece ++ next) }
{}

/// However a text is cut into pieces, its ended lines and its last line are the lines of the text.
pub fn feeding_gives_all_lines()
    ensures { (bytes : List ℕ) → (fed nothing_fed bytes).ended
        ++ option_to_list (last_line (fed nothing_fed bytes).begun) ≡ lines_of bytes }
{}

/// Two changes never have the same tree, whatever their counts and numbers are; nor do two entries.
pub fn trees_differ()
    ensures entries { (one other : Side × WordTree)
        → tree_of_entry one ≡ tree_of_entry other → one ≡ other }
    ensures changes { (one other : ChangeTree)
        → tree_of_change one ≡ tree_of_change other → one ≡ other }
{}

/// Reading a tree and writing it are inverse.
pub fn reading_inverts_writing()
    // A change whose counts and numbers fit is what its tree reads as.
    ensures reads_back { (change : ChangeTree) → change_counts_fit change ≡ true
        → change_numbers_fit change ≡ true → change_of_tree (tree_of_change change) ≡ Ok change }

    // What a tree reads as has counts and numbers that fit, and has this tree.
    ensures writes_back { (tree : Data) (change : ChangeTree) → change_of_tree tree ≡ Ok change
        → (change_counts_fit change ≡ true) × (change_numbers_fit change ≡ true)
        × (tree_of_change change ≡ tree) }

    // The same of entries.
    ensures entry_reads_back { (entry : Side × WordTree) → counts_fit entry.1 ≡ true
        → numbers_fit entry.1 ≡ true → entry_of_tree (tree_of_entry entry) ≡ Ok entry }
    ensures entry_writes_back { (tree : Data) (entry : Side × WordTree) → entry_of_tree tree ≡ Ok entry
        → (counts_fit entry.1 ≡ true) × (numbers_fit entry.1 ≡ true)
        × (tree_of_entry entry ≡ tree) }

    // The parts of a tree are those of the entries that have it.
    ensures parts { (entry : Side × WordTree)
        → parts_of (tree_of_entry entry) ≡ Some (entry.0, tree_of_word entry.1) }
{}

/// The tree of a change has no float, nor have those of an entry and of a list of entries. That of an
/// entry nests one deeper than the tree of a word may, and that of a group two deeper than those of its
/// entries may.
pub fn trees_are_shallow()
    ensures no_float { (change : ChangeTree) → has_float (tree_of_change change) ≡ false }
    ensures entry_no_float { (entry : Side × WordTree) → has_float (tree_of_entry entry) ≡ false }
    ensures entries_no_float { (entries : List (Side × WordTree))
        → has_float (tree_of_entries entries) ≡ false }
    ensures entry_nests { (entry : Side × WordTree)
        → depth (tree_of_entry entry) ≤ 3 * word_depth entry.1 + 2 }
    ensures nests { (change : ChangeTree) (n : ℕ)
        → All (λ entry. word_depth entry.1 ≤ n) (entries_of change)
        → depth (tree_of_change change) ≤ 3 * n + 4 }
{}

/// The text of the tree of a change whose counts and numbers fit is read back as the tree, unless the
/// tree is too deep for a reader of JSON.
pub fn texts_read_back()
    ensures { (change : ChangeTree) → change_counts_fit change ≡ true
        → change_numbers_fit change ≡ true → depth (tree_of_change change) ≤ max_depth
        → read (compact_text (tree_of_change change)) ≡ Some (tree_of_change change) }
{}
