//! Laws of the records that this program writes. Each function here does nothing: its clauses are the laws.

ghost use Rattle.std.specs.Prelude.{◌≡◌, ◌≤◌, ℕ, List, Some, Ok, true};
ghost use Rattle.serde_json.specs.Data.{Data};
ghost use Rattle.doc_values.specs.Documents.{DocTree};
ghost use Rattle.doc_values.specs.Types.{TyTree, height};
ghost use Rattle.edit_module.specs.Action.{act};
ghost use Rattle.edit_module.specs.Changes.{ChangeTree};
ghost use Rattle.edit_module.specs.Depths.{word_depth};
ghost use Rattle.edit_module.specs.Words.{WordTree};
ghost use Rattle.edit_journal.specs.EntryJson.{change_counts_fit, change_numbers_fit};
ghost use Rattle.lens_core.specs.Complements.{CompTree, Fits};
ghost use Rattle.lens_forms.specs.Forms.{FormTree, left_type, right_type};
ghost use Rattle.value_json.specs.DocumentJson.{tree_of_document};
ghost use Rattle.lens_forms.specs.Typing.{is_typed};
ghost use Rattle.complement_file.specs.ComplementJson.{tree_of_complement};
ghost use Rattle.store_records.specs.RecordJson.{tree_of_program, tree_of_version, tree_of_change_record};
ghost use Rattle.store_records.specs.RecordJson.{tree_of_snapshot, opening_of, record_of, version_record};
ghost use Rattle.store_records.specs.RecordJson.{change_record, snapshot_record};
ghost use Rattle.store_records.specs.StoredComplements.{complement_of};

/// The complement that a tree is, and the tree of a complement, belong together.
pub fn complements_are_read()
    // What is read fits the form and has this tree.
    ensures fits { (form : FormTree) (tree : Data) (comp : CompTree) → complement_of form tree ≡ Some comp
        → Fits form comp }
    ensures has_tree { (form : FormTree) (tree : Data) (comp : CompTree) → complement_of form tree ≡ Some comp
        → tree_of_complement form comp ≡ tree }

    // A complement that fits is read from its tree.
    ensures reads_back { (form : FormTree) (comp : CompTree) → is_typed form ≡ true → Fits form comp
        → complement_of form (tree_of_complement form comp) ≡ Some comp }
{}

/// A word that applies to a document of a type is nested no deeper than the type is high.
pub fn applied_words_are_shallow()
    ensures { (ty : TyTree) (word : WordTree) (before after : DocTree) → act ty word before ≡ Ok after
        → word_depth word ≤ height ty }
{}

/// The records that this program writes are read back from their trees.
pub fn records_are_read()
    ensures program { (text : List ℕ) → opening_of (tree_of_program text) ≡ Some (text, 2) }
    ensures version { record_of tree_of_version ≡ Some version_record }
    ensures change { (change : ChangeTree) → change_counts_fit change ≡ true → change_numbers_fit change ≡ true
        → record_of (tree_of_change_record change) ≡ Some (change_record change) }
    ensures snapshot { (form : FormTree) (left : DocTree) (comp : CompTree) (right : DocTree)
        → record_of (tree_of_snapshot form left comp right)
        ≡ Some (snapshot_record (
          tree_of_complement form comp,
          tree_of_document (left_type form) left,
          tree_of_document
              (right_type form) right,
        )) }
{}
