//! Laws of documents and the files that they are written as.
//!
//! Each function here does nothing: its clauses are the laws, which other crates rely on.

ghost use Rattle.std.specs.Prelude.{◌≡◌, ◌↔◌, ℕ, List, Option, Some, true, option_map};
ghost use Rattle.json.specs.Json.{Json, Members};
ghost use Rattle.json.specs.Strict.{keys};
ghost use Rattle.json.specs.Tree.{HasNumbers};
ghost use Rattle.texts.specs.Keys.{is_rising};
ghost use Rattle.doc_values.specs.Documents.{DocTree};
ghost use Rattle.doc_values.specs.Typing.{has};
ghost use Rattle.file_forms.specs.Forms.{FileFormTree, type_of};
ghost use Rattle.file_forms.specs.Orders.{sorted, sorted_members, first_named};
ghost use Rattle.file_forms.specs.Fitting.{is_fit};
ghost use Rattle.file_forms.specs.FileValues.{read, write};

/// A tree is read as a document if and only if the document is written as that tree, up to the order of members.
///
/// So what is read comes back, and what no file of the form shows is not written.
pub fn files_come_back()
    ensures { (form : FileFormTree) (tree : Json) (doc : DocTree) → is_fit form ≡ true
        → (read form (Some tree) ≡ Some doc) ↔ (write form doc ≡ Some (Some (sorted tree))) }
{}

/// Members in byte order are the same members, with their contents in byte order.
///
/// The names rise, so none comes twice. Each leads to the content of the first member that had it.
pub fn order_keeps_members()
    ensures rising { (members : Members) → is_rising (keys (sorted_members members)) ≡ true }
    ensures contents { (name : List ℕ) (members : Members)
        → first_named name (sorted_members members) ≡ option_map sorted (first_named name members) }
{}

/// Two documents of one form are never written alike, and what is written is in byte order.
pub fn documents_differ_in_files()
    ensures differ { (form : FileFormTree) (one other : DocTree) (slot : Option Json) → is_fit form ≡ true
        → write form one ≡ Some slot → write form other ≡ Some slot → one ≡ other }
    ensures in_order { (form : FileFormTree) (doc : DocTree) (slot : Option Json) → is_fit form ≡ true
        → write form doc ≡ Some slot → option_map sorted slot ≡ slot }
{}

/// What is read or written has the type of the form.
pub fn forms_keep_types()
    ensures read { (form : FileFormTree) (slot : Option Json) (doc : DocTree) → is_fit form ≡ true
        → read form slot ≡ Some doc → has (type_of form) doc ≡ true }
    ensures written { (form : FileFormTree) (doc : DocTree) (slot : Option Json)
        → write form doc ≡ Some slot → has (type_of form) doc ≡ true }
{}

/// What a fit form writes has the letters of a number wherever it has a number. So it can be written as a file.
pub fn files_have_numbers()
    ensures { (form : FileFormTree) (doc : DocTree) (tree : Json) → is_fit form ≡ true
        → write form doc ≡ Some (Some tree) → HasNumbers tree }
{}
