//! Laws of documents that are read from files and written to them.
//!
//! Each function here does nothing: its clauses are the laws, which other crates rely on.

ghost use Rattle.std.specs.Prelude.{◌≡◌, ◌↔◌, Option, Some, true, Ok};
ghost use Rattle.std.specs.Result.{result_ok};
ghost use Rattle.json.specs.Json.{Json};
ghost use Rattle.doc_values.specs.Documents.{DocTree};
ghost use Rattle.file_forms.specs.Forms.{FileFormTree};
ghost use Rattle.file_forms.specs.Orders.{sorted};
ghost use Rattle.file_forms.specs.Fitting.{is_fit};
ghost use Rattle.file_forms.specs.FileValues.{read, write};
ghost use Rattle.file_values.specs.Reading.{reading};

/// What is read is the document that a slot is, and a misfit comes exactly where there is none.
pub fn readings_agree()
    ensures { (form : FileFormTree) (slot : Option Json) → is_fit form ≡ true
        → result_ok (reading form slot) ≡ read form slot }
{}

/// What is written is read back, and what is read is written back, up to the order of members.
pub fn documents_come_back()
    ensures written { (form : FileFormTree) (doc : DocTree) (slot : Option Json) → is_fit form ≡ true
        → write form doc ≡ Some slot → reading form slot ≡ Ok doc }
    ensures read { (form : FileFormTree) (tree : Json) (doc : DocTree) → is_fit form ≡ true
        → (reading form (Some tree) ≡ Ok doc) ↔ (write form doc ≡ Some (Some (sorted tree))) }
{}
