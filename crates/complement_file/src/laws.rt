//! Laws of complements and their trees.
//!
//! Each function here does nothing: its clauses are the laws, which other crates rely on.

ghost use Rattle.std.specs.Prelude.{◌≡◌, true};
ghost use Rattle.lens_forms.specs.Forms.{FormTree};
ghost use Rattle.lens_forms.specs.Typing.{is_typed};
ghost use Rattle.lens_core.specs.Complements.{CompTree, Fits};
ghost use Rattle.complement_file.specs.ComplementJson.{tree_of_complement};

/// Two complements that fit one lens never have the same tree.
pub fn complement_trees_differ()
    ensures { (form : FormTree) (one other : CompTree) → is_typed form ≡ true → Fits form one → Fits form other
        → tree_of_complement form one ≡ tree_of_complement form other → one ≡ other }
{}
