//! Laws of texts and programs. Each function here does nothing: its clauses are the laws, which callers rely on.

ghost use Rattle.std.specs.Prelude.{◌≡◌, ℕ, List, Ok, Result};
ghost use Rattle.program_terms.specs.Terms.{ProgramTree};
ghost use Rattle.program_writing.specs.Canonical.{canonical};
ghost use Rattle.lens_syntax.specs.Programs.{IsProgramOf, ProgramCause, Tells, unbounded};

/// A text has one program at most, and the canonical text of a program that was read reads back as the same program.
pub fn printing_reads_back()
    ensures one_program { (text : List ℕ) (one other : ProgramTree) → IsProgramOf text one → IsProgramOf text other
        → one ≡ other }
    ensures read_again { (text : List ℕ) (program : ProgramTree) → unbounded text ≡ Ok program
        → unbounded (canonical program) ≡ Ok program }
{}

/// The definition of the program of a text, which computes, is the grammar's: its result for a text says exactly what
/// the grammar says of the text.
///
/// - `tells`: the result for a text is a program only if the text spells it and its names have no fault, an offset of
///   an unexpected token only if the first token that cannot continue is there, and a fault of the names only if it is
///   the first.
/// - `only`: a text has no other result of which this is so.
pub fn reading_follows_the_grammar()
    ensures tells { (text : List ℕ) (r : Result ProgramTree ProgramCause) → unbounded text ≡ r → Tells text r }
    ensures only { (text : List ℕ) (r : Result ProgramTree ProgramCause) → Tells text r → unbounded text ≡ r }
{}
