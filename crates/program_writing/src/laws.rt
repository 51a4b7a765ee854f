//! The laws of canonical text. A caller has their facts by calling these functions, which do nothing.
ghost use Rattle.std.specs.Prelude.{◌≡◌, ℕ, ◌≤◌, true, List, [], None};
ghost use Rattle.program_tokens.specs.Tokens.{tokens_of};
ghost use Rattle.program_tokens.specs.declared.token.PlacedToken.{PlacedToken};
ghost use Rattle.program_tokens.specs.declared.token.Token.TheVariants.{End};
ghost use Rattle.program_terms.specs.Terms.{ProgramTree};
ghost use Rattle.program_grammar.specs.Mentions.{NotedProgram, Point, without_notes};
ghost use Rattle.program_grammar.specs.Names.{first_fault};
ghost use Rattle.program_grammar.specs.Spelling.{Is, IsProgram, IsType};
ghost use Rattle.doc_values.specs.Types.{TyTree, height, is_well_formed};
ghost use Rattle.program_writing.specs.Canonical.{canonical, canonical_type, term_of_type};
ghost use Rattle.program_writing.specs.Writable.{IsSpeakable, IsWritable};

/// The tokens of the canonical text of a writable program spell this program, and no other token follows.
pub fn canonical_text_is_spelled()
    ensures spelled { (p : ProgramTree) → IsWritable p → (n : NotedProgram) × (without_notes n ≡ p)
        × IsProgram n (tokens_of (canonical p)) }
{}

/// A program that some text spells is writable.
pub fn spelled_is_writable()
    ensures writable { (n : NotedProgram) (text : List ℕ) → IsProgram n (tokens_of text)
        → IsWritable (without_notes n) }
{}

/// Where the names of a program have no fault as one text has it, they have none as any other text has the same
/// program: it is the offsets of names alone that differ.
pub fn names_stay_good()
    ensures known { (m n : NotedProgram) (ts us : List PlacedToken) → IsProgram m ts → IsProgram n us → without_notes m
        ≡ without_notes n
        → first_fault m ≡ None → first_fault n ≡ None }
{}

/// The tokens of the canonical text of a type spell this type, and the end of the text is behind it.
///
/// So it is for each type that keeps the condition on types, has at most 100 levels, and has no member, field or tag
/// that a string may not hold, and no initial value but such a string, the empty text of `text`, or a number in
/// i64. (The numbers of a `Ty` are.)
pub fn type_text_is_spelled()
    ensures spelled { (t : TyTree) → IsSpeakable t → is_well_formed t ≡ true → height t ≤ 100
        → (a : Point) × IsType 100 (term_of_type t) ([], tokens_of (canonical_type t)) a × Is End a (a.0, []) }
{}

/// The law of printing: a program that some text spells, and whose names have no fault there, is spelled by its
/// canonical text, and its names have no fault there either.
pub fn canonical_text_reads_back()
    ensures again { (n : NotedProgram) (text : List ℕ) → IsProgram n (tokens_of text) → first_fault n ≡ None
        → (m : NotedProgram) × (without_notes m ≡ without_notes n)
        × IsProgram m (tokens_of (canonical (without_notes n))) × (first_fault m ≡ None) }
{}
