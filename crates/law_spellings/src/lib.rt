//! What is read from tokens is what they spell.
//!
//! The grammar says how a program is spelled, and how one is read from left to right. The laws here say that the two
//! agree: what is read is spelled so, and what is spelled so is read. So tokens spell one program at most. Each
//! function does nothing: its clauses are the laws, which other crates rely on. docs/LANGUAGE.md has the rules in
//! prose.
#![tactic(auto)]

ghost use Rattle.std.specs.Prelude.{◌≡◌, ℕ, false, List, Option, Ok, Err};
ghost use Rattle.program_tokens.specs.declared.mark.Mark.TheVariants.{Equals};
ghost use Rattle.program_tokens.specs.declared.token.PlacedToken.{PlacedToken};
ghost use Rattle.program_terms.specs.Terms.{TypeTree, LensTree};
ghost use Rattle.program_grammar.specs.Mentions.{Point, NotedProgram};
ghost use Rattle.program_grammar.specs.Spelling.{IsType, IsLens, IsProgram};
ghost use Rattle.program_grammar.specs.Reading.{next_is, type_at, lens_at, program_at};

/// What is read is spelled so.
///
/// - `types`: a type that is read at a point is spelled from there to the point that is left, with the names that it
///   mentions behind those that were mentioned before, and inside the same number of types.
/// - `lenses`: so is a lens.
/// - `programs`: a program that is read is spelled by all the tokens, up to the end and with nothing behind it.
pub fn what_is_read_is_spelled()
    ensures types { (room : ℕ) (t : TypeTree) (here there : Point) → type_at room here ≡ Ok (t, there)
        → IsType room t here there }
    ensures lenses { (room : ℕ) (l : LensTree) (here there : Point) → lens_at room here ≡ Ok (l, there)
        → IsLens room l here there }
    ensures programs { (ts : List PlacedToken) (p : NotedProgram) → program_at ts ≡ Ok p → IsProgram p ts }
{}

/// What is spelled so is read.
///
/// - `types`: where a type is spelled from one point to another, and no `=` follows it, it is read at the first, and
///   the other is left. (With `=` behind it, a type that leaves its initial value out would be read on.)
/// - `lenses`: so is a lens.
/// - `programs`: a program that the tokens spell is read from them, with its names and their offsets.
pub fn what_is_spelled_is_read()
    ensures types { (room : ℕ) (t : TypeTree) (here there : Point) → IsType room t here there
        → next_is Equals there.1 ≡ false → type_at room here ≡ Ok (t, there) }
    ensures lenses { (room : ℕ) (l : LensTree) (here there : Point) → IsLens room l here there
        → next_is Equals there.1 ≡ false → lens_at room here ≡ Ok (l, there) }
    ensures programs { (ts : List PlacedToken) (p : NotedProgram) → IsProgram p ts → program_at ts ≡ Ok p }
{}

/// Tokens spell one program at most.
///
/// - `same`: two programs that the same tokens spell are the same.
/// - `none`: where reading stops, at a token that does not fit or because the tokens ran out, they spell no program.
pub fn tokens_spell_one_program()
    ensures same { (ts : List PlacedToken) (one other : NotedProgram) → IsProgram one ts → IsProgram other ts
        → one ≡ other }
    ensures none { (ts : List PlacedToken) (stop : Option ℕ) (p : NotedProgram) → program_at ts ≡ Err stop
        → IsProgram p ts → ⊥ }
{}
