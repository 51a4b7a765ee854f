//! Reading stops at the unexpected token, and nowhere else.
//!
//! Each function here does nothing: its clauses are laws of the grammar of programs, which other crates rely on.
//! docs/LANGUAGE.md has the rules in prose.
#![tactic(auto)]

ghost use Rattle.std.specs.Prelude.{◌≡◌, ℕ, List, [], ◌∷◌, ◌++◌, Some, None, Ok, Err};
ghost use Rattle.program_tokens.specs.Tokens.{tokens_of};
ghost use Rattle.program_tokens.specs.declared.token.Token.{Token};
ghost use Rattle.program_tokens.specs.declared.token.PlacedToken.{PlacedToken};
ghost use Rattle.program_grammar.specs.Grammar.{Symbol, IsViablePrefix, program_and_end};
ghost use Rattle.program_grammar.specs.PlainGrammar.{IsNestedBelow, IsPlainPrefix, plain_program_and_end};
ghost use Rattle.program_grammar.specs.Mentions.{NotedProgram};
ghost use Rattle.program_grammar.specs.Unexpected.{without_offsets, IsUnexpectedToken};
ghost use Rattle.program_grammar.specs.Reading.{program_at};

/// Of some symbols and tokens at most one token is the unexpected one.
pub fn one_unexpected_token()
    // What a viable prefix begins with is a viable prefix.
    ensures prefix_of_viable { (s : List Symbol) (before after : List Token) → IsViablePrefix s (before ++ after)
        → IsViablePrefix s before }

    // Two unexpected tokens of the same symbols and tokens are at the same offset.
    ensures same_offset { (s : List Symbol) (ts : List PlacedToken) (at other : ℕ) → IsUnexpectedToken s ts at
        → IsUnexpectedToken s ts other → at ≡ other }
{}

/// The bound on nesting, in the words of the plain grammar, whose productions have no numbers.
///
/// Tokens are a viable prefix of a program and its end if and only if the plain grammar has them, and in them no type
/// or lens begins inside 100 others. So a type or a lens that begins inside 100 others is unexpected, at its first
/// token.
///
/// - `plain`: the plain grammar has each viable prefix.
/// - `nested_below`: however the plain grammar derives a viable prefix, each type and each lens that begins at one of
///   the tokens is inside fewer than 100 others.
/// - `viable`: tokens are a viable prefix if the plain grammar derives them so.
/// - `unexpected`: at the unexpected token either the plain grammar goes on no more, or a type or a lens inside 100
///   others begins.
pub fn nesting_is_bounded()
    ensures plain { (ts : List Token) → IsViablePrefix program_and_end ts → IsPlainPrefix plain_program_and_end ts }
    ensures nested_below { (ts : List Token) (derived : IsPlainPrefix plain_program_and_end ts)
        → IsViablePrefix program_and_end ts → IsNestedBelow 100 [] derived }
    ensures viable { (ts : List Token) (derived : IsPlainPrefix plain_program_and_end ts) → IsNestedBelow 100 [] derived
        → IsViablePrefix program_and_end ts }
    ensures unexpected { (ts : List PlacedToken) (at : ℕ) (m : IsUnexpectedToken program_and_end ts at)
        → (derived : IsPlainPrefix plain_program_and_end (without_offsets (m.before ++ m.first ∷ [])))
        → IsNestedBelow 100 [] derived → ⊥ }
{}

/// Reading a program fails at an offset if and only if the unexpected token is there: the tokens before it begin a
/// program and its end, and with it they do not.
pub fn reading_stops_at_the_unexpected_token()
    ensures stops_there { (ts : List PlacedToken) (at : ℕ) → program_at ts ≡ Err (Some at)
        → IsUnexpectedToken program_and_end ts at }
    ensures only_there { (ts : List PlacedToken) (at : ℕ) → IsUnexpectedToken program_and_end ts at
        → program_at ts ≡ Err (Some at) }
{}

/// Reading a program finds no unexpected token if and only if the tokens begin a program and its end.
pub fn reading_accepts_viable_prefixes()
    // The tokens ran out before the end.
    ensures unfinished { (ts : List PlacedToken) → program_at ts ≡ Err None
        → IsViablePrefix program_and_end (without_offsets ts) }

    // A program was read.
    ensures read { (ts : List PlacedToken) (p : NotedProgram) → program_at ts ≡ Ok p
        → IsViablePrefix program_and_end (without_offsets ts) }
    ensures no_unexpected_token { (ts : List PlacedToken) (at : ℕ) → IsViablePrefix program_and_end (without_offsets ts)
        → program_at ts ≡ Err (Some at) → ⊥ }
{}

/// The tokens of a text never run out before reading stops: they end with the text's end or with a bad token, and
/// reading goes past neither, but for the end of a program.
pub fn tokens_never_run_out()
    ensures { (text : List ℕ) → program_at (tokens_of text) ≡ Err None → ⊥ }
{}
