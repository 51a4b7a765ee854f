//! Laws of the pieces of a program part, and of the runs of a hub. Each function here does nothing: its clause is the
//! law.

ghost use Rattle.std.specs.Prelude.{◌≡◌, ◌++◌, ◌∷◌, [], List, ℕ, true, if◌then◌else◌};
ghost use Rattle.edit_journal.specs.Pieces.{has_no_end};
ghost use Rattle.script_input.specs.Lines.{cut};
ghost use Rattle.run_scripts.specs.ScriptEnds.{EveryRunStaysInStep};
ghost use Rattle.hub_run.specs.HubScript.{hub_script};
ghost use Rattle.hub_run.specs.Pieces.{is_cut, pieces_from};

/// A line with its LF, in front of more bytes: a cut ends the piece that has begun and belongs to none, and any other
/// line belongs to it with its LF.
#[tactic(auto, using(crate::proofs::PieceLines::line_more))]
pub fn pieces_come_by_lines()
    ensures { (begun text more : List ℕ) → has_no_end text ≡ true → pieces_from begun (cut (text ++ 10 ∷ more))
        ≡ (if is_cut text then begun ∷ pieces_from [] (cut more) else pieces_from ((begun ++ text) ++ 10 ∷ [])
        (cut more)) }
{}

/// For every program part that is accepted, the run over any lines goes on to its end. In every state of it, those
/// after refused items included, each view's complement and document are in its lens's consistency relation with the
/// hub's document.
pub fn runs_stay_in_step()
    ensures { EveryRunStaysInStep hub_script }
{}
