//! The law of hubs that a caller keeps, as the contract of a function that does nothing.

ghost use Rattle.std.specs.Prelude.{◌≡◌, ◌++◌, ℕ, List, map};
ghost use Rattle.edit_journal.specs.Lines.{line_of};
ghost use Rattle.script_input.specs.Lines.{program_part, journal};
ghost use Rattle.embed_hub.specs.Journals.{IsGiven, IsReported};
ghost use Rattle.embed_hub.specs.Embedded.{IsOpened, IsShown, text_of};
ghost use Rattle.embed_hub.specs.declared.embedded.EmbeddedHub.{EmbeddedHub as EmbeddedValue};
ghost use Rattle.embed_hub.specs.declared.outcome.HubOutcome.TheVariants.{Done};
ghost use Rattle.embed_hub.specs.declared.outcome.HubPart.TheVariants.{State};

/// A hub that is opened over the program part of a script, given the lines of its journal and then shown answers as the
/// command `hub` does: its texts, one after another, are the report of the script.
#[tactic(auto, using(crate::proofs::GivenLines::is_reported))]
pub fn hubs_answer_as_a_run()
    ensures { (script : List ℕ) (lines : List (List ℕ)) (texts : List ℕ) (first last shown : EmbeddedValue)
        → map line_of lines ≡ journal script
        → IsOpened (program_part script) first → IsGiven first lines texts last → IsShown last State Done shown
        → IsReported script (texts ++ text_of shown) }
{}
