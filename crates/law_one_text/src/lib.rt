//! The program and the library answer the same lines by the same bytes.
//!
//! `run` and `hub` write the report of a script. A session and a hub of the library are opened over its program part,
//! given the lines of its journal, and then shown. The laws here say that the texts of both are one text, also where
//! the program part is refused. Each function does nothing: its clauses are the laws.
#![tactic(auto)]

ghost use Rattle.std.specs.Prelude.{◌≡◌, ◌⊎◌, ◌++◌, ℕ, List, map, Some};
ghost use Rattle.command_ends.specs.declared.status.Status.{Status};
ghost use Rattle.command_ends.specs.declared.status.Status.TheVariants.{ProgramRefused};
ghost use Rattle.edit_journal.specs.Lines.{line_of};
ghost use Rattle.hub_run.specs.HubScript.{hub_script};
ghost use Rattle.embed_hub.specs.Journals.{IsGiven as HubIsGiven};
ghost use Rattle.embed_hub.specs.Embedded.{IsOpened as HubIsOpened, IsShown as HubIsShown, text_of as hub_text_of};
ghost use Rattle.embed_hub.specs.declared.embedded.EmbeddedHub.{EmbeddedHub as HubValue};
ghost use Rattle.embed_hub.specs.declared.outcome.HubOutcome.TheVariants.{Done as HubDone};
ghost use Rattle.embed_hub.specs.declared.outcome.HubPart.TheVariants.{State as HubWhole};
ghost use Rattle.embed_session.specs.Journals.{IsGiven};
ghost use Rattle.embed_session.specs.Embedded.{IsOpened, IsShown, text_of};
ghost use Rattle.embed_session.specs.declared.embedded.EmbeddedSession.{EmbeddedSession as EmbeddedValue};
ghost use Rattle.embed_session.specs.declared.outcome.Outcome.TheVariants.{Done};
ghost use Rattle.embed_session.specs.declared.outcome.Part.TheVariants.{State};
ghost use Rattle.run_pair.specs.Scripts.{pair_script};
ghost use Rattle.script_input.specs.Lines.{program_part, journal};
ghost use Rattle.run_scripts.specs.Report.{report};
ghost use Rattle.run_scripts.specs.ScriptEnds.{Reports};
ghost use Rattle.law_one_text.specs.HubTexts.{IsHubRefused};
ghost use Rattle.law_one_text.specs.RunTexts.{IsRunText, IsRefusalText, IsSessionRefused};
ghost use Rattle.law_one_text.specs.WrittenTexts.{IsReportText};

use lens_io::{Sink, Source};

/// The report that `run` writes is the answer lines of the run of the journal's items and the state lines of its last
/// triple, or the line of the refusal of the program part.
///
/// - `run`: whatever the report is, it is one of the two.
/// - `written`: both are the report. So the definition of the library and that of the program name the same bytes.
pub fn a_report_is_a_run()
    ensures run { (script text : List ℕ) (status : Status) → report pair_script script ≡ Some (text, status)
        → IsRunText script text status ⊎ IsRefusalText script text status }
    ensures written { (script text : List ℕ) (status : Status)
        → IsRunText script text status ⊎ IsRefusalText script text status
        → report pair_script script ≡ Some (text, status) }
{}

/// A session of the library writes what `run` writes.
///
/// - `given`: a session that is opened over the program part of a script, given the lines of its journal and then shown
///   answers by texts that are, one after another, the report of the script.
/// - `refused`: if the program part is refused instead, the text is the report too.
pub fn a_session_writes_the_report()
    ensures given { (script : List ℕ) (lines : List (List ℕ)) (texts : List ℕ) (first last shown : EmbeddedValue)
        → map line_of lines ≡ journal script
        → IsOpened (program_part script) first → IsGiven first lines texts last → IsShown last State Done shown
        → IsReportText pair_script script (texts ++ text_of shown) }
    ensures refused { (script : List ℕ) (first : EmbeddedValue) → IsSessionRefused (program_part script) first
        → report pair_script script ≡ Some (text_of first, ProgramRefused) }
{}

/// A call of `run` that came to its end wrote the texts of the session that was given the same lines.
pub fn a_run_writes_the_texts_of_a_session<S: Source, K: Sink>()
    ensures { (old new : S × K) (status : Status) (call : Reports pair_script S.Source K.Sink old new status)
        (lines : List (List ℕ)) (texts : List ℕ) (first last shown : EmbeddedValue)
        → map line_of lines ≡ journal call.bytes
        → IsOpened (program_part call.bytes) first → IsGiven first lines texts last → IsShown last State Done shown
        → call.text ≡ texts ++ text_of shown }
{}

/// A hub of the library writes what `hub` writes.
///
/// - `given`: a hub that is opened over the program part of a script, given the lines of its journal and then shown
///   answers by texts that are, one after another, the report of the script.
/// - `refused`: if the program part is refused instead, the text is the report too.
pub fn a_hub_writes_the_report()
    ensures given { (script : List ℕ) (lines : List (List ℕ)) (texts : List ℕ) (first last shown : HubValue)
        → map line_of lines ≡ journal script
        → HubIsOpened (program_part script) first → HubIsGiven first lines texts last
        → HubIsShown last HubWhole HubDone shown
        → IsReportText hub_script script (texts ++ hub_text_of shown) }
    ensures refused { (script : List ℕ) (first : HubValue) → IsHubRefused (program_part script) first
        → report hub_script script ≡ Some (hub_text_of first, ProgramRefused) }
{}

/// A call of `hub` that came to its end wrote the texts of the library's hub that was given the same lines.
pub fn a_hub_call_writes_the_texts_of_a_hub<S: Source, K: Sink>()
    ensures { (old new : S × K) (status : Status) (call : Reports hub_script S.Source K.Sink old new status)
        (lines : List (List ℕ)) (texts : List ℕ) (first last shown : HubValue)
        → map line_of lines ≡ journal call.bytes
        → HubIsOpened (program_part call.bytes) first → HubIsGiven first lines texts last
        → HubIsShown last HubWhole HubDone shown
        → call.text ≡ texts ++ hub_text_of shown }
{}
