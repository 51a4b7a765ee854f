//! What a command writes before the end of its input is the beginning of the report of that input, whatever bytes
//! follow.
//!
//! A call may stop in the middle: the source or the sink fails, memory runs out, or the input is too long. The contract
//! of the call says that the answers to the first lines of the journal were written. The laws here compare them with
//! the report of every input that begins with the bytes that were taken. They hold whatever a script means, so of
//! `run`, `check`, `hub` and `link` alike. Each function does nothing: its clauses are the laws.
#![tactic(auto)]

ghost use Rattle.command_ends.specs.Statuses.{IsFinished};
ghost use Rattle.std.specs.Prelude.{◌≡◌, ◌++◌, ℕ, List, [], Some, Err, true};
ghost use Rattle.lens_io.specs.Calls.{IsRead};
ghost use Rattle.script_input.specs.Coming.{has_separator, journal_lines};
ghost use Rattle.script_input.specs.Lines.{program_part, journal};
ghost use Rattle.run_scripts.specs.ScriptEnds.{AnswersSome, IsCleanStop};
ghost use Rattle.run_scripts.specs.Report.{report};
ghost use Rattle.command_ends.specs.declared.status.Status.{Status};
ghost use Rattle.command_ends.specs.declared.status.Status.TheVariants.{ProgramRefused};
ghost use Rattle.law_reports.specs.Beginnings.{BeginsWith, WritesBeginning};

use lens_io::{Sink, Source};
use run_scripts::ScriptState;

/// What is known of a script stays so, whatever bytes follow.
///
/// - `part`: once the separator has come, the program part stays as it is.
/// - `lines`: the lines of the journal that an LF has ended are the first lines of the journal.
pub fn a_script_goes_on()
    ensures part { (bytes more : List ℕ) → has_separator bytes ≡ true
        → program_part (bytes ++ more) ≡ program_part bytes }
    ensures lines { (bytes more : List ℕ) → BeginsWith (journal (bytes ++ more)) (journal_lines bytes) }
{}

/// The answers to the first lines of the journal that have ended are the beginning of the report of every input that
/// begins with these bytes.
///
/// It is so whether the separator has come or not and whether the program part is accepted or refused.
pub fn answers_come_first<A: ScriptState>()
    ensures { (bytes text : List ℕ) → AnswersSome A.ScriptState bytes text
        → (more whole : List ℕ) (status : Status) → report A.ScriptState (bytes ++ more) ≡ Some (whole, status)
        → BeginsWith whole text }
{}

/// Once the separator has come, the report of a program part that is refused is the line of the refusal, whatever bytes
/// follow.
pub fn a_refusal_stays<A: ScriptState>()
    ensures { (bytes : List ℕ) (refusal : A.Refusal) → has_separator bytes ≡ true
        → A.accepted (program_part bytes) ≡ Err refusal
        → (more : List ℕ) → report A.ScriptState (bytes ++ more) ≡ Some (A.refusal_line refusal, ProgramRefused) }
{}

/// What a call has written when it stops is the beginning of the report of its whole input.
///
/// The whole input is any that begins with the bytes that were taken; if the source is at its end, it is these bytes.
/// The law is of each status that stops a call, and of whatever part of its text a sink that failed has taken. The sink
/// tells what it holds, before the call and after it. If it is not known what the source has left, the law is of the
/// bytes that were taken alone.
pub fn a_stop_writes_a_beginning<A: ScriptState, S: Source, K: Sink>()
    ensures { (old new : S × K) (held held' bytes : List ℕ) (stop : Status)
        → K.held old.1 ≡ Some held → K.held new.1 ≡ Some held'
        → IsCleanStop A.ScriptState S.Source K.Sink old new bytes stop → (IsFinished stop → ⊥)
        → (more whole : List ℕ) (status : Status) → (IsRead S.Source old.0 new.0 → more ≡ [])
        → report A.ScriptState (bytes ++ more) ≡ Some (whole, status) → WritesBeginning held held' whole }
{}
