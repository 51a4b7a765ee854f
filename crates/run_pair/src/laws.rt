//! Laws of the runs of one lens. Each function here does nothing: its clauses are the law.
ghost use Rattle.run_pair.specs.Scripts.{pair_script, types_script};
ghost use Rattle.run_scripts.specs.ScriptEnds.{EveryRunStaysInStep};

/// Every run of an accepted program stays in step: for any lines of a journal the run goes on to its end, and every
/// state of it, the first one and those after refused items included, is in the lens's consistency relation.
///
/// It does not matter whether or how a call over these lines ended.
pub fn every_run_stays_in_step()
    ensures { EveryRunStaysInStep pair_script }
{}

/// Every run of `check` goes on to its end.
pub fn every_check_goes_on()
    ensures { EveryRunStaysInStep types_script }
{}
