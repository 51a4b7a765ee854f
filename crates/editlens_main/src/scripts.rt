//! The commands over a script: `run`, `check`, `hub` and `link`. All but `hub`, whose program part has a program for
//! each view, are the call of run_scripts for what a script means to them.
ghost use Rattle.command_ends.specs.Statuses.{IsStatusAmong, script_statuses};
ghost use Rattle.std.specs.Prelude.{◌≡◌};
ghost use Rattle.lens_io.specs.Calls.{SourceFailed, SinkFailed};
ghost use Rattle.editlens_main.specs.Runs.{Runs, Checks, RunsHub, RunsLink};

use command_ends::Status;
use hub_run::run_hub;
use lens_io::{Sink, Source};
use run_link::LinkRun;
use run_pair::{PairRun, TypesShown};
use run_scripts::run_script;
use std::alloc::Global;

/// Keeps two documents in step, by the edits of a script.
pub fn run_pair_script<S: Source, K: Sink>(alloc: Global, source: &mut S, sink: &mut K) -> Status
    ensures runs { Runs S.Source K.Sink (source.old, sink.old) (source.new, sink.new) result }
    ensures statuses { IsStatusAmong script_statuses result }
    ensures source_fault { result ≡ Status.SourceFault → SourceFailed S.Source source.old source.new }
    ensures sink_fault { result ≡ Status.SinkFault → SinkFailed K.Sink sink.old sink.new }
{
    run_script::<S, K, PairRun>(alloc, source, sink)
}

/// Shows the two types of the lens of a script.
pub fn check_script<S: Source, K: Sink>(alloc: Global, source: &mut S, sink: &mut K) -> Status
    ensures runs { Checks S.Source K.Sink (source.old, sink.old) (source.new, sink.new) result }
    ensures statuses { IsStatusAmong script_statuses result }
    ensures source_fault { result ≡ Status.SourceFault → SourceFailed S.Source source.old source.new }
    ensures sink_fault { result ≡ Status.SinkFault → SinkFailed K.Sink sink.old sink.new }
{
    run_script::<S, K, TypesShown>(alloc, source, sink)
}

/// Keeps one document in step with many views, by the edits of a script.
pub fn run_hub_script<S: Source, K: Sink>(alloc: Global, source: &mut S, sink: &mut K) -> Status
    ensures runs { RunsHub S.Source K.Sink (source.old, sink.old) (source.new, sink.new) result }
    ensures statuses { IsStatusAmong script_statuses result }
    ensures source_fault { result ≡ Status.SourceFault → SourceFailed S.Source source.old source.new }
    ensures sink_fault { result ≡ Status.SinkFault → SinkFailed K.Sink sink.old sink.new }
{
    run_hub(alloc, source, sink)
}

/// Keeps two documents in step over two sites that take turns, by the events of a script.
pub fn run_link_script<S: Source, K: Sink>(alloc: Global, source: &mut S, sink: &mut K) -> Status
    ensures runs { RunsLink S.Source K.Sink (source.old, sink.old) (source.new, sink.new) result }
    ensures statuses { IsStatusAmong script_statuses result }
    ensures source_fault { result ≡ Status.SourceFault → SourceFailed S.Source source.old source.new }
    ensures sink_fault { result ≡ Status.SinkFault → SinkFailed K.Sink sink.old sink.new }
{
    run_script::<S, K, LinkRun>(alloc, source, sink)
}
