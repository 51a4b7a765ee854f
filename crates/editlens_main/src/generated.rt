//! The command `gen`: the generated run, and its summary.
ghost use Rattle.command_ends.specs.Statuses.{IsStatusAmong};
ghost use Rattle.std.specs.Prelude.{◌≡◌, ◌⊎◌, ◌≤◌, IfOk, string_bytes};
ghost use Rattle.lens_io.specs.Calls.{SinkFailed};
ghost use Rattle.editlens_main.specs.Generated.{WritesSummary, count_lines, list_lines, summary_lines};
ghost use Rattle.editlens_main.specs.Statuses.{gen_statuses};

use command_ends::Status;
use lens_io::{Sink, give_all};
use run_gen::{Summary, generate};
use std::alloc::{AllocError, Global};

/// Runs the generated journal of this count of entries from this seed, and writes its summary.
///
/// The status is `Done`, `SinkFault` or `NoMemory`. After `NoMemory` nothing was written.
pub fn run_generated<K: Sink>(alloc: Global, count: u64, seed: u64, sink: &mut K) -> Status
    requires positive { 1 ≤ count }
    requires bounded { count ≤ 10000 }
    ensures written { WritesSummary count seed (K.held sink.old) (K.held sink.new) result }
    ensures complete { (SinkFailed K.Sink sink.old sink.new → ⊥)
        → (result ≡ Status.Done) ⊎ (result ≡ Status.NoMemory) }
    ensures statuses { IsStatusAmong gen_statuses result }
    ensures sink_fault { result ≡ Status.SinkFault → SinkFailed K.Sink sink.old sink.new }
{
    let Ok(summary) = generate(alloc, count, seed) else {
        return Status::NoMemory;
    };
    let Ok(lines) = summary_lines(alloc, &summary) else {
        return Status::NoMemory;
    };
    match give_all(sink, lines.as_bytes()) {
        Ok(()) => Status::Done,
        Err(_) => Status::SinkFault,
    }
}

// The five lines of a summary. The only error is running out of memory.
fn summary_lines(alloc: Global, summary: &Summary) -> Result<String, AllocError>
    ensures { IfOk result (λ lines. string_bytes lines ≡ summary_lines summary.now) }
{
    let counts = count_lines(alloc, summary)?;
    let lists = list_lines(alloc, summary)?;
    let lines = format!(in alloc; "{counts}{lists}")?;
    Ok(lines)
}

// How many entries were accepted and refused.
fn count_lines(alloc: Global, summary: &Summary) -> Result<String, AllocError>
    ensures { IfOk result (λ lines. string_bytes lines ≡ count_lines summary.now) }
{
    let accepted = summary.accepted;
    let refused = summary.refused;
    let lines = format!(in alloc; "accepted {accepted}\nrefused {refused}\n")?;
    Ok(lines)
}

// What the two lists have at the end.
fn list_lines(alloc: Global, summary: &Summary) -> Result<String, AllocError>
    ensures { IfOk result (λ lines. string_bytes lines ≡ list_lines summary.now) }
{
    let names = summary.names;
    let nums = summary.nums;
    let sum = summary.sum;
    let lines = format!(in alloc; "names {names}\nnums {nums}\nsum {sum}\n")?;
    Ok(lines)
}
