//! What is to stand after a fault has stopped a command: its output and its store.

use crate::devices::{Fault, given_before};
use crate::lines::{begins_with, first_lines, is_at_ok, journal_lines, journal_of, ok_lines};
use crate::program::StorePrograms;
use crate::stores::{changes_in, count_in_front, has_changes};
use anyhow::Result;
use case_files::Step;
use lens_io::Payloads;
use std::alloc::Global;

// Exit codes: everything was accepted, or something was refused.
const DONE: u64 = 0;

const SOME_REFUSED: u64 = 1;

/// Whether the output is what docs/FORMATS.md says of a command that this fault has stopped, at the call of this
/// number.
///
/// After a fault of the source: the answers to all lines that had ended. After one of the sink: not all of the output.
/// After one of the disk: nothing, or the answers before one that stores a change.
pub fn is_clean_output(step: &Step, fault: Fault, call: u64, output: &[u8]) -> bool {
    let wanted = step.output.as_slice();
    match fault {
        Fault::Source => output == first_lines(wanted, lines_ended(step, call)),
        Fault::Disk => {
            begins_with(wanted, output)
                && (output.is_empty() || (output.ends_with(b"\n") && is_at_ok(wanted, output)))
        }
        _ => begins_with(wanted, output) && output.len() < wanted.len(),
    }
}

// How many lines of the journal had ended before this call of the source.
fn lines_ended(step: &Step, call: u64) -> usize {
    let given = given_before(call).min(step.input.len() as u64) as usize;
    let input = &step.input[..given];
    match word_of(step) {
        "run" | "hub" | "link" => journal_lines(journal_of(input)),
        "apply" => journal_lines(input),
        _ => 0,
    }
}

fn word_of(step: &Step) -> &str {
    match step.head.words.get(1) {
        Some(word) => word.as_str(),
        None => "",
    }
}

/// What a store may hold after a command.
#[derive(Clone, Copy)]
pub enum Allowed {
    /// The bytes from before.
    Before,
    /// The first payloads of the store that is wanted in the end, at least and at most so many.
    Front(usize, usize),
    /// Any bytes.
    Any,
}

/// What the store may hold after the command of a step, which has written this output. Before it the store has `before`
/// payloads, and `after` in the end. With no fault nothing has stopped the command.
pub fn allowed_after(
    step: &Step,
    before: usize,
    after: usize,
    fault: Option<Fault>,
    output: &[u8],
) -> Allowed {
    let status = step.head.status;
    match word_of(step) {
        "apply" if status <= SOME_REFUSED => allowed_of_apply(step, before, after, fault, output),
        "pack" | "undo" | "add" if status == DONE => allowed_of_records(before, after, fault),
        "init" | "import" if status == DONE => allowed_of_making(after, fault),
        _ => Allowed::Before,
    }
}

// The changes whose lines were written are stored. So is the one whose line was being written, and that at which the
// disk failed may be. Before the first line, the disk may also have failed at the version record.
fn allowed_of_apply(
    step: &Step,
    before: usize,
    after: usize,
    fault: Option<Fault>,
    output: &[u8],
) -> Allowed {
    let changes = ok_lines(&step.output);
    let begun = after.saturating_sub(changes);
    let held = begun.saturating_add(ok_lines(output));
    let next = held.saturating_add(1).min(after);
    match fault {
        Some(Fault::Disk) if output.is_empty() => Allowed::Front(before, next),
        Some(Fault::Disk) => Allowed::Front(held, next),
        Some(Fault::Sink | Fault::EmptySink) if is_at_ok(&step.output, output) => {
            Allowed::Front(next, next)
        }
        _ => Allowed::Front(held, held),
    }
}

// The records are stored in order: a version record and a snapshot, or a view. Nothing is stored before all is read,
// and all before anything is written.
fn allowed_of_records(before: usize, after: usize, fault: Option<Fault>) -> Allowed {
    match fault {
        Some(Fault::Disk) => Allowed::Front(before, after),
        Some(Fault::Source) => Allowed::Before,
        _ => Allowed::Front(after, after),
    }
}

// Nothing is stored before all is read, and all before anything is written.
fn allowed_of_making(after: usize, fault: Option<Fault>) -> Allowed {
    match fault {
        Some(Fault::Disk) => Allowed::Any,
        Some(Fault::Source) => Allowed::Before,
        _ => Allowed::Front(after, after),
    }
}

/// Whether a store of these bytes is allowed. `all` are the payloads of the store that is wanted in the end. A store
/// that holds some of them is opened by `verify`, which is to count their changes.
pub fn is_allowed<C: StorePrograms>(
    alloc: Global,
    step: &Step,
    all: &Payloads,
    allowed: Allowed,
    bytes: &[u8],
) -> Result<bool> {
    match allowed {
        Allowed::Before => Ok(bytes == step.store_before.as_slice()),
        Allowed::Front(least, most) => is_front::<C>(alloc, all, least, most, bytes),
        Allowed::Any => Ok(true),
    }
}

fn is_front<C: StorePrograms>(
    alloc: Global,
    all: &Payloads,
    least: usize,
    most: usize,
    bytes: &[u8],
) -> Result<bool> {
    let Some(count) = count_in_front(alloc, bytes, all.as_slice())? else {
        return Ok(false);
    };
    match all.as_slice().get(..count) {
        Some(held) if least <= count && count <= most => has_changes::<C>(
            alloc,
            bytes,
            changes_in::<C>(held),
        ),
        _ => Ok(false),
    }
}
