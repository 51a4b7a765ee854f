//! The run.

ghost use Rattle.std.specs.Prelude.{◌≡◌, ◌≤◌, ◌<◌, ◌+◌, ◌^◌, ℕ, suc, Some, IfOk};
ghost use Rattle.doc_values.specs.Documents.{doc_tree, docs_tree, doc_list};
ghost use Rattle.lens_forms.specs.Forms.{form_tree};
ghost use Rattle.edit_session.specs.Views.{triple_tree};
ghost use Rattle.run_gen.specs.Program.{generated_form};
ghost use Rattle.run_gen.specs.Journal.{entries, first_triple, generated_number, nums_in, generated_run_from};
ghost use Rattle.run_gen.specs.Journal.{sum_of, summary_of};
ghost use Rattle.run_gen.specs.Invariant.{absolute, IsGenerated, HasLists, counted, weight};

use crate::entries::{choose, entry_of, next_seed};
use crate::program::fixed_lens;
use crate::summary::Summary;
use doc_values::{Doc, Docs};
use edit_session::{Session, StepFault};
use lens_flat::Flat;
use std::alloc::{AllocError, Global};

/// Runs a generated journal of this many entries, from 1 to 10,000, through a session of the fixed program.
///
/// The entries are made from the seed. The session begins with the initial documents. Every entry is accepted, so
/// `accepted` is the count and `refused` is 0. Entry number k adds at most k, so the sum is at most 50,005,000. Fails
/// only if memory runs out.
pub fn generate(alloc: Global, count: u64, seed: u64) -> Result<Summary, AllocError>
    requires positive { 1 ≤ count }
    requires bounded { count ≤ 10000 }
    ensures summary { IfOk result (λ s. summary_of count seed ≡ Some s) }
    ensures accepted { IfOk result (λ s. s.accepted ≡ count) }
    ensures refused { IfOk result (λ s. s.refused ≡ 0) }
    ensures sum { IfOk result (λ s. absolute s.sum ≤ 50005000) }
{
    let mut session = first_session(alloc)?;
    let mut progress = Progress {
        seed,
        names: 0,
        nums: 0,
    };
    for number in 0..count {
        progress = take_entry(alloc, &mut session, progress, number)?;
    }
    Ok(Summary {
        accepted: count,
        refused: 0,
        names: progress.names,
        nums: progress.nums,
        sum: sum_of(nums_in(session.right())),
    })
}

// How far a journal has come: the seed of its last entry, and how many texts and numbers there are.
#[derive(Clone, Copy)]
struct Progress {
    seed: u64,
    names: u64,
    nums: u64,
}

// A session of the fixed program, with the initial documents.
fn first_session(alloc: Global) -> Result<Session<Flat>, AllocError>
    ensures lens { IfOk result (λ s. form_tree s.lens.typed ≡ generated_form) }
    ensures first { IfOk result (λ s. triple_tree s.triple ≡ first_triple) }
{
    let lens = fixed_lens(alloc)?;
    Session::start(alloc, lens)
}

// Makes the entry after this many others, and steps the session.
fn take_entry(
    alloc: Global,
    session: &mut Session<Flat>,
    progress: Progress,
    before: u64,
) -> Result<Progress, AllocError>
    requires lens { form_tree session.old.lens.typed ≡ generated_form }
    requires bounded { before < 10000 }
    requires generated { IsGenerated before progress.names progress.nums (triple_tree session.old.triple) }
    ensures lens { session.new.lens ≡ session.old.lens }
    ensures generated { IfOk result (λ next. IsGenerated (before + 1) next.names next.nums
        (triple_tree session.new.triple)) }
    ensures counted { IfOk result (λ next. (rest : ℕ)
        → counted before (triple_tree session.old.triple) (generated_run_from (triple_tree session.old.triple)
        (entries (suc rest) (before + 1) progress.seed progress.names progress.nums))
        ≡ counted (before + 1) (triple_tree session.new.triple)
        (generated_run_from (triple_tree session.new.triple)
        (entries rest (before + 1 + 1) next.seed next.names next.nums))) }
{
    let number = before + 1;
    let seed = next_seed(progress.seed);
    let choice = choose(number, progress.names, progress.nums, seed);
    let entry = entry_of(alloc, choice)?;
    match session.step(&entry) {
        Ok(_) => Ok(Progress {
            seed,
            names: choice.names_after(progress.names),
            nums: choice.nums_after(progress.nums),
        }),
        Err(StepFault::NoApply { .. }) => unreachable!(),
        Err(StepFault::NoMemory) => Err(AllocError),
    }
}

// The list of numbers of a right document.
fn nums_in(right: &Doc) -> &Docs
    requires { HasLists (doc_tree right.now) }
    ensures { doc_list (docs_tree result.now) ≡ nums_in (doc_tree right.now) }
{
    let Doc::Rec(lists) = right else {
        unreachable!()
    };
    let Doc::Hold(_, nums) = lists.get(1) else {
        unreachable!()
    };
    nums
}

// The sum of the numbers.
fn sum_of(nums: &Docs) -> i64
    requires { weight (doc_list (docs_tree nums.now)) < 2 ^ 63 }
    ensures { result ≡ sum_of (doc_list (docs_tree nums.now)) }
{
    let mut sum = 0;
    for place in 0..nums.len() {
        sum += number_in(nums.get(place));
    }
    sum
}

// The number that a document is; 0 where it is not a number.
fn number_in(doc: &Doc) -> i64
    ensures { result ≡ generated_number (doc_tree doc.now) }
{
    match doc {
        Doc::Int(number) => *number,
        _ => 0,
    }
}
