//! The lens of the first record.

ghost use Rattle.std.specs.Prelude.{◌≡◌, IfOk, MatchResult, Ok, Some, option_and_then, option_map};
ghost use Rattle.lens_forms.specs.Forms.{form_tree};
ghost use Rattle.program_accepted.specs.Program.{form_of_program};
ghost use Rattle.program_terms.specs.Views.{program_tree};
ghost use Rattle.serde_json.specs.View.{view};
ghost use Rattle.store_records.specs.RecordOutcomes.{IsBadFirst};
ghost use Rattle.store_records.specs.RecordJson.{opening_of};
ghost use Rattle.store_records.specs.StoredLens.{accepted, form_of_text, with_form, lens_and_version, stored_lens};

use crate::parts::opening_in;
use crate::record_fault::RecordFault;
use crate::text::read_tree;
use crate::tokens::opening_by_tokens;
use json::Scratch;
use lens_io::Payloads;
use lens_syntax::{Program, ProgramFault, read_unbounded};
use lens_types::{TypeFault, Typed, check};
use serde_json::Value;
use std::alloc::{AllocError, Global};

/// The number of the first record.
pub(crate) const FIRST: u64 = 1;

/// The lens of a store, and its version.
#[derive(Drop)]
pub struct StoredLens {
    /// The lens of the first record, for which the other records are read.
    pub typed: Typed,
    /// The version that the first record says: 1 or 2.
    pub version: u64,
}

/// The lens of the first record, for which the payloads of a store are read, and the version that this record says.
///
/// - `BadRecord { number: 1 }`: if and only if there is no first record, it is not the payload of a program, or the
///   grammar or the checker refuses its text. The text may have any length, and need not be canonical.
/// - `NoMemory`: only if memory ran out.
pub fn stored_lens(alloc: Global, payloads: &Payloads) -> Result<StoredLens, RecordFault>
    ensures lens { MatchResult result
        (λ lens. stored_lens payloads.now ≡ Some (form_tree lens.typed, lens.version))
        (IsBadFirst (stored_lens payloads.now)) }
{
    let records = payloads.as_slice();
    if records.is_empty() {
        return Err(RecordFault::BadRecord { number: FIRST });
    }
    lens_of_payload(alloc, records[0].as_slice())
}

fn lens_of_payload(alloc: Global, payload: &[u8]) -> Result<StoredLens, RecordFault>
    ensures { MatchResult result
        (λ lens. lens_and_version payload.now ≡ Some (form_tree lens.typed, lens.version))
        (IsBadFirst (lens_and_version payload.now)) }
{
    let mut scratch = Scratch::new(alloc);
    match opening_by_tokens(payload, &mut scratch) {
        Some((text, version)) => lens_with_version(alloc, text, version),
        None => lens_by_tree(alloc, payload),
    }
}

fn lens_by_tree(alloc: Global, payload: &[u8]) -> Result<StoredLens, RecordFault>
    ensures { MatchResult result
        (λ lens. lens_and_version payload.now ≡ Some (form_tree lens.typed, lens.version))
        (IsBadFirst (lens_and_version payload.now)) }
{
    match read_tree(alloc, payload)? {
        Some(tree) => lens_of_tree(alloc, &tree),
        None => Err(RecordFault::BadRecord { number: FIRST }),
    }
}

fn lens_of_tree(alloc: Global, tree: &Value) -> Result<StoredLens, RecordFault>
    ensures { MatchResult result
        (λ lens. option_and_then with_form (opening_of (view tree.now)) ≡ Some (form_tree lens.typed, lens.version))
        (IsBadFirst (option_and_then with_form (opening_of (view tree.now)))) }
{
    match opening_in(tree) {
        Some((text, version)) => lens_with_version(alloc, text, version),
        None => Err(RecordFault::BadRecord { number: FIRST }),
    }
}

// The lens of this text, in a store of this version.
fn lens_with_version(alloc: Global, text: &str, version: u64) -> Result<StoredLens, RecordFault>
    ensures { MatchResult result
        (λ lens. with_form (text.now, version) ≡ Some (form_tree lens.typed, lens.version))
        (IsBadFirst (with_form (text.now, version))) }
{
    match lens_of_text(alloc, text.as_bytes())? {
        Some(typed) => Ok(StoredLens { typed, version }),
        None => Err(RecordFault::BadRecord { number: FIRST }),
    }
}

/// The lens of a text of any length, which need not be canonical.
///
/// None if and only if the grammar or the checker refuses the text. Fails only if memory runs out.
#[tactic(auto, using(crate::proofs::Openings::opening_rules))]
pub fn lens_of_text(alloc: Global, text: &[u8]) -> Result<Option<Typed>, AllocError>
    ensures { IfOk result (λ lens. option_map form_tree lens ≡ form_of_text text.now) }
{
    match read_unbounded(alloc, text) {
        Ok(program) => lens_of_program(alloc, &program),
        Err(ProgramFault::NoMemory) => Err(AllocError),
        Err(_) => Ok(None),
    }
}

#[tactic(auto, using(crate::proofs::Openings::opening_rules))]
fn lens_of_program(alloc: Global, program: &Program) -> Result<Option<Typed>, AllocError>
    ensures { IfOk result (λ lens. option_map form_tree lens
        ≡ accepted (form_of_program (Ok (program_tree program.now)))) }
{
    match check(alloc, program) {
        Ok(lens) => Ok(Some(lens)),
        Err(TypeFault::NoMemory) => Err(AllocError),
        Err(_) => Ok(None),
    }
}
