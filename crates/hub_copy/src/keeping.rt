//! The payloads that are kept.

ghost use Rattle.std.specs.Prelude.{◌≡◌, ◌||◌, IfOk};
ghost use Rattle.hub_copy.specs.KeptRecords.{adds_view, kept_records};

use hub_records::{add_in, change_in};
use lens_io::Payloads;
use std::alloc::{AllocError, Global};
use store_records::read_tree;
use texts::Bytes;

/// The first payloads, `number` of them or all, and of the others those that add a view, in order.
///
/// The only error is running out of memory.
#[tactic(auto, using(crate::proofs::KeptLoop::kept_rules))]
pub fn kept_records(
    alloc: Global,
    number: usize,
    payloads: &Payloads,
) -> Result<Vec<Bytes>, AllocError>
    ensures { IfOk result (λ kept. kept.items ≡ kept_records number payloads.now) }
{
    let records = payloads.as_slice();
    let mut kept = Vec::new(alloc);
    for at in 0..records.len() {
        if stays(alloc, at < number, records[at].as_slice())? {
            kept.push(same_bytes(alloc, records[at].as_slice())?)?;
        }
    }
    Ok(kept)
}

// Whether a payload is among the first ones, or adds a view.
fn stays(alloc: Global, is_first: bool, payload: &[u8]) -> Result<bool, AllocError>
    ensures { IfOk result (λ stays. stays ≡ (is_first || adds_view payload.now)) }
{
    if is_first {
        return Ok(true);
    }
    adds_view(alloc, payload)
}

// Whether a payload is of a view more.
fn adds_view(alloc: Global, payload: &[u8]) -> Result<bool, AllocError>
    ensures { IfOk result (λ adds. adds ≡ adds_view payload.now) }
{
    let Some(tree) = read_tree(alloc, payload)? else {
        return Ok(false);
    };
    match change_in(alloc, &tree)? {
        Some(change) => {
            drop(change);
            Ok(false)
        }
        None => Ok(add_in(&tree).is_some()),
    }
}

// The same bytes, in a value of their own.
fn same_bytes(alloc: Global, bytes: &[u8]) -> Result<Bytes, AllocError>
    ensures { IfOk result (λ same. same ≡ bytes.now) }
{
    Ok(Bytes::from_vec(bytes.to_vec(alloc)?))
}
