//! The last changes of a store.

ghost use Rattle.std.specs.Prelude.{◌≡◌, IfOk, option_map, drop};
ghost use Rattle.store_undo.specs.Undoing.{changes_of, last_changes};
ghost use Rattle.edit_undo.specs.UndoneViews.{change_trees};

use edit_module::Change;
use lens_io::Payloads;
use std::alloc::{AllocError, Global};
use store_records::read_change;
use texts::Bytes;

// The last changes, so many as the count says. None if there are not so many payloads behind the first one, or one of
// them is not of a change.
pub(crate) fn last_changes(
    alloc: Global,
    payloads: &Payloads,
    count: u64,
) -> Result<Option<Vec<Change>>, AllocError>
    ensures { IfOk result (λ changes. option_map (λ cs. change_trees cs.items) changes
        ≡ last_changes count payloads.now) }
{
    let records = payloads.as_slice();
    if count >= records.len() as u64 {
        return Ok(None);
    }
    changes_from(alloc, records, records.len() - count as usize)
}

// The changes of the payloads from this place on. None if one of them is not of a change.
fn changes_from(
    alloc: Global,
    records: &[Bytes],
    from: usize,
) -> Result<Option<Vec<Change>>, AllocError>
    ensures { IfOk result (λ changes. option_map (λ cs. change_trees cs.items) changes
        ≡ changes_of (drop from records.now)) }
{
    let mut changes = Vec::new(alloc);
    for at in from..records.len() {
        match read_change(alloc, &records[at])? {
            Some(change) => changes.push(change)?,
            None => return Ok(None),
        }
    }
    Ok(Some(changes))
}
