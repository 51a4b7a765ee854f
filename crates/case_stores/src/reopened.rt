//! What the payloads of a store stand for, as a text.

ghost use Rattle.std.specs.Prelude.{◌≡◌, Some};
ghost use Rattle.lens_forms.specs.Forms.{form_tree};
ghost use Rattle.store_records.specs.StoredLens.{stored_lens};

use anyhow::{Result, bail};
use lens_check::conforms;
use lens_core::EditLens;
use lens_io::Payloads;
use lens_run::Checked;
use lens_types::Typed;
use std::alloc::Global;
use std::str;
use store_records::{RecordFault, StoredLens, snapshot_payload, stored_lens};
use store_session::{OpenedRecords, reopen};
use texts::Twin;

/// Returns what payloads stand for: `stands COUNT VERSION SNAPSHOT`, with the snapshot that would be stored, or the
/// fault as `bad-record NUMBER` or `not-consistent NUMBER`. It is refused if memory runs out.
pub fn answer(alloc: Global, payloads: &Payloads) -> Result<String> {
    match stored_lens(alloc, payloads) {
        Ok(stored) => answer_by(alloc, &stored, payloads),
        Err(fault) => fault_text(alloc, fault),
    }
}

fn answer_by(alloc: Global, stored: &StoredLens, payloads: &Payloads) -> Result<String>
    requires stored { stored_lens payloads.now ≡ Some (form_tree stored.now.typed, stored.now.version) }
{
    let lens = Checked::new(stored.typed.twin(alloc)?);
    match reopen(alloc, lens, stored, payloads) {
        Ok(opened) => opened_text(alloc, &stored.typed, &opened),
        Err(fault) => fault_text(alloc, fault),
    }
}

fn opened_text(alloc: Global, typed: &Typed, opened: &OpenedRecords<Checked>) -> Result<String> {
    let (left, right) = (opened.session.left(), opened.session.right());
    let comp = opened.session.comp();
    if !left.has_type(typed.left()) || !right.has_type(typed.right()) || !conforms(typed, comp) {
        bail!("what was opened does not fit the lens");
    }
    let snapshot = snapshot_payload(alloc, typed, left, comp, right)?;
    let Ok(snapshot) = str::from_utf8(snapshot.as_slice()) else {
        bail!("a snapshot is not a text");
    };
    let (count, version) = (opened.count, opened.version);
    Ok(format!(in alloc; "stands {count} {version} {snapshot}")?)
}

fn fault_text(alloc: Global, fault: RecordFault) -> Result<String> {
    match fault {
        RecordFault::BadRecord { number } => Ok(format!(in alloc; "bad-record {number}")?),
        RecordFault::NotConsistent { number } => Ok(format!(in alloc; "not-consistent {number}")?),
        RecordFault::NoMemory => bail!("memory ran out"),
    }
}
