//! The payloads of the rows, read by their tokens and as trees.

use crate::case::Case;
use anyhow::{Result, bail};
use both_ways::{BothWays, Changes, Openings, Rows, Snapshots};
use lens_io::Payloads;
use serde_json::Value;
use std::alloc::Global;
use store_records::{RecordFault, StoredLens, read_tree, snapshot_in, stored_lens};

// How many damaged copies of a payload are read.
const COPIES: u64 = 12;

// How many of a snapshot, since few payloads are one.
const COPIES_OF_SNAPSHOTS: u64 = 200;

/// How the payloads of rows were read.
#[derive(Drop)]
pub struct RowWays {
    openings: BothWays,
    changes: BothWays,
    snapshots: BothWays,
}

impl RowWays {
    /// No rows yet.
    pub fn new(alloc: Global) -> RowWays {
        RowWays {
            openings: BothWays::new(alloc, COPIES),
            changes: BothWays::new(alloc, COPIES),
            snapshots: BothWays::new(alloc, COPIES_OF_SNAPSHOTS),
        }
    }

    // Reads the payloads of a store: the first as an opening, each other one as a change, and a snapshot as one of the
    // store's lens, too.
    fn take_payloads(&mut self, alloc: Global, payloads: &Payloads) -> Result<()> {
        let Some(first) = payloads.as_slice().first() else {
            return Ok(());
        };
        self.openings.take(alloc, &Openings, first.as_slice())?;
        self.take_changes(alloc, payloads)?;
        match stored_lens(alloc, payloads) {
            Ok(stored) => self.take_snapshots(alloc, &stored, payloads),
            Err(RecordFault::NoMemory) => bail!("memory ran out"),
            Err(_) => Ok(()),
        }
    }

    fn take_changes(&mut self, alloc: Global, payloads: &Payloads) -> Result<()> {
        for payload in payloads.as_slice().iter().skip(1) {
            self.changes.take(alloc, &Changes, payload.as_slice())?;
        }
        Ok(())
    }

    fn take_snapshots(
        &mut self,
        alloc: Global,
        stored: &StoredLens,
        payloads: &Payloads,
    ) -> Result<()> {
        let snapshots = Snapshots {
            lens: &stored.typed,
        };
        for payload in payloads.as_slice().iter().skip(1) {
            if is_snapshot(alloc, payload.as_slice())? {
                self.snapshots.take(alloc, &snapshots, payload.as_slice())?;
            }
        }
        Ok(())
    }
}

// Whether a payload has the form of a snapshot, whatever its parts are.
fn is_snapshot(alloc: Global, payload: &[u8]) -> Result<bool> {
    match read_tree(alloc, payload)? {
        Some(tree) => Ok(snapshot_in(&tree).is_some()),
        None => Ok(false),
    }
}

impl Rows for RowWays {
    fn take(&mut self, alloc: Global, row: &str) -> Result<()> {
        let row = Value::from_str(alloc, row)?;
        let payloads = Case::from_row(&row)?.payloads(alloc)?;
        drop(row);
        self.take_payloads(alloc, &payloads)
    }

    fn report(&self, alloc: Global) -> Result<String> {
        let openings = self.openings.lines(alloc, "openings in both ways")?;
        let changes = self.changes.lines(alloc, "changes in both ways")?;
        let snapshots = self.snapshots.lines(alloc, "snapshots in both ways")?;
        Ok(format!(in alloc; "{openings}\n{changes}\n{snapshots}")?)
    }
}
