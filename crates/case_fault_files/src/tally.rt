//! All that is tried for the steps of a file, and how much of it differs.

use crate::devices::{Calls, Fault, Run, run_step};
use crate::forge::forge_all;
use crate::program::StorePrograms;
use crate::stops::{Allowed, allowed_after, is_allowed, is_clean_output};
use crate::stores::{count_of, payloads_of};
use anyhow::Result;
use case_files::{Step, read_step};
use lens_io::{MemDisk, Payloads};
use std::alloc::{AllocError, Global};

// How many differences of a file are shown.
const MOST_SHOWN: u64 = 10;

const FAULTS: [Fault; 6] = [
    Fault::Source,
    Fault::ShortSource,
    Fault::Sink,
    Fault::EmptySink,
    Fault::ShortSink,
    Fault::Disk,
];

// The images of a crash: none, one or two of the writes that were not synced are complete, and the others are one of
// these bytes.
const FILLS: [u8; 3] = [0, 1, 255];

const IMAGES: u64 = 9;

/// How the steps of a file have come out.
#[derive(Drop)]
pub struct Tally {
    steps: u64,
    /// How many calls of devices have failed, or given or taken less.
    calls: u64,
    /// How many stores were looked at: those that a command has left, and those that a crash then leaves besides.
    images: u64,
    /// How many stores were forged.
    forged: u64,
    differ: u64,
    /// The first differences.
    text: Vec<u8>,
}

impl Tally {
    fn new(alloc: Global) -> Self {
        Tally {
            steps: 0,
            calls: 0,
            images: 0,
            forged: 0,
            differ: 0,
            text: Vec::new(alloc),
        }
    }

    /// The first differences.
    pub fn differences(&self) -> &[u8] {
        &self.text
    }

    /// Whether there are steps, and nothing differs.
    pub fn is_passed(&self) -> bool {
        self.steps > 0 && self.differ == 0
    }

    /// How much was tried, and how much differs.
    pub fn line(&self, alloc: Global, name: &str) -> Result<String, AllocError> {
        let (steps, calls, images) = (self.steps, self.calls, self.images);
        let (forged, differ) = (self.forged, self.differ);
        format!(in alloc;
            "{name}: {steps} steps, {calls} calls failed or short, {images} images opened, {forged} stores forged, {differ} differ"
        )
    }

    fn take_step<C: StorePrograms>(&mut self, alloc: Global, step: &Step) -> Result<()> {
        self.steps = self.steps.saturating_add(1);
        let before = count_of(alloc, &step.store_before)?;
        let all = match payloads_of(alloc, &step.store_after)? {
            Some(all) => all,
            None => Payloads::from_vec(Vec::new(alloc)),
        };
        self.take_payloads::<C>(alloc, step, before, &all)?;
        self.take_forged::<C>(alloc, step)
    }

    // Runs a step as it is, and with each fault.
    fn take_payloads<C: StorePrograms>(
        &mut self,
        alloc: Global,
        step: &Step,
        before: usize,
        all: &Payloads,
    ) -> Result<()> {
        let Some(calls) = self.take_whole::<C>(alloc, step, before, all)? else {
            return Ok(());
        };
        for fault in FAULTS {
            self.take_fault::<C>(alloc, step, before, all, fault, calls.of(fault))?;
        }
        Ok(())
    }

    // Runs a step as it is, and returns how many calls it made. Nothing if it did not come out as wanted.
    fn take_whole<C: StorePrograms>(
        &mut self,
        alloc: Global,
        step: &Step,
        before: usize,
        all: &Payloads,
    ) -> Result<Option<Calls>> {
        let mut run = run_step::<C>(alloc, step, None)?;
        let allowed = allowed_after(step, before, all.as_slice().len(), None, run.output());
        let is_right = run.is_wanted(step)
            && self.are_allowed::<C>(alloc, step, all, allowed, &run.disk)?;
        if is_right {
            return Ok(Some(run.count_calls()));
        }
        self.add_difference(alloc, step, "as it is", 0, run.output())?;
        Ok(None)
    }

    // Runs a step as often as it makes calls of the device of this fault.
    fn take_fault<C: StorePrograms>(
        &mut self,
        alloc: Global,
        step: &Step,
        before: usize,
        all: &Payloads,
        fault: Fault,
        calls: u64,
    ) -> Result<()> {
        for call in 0..calls {
            self.calls = self.calls.saturating_add(1);
            let run = run_step::<C>(alloc, step, Some((fault, call)))?;
            if !self.is_clean::<C>(alloc, step, before, all, fault, call, &run)? {
                self.add_difference(alloc, step, name_of(fault), call, run.output())?;
            }
        }
        Ok(())
    }

    // Whether the fault has stopped the command as is wanted, or, if it stops none, the command did all that is wanted.
    fn is_clean<C: StorePrograms>(
        &mut self,
        alloc: Global,
        step: &Step,
        before: usize,
        all: &Payloads,
        fault: Fault,
        call: u64,
        run: &Run,
    ) -> Result<bool> {
        let Some(status) = fault.status() else {
            return Ok(run.is_wanted(step));
        };
        if run.status != status || !is_clean_output(step, fault, call, run.output()) {
            return Ok(false);
        }
        let after = all.as_slice().len();
        let allowed = allowed_after(step, before, after, Some(fault), run.output());
        self.are_allowed::<C>(alloc, step, all, allowed, &run.disk)
    }

    // Whether what the disk reads is allowed, and each image that a crash leaves.
    fn are_allowed<C: StorePrograms>(
        &mut self,
        alloc: Global,
        step: &Step,
        all: &Payloads,
        allowed: Allowed,
        disk: &MemDisk,
    ) -> Result<bool> {
        self.images = self.images.saturating_add(1);
        let mut are_allowed = is_allowed::<C>(alloc, step, all, allowed, disk.bytes())?;
        for number in 0..IMAGES {
            let fill = FILLS[(number % 3) as usize];
            let image = disk.after_crash(alloc, number / 3, fill)?;
            if image.as_slice() != disk.bytes() {
                self.images = self.images.saturating_add(1);
                are_allowed = is_allowed::<C>(alloc, step, all, allowed, image.as_slice())?
                    && are_allowed;
            }
        }
        Ok(are_allowed)
    }

    // Forges the store of a step of `verify`.
    fn take_forged<C: StorePrograms>(&mut self, alloc: Global, step: &Step) -> Result<()> {
        if !is_verify(step) {
            return Ok(());
        }
        let forged = forge_all::<C>(alloc, step)?;
        self.forged = self.forged.saturating_add(forged.stores);
        if forged.differ > 0 {
            self.add_difference(alloc, step, "stores forged", forged.differ, &[])?;
        }
        Ok(())
    }

    fn add_difference(
        &mut self,
        alloc: Global,
        step: &Step,
        what: &str,
        number: u64,
        output: &[u8],
    ) -> Result<(), AllocError> {
        self.differ = self.differ.saturating_add(1);
        if self.differ > MOST_SHOWN {
            return Ok(());
        }
        let (steps, words) = (self.steps, &step.head.words);
        let line = format!(in alloc;
            "step {steps} of the file, words {words:?}: {what} {number}\n"
        )?;
        self.text.extend_from_slice(line.as_bytes())?;
        self.text.extend_from_slice(output)?;
        self.text.extend_from_slice(b"\n".as_slice())
    }
}

fn is_verify(step: &Step) -> bool {
    match step.head.words.get(1) {
        Some(word) => word.as_str() == "verify",
        None => false,
    }
}

fn name_of(fault: Fault) -> &'static str {
    match fault {
        Fault::Source => "fails: call of the source",
        Fault::ShortSource => "gives one byte: call of the source",
        Fault::Sink => "fails: call of the sink",
        Fault::EmptySink => "takes nothing: call of the sink",
        Fault::ShortSink => "takes one byte: call of the sink",
        Fault::Disk => "fails: call of the disk",
    }
}

/// Tries all that can fail in the steps of a file.
pub fn run_file<C: StorePrograms>(alloc: Global, bytes: &[u8]) -> Result<Tally> {
    let mut tally = Tally::new(alloc);
    let mut place = 0;
    for _ in 0..bytes.len() {
        if place >= bytes.len() {
            break;
        }
        let (step, length) = read_step(alloc, &bytes[place..])?;
        tally.take_step::<C>(alloc, &step)?;
        place = place.saturating_add(length);
    }
    Ok(tally)
}
