//! All cases of a file, and how many of them differ.

use crate::commands::Commands;
use crate::compare::{Outcome, run_cut, run_step, write_difference};
use crate::step::{Step, read_step};
use anyhow::{Result, bail};
use std::alloc::{AllocError, Global};

// How many differing steps of a file are shown.
const MOST_SHOWN: u64 = 10;

// The lengths of the pieces that an input is cut into, each in a run of its own, where the step says nothing of its
// source.
const CUTS: [u64; 5] = [1, 2, 3, 7, 65_536];

/// How the cases of a file have come out.
#[derive(Drop)]
pub struct Tally {
    /// How many cases have begun.
    cases: u64,
    /// How many cases have a step that differs.
    differ: u64,
    /// The number of the next step of the last case.
    next_step: u64,
    /// Whether the last case has a step that differs.
    last_differs: bool,
    /// What was wanted and what came, for the first steps that differ.
    text: Vec<u8>,
}

impl Tally {
    fn new(alloc: Global) -> Self {
        Tally {
            cases: 0,
            differ: 0,
            next_step: 0,
            last_differs: false,
            text: Vec::new(alloc),
        }
    }

    /// What was wanted and what came, for the first steps that differ.
    pub fn differences(&self) -> &[u8] {
        &self.text
    }

    /// Whether there are cases, and each agrees.
    pub fn is_passed(&self) -> bool {
        self.cases > 0 && self.differ == 0
    }

    /// How many cases there are and how many differ.
    pub fn line(&self, alloc: Global, name: &str) -> Result<String, AllocError> {
        let (cases, differ) = (self.cases, self.differ);
        format!(in alloc; "{name}: {cases} cases, {differ} differ")
    }

    // Counts a step, which begins a case if its number is 0. Any other number is one more than that of the step before.
    fn count_step(&mut self, number: u64) -> Result<()> {
        if number == 0 {
            self.cases = self.cases.saturating_add(1);
            self.last_differs = false;
        } else if number != self.next_step {
            bail!("a step of case {} is missing", self.cases);
        }
        self.next_step = number.saturating_add(1);
        Ok(())
    }

    // Counts the last case among those that differ, once.
    fn count_difference(&mut self) {
        if !self.last_differs {
            self.differ = self.differ.saturating_add(1);
        }
        self.last_differs = true;
    }

    // Runs a step of the last case.
    fn take_step<C: Commands>(&mut self, alloc: Global, step: &Step) -> Result<()> {
        self.take_outcome(alloc, step, &run_step::<C>(alloc, step)?)?;
        if step.head.says_source() {
            return Ok(());
        }
        for &piece in &CUTS {
            self.take_outcome(alloc, step, &run_cut::<C>(alloc, step, piece)?)?;
        }
        Ok(())
    }

    // Compares what came of a step with what is wanted.
    fn take_outcome(
        &mut self,
        alloc: Global,
        step: &Step,
        outcome: &Outcome,
    ) -> Result<(), AllocError> {
        if outcome.agrees(step) {
            return Ok(());
        }
        self.count_difference();
        if self.differ <= MOST_SHOWN {
            write_difference(alloc, &mut self.text, self.cases, step, outcome)?;
        }
        Ok(())
    }
}

/// Runs all cases of a file. A case begins with each step whose number is 0.
pub fn run_file<C: Commands>(alloc: Global, bytes: &[u8]) -> Result<Tally> {
    let mut tally = Tally::new(alloc);
    let mut place = 0;
    for _ in 0..bytes.len() {
        if place >= bytes.len() {
            break;
        }
        let (step, length) = read_step(alloc, &bytes[place..])?;
        tally.count_step(step.head.step)?;
        tally.take_step::<C>(alloc, &step)?;
        place = place.saturating_add(length);
    }
    Ok(tally)
}
