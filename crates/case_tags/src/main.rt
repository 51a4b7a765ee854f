//! Reads changes and cases from the standard input, one a line, and compares what a list of tags returns with what is
//! wanted there. It prints the number of cases and how many differ, and for each of these the line, what was wanted and
//! what came. reference/CASES.md says what the lines mean.
#![tactic(auto)]

mod cases;

use crate::cases::differences;
use anyhow::bail;
use std::marker::Brand;
use std::sync::ledger::Blank;

fn main(rt: HostRuntime) -> anyhow::Result<()> {
    let alloc = rt.alloc();
    let mut lines = Vec::new(alloc);
    for line in rt.lines(alloc) {
        lines.push(line?)?;
    }
    let report = differences::<Brand>(alloc, &lines, Blank::new(1))?;
    for difference in &report.differences {
        println!(rt; "{difference}")?;
    }
    let (cases, differ) = (report.cases, report.differences.len());
    println!(rt; "tags: {cases} cases, {differ} differ")?;
    if differ > 0 {
        bail!("a list of tags is not as it is wanted");
    }
    Ok(())
}
