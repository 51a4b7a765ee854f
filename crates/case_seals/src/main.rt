//! Reads questions about sealed records from the standard input, one a line with the answer that is wanted, and
//! compares each with what comes. It prints the number of cases and how many differ, and for each of these the line and
//! what came. reference/CASES.md says what the lines mean.
#![tactic(auto)]

mod cases;
mod seals;

use crate::cases::differences;
use anyhow::bail;

fn main(rt: HostRuntime) -> anyhow::Result<()> {
    let alloc = rt.alloc();
    let mut lines = Vec::new(alloc);
    for line in rt.lines(alloc) {
        lines.push(line?)?;
    }
    let report = differences(alloc, &lines)?;
    for difference in &report.differences {
        println!(rt; "{difference}")?;
    }
    let (cases, differ) = (report.cases, report.differences.len());
    println!(rt; "seals: {cases} cases, {differ} differ")?;
    if differ > 0 {
        bail!("a seal is not as it is wanted");
    }
    Ok(())
}
