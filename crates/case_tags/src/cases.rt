//! Lines of changes and cases, and what they come to.

ghost use Rattle.std.specs.Prelude.{◌≡◌, ◌<◌};

use anyhow::{Context, bail};
use std::alloc::Global;
use std::sync::ledger::{Blank, Ledger};
use tag_seq::{Steps, TagSeq};

/// How many cases there were, and a text for each whose answer is not the one that is wanted.
#[derive(Drop)]
pub struct Report {
    pub cases: u64,
    pub differences: Vec<String>,
}

/// The list of tags, a copy that was kept, and the counter of steps that the calls take.
#[derive(Drop)]
struct Lists<L: Ledger> {
    now: TagSeq,
    kept: TagSeq,
    steps: Steps<L>,
}

/// Goes through the lines.
pub fn differences<L: Ledger>(
    alloc: Global,
    lines: &[String],
    blank: Blank,
) -> anyhow::Result<Report>
    requires name { blank.name ≡ L.name }
    requires parts { blank.parts ≡ L.parts }
    requires some { 0 < L.parts }
{
    let mut lists: Lists<L> = Lists {
        now: TagSeq::new(alloc),
        kept: TagSeq::new(alloc),
        steps: Steps::new(blank),
    };
    let mut report = Report {
        cases: 0,
        differences: Vec::new(alloc),
    };
    for line in lines {
        lists.take_line(alloc, line.as_str(), &mut report)?;
    }
    Ok(report)
}

impl<L: Ledger> Lists<L> {
    // Makes the change of a line, or compares the answer to its case.
    fn take_line(&mut self, alloc: Global, line: &str, report: &mut Report) -> anyhow::Result<()> {
        let mut words = line.split(' ');
        let Some(word) = words.next() else {
            bail!("an empty line");
        };
        let mut numbers = Vec::new(alloc);
        for number in words {
            numbers.push(number.parse::<u64>().context("no number")?)?;
        }
        match word {
            "list" | "push" | "set" | "cut" | "move" | "keep" => self.change(alloc, word, &numbers),
            _ => {
                let came = self.answer(alloc, word, &numbers)?;
                report.cases = report.cases.saturating_add(1);
                if !numbers.ends_with(&came) || came.len() != wanted_len(word, numbers.len()) {
                    let text = format!(in alloc; "wanted {line}, came {came:?}")?;
                    report.differences.push(text)?;
                }
                Ok(())
            }
        }
    }

    // Makes a change.
    fn change(&mut self, alloc: Global, word: &str, numbers: &[u64]) -> anyhow::Result<()> {
        let len = self.now.len();
        match (word, numbers) {
            ("list", _) => self.now = TagSeq::from_list(alloc, &tags(alloc, numbers)?)?,
            ("push", [tag, count]) => self.now.push_many(u32::try_from(*tag)?, *count)?,
            ("set", [at, tag]) if *at < len => self.now.set_tag(*at, u32::try_from(*tag)?)?,
            ("cut", [count]) if *count <= len => self.now.cut_last(*count)?,
            ("move", [from, to]) if *from < len && *to < len => self.now.move_one(*from, *to)?,
            ("keep", []) => self.kept = self.now.twin()?,
            _ => bail!("no such change: {word}"),
        }
        Ok(())
    }

    // The answer to a question, as numbers.
    fn answer(&mut self, alloc: Global, word: &str, numbers: &[u64]) -> anyhow::Result<Vec<u64>> {
        match word {
            "is" => all_tags(alloc, &self.now, &mut self.steps),
            "kept" => all_tags(alloc, &self.kept, &mut self.steps),
            _ => {
                let mut came = Vec::new(alloc);
                if let Some(number) = self.number(word, numbers)? {
                    came.push(number)?;
                }
                Ok(came)
            }
        }
    }

    // The number that answers a question, if there is one.
    fn number(&mut self, word: &str, numbers: &[u64]) -> anyhow::Result<Option<u64>> {
        let len = self.now.len();
        match (word, numbers) {
            ("tag", [at, _]) if *at < len => Ok(Some(self.now.tag_at(*at, &mut self.steps) as u64)),
            ("rank", [tag, upto, _]) if *upto <= len => {
                Ok(Some(self.now.rank(u32::try_from(*tag)?, *upto, &mut self.steps)))
            }
            ("place", [tag, k, _]) => Ok(
                self.now.select(u32::try_from(*tag)?, *k, &mut self.steps),
            ),
            ("none", [tag, k]) => Ok(self.now.select(u32::try_from(*tag)?, *k, &mut self.steps)),
            ("below", [bound, _]) => {
                let is_below = self.now.is_below(u32::try_from(*bound)?);
                Ok(Some(if is_below { 1 } else { 0 }))
            }
            _ => bail!("no such case: {word}"),
        }
    }
}

// How many of a case's numbers are the answer that is wanted.
fn wanted_len(word: &str, count: usize) -> usize {
    match word {
        "is" | "kept" => count,
        "none" => 0,
        _ => 1,
    }
}

// Numbers as tags.
fn tags(alloc: Global, numbers: &[u64]) -> anyhow::Result<Vec<u32>> {
    let mut tags = Vec::new(alloc);
    for number in numbers {
        tags.push(u32::try_from(*number)?)?;
    }
    Ok(tags)
}

// All tags of a list, read one by one.
fn all_tags<L: Ledger>(
    alloc: Global,
    list: &TagSeq,
    steps: &mut Steps<L>,
) -> anyhow::Result<Vec<u64>> {
    let mut tags = Vec::new(alloc);
    for at in 0..list.len() {
        tags.push(list.tag_at(at, steps) as u64)?;
    }
    Ok(tags)
}
