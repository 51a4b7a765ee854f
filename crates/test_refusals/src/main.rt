//! Makes each call of a shared list that allocates, and compares the lists with what they were.
//!
//! One word: how many items the list has. With ample memory the line says whether each call did what it should; with an
//! allocation that fails, whether all lists were as before.
#![tactic(auto)]

mod refusals;

use anyhow::bail;
use shared_lists::SharedList;
use std::alloc::{AllocError, Global};
use std::env;

fn main(rt: HostRuntime) -> anyhow::Result<()> {
    let alloc = rt.alloc();
    let words: Vec<String> = env::args(&rt)?.collect(alloc)?;
    if words.len() != 2 {
        bail!("give a number of items");
    }
    match are_kept_below(alloc, words[1].as_str().parse::<u32>()?) {
        Ok(kept) => println!(rt; "kept: {kept}")?,
        Err(_) => println!(rt; "no memory for the lists that are compared")?,
    }
    Ok(())
}

// Whether a list of the numbers below a size, and lists made of it, are kept where memory runs out.
fn are_kept_below(alloc: Global, size: u32) -> Result<bool, AllocError> {
    let list = SharedList::from_vec(alloc, numbers(alloc, size)?)?;
    let same = SharedList::from_vec(alloc, numbers(alloc, size)?)?;
    let copied = refusals::is_kept_by_copy(alloc, &list, &same);
    Ok(copied && refusals::are_lists_kept(alloc, &list)? && refusals::is_same(&list, &same))
}

// The numbers below a size.
fn numbers(alloc: Global, size: u32) -> Result<Vec<u64>, AllocError> {
    let mut numbers = Vec::new(alloc);
    for number in 0..size {
        numbers.push(u64::from(number))?;
    }
    Ok(numbers)
}
