//! Makes stores anew from files of cases, and compares what comes with what the files say.
//!
//! Words: the files, which lie in the folder where the program runs. Each gives one line, as `copies: 30 cases, 0
//! differ`. Above it is what was wanted and what came for the first steps that differ. reference/CASES.md has the form
//! of a file. The program fails where a case differs, and where a file is not readable or has no case.
#![tactic(auto)]

use case_files::{Commands, run_files};
use command_ends::Status;
use hub_session::HubSession;
use lens_io::{MemDisk, MemSink, MemSource};
use std::alloc::{AllocError, Global};
use store_copy::{RemadeSession, back, compact, copy};
use store_run::{show, verify};
use store_session::StoreSession;
use texts::Bytes;

fn main(rt: HostRuntime) -> anyhow::Result<()> {
    run_files::<Copies>(&rt)
}

// The commands of a file: `compact`, `copy` and `back N`, and `show` and `verify` of the store that was made. Behind
// the word `hub` they are of the store of a hub.
struct Copies;

impl Commands for Copies {
    fn run(
        alloc: Global,
        words: &[String],
        _source: &mut MemSource,
        sink: &mut MemSink,
        disk: &mut MemDisk,
    ) -> u8 {
        let status = if word_at(words, 1) == "hub" {
            command::<HubSession>(alloc, word_at(words, 2), word_at(words, 3), sink, disk)
        } else {
            command::<StoreSession>(alloc, word_at(words, 1), word_at(words, 2), sink, disk)
        };
        status.code()
    }
}

// The word at this place, or an empty one.
fn word_at(words: &[String], place: usize) -> &str {
    if place < words.len() {
        words[place].as_str()
    } else {
        ""
    }
}

// The command of a word, with the word behind it.
fn command<A: RemadeSession + Drop>(
    alloc: Global,
    word: &str,
    other: &str,
    sink: &mut MemSink,
    disk: &mut MemDisk,
) -> Status {
    if word == "show" {
        show::<A, MemSink, MemDisk>(alloc, sink, disk)
    } else if word == "verify" {
        verify::<A, MemSink, MemDisk>(alloc, sink, disk)
    } else {
        remake::<A>(alloc, word, other, sink, disk)
    }
}

// Makes a store anew on another disk. The store that was made comes in the place of the one from before.
fn remake<A: RemadeSession + Drop>(
    alloc: Global,
    word: &str,
    other: &str,
    sink: &mut MemSink,
    disk: &mut MemDisk,
) -> Status {
    let Ok(mut made) = other_disk(alloc, other) else {
        return Status::NoMemory;
    };
    let status = if word == "compact" {
        compact::<A, MemSink, MemDisk, MemDisk>(alloc, disk, &mut made, sink)
    } else if word == "copy" {
        copy::<A, MemSink, MemDisk, MemDisk>(alloc, disk, &mut made, sink)
    } else if word == "back" {
        go_back::<A>(alloc, other, disk, &mut made, sink)
    } else {
        Status::Usage
    };
    if status == Status::Done {
        *disk = made;
    }
    status
}

// Goes back to the state after the record with the number of this text.
fn go_back<A: RemadeSession + Drop>(
    alloc: Global,
    number: &str,
    disk: &mut MemDisk,
    made: &mut MemDisk,
    sink: &mut MemSink,
) -> Status {
    match number.parse::<usize>() {
        Ok(number) if number > 0 => {
            back::<A, MemSink, MemDisk, MemDisk>(alloc, number, disk, made, sink)
        }
        _ => Status::Usage,
    }
}

// An empty disk. By these words it has a byte, or its first call fails, or its fourth.
fn other_disk(alloc: Global, other: &str) -> Result<MemDisk, AllocError> {
    let (mut bytes, mut fails) = (Vec::new(alloc), Vec::new(alloc));
    if other == "taken" {
        bytes.push(0u8)?;
    } else if other == "fails-at-once" {
        fails.push(0u64)?;
    } else if other == "fails-later" {
        fails.push(3u64)?;
    }
    MemDisk::new(alloc, Bytes::from_vec(bytes), fails)
}
