//! The top call over the real streams and the file of the store.
use crate::words::only_reads;
use crate::{Status, edithub};
use command_words::given_words;
use lens_io::{Access, RealDisk, RealSink, RealSource};
use std::io;

/// The file of the store, in the current folder.
const STORE: &str = "edithub.store";

/// The program: the top call with the words of the command line, over standard input, standard output and the file
/// `edithub.store` of the current folder. The file is opened at the first call of the disk, and made by the first
/// write.
///
/// `show` and `verify` open the file for reading. The commands that write it hold a lock on the folder from before
/// their first look at the file to their end, and end with `DiskFault` if another program holds it.
///
/// The status is that of [`edithub`], or `NoMemory` if memory ran out at the words. What the streams and the file give
/// and take is not known to the prover, so no clause speaks of it; nothing is written to standard error.
pub fn run_program(rt: &HostRuntime) -> Status {
    let Ok(words) = given_words(rt) else {
        return Status::NoMemory;
    };
    let mut source = RealSource::new(rt.stdin());
    let mut sink = RealSink::new(io::writer(rt));
    let access = if only_reads(&words) {
        Access::Reading
    } else {
        Access::Writing
    };
    let mut disk = RealDisk::new(rt, STORE, access);
    edithub(rt.alloc(), &words, &mut source, &mut sink, &mut disk)
}
