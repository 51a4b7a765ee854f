//! The words that the process was started with.

use std::alloc::AllocError;
use std::env;
use std::io::ErrorKind;

/// The words of the command line, the program's name first. Words that are not text are given as no words, which name
/// no command. The only error is running out of memory.
pub fn given_words(rt: &HostRuntime) -> Result<Vec<String>, AllocError> {
    match env::args(rt) {
        Ok(words) => words.collect(rt.alloc()),
        Err(fault) if fault.kind() == ErrorKind::OutOfMemory => Err(AllocError),
        Err(_) => Ok(Vec::new(rt.alloc())),
    }
}
