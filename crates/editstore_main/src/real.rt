//! The top call over the real output and the files of the store and of the new one.
use crate::words::{StoreKind, read_order};
use crate::{Status, editstore};
use command_words::given_words;
use lens_io::{Access, RealDisk, RealSink};
use std::io;

/// The program: the top call with the words of the command line, over standard output and two files.
///
/// The store is the file `editlens.store` of the current folder, and of a hub `edithub.store`. It is opened for
/// reading. The new store is the file of the same name in the folder `.editlens.new` of the current folder. The program
/// makes no folder, and ends with `DiskFault` if there is none. The file is made by the first write, and synced with
/// its folder. It is locked as the programs lock a store that they write. A caller that holds the lock of the current
/// folder may rename it to the name of the store after `Done`.
///
/// The status is that of [`editstore`], or `NoMemory` if memory ran out at the words. What the streams and the files
/// give and take is not known to the prover, so no clause speaks of it; nothing is written to standard error.
pub fn run_program(rt: &HostRuntime) -> Status {
    let Ok(words) = given_words(rt) else {
        return Status::NoMemory;
    };
    let mut sink = RealSink::new(io::writer(rt));
    let is_hub = matches!(read_order(&words), Some(order) if order.kind == StoreKind::Hub);
    let (store, new_store) = files_of(is_hub);
    let mut from = RealDisk::new(rt, store, Access::Reading);
    let mut to = RealDisk::new(rt, new_store, Access::Writing);
    editstore(rt.alloc(), &words, &mut sink, &mut from, &mut to)
}

// The file of the store, and that of the new one.
fn files_of(is_hub: bool) -> (&'static str, &'static str) {
    if is_hub {
        ("edithub.store", ".editlens.new/edithub.store")
    } else {
        ("editlens.store", ".editlens.new/editlens.store")
    }
}
