//! Each call that allocates once with its result compared, devices that fail on demand, and a reader and a writer that
//! fail.
ghost use Rattle.std.specs.Prelude.{◌≡◌, ◌<◌, All};

use lens_io::{
    Access, Bytes, Disk, Failed, GiveFault, MemDisk, MemSink, MemSource, RealDisk, RealSink,
    RealSource, Sink, SureDisk, SureSink, SureSource, TakeFault, give_all, take_all,
};
use std::alloc::{AllocError, Global};
use std::fs::{self, File};
use std::io::{self, ErrorKind, Read, Write};
use std::os::unix::fs::symlink;
use std::test::Fail;

// A source of five bytes whose first two pieces have 1 and 2 bytes, and whose call with this number fails.
fn five(alloc: Global, fails: u64) -> Result<MemSource, AllocError> {
    let bytes = Bytes::from_vec(b"abcde".as_slice().to_vec(alloc)?);
    let pieces = vec![in alloc; 1, 2]?;
    Ok(MemSource::new(bytes, pieces, vec![in alloc; fails]?))
}

#[test]
fn a_source_gives_pieces_and_fails(rt: HostRuntime) -> Result<(), Fail> {
    let alloc = rt.alloc();
    // three pieces and the end are four calls
    let bytes = take_all(alloc, &mut five(alloc, 4)?, 5)?;
    assert_eq!(rt; bytes.as_slice(), b"abcde".as_slice());
    for fails in 0..4 {
        let fault = take_all(alloc, &mut five(alloc, fails)?, 5);
        assert_eq!(rt; fault.err(), Some(TakeFault::SourceFault));
    }
    let fault = take_all(alloc, &mut five(alloc, 4)?, 4);
    assert_eq!(rt; fault.err(), Some(TakeFault::TooLong));
    Ok(())
}

#[test]
fn a_sink_takes_pieces_and_fails(rt: HostRuntime) -> Result<(), Fail> {
    let alloc = rt.alloc();
    // the lengths of the first pieces, the call that fails, and how many bytes the sink has at the end
    for (second, fails, held) in [(1, 3, 5), (0, 9, 2), (1, 1, 2), (1, 0, 0)] {
        let mut sink = MemSink::new(alloc, vec![in alloc; 2, second]?, vec![in alloc; fails]?);
        let result = give_all(&mut sink, b"abcde");
        assert_eq!(rt; result.is_ok(), held == 5, "at {fails}");
        assert_eq!(rt; sink.bytes().len(), held);
        assert_eq!(rt; sink.memory_faults(), 0);
    }
    Ok(())
}

#[test]
fn sure_devices_never_fail(rt: HostRuntime) -> Result<(), Fail> {
    let alloc = rt.alloc();
    let mut source = SureSource::new(Bytes::from_vec(b"abc".as_slice().to_vec(alloc)?));
    let bytes = take_all(alloc, &mut source, 3)?;
    assert_eq!(rt; bytes.as_slice(), b"abc".as_slice());
    let mut sink = SureSink::new(alloc, 2)?;
    assert_eq!(rt; sink.give(b"abc"), Ok(2));
    assert_eq!(rt; give_all(&mut sink, b"d"), Err(GiveFault::SinkFault));
    assert_eq!(rt; sink.bytes(), b"ab".as_slice());
    Ok(())
}

// Pieces have 65,536 and 131,072 bytes, so the rest and the end are the third and the fourth call.
#[test]
fn pieces_grow(rt: HostRuntime) -> Result<(), Fail> {
    let alloc = rt.alloc();
    for fails in [3, 4] {
        let bytes = Bytes::from_vec(vec![in alloc; 7; 250_000]?);
        let mut source = MemSource::new(bytes, Vec::new(alloc), vec![in alloc; fails]?);
        let result = take_all(alloc, &mut source, 250_000);
        assert_eq!(rt; result.is_ok(), fails == 4);
    }
    Ok(())
}

// A reader and a writer that fail at their third call.
#[derive(Drop)]
struct Broken {
    calls: u8,
}

impl Read for Broken {
    fn read(&mut self, into: &mut [u8]) -> io::Result<usize> {
        self.calls = self.calls.saturating_add(1);
        if self.calls == 3 || into.is_empty() {
            return Err(io::Error::from(ErrorKind::BrokenPipe));
        }
        into[0] = b'r';
        Ok(1)
    }
}

impl Write for Broken {
    fn write(&mut self, bytes: &[u8]) -> io::Result<usize> {
        self.calls = self.calls.saturating_add(1);
        if self.calls == 3 {
            return Err(io::Error::from(ErrorKind::BrokenPipe));
        }
        Ok(bytes.len().min(1))
    }

    fn flush(&mut self) -> io::Result<()> {
        Ok(())
    }
}

#[test]
fn a_reader_is_a_source(rt: HostRuntime) -> Result<(), Fail> {
    let alloc = rt.alloc();
    let bytes = take_all(alloc, &mut RealSource::new(b"ab\nc".as_slice()), 4)?;
    assert_eq!(rt; bytes.as_slice(), b"ab\nc".as_slice());
    let fault = take_all(alloc, &mut RealSource::new(Broken { calls: 0 }), 9);
    assert_eq!(rt; fault.err(), Some(TakeFault::SourceFault));
    Ok(())
}

#[test]
fn a_writer_is_a_sink(rt: HostRuntime) -> Result<(), Fail> {
    let mut out = Vec::new(rt.alloc());
    give_all(&mut RealSink::new(&mut out), b"ab\nc")?;
    assert_eq!(rt; out.as_slice(), b"ab\nc".as_slice());
    let mut broken = RealSink::new(Broken { calls: 0 });
    assert_eq!(rt; give_all(&mut broken, b"abc"), Err(GiveFault::SinkFault));
    assert_eq!(rt; broken.give(b"d"), Ok(1));
    Ok(())
}

// A write, a sync and a write that fails. Of the last one a crash leaves all its bytes, or others in their place.
#[test]
fn a_disk_in_memory_fails_and_crashes(rt: HostRuntime) -> Result<(), Fail> {
    let alloc = rt.alloc();
    let start = Bytes::from_vec(b"abc".as_slice().to_vec(alloc)?);
    let mut disk = MemDisk::new(alloc, start, vec![in alloc; 2]?)?;
    assert_eq!(rt; disk.write_at(4, b"ef"), Ok(()));
    assert_eq!(rt; disk.sync(), Ok(()));
    assert_eq!(rt; disk.write_at(1, b"BC"), Err(Failed));
    assert_eq!(rt; disk.bytes(), b"abc\0ef".as_slice());
    for (kept, fill, image) in [
        (0, b'-', b"a--\0ef".as_slice()),
        (1, b'-', b"aBC\0ef".as_slice()),
    ] {
        assert_eq!(rt; disk.after_crash(alloc, kept, fill)?.as_slice(), image);
    }
    assert_eq!(rt; disk.len(), Ok(6));
    assert_eq!(rt; disk.memory_faults(), 0);
    Ok(())
}

#[test]
fn a_sure_disk_fails_past_its_room(rt: HostRuntime) -> Result<(), Fail> {
    let alloc = rt.alloc();
    let start = Bytes::from_vec(b"abc".as_slice().to_vec(alloc)?);
    let mut disk = SureDisk::new(alloc, start, 5)?;
    assert_eq!(rt; disk.write_at(3, b"def"), Err(Failed));
    assert_eq!(rt; disk.write_at(3, b"de"), Ok(()));
    assert_eq!(rt; disk.sync(), Ok(()));
    assert_eq!(rt; disk.bytes(), b"abcde".as_slice());
    if disk.len()? == 5 {
        let mut last = [0; 2];
        disk.read_at(3, &mut last)?;
        assert_eq!(rt; last, *b"de");
    }
    Ok(())
}

// A file that is missing has length 0 and is made by the first write. Another disk over it then reads what was written.
#[test]
fn a_file_is_a_disk(rt: HostRuntime) -> Result<(), Fail> {
    const FOLDER: &str = "devices_tests_folder";
    const FILE: &str = "devices_tests_folder/file";
    let _ = fs::remove_file(&rt, FILE);
    let _ = fs::create_dir(&rt, FOLDER);
    let mut disk = RealDisk::new(&rt, FILE, Access::Writing);
    let mut read = [0; 3];
    assert_eq!(rt; disk.len(), Ok(0));
    assert_eq!(rt; disk.sync(), Ok(()));
    assert_eq!(rt; disk.read_at(0, &mut read), Err(Failed));
    assert_eq!(rt; disk.write_at(2, b"cd"), Ok(()));
    assert_eq!(rt; disk.sync(), Ok(()));
    let mut again = RealDisk::new(&rt, FILE, Access::Reading);
    assert_eq!(rt; again.len(), Ok(4));
    assert_eq!(rt; again.read_at(1, &mut read), Ok(()));
    assert_eq!(rt; read, *b"\0cd");
    assert_eq!(rt; again.read_at(2, &mut read), Err(Failed));
    assert_eq!(rt;
        RealDisk::new(&rt, FOLDER, Access::Reading).len(),
        Err(Failed)
    );
    drop(disk);
    fs::remove_file(&rt, FILE)?;
    fs::remove_dir(&rt, FOLDER)?;
    let mut late = RealDisk::new(&rt, FILE, Access::Writing);
    assert_eq!(rt; late.write_at(0, b"a"), Err(Failed));
    Ok(())
}

// A disk that writes keeps others that write out of its folder as long as it lives. One that reads is let in, and
// writes nothing.
#[test]
fn one_disk_writes(rt: HostRuntime) -> Result<(), Fail> {
    const FOLDER: &str = "devices_tests_lock";
    const FILE: &str = "devices_tests_lock/file";
    let _ = fs::remove_file(&rt, FILE);
    let _ = fs::create_dir(&rt, FOLDER);
    let mut first = RealDisk::new(&rt, FILE, Access::Writing);
    let mut second = RealDisk::new(&rt, FILE, Access::Writing);
    let mut reader = RealDisk::new(&rt, FILE, Access::Reading);
    assert_eq!(rt; reader.write_at(0, b"a"), Err(Failed));
    assert_eq!(rt; first.len(), Ok(0));
    assert_eq!(rt; second.len(), Err(Failed));
    assert_eq!(rt; second.write_at(0, b"a"), Err(Failed));
    assert_eq!(rt; first.write_at(0, b"bc"), Ok(()));
    assert_eq!(rt; reader.len(), Ok(2));
    assert_eq!(rt; reader.write_at(0, b"a"), Err(Failed));
    assert_eq!(rt; reader.sync(), Ok(()));
    drop(first);
    assert_eq!(rt; second.len(), Ok(2));
    drop(second);
    fs::remove_file(&rt, FILE)?;
    fs::remove_dir(&rt, FOLDER)?;
    Ok(())
}

// A disk that writes opens a file only by its one name, and makes none behind a link. Nothing is written by another.
#[test]
fn a_disk_writes_to_a_file_with_one_name(rt: HostRuntime) -> Result<(), Fail> {
    const FOLDER: &str = "devices_tests_names";
    const FILE: &str = "devices_tests_names/file";
    const OTHER: &str = "devices_tests_names/other";
    let _ = fs::remove_file(&rt, FILE);
    let _ = fs::remove_file(&rt, OTHER);
    let _ = fs::create_dir(&rt, FOLDER);
    symlink(&rt, "file", OTHER)?;
    let mut dangling = RealDisk::new(&rt, OTHER, Access::Writing);
    assert_eq!(rt; dangling.len(), Err(Failed));
    assert_eq!(rt; dangling.write_at(0, b"a"), Err(Failed));
    drop(dangling);
    assert!(rt; !fs::exists(&rt, FILE)?);
    fs::write(&rt, FILE, "ab")?;
    let mut linked = RealDisk::new(&rt, OTHER, Access::Writing);
    assert_eq!(rt; linked.len(), Err(Failed));
    assert_eq!(rt; linked.write_at(0, b"c"), Err(Failed));
    drop(linked);
    assert_eq!(rt; RealDisk::new(&rt, OTHER, Access::Reading).len(), Ok(2));
    fs::remove_file(&rt, OTHER)?;
    fs::hard_link(&rt, FILE, OTHER)?;
    let mut doubled = RealDisk::new(&rt, FILE, Access::Writing);
    assert_eq!(rt; doubled.len(), Err(Failed));
    assert_eq!(rt; doubled.write_at(0, b"c"), Err(Failed));
    drop(doubled);
    assert_eq!(rt; RealDisk::new(&rt, FILE, Access::Reading).len(), Ok(2));
    assert_eq!(rt; fs::read(&rt, FILE)?.as_slice(), b"ab".as_slice());
    fs::remove_file(&rt, OTHER)?;
    assert_eq!(rt; RealDisk::new(&rt, FILE, Access::Writing).len(), Ok(2));
    fs::remove_file(&rt, FILE)?;
    fs::remove_dir(&rt, FOLDER)?;
    Ok(())
}

// Once its path leads to another file or to none, a disk that has the old file open writes nothing.
#[test]
fn a_replaced_file_is_not_written(rt: HostRuntime) -> Result<(), Fail> {
    const FOLDER: &str = "devices_tests_replaced";
    const FILE: &str = "devices_tests_replaced/file";
    const NEW: &str = "devices_tests_replaced/new";
    let _ = fs::remove_file(&rt, FILE);
    let _ = fs::remove_file(&rt, NEW);
    let _ = fs::create_dir(&rt, FOLDER);
    let mut disk = RealDisk::new(&rt, FILE, Access::Writing);
    assert_eq!(rt; disk.write_at(0, b"old"), Ok(()));
    fs::hard_link(&rt, FILE, NEW)?;
    assert_eq!(rt; disk.write_at(0, b"two"), Err(Failed));
    fs::remove_file(&rt, NEW)?;
    assert_eq!(rt; disk.write_at(0, b"one"), Ok(()));
    fs::write(&rt, NEW, "new")?;
    fs::rename(&rt, NEW, FILE)?;
    assert_eq!(rt; disk.write_at(0, b"lost"), Err(Failed));
    assert_eq!(rt; fs::read(&rt, FILE)?.as_slice(), b"new".as_slice());
    fs::remove_file(&rt, FILE)?;
    assert_eq!(rt; disk.write_at(0, b"lost"), Err(Failed));
    assert!(rt; !fs::exists(&rt, FILE)?);
    drop(disk);
    fs::remove_dir(&rt, FOLDER)?;
    Ok(())
}

// The file is locked beside the folder, so that a disk in another folder with the same file in it stays out.
#[test]
fn a_disk_locks_the_file(rt: HostRuntime) -> Result<(), Fail> {
    const FOLDER: &str = "devices_tests_file_lock";
    const FILE: &str = "devices_tests_file_lock/file";
    let _ = fs::create_dir(&rt, FOLDER);
    fs::write(&rt, FILE, "ab")?;
    let file = File::open(&rt, FILE)?;
    file.lock()?;
    let mut disk = RealDisk::new(&rt, FILE, Access::Writing);
    assert_eq!(rt; disk.len(), Err(Failed));
    assert_eq!(rt; disk.write_at(0, b"c"), Err(Failed));
    assert_eq!(rt; RealDisk::new(&rt, FILE, Access::Reading).len(), Ok(2));
    file.unlock()?;
    assert_eq!(rt; disk.write_at(0, b"c"), Ok(()));
    assert!(rt; file.try_lock().is_err());
    drop(disk);
    assert!(rt; file.try_lock().is_ok());
    fs::remove_file(&rt, FILE)?;
    fs::remove_dir(&rt, FOLDER)?;
    Ok(())
}

// Opening a pipe would wait for its other end, so what is not a regular file is not opened at all.
#[test]
fn a_device_of_the_system_is_not_a_disk(rt: HostRuntime) -> Result<(), Fail> {
    for path in ["/dev/null", "/dev/zero", "/"] {
        let mut disk = RealDisk::new(&rt, path, Access::Reading);
        assert_eq!(rt; disk.len(), Err(Failed));
        assert_eq!(rt; disk.sync(), Err(Failed));
    }
    Ok(())
}
