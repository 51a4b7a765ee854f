//! A disk that is as long as a disk can be, without its bytes.
ghost use Rattle.std.specs.Prelude.{◌≡◌, ◌+◌, ◌-◌, ◌^◌, ◌<◌, ◌≤◌, ℕ, length, None, Some, IfOk, is_ok, Ok};

use gate_log::open_log;
use lens_io::{Bytes, Disk, Failed, MemSink};
use std::alloc::Global;
use store_run::{Stop, pack_store};

// The longest disk.
const MOST: u64 = (1 << 63) - 1;

// The mark and the open gate of the one record.
const START: &[u8] = b"EDLENS1\n\x01";

// A disk whose log has one record, with a payload of zeros of this size, and then its closed gate. It writes nothing,
// and its content is not known to contracts. Once it is lost each of its bytes is 0.
#[derive(Drop)]
struct FarDisk {
    size: u64,
    is_lost: bool,
}

impl FarDisk {
    // The byte at a place.
    fn byte_at(&self, at: u64) -> u8 {
        match START.get(at as usize) {
            Some(byte) => *byte,
            None => match self
                .size
                .to_le_bytes()
                .get(at.saturating_sub(START.len() as u64) as usize)
            {
                Some(byte) => *byte,
                None => 0,
            },
        }
    }
}

impl Disk for FarDisk {
    ghost content = { λ _. None };

    ghost images = { λ _ _. ⊥ };

    ghost moment = { λ _. 0 };

    ghost images_since = { λ _ _ _. ⊥ };

    ghost faults = { λ _. 0 };

    ghost room = { λ _. None };

    ghost writes = { λ _. 0 };

    ghost counts_now = { λ s t c le now. now };

    ghost only_now = { λ s c was. was };

    ghost since_is_told = { λ s t c was. absurd was };

    ghost content_is_image = { λ s c now. absurd now };

    fn len(&mut self) -> Result<u64, Failed> {
        Ok(MOST)
    }

    fn read_at(&mut self, at: u64, into: &mut [u8]) -> Result<(), Failed> {
        for (i, byte) in into.iter_mut().enumerate() {
            *byte = if self.is_lost {
                0
            } else {
                self.byte_at(at.saturating_add(i as u64))
            };
        }
        Ok(())
    }

    fn write_at(&mut self, _at: u64, _bytes: &[u8]) -> Result<(), Failed> {
        Ok(())
    }

    fn sync(&mut self) -> Result<(), Failed> {
        Ok(())
    }
}

// The disk whose closed gate is `left` bytes before the end of the longest disk.
fn far_disk(left: u64) -> FarDisk {
    FarDisk {
        size: MOST.saturating_sub(left).saturating_sub(17),
        is_lost: false,
    }
}

/// What a call returns with the closed gate `left` bytes before the end of the longest disk: 0 is `append` of so many
/// bytes, 1 `payloads`, whose one record fits in no memory, and 2 `payloads` after the disk has lost its bytes.
pub fn far_call(alloc: Global, call: u64, count: u64, left: u64) -> anyhow::Result<String> {
    let mut disk = far_disk(left);
    let mut log = open_log(&mut disk)?;
    let result = match call {
        0 => {
            let payload = vec![in alloc; 7; count as usize]?;
            log.append(alloc, &mut disk, &payload)
        }
        _ => {
            disk.is_lost = call == 2;
            log.payloads(alloc, &mut disk).map(drop)
        }
    };
    match result {
        Ok(()) => Ok(String::from_str(alloc, "ok")?),
        Err(fault) => Ok(format!(in alloc; "{fault}")?),
    }
}

// A version record, and a snapshot.
const RECORD: &[u8; 8] = b"8 bytes.";

/// What `pack_store` returns over the same disk, for a version record and a snapshot of 8 bytes each, and how many
/// bytes it has written.
pub fn far_pack(alloc: Global, left: u64) -> anyhow::Result<String> {
    let version = Some(Bytes::from_vec(RECORD.to_vec(alloc)?));
    let mut sink = MemSink::new(alloc, Vec::new(alloc), Vec::new(alloc));
    let mut disk = far_disk(left);
    let mut log = open_log(&mut disk)?;
    let ended = pack_store(
        alloc,
        &mut log,
        &mut disk,
        &mut sink,
        &version,
        RECORD,
        b"packed 0\n",
    );
    told(alloc, ended, sink.bytes().len())
}

// How a call ended that writes.
fn told(alloc: Global, ended: Result<(), Stop>, written: usize) -> anyhow::Result<String> {
    match ended {
        Ok(()) => Ok(format!(in alloc; "ok, {written} bytes written")?),
        Err(Stop::LogFull) => Ok(format!(in alloc; "the log is full, {written} bytes written")?),
        Err(_) => Ok(String::from_str(alloc, "another stop")?),
    }
}
