//! The lines that say how many changes a store has.
ghost use Rattle.std.specs.Prelude.{◌≡◌, IfOk};
ghost use Rattle.store_run.specs.CountLines.{packed_line, consistent_line};

use std::alloc::{AllocError, Global};
use texts::Bytes;

/// `packed N` and a line feed. The only error is running out of memory.
pub(crate) fn packed_line(alloc: Global, count: u64) -> Result<Bytes, AllocError>
    ensures { IfOk result (λ line. line ≡ packed_line count) }
{
    let line = format!(in alloc; "packed {count}\n")?;
    Ok(Bytes::from_vec(line.into_bytes()))
}

/// `consistent N` and a line feed. The only error is running out of memory.
pub(crate) fn consistent_line(alloc: Global, count: u64) -> Result<Bytes, AllocError>
    ensures { IfOk result (λ line. line ≡ consistent_line count) }
{
    let line = format!(in alloc; "consistent {count}\n")?;
    Ok(Bytes::from_vec(line.into_bytes()))
}
