//! The lines that say what was made of a store.
ghost use Rattle.std.specs.Prelude.{◌≡◌, IfOk};
ghost use Rattle.store_copy.specs.NewPayloads.{back_line, compacted_line, copied_line};

use std::alloc::{AllocError, Global};

/// `compacted N M` and a line feed. The only error is running out of memory.
pub(crate) fn compacted_line(
    alloc: Global,
    before: usize,
    after: usize,
) -> Result<Vec<u8>, AllocError>
    ensures { IfOk result (λ line. line.items ≡ compacted_line before after) }
{
    let line = format!(in alloc; "compacted {before} {after}\n")?;
    Ok(line.into_bytes())
}

/// `copied N` and a line feed. The only error is running out of memory.
pub(crate) fn copied_line(alloc: Global, count: usize) -> Result<Vec<u8>, AllocError>
    ensures { IfOk result (λ line. line.items ≡ copied_line count) }
{
    let line = format!(in alloc; "copied {count}\n")?;
    Ok(line.into_bytes())
}

/// `back N` and a line feed. The only error is running out of memory.
pub(crate) fn back_line(alloc: Global, number: usize) -> Result<Vec<u8>, AllocError>
    ensures { IfOk result (λ line. line.items ≡ back_line number) }
{
    let line = format!(in alloc; "back {number}\n")?;
    Ok(line.into_bytes())
}
