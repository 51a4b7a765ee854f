//! CRC-32C of bytes.
ghost use Rattle.std.specs.Prelude.{◌≡◌};
ghost use Rattle.record_sums.specs.Crc32c.{crc32c, step};

use crate::table::SHIFTED_BYTES;

/// The CRC-32C of bytes, and of those before them, whose sum is given. No bytes have the sum 0, so `crc32c(0, bytes)`
/// is the sum of these bytes alone. Does not allocate.
pub fn crc32c(before: u32, bytes: &[u8]) -> u32
    ensures { result ≡ crc32c before bytes.now }
{
    let mut state = before ^ u32::MAX;
    for &byte in bytes {
        state = step(state, byte);
    }
    state ^ u32::MAX
}

// The state after one more byte.
fn step(state: u32, byte: u8) -> u32
    ensures { result ≡ step state byte }
{
    let low = (state ^ u32::from(byte)) % 256;
    (state >> 8) ^ SHIFTED_BYTES[low as usize]
}
