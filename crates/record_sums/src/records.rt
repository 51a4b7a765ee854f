//! The checksum of a record.
ghost use Rattle.std.specs.Prelude.{◌≡◌};
ghost use Rattle.record_sums.specs.Records.{record_sum};

use crate::castagnoli::crc32c;

/// The checksum of a record: of the checksum of the record before, of the record's number, and of its payload. Does
/// not allocate.
pub fn record_sum(before: u32, number: u64, payload: &[u8]) -> u32
    ensures { result ≡ record_sum before number payload.now }
{
    let sum = crc32c(0, &before.to_le_bytes());
    let sum = crc32c(sum, &number.to_le_bytes());
    crc32c(sum, payload)
}
