//! Lists of records: how payloads are sealed, and how stored records are unsealed.
ghost use Rattle.std.specs.Prelude.{◌≡◌, IfOk, MatchResult, Ok};
ghost use Rattle.sealed_log.specs.SealedLists.{IsUnsealFault, last_seal, sealed, unsealed};

use crate::record::{open_record, seal_record};
use lens_io::{Bytes, Payloads};
use std::alloc::{AllocError, AllocFailed, Global};

/// The seal before the first record.
pub const FIRST_SEAL: u32 = 0;

/// The payloads of stored records.
#[derive(Drop)]
pub struct Unsealed {
    /// The payloads, in order.
    pub payloads: Payloads,
    /// The seal of the last one.
    pub last: u32,
}

/// Why stored records have no payloads.
#[derive(Clone, Copy, Debug, PartialEq, Eq)]
pub enum UnsealFault {
    /// This is the first record that is not the one with its number, behind the record before.
    BadRecord {
        /// Its number, counted from 1.
        number: u64,
    },
    /// Memory ran out.
    NoMemory,
}

/// Seals payloads as the records of a log. The only error is running out of memory.
pub fn seal(alloc: Global, payloads: &[Bytes]) -> Result<Payloads, AllocError>
    ensures { IfOk result (λ stored. stored ≡ sealed payloads.now) }
{
    let mut records = Vec::with_capacity(alloc, payloads.len())?;
    let mut before = FIRST_SEAL;
    for i in 0..payloads.len() {
        let record = seal_record(alloc, before, i as u64 + 1, payloads[i].as_slice())?;
        before = record.seal;
        records.push(record.bytes)?;
    }
    Ok(Payloads::from_vec(records))
}

/// Unseals the records of a log.
///
/// - `BadRecord`: if and only if the record with this number is the first that is bad.
/// - `NoMemory`: only if memory ran out.
pub fn unseal(alloc: Global, stored: &[Bytes]) -> Result<Unsealed, UnsealFault>
    ensures payloads { MatchResult result
        (λ it. unsealed stored.now ≡ Ok it.payloads)
        (IsUnsealFault stored.now) }
    ensures last { IfOk result (λ it. it.last ≡ last_seal it.payloads) }
{
    let mut payloads = Vec::with_capacity(alloc, stored.len())?;
    let mut last = FIRST_SEAL;
    for i in 0..stored.len() {
        let number = i as u64 + 1;
        let Some(record) = open_record(alloc, last, number, stored[i].as_slice())? else {
            return Err(UnsealFault::BadRecord { number });
        };
        last = record.seal;
        payloads.push(record.payload)?;
    }
    Ok(Unsealed {
        payloads: Payloads::from_vec(payloads),
        last,
    })
}

impl From<AllocError> for UnsealFault {
    ghost use Rattle.std.specs.Prelude.{◌≡◌};
    ghost use Rattle.sealed_log.specs.declared.lists.UnsealFault.TheVariants.{NoMemory};

    ghost from_gives = { λ _ fault. fault ≡ NoMemory };

    fn from(_: AllocError) -> Self {
        UnsealFault::NoMemory
    }
}

impl<T: Drop> From<AllocFailed<T>> for UnsealFault {
    ghost use Rattle.std.specs.Prelude.{◌≡◌};
    ghost use Rattle.sealed_log.specs.declared.lists.UnsealFault.TheVariants.{NoMemory};

    ghost from_gives = { λ _ fault. fault ≡ NoMemory };

    fn from(_: AllocFailed<T>) -> Self {
        UnsealFault::NoMemory
    }
}
