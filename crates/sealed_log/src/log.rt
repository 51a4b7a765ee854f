//! The log of sealed records: its calls, and what a crash leaves of them.
ghost use Rattle.std.specs.Prelude.{◌≡◌, ◌⊎◌, ◌+◌, ◌-◌, ◌^◌, ◌<◌, ◌≤◌, [], ◌∷◌, ◌++◌, List, ℕ, true, length};
ghost use Rattle.std.specs.Prelude.{IfOk, IfErr, OnOk, MatchResult, IsErrOf, IfSome, IsNone};
ghost use Rattle.lens_io.specs.Causes.{Increased};
ghost use Rattle.lens_io.specs.DiskRuns.{LeavesOnly, OnlyReads};
ghost use Rattle.lens_io.specs.Disks.{Steps};
ghost use Rattle.gate_log.specs.CallEnds.{IsAppendFault, IsCreateFault, IsPayloadsFault, IsSynced, NoBadRecord};
ghost use Rattle.gate_log.specs.LogOnDisk.{IsBehind};
ghost use Rattle.gate_log.specs.Steps.{KeepsBehind};
ghost use Rattle.sealed_log.specs.SealedLogs.{HoldsSealed, HoldsSealedOneMore, IsSealedRefusal, SealedAppendEnds};
ghost use Rattle.sealed_log.specs.SealedLogs.{SealedAppendLeaves, SealedStands, SealedState, after_sealed_append};
ghost use Rattle.sealed_log.specs.SealedLogs.{next_record};

use crate::lists::{FIRST_SEAL, UnsealFault, unseal};
use crate::record::seal_record;
use gate_log::{Log, LogFault, create_log, open_log};
use lens_io::{Disk, Payloads};
use std::alloc::Global;
use std::marker::Model;

/// A log of sealed records on a disk. It keeps the seal of its last record, and no payload.
#[derive(Drop)]
pub struct SealedLog {
    stored: Log,
    last: u32,
}

impl Model for SealedLog {
    ghost use Rattle.sealed_log.specs.SealedLogs.{SealedState};

    ghost Value = { SealedState };

    ghost view = { λ log. record { stored = log.stored; last = log.last } };
}

/// A log that was opened, and its payloads.
#[derive(Drop)]
pub struct OpenedLog {
    /// The log.
    pub log: SealedLog,
    /// Its payloads, in order.
    pub payloads: Payloads,
}

/// Makes an empty log on an empty disk.
///
/// - `LogExists`: if and only if the disk is not empty. Nothing is written then.
/// - `DiskFault`: only if the disk's count of faults increased. A crash may then leave any bytes.
///
/// It does not allocate. A crash during the call may leave any bytes, too. Whatever comes, the disk is no longer than
/// the empty log if it was empty (`rest`).
pub fn create_sealed_log<D: Disk>(disk: &mut D) -> Result<SealedLog, LogFault>
    ensures log { IfOk result (λ log. log
        ≡ record { stored = record { gate = 8; count = 0; sound = true }; last = 0 }) }
    ensures stands { IfOk result (λ log.
        SealedStands (D.content disk.new) (D.images disk.new) log []) }

    ensures was_empty { OnOk result (IfSome (D.content disk.old) (λ bytes. length bytes ≡ 0)) }
    ensures exists { IsErrOf result LogFault.LogExists
        → IfSome (D.content disk.old) (λ bytes. 0 < length bytes) }
    ensures kept { IfSome (D.content disk.old) (λ bytes. 0 < length bytes →
        OnlyReads D.Disk disk.old disk.new) }
    ensures unwritten { IsErrOf result LogFault.LogExists →
        OnlyReads D.Disk disk.old disk.new }

    ensures rest { Steps (KeepsBehind 9) (D.content disk.old) (D.content disk.new) }
    ensures faults { D.faults disk.old ≤ D.faults disk.new }
    ensures room { D.room disk.new ≡ D.room disk.old }
    ensures possible { IfErr result IsCreateFault }
    ensures cause { IsErrOf result LogFault.DiskFault
        → Increased (D.faults disk.old) (D.faults disk.new) }
    ensures sure { IsErrOf result LogFault.DiskFault
        → IfSome (D.room disk.old) (λ most. most < 9) }
{
    let stored = create_log(disk)?;
    Ok(SealedLog {
        stored,
        last: FIRST_SEAL,
    })
}

/// Opens the log of sealed records that the disk holds, and reads its payloads. It begins with a sync, and writes
/// nothing.
///
/// - `NotALog`: if and only if the disk has fewer than 9 bytes or does not begin with the mark.
/// - `BadRecord`: if and only if this record's gate is open and the record passes the end of the disk; or no record
///   does, and this one is the first that is not sealed with its number behind the one before.
/// - `DiskFault`: only if the disk's count of faults increased.
/// - `NoMemory`: only if memory ran out.
pub fn open_sealed_log<D: Disk>(alloc: Global, disk: &mut D) -> Result<OpenedLog, LogFault>
    ensures log { MatchResult result
        (λ opened. IfSome (D.content disk.old) (HoldsSealed opened.payloads)
        × SealedStands (D.content disk.new) (D.images disk.new) opened.log opened.payloads)
        (IsSealedRefusal (D.content disk.old)) }

    // A crash leaves what it might have left before, and after the sync what a read gives.
    ensures content { D.content disk.new ≡ D.content disk.old }
    ensures moments { LeavesOnly D.Disk disk.old disk.new (D.images disk.old) }
    ensures images { (c : List ℕ) → D.images disk.new c → D.images disk.old c }
    ensures synced { IsSynced (D.content disk.old) (D.images disk.old) (D.images disk.new) result }

    ensures faults { D.faults disk.old ≤ D.faults disk.new }
    ensures room { D.room disk.new ≡ D.room disk.old }
    ensures unwritten { D.writes disk.new ≡ D.writes disk.old }
    ensures cause { IsErrOf result LogFault.DiskFault
        → Increased (D.faults disk.old) (D.faults disk.new) }
    ensures sure { IsErrOf result LogFault.DiskFault → IsNone (D.room disk.old) }
{
    let stored = open_log(disk)?;
    let records = stored.payloads(alloc, disk)?;
    let unsealed = unseal(alloc, records.as_slice())?;
    Ok(OpenedLog {
        log: SealedLog {
            stored,
            last: unsealed.last,
        },
        payloads: unsealed.payloads,
    })
}

impl SealedLog {
    /// Seals a payload and adds it. At `Ok` it is the last one, and each image that a crash leaves from then on has it.
    ///
    /// - `LogFull`: only if the log would pass 2^63 - 1 bytes; and then it is that, if memory does not run out. The log
    ///   and the disk are as they were.
    /// - `NoMemory`: only if memory ran out, before any call of the disk. The log and the disk are as they were.
    /// - `DiskFault`: only if the disk's count of faults increased. The log has to be opened again. It then has the
    ///   payloads from before, with the new one or without.
    ///
    /// A crash at any moment of the call leaves the payloads from before, with the new one or without. Whatever comes,
    /// what was behind the place where the log ends then stays (`rest`).
    pub fn append<D: Disk>(
        &mut self,
        alloc: Global,
        disk: &mut D,
        payload: &[u8],
    ) -> Result<(), LogFault>
        requires sound { self.old.stored.sound ≡ true }
        requires behind { IsBehind (D.content disk.old) (D.images disk.old) self.old.stored }

        ensures behind { OnOk result
            (IsBehind (D.content disk.new) (D.images disk.new) self.new.stored) }

        // These hold of the payloads that the log has, which are known if the disk's content is.
        ensures ends { (held : List (List ℕ))
            → SealedStands (D.content disk.old) (D.images disk.old) self.old held
            → SealedAppendEnds (SealedStands (D.content disk.new) (D.images disk.new) self.new)
            (D.images disk.new) held payload.now result }
        ensures read { (held : List (List ℕ))
            → SealedStands (D.content disk.old) (D.images disk.old) self.old held
            → IfSome (D.content disk.new) (HoldsSealedOneMore held payload.now) }
        ensures moments { (held : List (List ℕ))
            → SealedStands (D.content disk.old) (D.images disk.old) self.old held
            → LeavesOnly D.Disk disk.old disk.new
            (SealedAppendLeaves held payload.now result) }

        ensures rest { Steps
            (KeepsBehind (self.old.stored.gate + 10 + length (next_record self.old payload.now)))
            (D.content disk.old) (D.content disk.new) }
        ensures log { self.new ≡ after_sealed_append self.old payload.now result }
        ensures faults { D.faults disk.old ≤ D.faults disk.new }
        ensures room { D.room disk.new ≡ D.room disk.old }
        ensures possible { IfErr result IsAppendFault }
        ensures full { IsErrOf result LogFault.LogFull
            → 2 ^ 63 - 1 < self.old.stored.gate + 10 + length (next_record self.old payload.now) }
        ensures full_or_no_memory { 2 ^ 63 - 1 < self.old.stored.gate + 10 + length (next_record self.old payload.now)
            → IsErrOf result LogFault.LogFull ⊎ IsErrOf result LogFault.NoMemory }
        ensures untouched { IsErrOf result LogFault.LogFull ⊎ IsErrOf result LogFault.NoMemory
            → disk.new ≡ disk.old }
        ensures cause { IsErrOf result LogFault.DiskFault
            → Increased (D.faults disk.old) (D.faults disk.new) }
        ensures sure { IsErrOf result LogFault.DiskFault
            → IfSome (D.room disk.old) (λ most.
            most < self.old.stored.gate + 10 + length (next_record self.old payload.now)) }
    {
        let number = self.stored.count().saturating_add(1);
        let record = seal_record(alloc, self.last, number, payload)?;
        self.stored.append(alloc, disk, record.bytes.as_slice())?;
        self.last = record.seal;
        Ok(())
    }

    /// Reads all the payloads, in order. It writes nothing.
    ///
    /// - `BadRecord`: only for one of the log's records, and never if the disk's content is known to hold the log's
    ///   payloads. Else this record's gate or length, as it was read in this call, does not lead to the log's end, or
    ///   the disk's length ends before the record does, or the record is not sealed with its number behind the one
    ///   before.
    /// - `DiskFault`: only if the disk's count of faults increased.
    /// - `NoMemory`: only if memory ran out.
    pub fn payloads<D: Disk>(&self, alloc: Global, disk: &mut D) -> Result<Payloads, LogFault>
        requires sound { self.now.stored.sound ≡ true }
        requires behind { IsBehind (D.content disk.old) (D.images disk.old) self.now.stored }

        ensures all { IfOk result (λ all. IfSome (D.content disk.old) (HoldsSealed all)) }
        ensures count { IfOk result (λ all. length all ≡ self.now.stored.count) }
        ensures behind { IsBehind (D.content disk.new) (D.images disk.new) self.now.stored }
        ensures reads { OnlyReads D.Disk disk.old disk.new }

        // These hold of the payloads that the log has, which are known if the disk's content is.
        ensures payloads { IfOk result (λ all. (held : List (List ℕ))
            → SealedStands (D.content disk.old) (D.images disk.old) self.now held
            → IfSome (D.content disk.old) (λ _. all ≡ held)) }
        ensures stands { (held : List (List ℕ))
            → SealedStands (D.content disk.old) (D.images disk.old) self.now held
            → SealedStands (D.content disk.new) (D.images disk.new) self.now held }
        ensures moments { (held : List (List ℕ))
            → SealedStands (D.content disk.old) (D.images disk.old) self.now held
            → LeavesOnly D.Disk disk.old disk.new (HoldsSealed held) }
        ensures never_bad { (held : List (List ℕ))
            → SealedStands (D.content disk.old) (D.images disk.old) self.now held
            → IfSome (D.content disk.old) (λ _. NoBadRecord result) }
        ensures content { D.content disk.new ≡ D.content disk.old }

        ensures faults { D.faults disk.old ≤ D.faults disk.new }
        ensures possible { IfErr result IsPayloadsFault }
        ensures numbers { (number : ℕ) → IsErrOf result (LogFault.BadRecord number)
            → (1 ≤ number) × (number ≤ self.now.stored.count) }
        ensures cause { IsErrOf result LogFault.DiskFault
            → Increased (D.faults disk.old) (D.faults disk.new) }
        ensures sure { IsErrOf result LogFault.DiskFault → IsNone (D.room disk.old) }
    {
        let records = self.stored.payloads(alloc, disk)?;
        let unsealed = unseal(alloc, records.as_slice())?;
        Ok(unsealed.payloads)
    }

    /// How many records it has.
    pub fn count(&self) -> u64
        ensures { result ≡ self.now.stored.count }
    {
        self.stored.count()
    }

    /// Whether it can be used. It cannot after an `append` that returned `DiskFault`.
    pub fn sound(&self) -> bool
        ensures { result ≡ self.now.stored.sound }
    {
        self.stored.sound()
    }
}

impl From<UnsealFault> for LogFault {
    ghost use Rattle.std.specs.Prelude.{◌≡◌};
    ghost use Rattle.sealed_log.specs.SealedLogs.{log_fault_of};

    ghost from_gives = { λ fault made. made ≡ log_fault_of fault };

    fn from(fault: UnsealFault) -> Self {
        match fault {
            UnsealFault::BadRecord { number } => LogFault::BadRecord { number },
            UnsealFault::NoMemory => LogFault::NoMemory,
        }
    }
}
