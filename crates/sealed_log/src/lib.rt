//! A log whose records carry seals, which notice what was changed, moved or left out.
//!
//! Each record of the log below is the caller's payload with its number and a seal: a checksum of the seal before, of
//! the number and of all that is behind the seal. How a record is stored is `sealed_record` in specs/SealedRecords, how
//! a list is `sealed` in specs/SealedLists, and what a disk has to do with a log is `SealedStands` in specs/SealedLogs.
//!
//! The laws here say what is noticed for certain: a change within 32 adjacent bits of a record, and each record at
//! another place than its own. Records that are left out at the end are not noticed. Whoever changes records on purpose
//! can seal them as well, so seals are no protection against them.
#![tactic(auto)]

mod laws;
mod lists;
mod log;
mod record;

pub use laws::{
    a_changed_burst_is_refused, a_changed_byte_is_refused, a_moved_record_is_refused,
    a_prefix_is_sealed, another_logs_record, different_seals_stay_different, sealed_lists_unseal,
    sealed_logs_are_read,
};
pub use lists::{FIRST_SEAL, UnsealFault, Unsealed, seal, unseal};
pub use log::{OpenedLog, SealedLog, create_sealed_log, open_sealed_log};
pub use record::{OpenedRecord, SealedRecord, open_record, seal_record};
