//! The words for causes and faults, and the bytes of a text.
ghost use Rattle.std.specs.Prelude.{◌≡◌, ◌≢◌, Some, string_bytes};
ghost use Rattle.edit_journal.specs.EntryJson.{LineFault};
ghost use Rattle.edit_journal.specs.Reading.{cause_of};
ghost use Rattle.answer_text.specs.Reasons.{cause_text, fault_text};

use edit_journal::EntryFault;
use edit_module::Cause;
use texts::Bytes;

/// The word for a cause, as it stands in an answer line.
pub fn cause_text(cause: Cause) -> &'static str
    ensures { result.now ≡ cause_text cause }
{
    match cause {
        Cause::Kind => "kind",
        Cause::Place => "place",
        Cause::Tag => "tag",
        Cause::Range => "range",
        Cause::Overflow => "overflow",
        Cause::Value => "value",
        Cause::Present => "present",
        Cause::Length => "length",
        Cause::Deep => "deep",
    }
}

pub(crate) fn fault_text(fault: EntryFault) -> &'static str
    requires { fault ≢ EntryFault.NoMemory }
    ensures { (cause : LineFault) → cause_of fault ≡ Some cause → result.now ≡ fault_text cause }
{
    match fault {
        EntryFault::LineTooLong => "line-too-long",
        EntryFault::NotJson => "not-json",
        EntryFault::NotAnEntry => "not-an-entry",
        EntryFault::NotAnEdit => "not-an-edit",
        EntryFault::NoMemory => unreachable!(),
    }
}

/// The bytes of a text. The call does not allocate.
pub fn bytes_of(text: String) -> Bytes
    ensures { result ≡ string_bytes text }
{
    Bytes::from_vec(text.into_bytes())
}
