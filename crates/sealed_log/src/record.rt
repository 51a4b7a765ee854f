//! One record: how a payload is sealed, and how a stored record is opened.
ghost use Rattle.std.specs.Prelude.{◌≡◌, ◌++◌, ◌<◌, IfOk, MatchOption, Some, None};
ghost use Rattle.sealed_log.specs.SealedRecords.{opened_record, payload_in, seal_digits, seal_head};
ghost use Rattle.sealed_log.specs.SealedRecords.{seal_of, sealed_body, sealed_record};
ghost use Rattle.std.specs.Char.{digit_char};

use itoa::Buffer;
use lens_io::Bytes;
use record_sums::record_sum;
use std::alloc::{AllocError, Global};

// What is before the digits of the seal.
const HEAD: &[u8; 9] = b"{\"seal\":\"";

// How many bytes are before the body: those of the head and the digits.
const BODY: usize = 17;

// What is between the digits, the number and the payload, and behind the payload.
const NUMBER: &[u8; 11] = b"\",\"number\":";

const RECORD: &[u8; 10] = b",\"record\":";

const END: &[u8; 1] = b"}";

/// A record as it is stored.
#[derive(Drop)]
pub struct SealedRecord {
    /// Its bytes.
    pub bytes: Bytes,
    /// Its seal.
    pub seal: u32,
}

/// A stored record that was opened.
#[derive(Drop)]
pub struct OpenedRecord {
    /// Its payload.
    pub payload: Bytes,
    /// Its seal.
    pub seal: u32,
}

/// Seals a payload as the record with this number, behind a record with the seal `before`. The only error is running
/// out of memory.
pub fn seal_record(
    alloc: Global,
    before: u32,
    number: u64,
    payload: &[u8],
) -> Result<SealedRecord, AllocError>
    ensures bytes { IfOk result (λ it. it.bytes ≡ sealed_record before number payload.now) }
    ensures seal { IfOk result (λ it. it.seal ≡ seal_of before number payload.now) }
{
    let body = body_of(alloc, number, payload)?;
    let seal = record_sum(before, number, &body);
    let bytes = with_seal(alloc, seal, &body)?;
    Ok(SealedRecord { bytes, seal })
}

/// Opens a stored record. `None` means that it is not the record with this number, behind a record with the seal
/// `before`. The only error is running out of memory.
pub fn open_record(
    alloc: Global,
    before: u32,
    number: u64,
    stored: &[u8],
) -> Result<Option<OpenedRecord>, AllocError>
    ensures { IfOk result (λ found. MatchOption found
        (opened_record before number stored.now ≡ None)
        (λ it. (opened_record before number stored.now ≡ Some it.payload)
        × (it.seal ≡ seal_of before number it.payload))) }
{
    let payload = payload_in(number, stored);
    let sealed = seal_record(alloc, before, number, payload)?;
    if sealed.bytes.as_slice() != stored {
        return Ok(None);
    }
    let payload = bytes_of(alloc, payload)?;
    Ok(Some(OpenedRecord {
        payload,
        seal: sealed.seal,
    }))
}

// The same bytes, in a value of their own.
fn bytes_of(alloc: Global, bytes: &[u8]) -> Result<Bytes, AllocError>
    ensures { IfOk result (λ same. same ≡ bytes.now) }
{
    Ok(Bytes::from_vec(bytes.to_vec(alloc)?))
}

// All that is behind the digits.
fn body_of(alloc: Global, number: u64, payload: &[u8]) -> Result<Vec<u8>, AllocError>
    ensures { IfOk result (λ body. body.items ≡ sealed_body number payload.now) }
{
    let mut digits = Buffer::new();
    let mut body = Vec::with_capacity(alloc, payload.len().saturating_add(42))?;
    body.extend_from_slice(NUMBER)?;
    body.extend_from_slice(digits.format(number).as_bytes())?;
    body.extend_from_slice(RECORD)?;
    body.extend_from_slice(payload)?;
    body.extend_from_slice(END)?;
    Ok(body)
}

// The head, the digits of the seal, and the body.
fn with_seal(alloc: Global, seal: u32, body: &[u8]) -> Result<Bytes, AllocError>
    ensures { IfOk result (λ bytes. bytes ≡ seal_head ++ seal_digits seal ++ body.now) }
{
    let mut bytes = Vec::with_capacity(alloc, body.len().saturating_add(BODY))?;
    bytes.extend_from_slice(HEAD)?;
    bytes.extend_from_slice(&seal_digits(seal))?;
    bytes.extend_from_slice(body)?;
    Ok(Bytes::from_vec(bytes))
}

// The eight hexadecimal digits of a seal.
fn seal_digits(seal: u32) -> [u8; 8]
    ensures { result ≡ seal_digits seal }
{
    [
        digit_char((seal >> 28) % 16),
        digit_char((seal >> 24) % 16),
        digit_char((seal >> 20) % 16),
        digit_char((seal >> 16) % 16),
        digit_char((seal >> 12) % 16),
        digit_char((seal >> 8) % 16),
        digit_char((seal >> 4) % 16),
        digit_char(seal % 16),
    ]
}

// A hexadecimal digit, in lower case.
fn digit_char(digit: u32) -> u8
    requires { digit < 16 }
    ensures { result ≡ digit_char digit }
{
    if digit < 10 {
        b'0' + digit as u8
    } else {
        b'a' + (digit - 10) as u8
    }
}

// What is in the place of the payload.
fn payload_in(number: u64, stored: &[u8]) -> &[u8]
    ensures { result.now ≡ payload_in number stored.now }
{
    let mut digits = Buffer::new();
    let start = BODY + NUMBER.len() + digits.format(number).len() + RECORD.len();
    let end = stored.len().saturating_sub(1);
    &stored[start.min(end)..end]
}
