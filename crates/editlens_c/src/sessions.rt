//! A session that a caller keeps, by a pointer to memory of its own that has room for it, or by NULL.
ghost use Rattle.std.specs.Prelude.{◌≡◌};
ghost use types.Logic.{sem};
ghost use denote.RawPtr.{Testable};
ghost use Rattle.editlens_c.specs.Keeping.{slot_type, slot_size, slot_at, opened_at, imported_left_at};
ghost use Rattle.editlens_c.specs.Keeping.{imported_right_at, resumed_at, reopened_at, told_at, stepped_at, shown_at};
ghost use Rattle.editlens_c.specs.Keeping.{written_at, ended_at};
ghost use Rattle.editlens_c.specs.Keeping.{Opens, ImportsLeft, ImportsRight, Resumes, Reopens, Tells, Steps, StepsTo};
ghost use Rattle.editlens_c.specs.Keeping.{Shows, ShowsTo, Writes, WritesEmbedded, Ends};

use crate::answer::{
    Answer, answer_to, closed_status, is_written, not_open, part_of, plain_answer, standing_of,
    untouched,
};
use crate::codes::{DONE, NOT_OPEN, SMALL_BUFFER, UNKNOWN_PART};
use crate::slot::Slot;
use embed_session::EmbeddedSession;
use std::alloc::Global;
use texts::Side;

/// How many bytes a session takes. The caller's memory is aligned to 16 bytes, and they are 0 before its first use.
#[unsafe(no_mangle)]
pub extern "C" fn editlens_session_size() -> usize
    ensures { result ≡ slot_size }
{
    size_of::<Slot>()
}

/// Puts the session over a program, or why there is none, into memory that has room for it.
///
/// What is returned says which, as `editlens_session_status` does; or it is `NOT_OPEN`, and nothing was done. The text
/// is the payload of the first record of a log.
///
/// # Safety
///
/// `at` is NULL, or the caller has `editlens_session_size()` bytes there, aligned to 16, which were 0 before the first
/// call that was passed `at`, and which calls of this library alone have changed since. They stay there until
/// `editlens_session_close`, which each session wants, also one that is refused. No other call uses `at` meanwhile, and
/// what the call before it wrote is seen by this one. `program` may be read during the call.
#[unsafe(no_mangle)]
pub unsafe extern "C" fn editlens_session_open(alloc: Global, at: *mut u8, program: &[u8]) -> u32
    ghost slot: { slot_type }
    requires testable { Testable at }
    requires* memory { sem 𝓛 (slot_at at slot) }
    ensures* { sem 𝓛 (opened_at at slot program.now result) }
{
    if at.is_null() {
        return NOT_OPEN;
    }
    opened(alloc, unsafe { &mut *(at as *mut Slot) }, program)
}

fn opened(alloc: Global, slot: &mut Slot, program: &[u8]) -> u32
    ensures { Opens slot.old program.now result slot.new }
{
    if slot.is_open() {
        return NOT_OPEN;
    }
    let embedded = EmbeddedSession::open(alloc, program);
    let status = closed_status(&embedded);
    slot.put(embedded);
    status
}

/// Puts the session over a program whose left document is given, or why there is none, into memory that has room for
/// it.
///
/// The document is JSON, and the right one is made. The text is the payload of the first record of a log; a snapshot is
/// the next.
///
/// # Safety
///
/// As for `editlens_session_open`; `document` may be read, too.
#[unsafe(no_mangle)]
pub unsafe extern "C" fn editlens_session_import_left(
    alloc: Global,
    at: *mut u8,
    program: &[u8],
    document: &[u8],
) -> u32
    ghost slot: { slot_type }
    requires testable { Testable at }
    requires* memory { sem 𝓛 (slot_at at slot) }
    ensures* { sem 𝓛 (imported_left_at at slot program.now document.now result) }
{
    if at.is_null() {
        return NOT_OPEN;
    }
    imported_left(alloc, unsafe { &mut *(at as *mut Slot) }, program, document)
}

fn imported_left(alloc: Global, slot: &mut Slot, program: &[u8], document: &[u8]) -> u32
    ensures { ImportsLeft slot.old program.now document.now result slot.new }
{
    if slot.is_open() {
        return NOT_OPEN;
    }
    let embedded = EmbeddedSession::import(alloc, program, Side::Left, document);
    let status = closed_status(&embedded);
    slot.put(embedded);
    status
}

/// The same, where the right document is given and the left one is made.
///
/// # Safety
///
/// As for `editlens_session_open`; `document` may be read, too.
#[unsafe(no_mangle)]
pub unsafe extern "C" fn editlens_session_import_right(
    alloc: Global,
    at: *mut u8,
    program: &[u8],
    document: &[u8],
) -> u32
    ghost slot: { slot_type }
    requires testable { Testable at }
    requires* memory { sem 𝓛 (slot_at at slot) }
    ensures* { sem 𝓛 (imported_right_at at slot program.now document.now result) }
{
    if at.is_null() {
        return NOT_OPEN;
    }
    imported_right(alloc, unsafe { &mut *(at as *mut Slot) }, program, document)
}

fn imported_right(alloc: Global, slot: &mut Slot, program: &[u8], document: &[u8]) -> u32
    ensures { ImportsRight slot.old program.now document.now result slot.new }
{
    if slot.is_open() {
        return NOT_OPEN;
    }
    let embedded = EmbeddedSession::import(alloc, program, Side::Right, document);
    let status = closed_status(&embedded);
    slot.put(embedded);
    status
}

/// Puts the session that goes on from a state, or why there is none, into memory that has room for it.
///
/// The state is the JSON of a left document, of a complement and of a right document, as `editlens_session_show` shows
/// them. The text is the payload of the first record of a log; a snapshot is the next.
///
/// # Safety
///
/// As for `editlens_session_open`; the three texts may be read, too.
#[unsafe(no_mangle)]
pub unsafe extern "C" fn editlens_session_resume(
    alloc: Global,
    at: *mut u8,
    program: &[u8],
    left: &[u8],
    complement: &[u8],
    right: &[u8],
) -> u32
    ghost slot: { slot_type }
    requires testable { Testable at }
    requires* memory { sem 𝓛 (slot_at at slot) }
    ensures* { sem 𝓛 (resumed_at at slot program.now left.now complement.now right.now result) }
{
    if at.is_null() {
        return NOT_OPEN;
    }
    resumed(
        alloc,
        unsafe { &mut *(at as *mut Slot) },
        program,
        left,
        complement,
        right,
    )
}

fn resumed(
    alloc: Global,
    slot: &mut Slot,
    program: &[u8],
    left: &[u8],
    complement: &[u8],
    right: &[u8],
) -> u32
    ensures { Resumes slot.old program.now left.now complement.now right.now result slot.new }
{
    if slot.is_open() {
        return NOT_OPEN;
    }
    let embedded = EmbeddedSession::resume(alloc, program, left, complement, right);
    let status = closed_status(&embedded);
    slot.put(embedded);
    status
}

/// Puts the session for which the records of a log stand, or why there is none, into memory that has room for it.
///
/// An LF ends each record. The text is empty; or it is the version record, which a log of version 1 still needs.
///
/// # Safety
///
/// As for `editlens_session_open`; it is `records` that may be read.
#[unsafe(no_mangle)]
pub unsafe extern "C" fn editlens_session_reopen(alloc: Global, at: *mut u8, records: &[u8]) -> u32
    ghost slot: { slot_type }
    requires testable { Testable at }
    requires* memory { sem 𝓛 (slot_at at slot) }
    ensures* { sem 𝓛 (reopened_at at slot records.now result) }
{
    if at.is_null() {
        return NOT_OPEN;
    }
    reopened(alloc, unsafe { &mut *(at as *mut Slot) }, records)
}

fn reopened(alloc: Global, slot: &mut Slot, records: &[u8]) -> u32
    ensures { Reopens slot.old records.now result slot.new }
{
    if slot.is_open() {
        return NOT_OPEN;
    }
    let embedded = EmbeddedSession::reopen(alloc, records);
    let status = closed_status(&embedded);
    slot.put(embedded);
    status
}

/// Whether there is a session, or why there is none: it was refused, or is not open. Nothing changes.
///
/// # Safety
///
/// `at` is as for `editlens_session_open`.
#[unsafe(no_mangle)]
pub unsafe extern "C" fn editlens_session_status(at: *mut u8) -> Answer
    ghost slot: { slot_type }
    requires testable { Testable at }
    requires* memory { sem 𝓛 (slot_at at slot) }
    ensures* { sem 𝓛 (told_at at slot result) }
{
    if at.is_null() {
        return not_open();
    }
    told(unsafe { &mut *(at as *mut Slot) })
}

fn told(slot: &mut Slot) -> Answer
    ensures { Tells slot.old result slot.new }
{
    if !slot.is_open() {
        return not_open();
    }
    match &slot.embedded {
        Some(embedded) => standing_of(embedded),
        None => not_open(),
    }
}

/// Gives a session a line of a journal, without its LF. The text is then the answer line.
///
/// # Safety
///
/// As for `editlens_session_status`; `line` may be read during the call.
#[unsafe(no_mangle)]
pub unsafe extern "C" fn editlens_session_step(alloc: Global, at: *mut u8, line: &[u8]) -> Answer
    ghost slot: { slot_type }
    requires testable { Testable at }
    requires* memory { sem 𝓛 (slot_at at slot) }
    ensures* { sem 𝓛 (stepped_at at slot line.now result) }
{
    if at.is_null() {
        return not_open();
    }
    stepped(alloc, unsafe { &mut *(at as *mut Slot) }, line)
}

fn stepped(alloc: Global, slot: &mut Slot, line: &[u8]) -> Answer
    ensures { Steps slot.old line.now result slot.new }
{
    if !slot.is_open() {
        return not_open();
    }
    match &mut slot.embedded {
        Some(embedded) => step_embedded(alloc, embedded, line),
        None => not_open(),
    }
}

fn step_embedded(alloc: Global, embedded: &mut EmbeddedSession, line: &[u8]) -> Answer
    ensures { StepsTo embedded.old line.now result embedded.new }
{
    let outcome = embedded.step(alloc, line);
    answer_to(outcome, embedded)
}

/// Makes a part of a session's state or of its last change the text: the one that has this number.
///
/// # Safety
///
/// As for `editlens_session_status`.
#[unsafe(no_mangle)]
pub unsafe extern "C" fn editlens_session_show(alloc: Global, at: *mut u8, part: u32) -> Answer
    ghost slot: { slot_type }
    requires testable { Testable at }
    requires* memory { sem 𝓛 (slot_at at slot) }
    ensures* { sem 𝓛 (shown_at at slot part result) }
{
    if at.is_null() {
        return not_open();
    }
    shown(alloc, unsafe { &mut *(at as *mut Slot) }, part)
}

fn shown(alloc: Global, slot: &mut Slot, part: u32) -> Answer
    ensures { Shows slot.old part result slot.new }
{
    if !slot.is_open() {
        return not_open();
    }
    match &mut slot.embedded {
        Some(embedded) => show_embedded(alloc, embedded, part),
        None => not_open(),
    }
}

fn show_embedded(alloc: Global, embedded: &mut EmbeddedSession, part: u32) -> Answer
    ensures { ShowsTo embedded.old part result embedded.new }
{
    match part_of(part) {
        Some(part) => {
            let outcome = embedded.show(alloc, part);
            answer_to(outcome, embedded)
        }
        None => plain_answer(UNKNOWN_PART, embedded),
    }
}

/// Writes the text that answers the last call to the head of `out`: an answer line, what was shown, or the line of a
/// program that is refused. Where `out` is too small it stays as it is; `len` says how many bytes are wanted.
///
/// # Safety
///
/// As for `editlens_session_status`; `out` may be written during the call.
#[unsafe(no_mangle)]
pub unsafe extern "C" fn editlens_session_text(at: *mut u8, out: &mut [u8]) -> Answer
    ghost slot: { slot_type }
    requires testable { Testable at }
    requires* memory { sem 𝓛 (slot_at at slot) }
    ensures* { sem 𝓛 (written_at at slot result out.old out.new) }
{
    if at.is_null() {
        return untouched({ out });
    }
    texted(unsafe { &mut *(at as *mut Slot) }, { out })
}

fn texted(slot: &mut Slot, out: &mut [u8]) -> Answer
    ensures { Writes slot.old result out.old out.new slot.new }
{
    if !slot.is_open() {
        return untouched({ out });
    }
    match &mut slot.embedded {
        Some(embedded) => text_embedded(embedded, { out }),
        None => untouched({ out }),
    }
}

fn text_embedded(embedded: &mut EmbeddedSession, out: &mut [u8]) -> Answer
    ensures { WritesEmbedded embedded.old result out.old out.new embedded.new }
{
    if is_written(embedded.text(), out) {
        plain_answer(DONE, embedded)
    } else {
        plain_answer(SMALL_BUFFER, embedded)
    }
}

/// Ends a session, and frees all that it holds but the caller's memory.
///
/// # Safety
///
/// As for `editlens_session_status`. The memory is the caller's again, and nothing is open there.
#[unsafe(no_mangle)]
pub unsafe extern "C" fn editlens_session_close(at: *mut u8) -> u32
    ghost slot: { slot_type }
    requires testable { Testable at }
    requires* memory { sem 𝓛 (slot_at at slot) }
    ensures* { sem 𝓛 (ended_at at slot result) }
{
    if at.is_null() {
        return NOT_OPEN;
    }
    ended(unsafe { &mut *(at as *mut Slot) })
}

fn ended(slot: &mut Slot) -> u32
    ensures { Ends slot.old result slot.new }
{
    slot.end()
}
