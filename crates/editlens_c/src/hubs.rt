//! A hub that a caller keeps, by a pointer to memory of its own that has room for it.

ghost use Rattle.std.specs.Prelude.{◌≡◌};
ghost use types.Logic.{sem};
ghost use denote.RawPtr.{Testable};
ghost use Rattle.edit_journal.specs.Pieces.{texts_of};
ghost use Rattle.editlens_c.specs.HubKeeping.{hub_slot_type, hub_slot_size, hub_slot_at, hub_opened_at, hub_resumed_at};
ghost use Rattle.editlens_c.specs.HubKeeping.{hub_told_at, hub_stepped_at, hub_shown_at, hub_written_at, hub_ended_at};
ghost use Rattle.editlens_c.specs.HubKeeping.{HubOpens, HubResumes, HubTells, HubSteps, HubStepsTo, HubShows};
ghost use Rattle.editlens_c.specs.HubKeeping.{HubShowsTo, HubWrites, HubWritesEmbedded, HubEnds};

use crate::answer::{Answer, is_written, not_open, untouched};
use crate::codes::{DONE, NOT_OPEN, SMALL_BUFFER, UNKNOWN_PART};
use crate::hub_answer::{
    hub_answer_to, hub_closed_status, hub_part_of, hub_plain_answer, hub_standing_of,
};
use crate::hub_slot::HubSlot;
use embed_hub::EmbeddedHub;
use std::alloc::Global;

/// How many bytes a hub takes. The caller's memory is aligned to 16 bytes, and they are 0 before its first use.
#[unsafe(no_mangle)]
pub extern "C" fn editlens_hub_size() -> usize
    ensures { result ≡ hub_slot_size }
{
    size_of::<HubSlot>()
}

/// Puts the hub over the programs of its views, or why there is none, into memory that has room for it.
///
/// The programs are those of a script of the command `hub`: up to 64, with a line `+++` between them.
/// What is returned says which, as `editlens_hub_status` does; or it is `NOT_OPEN`, and nothing was done. The text is
/// the line of a refusal, or empty.
///
/// # Safety
///
/// `at` is NULL, or the caller has `editlens_hub_size()` bytes there, aligned to 16, which were 0 before the first call
/// that was passed `at`, and which calls of this library alone have changed since. They stay there until
/// `editlens_hub_close`, which each hub wants, also one that is refused. No other call uses `at` meanwhile, and
/// what the call before it wrote is seen by this one. `programs` may be read during the call.
#[unsafe(no_mangle)]
pub unsafe extern "C" fn editlens_hub_open(alloc: Global, at: *mut u8, programs: &[u8]) -> u32
    ghost slot: { hub_slot_type }
    requires testable { Testable at }
    requires* memory { sem 𝓛 (hub_slot_at at slot) }
    ensures* { sem 𝓛 (hub_opened_at at slot programs.now result) }
{
    if at.is_null() {
        return NOT_OPEN;
    }
    opened(alloc, unsafe { &mut *(at as *mut HubSlot) }, programs)
}

fn opened(alloc: Global, slot: &mut HubSlot, programs: &[u8]) -> u32
    ensures { HubOpens slot.old programs.now result slot.new }
{
    if slot.is_open() {
        return NOT_OPEN;
    }
    let embedded = EmbeddedHub::open(alloc, programs);
    let status = hub_closed_status(&embedded);
    slot.put(embedded);
    status
}

/// The same for a hub that goes on from a state: JSON texts, with an LF behind each. The first is that of the hub's
/// document; then come, for each view in order, that of its document and that of its complement.
///
/// They are refused if they are not consistent.
///
/// # Safety
///
/// As for `editlens_hub_open`; `state` may be read, too.
#[unsafe(no_mangle)]
pub unsafe extern "C" fn editlens_hub_resume(
    alloc: Global,
    at: *mut u8,
    programs: &[u8],
    state: &[u8],
) -> u32
    ghost slot: { hub_slot_type }
    requires testable { Testable at }
    requires* memory { sem 𝓛 (hub_slot_at at slot) }
    ensures* { sem 𝓛 (hub_resumed_at at slot programs.now (texts_of state.now) result) }
{
    if at.is_null() {
        return NOT_OPEN;
    }
    resumed(
        alloc,
        unsafe { &mut *(at as *mut HubSlot) },
        programs,
        state,
    )
}

fn resumed(alloc: Global, slot: &mut HubSlot, programs: &[u8], state: &[u8]) -> u32
    ensures { HubResumes slot.old programs.now (texts_of state.now) result slot.new }
{
    if slot.is_open() {
        return NOT_OPEN;
    }
    let embedded = EmbeddedHub::resume(alloc, programs, state);
    let status = hub_closed_status(&embedded);
    slot.put(embedded);
    status
}

/// Whether there is a hub, or why there is none: it was refused, or is not open. Nothing changes.
///
/// # Safety
///
/// `at` is as for `editlens_hub_open`.
#[unsafe(no_mangle)]
pub unsafe extern "C" fn editlens_hub_status(at: *mut u8) -> Answer
    ghost slot: { hub_slot_type }
    requires testable { Testable at }
    requires* memory { sem 𝓛 (hub_slot_at at slot) }
    ensures* { sem 𝓛 (hub_told_at at slot result) }
{
    if at.is_null() {
        return not_open();
    }
    told(unsafe { &mut *(at as *mut HubSlot) })
}

fn told(slot: &mut HubSlot) -> Answer
    ensures { HubTells slot.old result slot.new }
{
    if !slot.is_open() {
        return not_open();
    }
    match &slot.embedded {
        Some(embedded) => hub_standing_of(embedded),
        None => not_open(),
    }
}

/// Gives a hub a line of its journal, without its LF. The text is then the answer line.
///
/// # Safety
///
/// As for `editlens_hub_status`; `line` may be read during the call.
#[unsafe(no_mangle)]
pub unsafe extern "C" fn editlens_hub_step(alloc: Global, at: *mut u8, line: &[u8]) -> Answer
    ghost slot: { hub_slot_type }
    requires testable { Testable at }
    requires* memory { sem 𝓛 (hub_slot_at at slot) }
    ensures* { sem 𝓛 (hub_stepped_at at slot line.now result) }
{
    if at.is_null() {
        return not_open();
    }
    stepped(alloc, unsafe { &mut *(at as *mut HubSlot) }, line)
}

fn stepped(alloc: Global, slot: &mut HubSlot, line: &[u8]) -> Answer
    ensures { HubSteps slot.old line.now result slot.new }
{
    if !slot.is_open() {
        return not_open();
    }
    match &mut slot.embedded {
        Some(embedded) => step_embedded(alloc, embedded, line),
        None => not_open(),
    }
}

fn step_embedded(alloc: Global, embedded: &mut EmbeddedHub, line: &[u8]) -> Answer
    ensures { HubStepsTo embedded.old line.now result embedded.new }
{
    let outcome = embedded.step(alloc, line);
    hub_answer_to(outcome, embedded)
}

/// Makes a part of a hub's state the text: the part that has this number, and of the view that has the other number.
///
/// # Safety
///
/// As for `editlens_hub_status`.
#[unsafe(no_mangle)]
pub unsafe extern "C" fn editlens_hub_show(
    alloc: Global,
    at: *mut u8,
    part: u32,
    view: u64,
) -> Answer
    ghost slot: { hub_slot_type }
    requires testable { Testable at }
    requires* memory { sem 𝓛 (hub_slot_at at slot) }
    ensures* { sem 𝓛 (hub_shown_at at slot part view result) }
{
    if at.is_null() {
        return not_open();
    }
    shown(alloc, unsafe { &mut *(at as *mut HubSlot) }, part, view)
}

fn shown(alloc: Global, slot: &mut HubSlot, part: u32, view: u64) -> Answer
    ensures { HubShows slot.old part view result slot.new }
{
    if !slot.is_open() {
        return not_open();
    }
    match &mut slot.embedded {
        Some(embedded) => show_embedded(alloc, embedded, part, view),
        None => not_open(),
    }
}

fn show_embedded(alloc: Global, embedded: &mut EmbeddedHub, part: u32, view: u64) -> Answer
    ensures { HubShowsTo embedded.old part view result embedded.new }
{
    match hub_part_of(part, view) {
        Some(part) => {
            let outcome = embedded.show(alloc, part);
            hub_answer_to(outcome, embedded)
        }
        None => hub_plain_answer(UNKNOWN_PART, embedded),
    }
}

/// Writes the text that answers the last call to the head of `out`: an answer line, what was shown, or the line of
/// programs that are refused. Where `out` is too small it stays as it is; `len` says how many bytes are wanted.
///
/// # Safety
///
/// As for `editlens_hub_status`; `out` may be written during the call.
#[unsafe(no_mangle)]
pub unsafe extern "C" fn editlens_hub_text(at: *mut u8, out: &mut [u8]) -> Answer
    ghost slot: { hub_slot_type }
    requires testable { Testable at }
    requires* memory { sem 𝓛 (hub_slot_at at slot) }
    ensures* { sem 𝓛 (hub_written_at at slot result out.old out.new) }
{
    if at.is_null() {
        return untouched({ out });
    }
    texted(unsafe { &mut *(at as *mut HubSlot) }, { out })
}

fn texted(slot: &mut HubSlot, out: &mut [u8]) -> Answer
    ensures { HubWrites slot.old result out.old out.new slot.new }
{
    if !slot.is_open() {
        return untouched({ out });
    }
    match &mut slot.embedded {
        Some(embedded) => text_embedded(embedded, { out }),
        None => untouched({ out }),
    }
}

fn text_embedded(embedded: &mut EmbeddedHub, out: &mut [u8]) -> Answer
    ensures { HubWritesEmbedded embedded.old result out.old out.new embedded.new }
{
    if is_written(embedded.text(), out) {
        hub_plain_answer(DONE, embedded)
    } else {
        hub_plain_answer(SMALL_BUFFER, embedded)
    }
}

/// Ends a hub, and frees all that it holds but the caller's memory.
///
/// # Safety
///
/// As for `editlens_hub_status`. The memory is the caller's again, and nothing is open there.
#[unsafe(no_mangle)]
pub unsafe extern "C" fn editlens_hub_close(at: *mut u8) -> u32
    ghost slot: { hub_slot_type }
    requires testable { Testable at }
    requires* memory { sem 𝓛 (hub_slot_at at slot) }
    ensures* { sem 𝓛 (hub_ended_at at slot result) }
{
    if at.is_null() {
        return NOT_OPEN;
    }
    ended(unsafe { &mut *(at as *mut HubSlot) })
}

fn ended(slot: &mut HubSlot) -> u32
    ensures { HubEnds slot.old result slot.new }
{
    slot.end()
}
