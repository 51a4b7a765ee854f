//! The answers to the lines of a script, as lines.
ghost use Rattle.std.specs.Prelude.{◌≡◌, ◌++◌, true, codes, decimal, IfOk, IfSome};
ghost use Rattle.edit_module.specs.Views.{word_tree};
ghost use Rattle.edit_json.specs.WordJson.{counts_fit};
ghost use Rattle.turn_link.specs.Turns.{TurnRefusal};
ghost use Rattle.turn_link.specs.Links.{sealed};
ghost use Rattle.turn_link.specs.Views.{told_tree, link_refusal, batch_tree};
ghost use Rattle.run_link.specs.EventJson.{EventCause};
ghost use Rattle.run_link.specs.Reading.{cause_of};
ghost use Rattle.run_link.specs.Items.{is_refused_by_link};
ghost use Rattle.run_link.specs.Answers.{accepted_line, refused_line, told_line, turn_refusal_line, event_fault_text};
ghost use Rattle.run_link.specs.Answers.{link_answer_line};
ghost use Rattle.run_link.specs.Views.{answer_tree, HasToldLine, HasAnswerLine, IsSome};

use crate::fault::EventFault;
use answer_text::{bytes_of, no_apply_line};
use edit_json::append_word;
use std::alloc::{AllocError, Global};
use texts::Bytes;
use turn_link::{Batch, LinkFault, Told};

/// The answer to a line of a script that is not blank.
#[derive(Drop)]
pub enum LinkAnswer {
    /// What is told of the event.
    Told(Told),
    /// Why the link refuses the event, which is not that memory ran out.
    Refused(LinkFault),
    /// Why the line is not an event, which is not that memory ran out.
    NoEvent(EventFault),
}

impl LinkAnswer {
    /// Whether the line was refused.
    pub fn is_refused(&self) -> bool
        ensures refused { IfSome (answer_tree self.now) (λ answer. result ≡ is_refused_by_link answer) }
    {
        match self {
            LinkAnswer::Told(_) => false,
            LinkAnswer::Refused(_) | LinkAnswer::NoEvent(_) => true,
        }
    }
}

/// The answer line of the item with this number. The only error is running out of memory.
///
/// In the word of a batch each insertion and each deletion is of 1 to 65,536 items, and no fault is
/// that memory ran out. So it is with every answer of [`take_link_item`](crate::take_link_item).
pub fn link_answer_line(
    alloc: Global,
    number: u64,
    answer: &LinkAnswer,
) -> Result<Bytes, AllocError>
    requires has_line { HasAnswerLine answer.now }
    ensures line { IfOk result (λ line. IfSome (answer_tree answer.now)
        (λ answer. line ≡ link_answer_line number answer)) }
{
    match answer {
        LinkAnswer::Told(told) => told_line(alloc, number, told),
        LinkAnswer::Refused(fault) => refusal_line(alloc, number, *fault),
        LinkAnswer::NoEvent(fault) => refused_line(alloc, number, fault_text(*fault)),
    }
}

// The line of what is told of an event.
fn told_line(alloc: Global, number: u64, told: &Told) -> Result<Bytes, AllocError>
    requires has_line { HasToldLine told.now }
    ensures { IfOk result (λ line. line ≡ told_line number (told_tree told.now)) }
{
    match told {
        Told::Draft => accepted_line(alloc, number, "draft"),
        Told::Sealed(batch) => batch_line(alloc, number, batch),
        Told::Packet(place) => numbered_line(alloc, number, "packet", *place),
        Told::Taken(batch) => numbered_line(alloc, number, "taken", *batch),
        Told::Stale(batch) => numbered_line(alloc, number, "stale", *batch),
        Told::Restarted => accepted_line(alloc, number, "restart"),
    }
}

fn batch_line(alloc: Global, number: u64, batch: &Batch) -> Result<Bytes, AllocError>
    requires counts_fit { counts_fit (word_tree batch.now.word.value) ≡ true }
    ensures { IfOk result (λ line. line ≡ told_line number (sealed (batch_tree batch.now))) }
{
    let sealed = batch.number;
    let line = format!(in alloc; "ok {number} batch {sealed} ")?;
    let mut line = append_word(line.into_bytes(), &batch.word)?;
    line.extend_from_slice(b"\n")?;
    Ok(Bytes::from_vec(line))
}

// The line of an accepted event with a number that is told of it.
fn numbered_line(alloc: Global, number: u64, what: &str, which: u64) -> Result<Bytes, AllocError>
    ensures { IfOk result (λ line. line
        ≡ accepted_line number (what.now ++ codes " " ++ decimal which)) }
{
    let line = format!(in alloc; "ok {number} {what} {which}\n")?;
    Ok(bytes_of(line))
}

fn accepted_line(alloc: Global, number: u64, what: &str) -> Result<Bytes, AllocError>
    ensures { IfOk result (λ line. line ≡ accepted_line number what.now) }
{
    let line = format!(in alloc; "ok {number} {what}\n")?;
    Ok(bytes_of(line))
}

// The line of an event that the link refuses.
fn refusal_line(alloc: Global, number: u64, fault: LinkFault) -> Result<Bytes, AllocError>
    requires of_the_event { IsSome (link_refusal fault) }
    ensures { IfOk result (λ line. IfSome (link_refusal fault)
        (λ why. line ≡ turn_refusal_line number why)) }
{
    match fault {
        LinkFault::NotTurn { number: site } => counted_line(alloc, number, "not-turn", site),
        LinkFault::NoApply { at, cause } => no_apply_line(alloc, number, at, cause),
        LinkFault::LastNumber => refused_line(alloc, number, "last-number"),
        LinkFault::NoBatch => refused_line(alloc, number, "no-batch"),
        LinkFault::NoPacket { count } => counted_line(alloc, number, "no-packet", count),
        LinkFault::NoMemory => unreachable!(),
    }
}

// The line of a refusal with a number.
fn counted_line(alloc: Global, number: u64, what: &str, which: u64) -> Result<Bytes, AllocError>
    ensures { IfOk result (λ line. line
        ≡ refused_line number (what.now ++ codes " " ++ decimal which)) }
{
    let line = format!(in alloc; "refused {number} {what} {which}\n")?;
    Ok(bytes_of(line))
}

fn refused_line(alloc: Global, number: u64, what: &str) -> Result<Bytes, AllocError>
    ensures { IfOk result (λ line. line ≡ refused_line number what.now) }
{
    let line = format!(in alloc; "refused {number} {what}\n")?;
    Ok(bytes_of(line))
}

fn fault_text(fault: EventFault) -> &'static str
    requires { IsSome (cause_of fault) }
    ensures { IfSome (cause_of fault) (λ cause. result.now ≡ event_fault_text cause) }
{
    match fault {
        EventFault::LineTooLong => "line-too-long",
        EventFault::NotJson => "not-json",
        EventFault::NotAnEvent => "not-an-event",
        EventFault::NotAnEdit => "not-an-edit",
        EventFault::NoMemory => unreachable!(),
    }
}
