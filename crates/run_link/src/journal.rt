//! The lines of a script, one after another, over a link.
ghost use Rattle.std.specs.Prelude.{◌≡◌, Ok, IfOk, OnErr};
ghost use Rattle.run_scripts.specs.Answers.{AddsAnswer};
ghost use Rattle.turn_link.specs.LinkViews.{link_tree};
ghost use Rattle.turn_link.specs.Views.{event_tree};
ghost use Rattle.run_link.specs.EventJson.{event_of_line};
ghost use Rattle.run_link.specs.Linked.{IsLinkedOf, take_item_of};
ghost use Rattle.run_link.specs.Runs.{link_line_answer, link_state_of};
ghost use Rattle.run_link.specs.Views.{step_with, HasAnswerLine};

use crate::answers::{LinkAnswer, link_answer_line};
use crate::fault::EventFault;
use crate::read::read_event;
use edit_journal::Line;
use lens_core::EditLens;
use lens_flat::Flat;
use std::alloc::{AllocError, Global};
use turn_link::{Event, Link, LinkFault};

/// Adds the answer line to a line that is not blank, which is the item with this number. The event happens
/// to the link if the link does not refuse it. Whether it was refused.
///
/// The only error is running out of memory, and then the text is as it was.
pub(crate) fn answer_item(
    alloc: Global,
    link: &mut Link<Flat>,
    number: u64,
    line: &Line,
    text: &mut Vec<u8>,
) -> Result<bool, AllocError>
    ensures answer { IfOk result (AddsAnswer (link_line_answer (link_state_of link.old) number line.now)
        (link_state_of link.new) text.old.items text.new.items) }
    ensures unchanged { OnErr result (text.new.items ≡ text.old.items) }
{
    let answer = take_link_item(alloc, link, line)?;
    let line = link_answer_line(alloc, number, &answer)?;
    text.extend_from_slice(line.as_slice())?;
    Ok(answer.is_refused())
}

/// The answer to a line that is not blank, which makes the event happen that the line is.
///
/// An event that the link refuses, and a line that is not an event, leave the link as it was. The
/// only error is running out of memory.
pub fn take_link_item<L: EditLens>(
    alloc: Global,
    link: &mut Link<L>,
    line: &Line,
) -> Result<LinkAnswer, AllocError>
    ensures answer { IfOk result (λ answer. take_item_of L.EditLens
        link.old (event_of_line line.now) ≡ step_with (link_tree link.new) answer) }
    ensures has_line { IfOk result (λ answer. HasAnswerLine answer) }
    ensures lens { link.new.left.lens ≡ link.old.left.lens }
{
    match read_event(alloc, line) {
        Ok(event) => take_event(link, &event),
        Err(EventFault::NoMemory) => Err(AllocError),
        Err(fault) => Ok(LinkAnswer::NoEvent(fault)),
    }
}

// The answer to an event.
fn take_event<L: EditLens>(link: &mut Link<L>, event: &Event) -> Result<LinkAnswer, AllocError>
    ensures answer { IfOk result (λ answer. take_item_of L.EditLens
        link.old (Ok (event_tree event.now)) ≡ step_with (link_tree link.new) answer) }
    ensures has_line { IfOk result (λ answer. HasAnswerLine answer) }
    ensures lens { link.new.left.lens ≡ link.old.left.lens }
{
    match link.step(event) {
        Ok(told) => {
            is_linked(link);
            Ok(LinkAnswer::Told(told))
        }
        Err(LinkFault::NoMemory) => Err(AllocError),
        Err(fault) => Ok(LinkAnswer::Refused(fault)),
    }
}

// Does nothing; its clause is what the left site's call says of the link.
fn is_linked<L: EditLens>(link: &Link<L>)
    ensures { IsLinkedOf L.EditLens link.now }
{
    let _ = link.left();
}
