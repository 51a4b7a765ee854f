//! What a call on a hub answers.

ghost use Rattle.std.specs.Prelude.{◌≡◌};
ghost use Rattle.editlens_c.specs.HubAnswers.{IsHubAnswer, hub_closed_status, hub_status_of, hub_number_of};
ghost use Rattle.editlens_c.specs.HubAnswers.{hub_part_of, hub_closed_reason, hub_refusal_reason, hub_reason_of};
ghost use Rattle.editlens_c.specs.HubAnswers.{hub_state_reason, of_view};
ghost use Rattle.editlens_c.specs.Reasons.{no_place};

use crate::answer::Answer;
use crate::codes::*;
use crate::hub_codes::*;
use crate::reasons::{Reason, alone, item_cause, line_cause, program_cause, program_offset};
use embed_hub::{EmbeddedHub, HubOutcome, HubPart, HubStateFault};
use hub_run::HubRefused;

// The answer to a call on a hub that ended so.
pub(crate) fn hub_answer_to(outcome: HubOutcome, embedded: &EmbeddedHub) -> Answer
    ensures { IsHubAnswer (hub_status_of outcome embedded.now) (hub_reason_of outcome embedded.now) embedded.now result }
{
    hub_answer_with(
        hub_status_of(outcome, embedded),
        hub_reason_of(outcome, embedded),
        embedded,
    )
}

// The answer to the question of whether there is a hub.
pub(crate) fn hub_standing_of(embedded: &EmbeddedHub) -> Answer
    ensures { IsHubAnswer (hub_closed_status embedded.now) (hub_closed_reason embedded.now) embedded.now result }
{
    hub_answer_with(
        hub_closed_status(embedded),
        hub_closed_reason(embedded),
        embedded,
    )
}

// An answer of a hub with no cause.
pub(crate) fn hub_plain_answer(status: u32, embedded: &EmbeddedHub) -> Answer
    ensures { IsHubAnswer status (no_place NO_CAUSE) embedded.now result }
{
    hub_answer_with(status, alone(NO_CAUSE), embedded)
}

fn hub_answer_with(status: u32, reason: Reason, embedded: &EmbeddedHub) -> Answer
    ensures { IsHubAnswer status reason embedded.now result }
{
    Answer {
        status,
        cause: reason.cause,
        number: hub_number_of(embedded),
        part: reason.part,
        at: reason.at,
        len: embedded.text().len(),
        size: ANSWER_SIZE,
        spare_1: 0,
        spare_2: 0,
    }
}

fn hub_status_of(outcome: HubOutcome, embedded: &EmbeddedHub) -> u32
    ensures { result ≡ hub_status_of outcome embedded.now }
{
    match outcome {
        HubOutcome::Done => DONE,
        HubOutcome::Blank => BLANK,
        HubOutcome::NoView | HubOutcome::NoApply { .. } | HubOutcome::NotAnEdit(_) => REFUSED,
        HubOutcome::LineFeed => LINE_FEED,
        HubOutcome::Full => FULL,
        HubOutcome::NoMemory => NO_MEMORY,
        HubOutcome::NoHub => hub_closed_status(embedded),
    }
}

// Why there is no hub, or that there is one.
pub(crate) fn hub_closed_status(embedded: &EmbeddedHub) -> u32
    ensures { result ≡ hub_closed_status embedded.now }
{
    match embedded {
        EmbeddedHub::Open(_) => DONE,
        EmbeddedHub::Refused(_, _) => PROGRAM_REFUSED,
        EmbeddedHub::StateRefused(_) => STATE_REFUSED,
        EmbeddedHub::NoMemory => NO_SESSION,
    }
}

// How many items were given.
fn hub_number_of(embedded: &EmbeddedHub) -> u64
    ensures { result ≡ hub_number_of embedded.now }
{
    match embedded {
        EmbeddedHub::Open(running) => running.number,
        EmbeddedHub::Refused(_, _) | EmbeddedHub::StateRefused(_) | EmbeddedHub::NoMemory => 0,
    }
}

// Why a call on a hub ended so.
fn hub_reason_of(outcome: HubOutcome, embedded: &EmbeddedHub) -> Reason
    ensures { result ≡ hub_reason_of outcome embedded.now }
{
    match outcome {
        HubOutcome::NoView => alone(NO_VIEW),
        HubOutcome::NoApply { at, cause } => Reason {
            cause: item_cause(cause),
            part: 0,
            at,
        },
        HubOutcome::NotAnEdit(fault) => alone(line_cause(fault)),
        HubOutcome::NoHub => hub_closed_reason(embedded),
        HubOutcome::Done
        | HubOutcome::Blank
        | HubOutcome::LineFeed
        | HubOutcome::Full
        | HubOutcome::NoMemory => alone(NO_CAUSE),
    }
}

// Why there is no hub.
fn hub_closed_reason(embedded: &EmbeddedHub) -> Reason
    ensures { result ≡ hub_closed_reason embedded.now }
{
    match embedded {
        EmbeddedHub::Refused(refused, _) => hub_refusal_reason(refused),
        EmbeddedHub::StateRefused(fault) => hub_state_reason(*fault),
        EmbeddedHub::Open(_) | EmbeddedHub::NoMemory => alone(NO_CAUSE),
    }
}

// Why a program part is refused, with the number of the view.
fn hub_refusal_reason(refused: &HubRefused) -> Reason
    ensures { result ≡ hub_refusal_reason refused.now }
{
    match refused {
        HubRefused::TooManyViews => alone(TOO_MANY_VIEWS),
        HubRefused::InView(number, refused) => Reason {
            cause: program_cause(refused),
            part: *number,
            at: program_offset(refused),
        },
        HubRefused::ViewsDiffer(number) => of_view(VIEWS_DIFFER, *number),
        HubRefused::NoMemory => alone(NO_CAUSE),
    }
}

// Why the texts of a state are refused, with the number of the view.
fn hub_state_reason(fault: HubStateFault) -> Reason
    ensures { result ≡ hub_state_reason fault }
{
    match fault {
        HubStateFault::OtherCount => alone(OTHER_COUNT),
        HubStateFault::NotHub => alone(NOT_HUB),
        HubStateFault::NotView(number) => of_view(NOT_VIEW, number),
        HubStateFault::NotComplement(number) => of_view(NOT_COMPLEMENT, number),
        HubStateFault::NotConsistent(number) => of_view(NOT_CONSISTENT, number),
        HubStateFault::NoMemory => alone(NO_CAUSE),
    }
}

// A cause of the view with this number.
fn of_view(cause: u32, number: u64) -> Reason
    ensures { result ≡ of_view cause number }
{
    Reason {
        cause,
        part: number,
        at: 0,
    }
}

// The part of a hub's state that has this number, of the view with the other number.
pub(crate) fn hub_part_of(number: u32, view: u64) -> Option<HubPart>
    ensures { result ≡ hub_part_of number view }
{
    if number == HUB_STATE {
        Some(HubPart::State)
    } else if number == HUB_DOCUMENT {
        Some(HubPart::Document)
    } else if number == VIEW_DOCUMENT {
        Some(HubPart::ViewDocument(view))
    } else if number == VIEW_COMPLEMENT {
        Some(HubPart::ViewComplement(view))
    } else {
        None
    }
}
