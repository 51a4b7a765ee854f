//! Reading the event that a line is.

ghost use Rattle.std.specs.Prelude.{◌≡◌, ◌≢◌, true, Some, IfOk, IfErr, option_map, ok_or};
ghost use Rattle.serde_json.specs.View.{view};
ghost use Rattle.edit_journal.specs.EntryJson.{side_of, tree_of_line};
ghost use Rattle.turn_link.specs.Links.{EventTree};
ghost use Rattle.turn_link.specs.Views.{event_tree};
ghost use Rattle.run_link.specs.EventJson.{side_of_tree, side_and_edit, edit_of_parts, delivery_of, event_of_member};
ghost use Rattle.run_link.specs.EventJson.{event_of_tree, event_of_text, event_of_line, tree_of_event};
ghost use Rattle.run_link.specs.EventJson.{event_counts_fit, event_numbers_fit, not_an_event};
ghost use Rattle.run_link.specs.Reading.{Gives};
ghost use Rattle.run_link.specs.declared.fault.EventFault;

use crate::fault::EventFault;
use edit_journal::{Line, read_edit, read_tree};
use edit_json::two_items;
use serde_json::Value;
use std::alloc::Global;
use texts::Side;
use turn_link::Event;
use value_json::{only_member, read_count};

/// The event that a line is. The page docs/FORMATS.md has the forms.
///
/// The line may have any bytes. It is refused by the first of these that holds:
///
/// - `LineTooLong`: if and only if it is too long.
/// - `NotJson`: if and only if its bytes are not a text that the reader of JSON has a tree for.
/// - `NotAnEvent`: if and only if the tree is not an object with exactly one member, which is
///   `edit` with an array of a side and any tree, `deliver` with a number below 2^64, or `seal`,
///   `send` or `restart` with a side. A side is `left` or `right`.
/// - `NotAnEdit`: if and only if the tree beside the side of an `edit` is not the tree of a word.
///
/// `NoMemory` says nothing of the line.
pub fn read_event(alloc: Global, line: &Line) -> Result<Event, EventFault>
    // The event and each refusal are the definition's, both ways.
    ensures event { Gives event_tree result (event_of_line line.now) }

    // What is read has a tree, and it is the tree of this line.
    ensures fits { IfOk result (λ event. event_counts_fit (event_tree event) ≡ true) }
    ensures tree { IfOk result
        (λ event. tree_of_line line.now ≡ Some (tree_of_event (event_tree event))) }

    // If it is refused and memory has not run out, no event has the tree of this line.
    ensures refused { IfErr result (λ fault. fault ≢ EventFault.NoMemory → (event : EventTree)
        → event_counts_fit event ≡ true → event_numbers_fit event ≡ true
        → tree_of_line line.now ≡ Some (tree_of_event event) → ⊥) }
{
    read_line(alloc, line)
}

fn read_line(alloc: Global, line: &Line) -> Result<Event, EventFault>
    ensures { Gives event_tree result (event_of_line line.now) }
{
    match line {
        Line::Text(bytes) => read_text(alloc, bytes.as_slice()),
        Line::TooLong => Err(EventFault::LineTooLong),
    }
}

#[tactic(auto, using(crate::proofs::Reading::text_refused))]
fn read_text(alloc: Global, bytes: &[u8]) -> Result<Event, EventFault>
    ensures { Gives event_tree result (event_of_text bytes.now) }
{
    let tree = read_tree(alloc, bytes)?;
    read_event_tree(alloc, &tree)
}

fn read_event_tree(alloc: Global, tree: &Value) -> Result<Event, EventFault>
    ensures { Gives event_tree result (event_of_tree (view tree.now)) }
{
    match only_member(tree) {
        Some((name, content)) => read_member(alloc, name, content),
        None => Err(EventFault::NotAnEvent),
    }
}

// The event of a member's name and content.
fn read_member(alloc: Global, name: &str, content: &Value) -> Result<Event, EventFault>
    ensures { Gives event_tree result (event_of_member name.now (view content.now)) }
{
    match name {
        "edit" => read_sided_edit(alloc, content),
        "seal" => Ok(Event::Seal(read_side(content)?)),
        "send" => Ok(Event::Send(read_side(content)?)),
        "deliver" => read_delivery(content),
        "restart" => Ok(Event::Restart(read_side(content)?)),
        _ => Err(EventFault::NotAnEvent),
    }
}

#[tactic(auto, using(crate::proofs::Reading::word_refused))]
fn read_sided_edit(alloc: Global, content: &Value) -> Result<Event, EventFault>
    ensures { Gives event_tree result (edit_of_parts (side_and_edit (view content.now))) }
{
    let Some((side, edit)) = side_and_edit(content) else {
        return Err(EventFault::NotAnEvent);
    };
    let word = read_edit(alloc, edit)?;
    Ok(Event::Edit(side, word))
}

// The side and the tree of the edit, of an array of exactly these two.
fn side_and_edit(tree: &Value) -> Option<(Side, &Value)>
    ensures { option_map (λ p. (p.0, view p.1.now)) result ≡ side_and_edit (view tree.now) }
{
    let (side, edit) = two_items(tree)?;
    Some((side_of_tree(side)?, edit))
}

fn read_delivery(content: &Value) -> Result<Event, EventFault>
    ensures { Gives event_tree result (delivery_of (view content.now)) }
{
    match read_count(content) {
        Some(place) => Ok(Event::Deliver(place)),
        None => Err(EventFault::NotAnEvent),
    }
}

fn read_side(tree: &Value) -> Result<Side, EventFault>
    ensures { Gives (λ side. side) result (ok_or (side_of_tree (view tree.now)) not_an_event) }
{
    match side_of_tree(tree) {
        Some(side) => Ok(side),
        None => Err(EventFault::NotAnEvent),
    }
}

// The side that a tree names.
fn side_of_tree(tree: &Value) -> Option<Side>
    ensures { result ≡ side_of_tree (view tree.now) }
{
    side_named(tree.as_str()?)
}

fn side_named(text: &str) -> Option<Side>
    ensures { result ≡ side_of text.now }
{
    match text {
        "left" => Some(Side::Left),
        "right" => Some(Side::Right),
        _ => None,
    }
}
