//! Laws of events, of their trees and of runs, as contracts of functions that do nothing.

ghost use Rattle.std.specs.Prelude.{◌≡◌, true, Ok};
ghost use Rattle.serde_json.specs.Data.{Data};
ghost use Rattle.turn_link.specs.Links.{EventTree};
ghost use Rattle.run_scripts.specs.ScriptEnds.{EveryRunStaysInStep};
ghost use Rattle.run_link.specs.EventJson.{tree_of_event, event_of_tree, event_counts_fit, event_numbers_fit};
ghost use Rattle.run_link.specs.LinkScript.{link_script};

/// Reading the tree of an event and writing it are inverse.
pub fn reading_inverts_writing()
    // An event whose counts and numbers fit is what its tree reads as.
    ensures reads_back { (event : EventTree) → event_counts_fit event ≡ true
        → event_numbers_fit event ≡ true → event_of_tree (tree_of_event event) ≡ Ok event }

    // What a tree reads as has counts and numbers that fit, and has this tree.
    ensures writes_back { (tree : Data) (event : EventTree) → event_of_tree tree ≡ Ok event
        → (event_counts_fit event ≡ true) × (event_numbers_fit event ≡ true)
        × (tree_of_event event ≡ tree) }
{}

/// Every run of a script goes on to its end, whatever its lines are, if its program part is accepted.
/// Each link of it is in turns, by `InTurns` of turn_link, and has state lines: also the links after
/// events that are refused and after lines that are not events.
pub fn runs_stay_in_turns()
    ensures { EveryRunStaysInStep link_script }
{}
