//! A law of the payloads that are kept. The function does nothing: its clause is the law.

ghost use Rattle.std.specs.Prelude.{◌≡◌, ◌<◌, ℕ, List, Ok};
ghost use Rattle.hub_records.specs.HubStands.{HubStanding, stands_as_hub};
ghost use Rattle.hub_copy.specs.KeptRecords.{KeepsViews};

/// Payloads that stand for a hub stood for one after their first records, too. The payloads that are kept of them have
/// the lenses of all. They stand for the document and the views of that time, and behind those for the views that were
/// added later.
pub fn kept_records_stand()
    ensures { (number : ℕ) (payloads : List (List ℕ)) (all : HubStanding)
        → 0 < number → stands_as_hub payloads ≡ Ok all → KeepsViews number payloads all }
{}
