//! The parts of the trees of a hub's records.

ghost use Rattle.std.specs.Prelude.{◌≡◌, ◌&&◌, option_map, codes, bytes_eq};
ghost use Rattle.serde_json.specs.Find.{as_array};
ghost use Rattle.serde_json.specs.View.{view, items_view};
ghost use Rattle.value_json.specs.Numbers.{count_of};
ghost use Rattle.hub_records.specs.HubRecords.{add_in, is_first_version};
ghost use Rattle.hub_records.specs.HubRecords.{programs_of, hub_snapshot_in, view_parts};

use serde_json::Value;
use value_json::{only_member, read_count, two_members};

/// The version of the stores of hubs.
pub(crate) const FIRST_VERSION: u64 = 1;

/// The trees of the programs of the views, of the tree of the first record.
///
/// None if and only if the tree is not that of a first record.
pub fn programs_in(tree: &Value) -> Option<&[Value]>
    ensures { option_map (λ ds. items_view ds.now) result ≡ programs_of (view tree.now) }
{
    let ((name, programs), (second_name, version)) = two_members(tree)?;
    if name != "hub" || !is_version_named(second_name, version) {
        return None;
    }
    items_in(programs)
}

// Whether a member is the version 1.
fn is_version_named(name: &str, version: &Value) -> bool
    ensures { result ≡ (bytes_eq name.now (codes "version") && is_first_version (count_of (view version.now))) }
{
    name == "version" && is_first_version(read_count(version))
}

fn is_first_version(version: Option<u64>) -> bool
    ensures { result ≡ is_first_version version }
{
    match version {
        Some(version) => version == FIRST_VERSION,
        None => false,
    }
}

// The items of an array.
fn items_in(tree: &Value) -> Option<&[Value]>
    ensures { option_map (λ ds. items_view ds.now) result ≡ as_array (view tree.now) }
{
    match tree.as_array() {
        Some(items) => Some(items),
        None => None,
    }
}

/// The text of the program of one view more, of the tree of its record.
///
/// None if and only if the tree is not that of such a record.
pub fn add_in(tree: &Value) -> Option<&str>
    ensures { option_map (λ text. text.now) result ≡ add_in (view tree.now) }
{
    let (name, program) = only_member(tree)?;
    if name != "add" {
        return None;
    }
    program.as_str()
}

/// The tree of the hub's document and those of the views, of the tree of a snapshot.
///
/// None if and only if the tree is not that of a snapshot.
pub fn snapshot_in(tree: &Value) -> Option<(&Value, &[Value])>
    ensures { option_map (λ p. (view p.0.now, items_view p.1.now)) result ≡ hub_snapshot_in (view tree.now) }
{
    let (name, content) = only_member(tree)?;
    if name != "snapshot" {
        return None;
    }
    let ((first_name, hub), (last_name, views)) = two_members(content)?;
    if first_name != "hub" || last_name != "views" {
        return None;
    }
    Some((hub, items_in(views)?))
}

// The trees of the complement and of the document of a view.
pub(crate) fn view_parts(tree: &Value) -> Option<(&Value, &Value)>
    ensures { option_map (λ p. (view p.0.now, view p.1.now)) result ≡ view_parts (view tree.now) }
{
    let ((first_name, comp), (last_name, doc)) = two_members(tree)?;
    if first_name != "complement" || last_name != "view" {
        return None;
    }
    Some((comp, doc))
}
