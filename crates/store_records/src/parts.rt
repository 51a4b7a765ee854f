//! The parts of the trees of records.

ghost use Rattle.std.specs.Prelude.{◌≡◌, ◌&&◌, option_map, codes, bytes_eq};
ghost use Rattle.serde_json.specs.View.{view};
ghost use Rattle.value_json.specs.Numbers.{count_of};
ghost use Rattle.value_json.specs.Parts.{only_member};
ghost use Rattle.store_records.specs.RecordJson.{is_current, program_alone, program_with_version, opening_of};
ghost use Rattle.store_records.specs.RecordJson.{is_version, three_parts, snapshot_in};

use serde_json::Value;
use value_json::{only_member, read_count, two_members};

/// The version of the stores that this program makes.
pub const VERSION: u64 = 2;

/// The text of the program and the version of a store, of the tree of its first record.
///
/// None if and only if the tree is not that of a first record.
pub fn opening_in(tree: &Value) -> Option<(&str, u64)>
    ensures { option_map (λ o. (o.0.now, o.1)) result ≡ opening_of (view tree.now) }
{
    match only_member(tree) {
        Some((name, program)) => program_alone(name, program),
        None => {
            let (program, version) = two_members(tree)?;
            program_with_version(program.0, program.1, version.0, version.1)
        }
    }
}

fn program_alone<'a>(name: &str, program: &'a Value) -> Option<(&'a str, u64)>
    ensures { option_map (λ o. (o.0.now, o.1)) result ≡ program_alone (name.now, view program.now) }
{
    if name != "program" {
        return None;
    }
    Some((program.as_str()?, 1))
}

fn program_with_version<'a>(
    name: &str,
    program: &'a Value,
    second_name: &str,
    version: &Value,
) -> Option<(&'a str, u64)>
    ensures { option_map (λ o. (o.0.now, o.1)) result
        ≡ program_with_version ((name.now, view program.now), (second_name.now, view version.now)) }
{
    if name != "program" || !is_version_named(second_name, version) {
        return None;
    }
    Some((program.as_str()?, VERSION))
}

// Whether a member is the version 2.
fn is_version_named(name: &str, version: &Value) -> bool
    ensures { result ≡ (bytes_eq name.now (codes "version") && is_current (count_of (view version.now))) }
{
    name == "version" && is_current(read_count(version))
}

fn is_current(version: Option<u64>) -> bool
    ensures { result ≡ is_current version }
{
    match version {
        Some(version) => version == VERSION,
        None => false,
    }
}

/// Whether the tree is that of the version record.
pub fn is_version_record(tree: &Value) -> bool
    ensures { result ≡ is_version (only_member (view tree.now)) }
{
    match only_member(tree) {
        Some((name, version)) => is_version_named(name, version),
        None => false,
    }
}

/// The trees of the complement, of the left document and of the right document, of the tree of a snapshot.
///
/// None if and only if the tree is not that of a snapshot.
pub fn snapshot_in(tree: &Value) -> Option<(&Value, &Value, &Value)>
    ensures { option_map (λ p. (view p.0.now, view p.1.now, view p.2.now)) result ≡ snapshot_in (view tree.now) }
{
    let (name, content) = only_member(tree)?;
    if name != "snapshot" {
        return None;
    }
    three_parts(content)
}

// The contents of an object with exactly the members `complement`, `left` and `right`, which are in this order.
fn three_parts(tree: &Value) -> Option<(&Value, &Value, &Value)>
    ensures { option_map (λ p. (view p.0.now, view p.1.now, view p.2.now)) result ≡ three_parts (view tree.now) }
{
    let mut rest = tree.as_object()?.iter();
    let (first_name, comp) = rest.next()?;
    let (second_name, left) = rest.next()?;
    let (third_name, right) = rest.next()?;
    if rest.next().is_some() {
        return None;
    }
    if first_name.as_str() != "complement"
        || second_name.as_str() != "left"
        || third_name.as_str() != "right"
    {
        return None;
    }
    Some((comp, left, right))
}
