//! Objects with one member and with two.

ghost use Rattle.std.specs.Prelude.{◌≡◌, option_map};
ghost use Rattle.serde_json.specs.View.{view};
ghost use Rattle.value_json.specs.Parts.{only_member, two_members};

use serde_json::Value;

/// The name and the content of the one member of an object.
///
/// None if and only if the tree is not an object with one member.
pub fn only_member(tree: &Value) -> Option<(&str, &Value)>
    ensures { option_map (λ p. (p.0.now, view p.1.now)) result ≡ only_member (view tree.now) }
{
    let members = tree.as_object()?;
    if members.len() != 1 {
        return None;
    }
    let (name, content) = members.first_key_value()?;
    Some((name.as_str(), content))
}

/// The names and the contents of the two members of an object, in byte order of the names.
///
/// None if and only if the tree is not an object with two members.
pub fn two_members(tree: &Value) -> Option<((&str, &Value), (&str, &Value))>
    ensures { option_map (λ p. ((p.0.0.now, view p.0.1.now), (p.1.0.now, view p.1.1.now))) result
        ≡ two_members (view tree.now) }
{
    let members = tree.as_object()?;
    if members.len() != 2 {
        return None;
    }
    let (first_name, first) = members.first_key_value()?;
    let (last_name, last) = members.last_key_value()?;
    Some(((first_name.as_str(), first), (last_name.as_str(), last)))
}
