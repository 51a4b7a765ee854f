//! The parts of the tree of a complement.

ghost use Rattle.serde_json.specs.View.{view, items_view, members_view};
ghost use Rattle.complement_file.specs.Reading.{FindsSome, HasContent, HasArray, HasObject, HasPair, HasNodes};

use serde_json::{Map, Value};
use value_json::{only_member, two_members};

/// The content of an object with one member, which has this name. None if and only if the tree is not such an object.
pub(crate) fn content_in<'a>(tree: &'a Value, name: &str) -> Option<&'a Value>
    ensures { FindsSome (HasContent name.now (view tree.now)) (λ v. view v.now) result }
{
    let (key, content) = only_member(tree)?;
    if key != name {
        return None;
    }
    Some(content)
}

/// The array that is the one member, of this name, of an object.
pub(crate) fn array_in<'a>(tree: &'a Value, name: &str) -> Option<&'a Vec<Value>>
    ensures { FindsSome (HasArray name.now (view tree.now)) (λ v. items_view v.now.items) result }
{
    content_in(tree, name)?.as_array()
}

/// The object that is the one member, of this name, of an object.
pub(crate) fn object_in<'a>(tree: &'a Value, name: &str) -> Option<&'a Map<String, Value>>
    ensures { FindsSome (HasObject name.now (view tree.now)) (λ m. members_view m.now.entries) result }
{
    content_in(tree, name)?.as_object()
}

/// The two items of an array that is the one member, of this name, of an object.
pub(crate) fn pair_in<'a>(tree: &'a Value, name: &str) -> Option<(&'a Value, &'a Value)>
    ensures { FindsSome (HasPair name.now (view tree.now)) (λ p. (view p.0.now, view p.1.now)) result }
{
    let items = array_in(tree, name)?;
    if items.len() != 2 {
        return None;
    }
    Some((&items[0], &items[1]))
}

/// The depths and the items of the tree of an ordered tree's complement.
pub(crate) fn nodes_in(tree: &Value) -> Option<(&Vec<Value>, &Vec<Value>)>
    ensures { FindsSome (HasNodes (view tree.now))
        (λ p. (items_view p.0.now.items, items_view p.1.now.items)) result }
{
    let content = content_in(tree, "tree")?;
    let ((first_name, depths), (last_name, items)) = two_members(content)?;
    if first_name != "depths" || last_name != "items" {
        return None;
    }
    Some((depths.as_array()?, items.as_array()?))
}
