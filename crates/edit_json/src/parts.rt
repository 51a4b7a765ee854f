//! Arrays of two items and of three.

ghost use Rattle.std.specs.Prelude.{◌≡◌, option_map};
ghost use Rattle.serde_json.specs.View.{view};
ghost use Rattle.edit_json.specs.Parts.{two_items, three_items};

use serde_json::Value;

/// The items of an array of two. None if and only if the tree is not such an array.
pub fn two_items(tree: &Value) -> Option<(&Value, &Value)>
    ensures { option_map (λ p. (view p.0.now, view p.1.now)) result ≡ two_items (view tree.now) }
{
    let items = tree.as_array()?;
    if items.len() != 2 {
        return None;
    }
    Some((&items[0], &items[1]))
}

// The items of an array of three. None if and only if the tree is not such an array.
pub(crate) fn three_items(tree: &Value) -> Option<(&Value, &Value, &Value)>
    ensures { option_map (λ p. (view p.0.now, view p.1.now, view p.2.now)) result
        ≡ three_items (view tree.now) }
{
    let items = tree.as_array()?;
    if items.len() != 3 {
        return None;
    }
    Some((&items[0], &items[1], &items[2]))
}
