//! The tree of a payload, and the payload of a tree.

ghost use Rattle.std.specs.Prelude.{◌≡◌, ◌≤◌, false, IfOk, Some, option_map};
ghost use Rattle.serde_json.specs.Data.{depth};
ghost use Rattle.serde_json.specs.Read.{max_depth};
ghost use Rattle.serde_json.specs.View.{view};
ghost use Rattle.serde_json.specs.Written.{has_float, compact_text};
ghost use Rattle.edit_journal.specs.EntryJson.{tree_of_text};

use serde_json::{Map, Value, put};
use std::alloc::{AllocError, Global};
use texts::Bytes;
use value_json::write_compact;

/// The tree of a payload.
///
/// None if and only if its bytes are not a text that the reader of JSON has a tree for. Fails only if memory runs out.
pub fn read_tree(alloc: Global, payload: &[u8]) -> Result<Option<Value>, AllocError>
    ensures { IfOk result (λ tree. option_map view tree ≡ tree_of_text payload.now) }
{
    match Value::from_slice(alloc, payload) {
        Ok(tree) => Ok(Some(tree)),
        Err(error) => {
            if error.is_memory() {
                Err(AllocError)
            } else {
                Ok(None)
            }
        }
    }
}

/// The text of a tree without floats, with no space between its parts. Fails only if memory runs out.
pub fn payload_of(alloc: Global, tree: &Value) -> Result<Bytes, AllocError>
    requires { has_float (view tree.now) ≡ false }
    ensures text { IfOk result (λ bytes. bytes ≡ compact_text (view tree.now)) }
    ensures reads_back { IfOk result (λ bytes. depth (view tree.now) ≤ max_depth
        → tree_of_text bytes ≡ Some (view tree.now)) }
{
    let text = write_compact(alloc, tree)?;
    Ok(Bytes::from_vec(text.into_bytes()))
}
