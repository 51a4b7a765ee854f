//! The keys of a keyed map that go.

ghost use Rattle.std.specs.Prelude.{◌≡◌, ◌+◌, ◌≤◌, true, IfOk, OnOk, map, take, drop, length};
ghost use Rattle.texts.specs.Keys.{is_rising, key_rank};
ghost use Rattle.hold_shapes.specs.declared.edit.ShapeEdit.TheVariants.{DropKey};
ghost use Rattle.edit_module.specs.Words.{WordTree, word_of, joined};
ghost use Rattle.edit_module.specs.Views.{primitive_tree};
ghost use Rattle.edit_inverse.specs.Construct.{reshape};
ghost use Rattle.edit_between.specs.Between.{drop_keys, is_first};

use crate::words::push_shape;
use edit_module::word::Primitive;
use hold_shapes::{Name, ShapeEdit, SharedList, Twin};
use std::alloc::{AllocError, Global};

// Drops the keys from one place on that come before another key, and returns the place behind them.
pub(crate) fn drop_before(
    alloc: Global,
    out: &mut Vec<Primitive>,
    keys: &SharedList<Name>,
    from: usize,
    key: &Name,
) -> Result<usize, AllocError>
    requires rising { is_rising keys.now ≡ true }
    requires within { from ≤ length keys.now }
    ensures dropped { IfOk result (λ place. (rest : WordTree)
        → joined (word_of (map primitive_tree out.new.items)) rest
        ≡ joined (word_of (map primitive_tree out.old.items))
        (drop_keys (take (key_rank key.now (drop from keys.now)) (drop from keys.now)) rest)) }
    ensures behind { IfOk result (λ place. place ≡ from + key_rank key.now (drop from keys.now)) }
{
    for i in from..keys.len() {
        let old = keys.get(i);
        if !old.is_before(key) {
            return Ok(i);
        }
        push_drop(alloc, out, old)?;
    }
    Ok(keys.len())
}

// Drops the keys from one place on.
pub(crate) fn drop_rest(
    alloc: Global,
    out: &mut Vec<Primitive>,
    keys: &SharedList<Name>,
    from: usize,
) -> Result<(), AllocError>
    requires { from ≤ length keys.now }
    ensures { OnOk result ((rest : WordTree) → joined (word_of (map primitive_tree out.new.items)) rest
        ≡ joined (word_of (map primitive_tree out.old.items)) (drop_keys (drop from keys.now) rest)) }
{
    for i in from..keys.len() {
        push_drop(alloc, out, keys.get(i))?;
    }
    Ok(())
}

// Appends that a key is dropped.
fn push_drop(alloc: Global, out: &mut Vec<Primitive>, key: &Name) -> Result<(), AllocError>
    ensures { OnOk result ((rest : WordTree) → joined (word_of (map primitive_tree out.new.items)) rest
        ≡ joined (word_of (map primitive_tree out.old.items)) (reshape (DropKey key.now) rest)) }
{
    let name = key.twin(alloc)?;
    push_shape(out, ShapeEdit::DropKey(name))?;
    Ok(())
}

// Whether a key is the one at a place.
pub(crate) fn is_first(keys: &SharedList<Name>, place: usize, key: &Name) -> bool
    ensures { result ≡ is_first key.now (drop place keys.now) }
{
    if place >= keys.len() {
        return false;
    }
    key.is_same(keys.get(place))
}
