//! Values that are put into a list or a box. They are of any type, so that a proof does not open them.

ghost use Rattle.std.specs.Prelude.{◌≡◌, ◌≤◌, ◌++◌, ◌∷◌, [], IfOk, OnOk, length};
ghost use Rattle.std.specs.List.{insert};

use std::alloc::{AllocError, Global};

/// Adds an item at the end of a list. Fails only if memory runs out; the item is then dropped.
pub(crate) fn push<T: Drop>(list: &mut Vec<T>, item: T) -> Result<(), AllocError>
    ensures { OnOk result (list.new.items ≡ list.old.items ++ item ∷ []) }
{
    list.push(item)?;
    Ok(())
}

/// Puts an item at a place of a list. Fails only if memory runs out; the item is then dropped.
pub(crate) fn put_at<T: Drop>(list: &mut Vec<T>, place: usize, item: T) -> Result<(), AllocError>
    requires { place ≤ length list.old.items }
    ensures { OnOk result (list.new.items ≡ insert list.old.items place item) }
{
    list.insert(place, item)?;
    Ok(())
}

/// Puts a value into a box. Fails only if memory runs out; the value is then dropped.
pub(crate) fn boxed<T: Drop>(alloc: Global, value: T) -> Result<Box<T>, AllocError>
    ensures { IfOk result (λ b. b.value ≡ value) }
{
    Ok(Box::new(alloc, value)?)
}
