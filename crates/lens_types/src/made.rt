//! Values that were made, if there was memory, put together.
//!
//! What takes a result and gives a result keeps its callers free of owned values that must be dropped at each exit, and
//! so cheap to prove.

ghost use Rattle.std.specs.Prelude.{◌≡◌, ◌∷◌, ◌++◌, [], IfOk, OnOk};
ghost use Rattle.std.specs.declared.result.Result.TheVariants.{Ok};

use std::alloc::{AllocError, Global};

// Both values.
pub(crate) fn both<A: Drop, B: Drop>(
    first: Result<A, AllocError>,
    second: Result<B, AllocError>,
) -> Result<(A, B), AllocError>
    ensures first { IfOk result (λ values. first ≡ Ok values.0) }
    ensures second { IfOk result (λ values. second ≡ Ok values.1) }
{
    Ok((first?, second?))
}

// The value in a box.
pub(crate) fn boxed<T: Drop>(
    alloc: Global,
    value: Result<T, AllocError>,
) -> Result<Box<T>, AllocError>
    ensures { IfOk result (λ inner. value ≡ Ok inner.value) }
{
    Ok(Box::new(alloc, value?)?)
}

// Adds the value behind the others.
pub(crate) fn add<T: Drop>(
    items: &mut Vec<T>,
    value: Result<T, AllocError>,
) -> Result<(), AllocError>
    ensures { OnOk result ((item : _) × (value ≡ Ok item) × (items.new.items ≡ items.old.items ++ item ∷ [])) }
{
    items.push(value?)?;
    Ok(())
}
