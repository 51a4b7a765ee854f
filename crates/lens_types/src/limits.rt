//! Heights up to one more than the limit.

ghost use Rattle.std.specs.Prelude.{◌≡◌, ◌+◌, max};
ghost use Rattle.lens_types.specs.Heights.{capped};

use lens_forms::GREATEST_HEIGHT;

// Heights over the limit all count as one more than the limit, so that no height overflows.
const CAP: u32 = GREATEST_HEIGHT + 1;

// The height of what has a highest part of this height.
pub(crate) fn next_height(height: u32) -> u32
    ensures { result ≡ capped (height + 1) }
{
    if height < CAP { height + 1 } else { CAP }
}
