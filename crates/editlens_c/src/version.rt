//! The number of the interface.
ghost use Rattle.std.specs.Prelude.{◌≡◌};
ghost use Rattle.editlens_c.specs.declared.codes.TheConstants.{VERSION as version_number};

use crate::codes::VERSION;

/// The number of this interface. A caller compares it with `EDITLENS_VERSION` of the header that it was compiled with.
#[unsafe(no_mangle)]
pub extern "C" fn editlens_version() -> u32
    ensures { result ≡ version_number }
{
    VERSION
}
