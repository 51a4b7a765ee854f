//! Texts among names.
ghost use Rattle.std.specs.Prelude.{◌≡◌};
ghost use Rattle.texts.specs.Keys.{has_name};

use texts::Names;

/// Whether a text is among the names, byte for byte. Does not allocate.
pub fn has_text(names: &Names, text: &str) -> bool
    ensures { result ≡ has_name text.now names.now }
{
    for name in names.as_slice() {
        if text == name.as_str() {
            return true;
        }
    }
    false
}
