//! Reading the complement that a text is.
ghost use Rattle.std.specs.Prelude.{IfSome};
ghost use Rattle.lens_core.specs.Complements.{comp_tree};
ghost use Rattle.lens_forms.specs.Forms.{form_tree};
ghost use Rattle.lens_tokens.specs.Texts.{IsComplementOf};

use crate::MOST_DEPTH;
use complement_file::take_comp;
use json::{Reader, Scratch};
use json_tokens::is_at_end;
use lens_core::Comp;
use lens_types::Typed;
use std::alloc::Global;

/// The complement of the lens that a text is the JSON of. `None` says nothing of the text.
///
/// The scratch may hold anything. Room in it is kept for the next text.
pub fn complement_of_tokens(
    alloc: Global,
    typed: &Typed,
    bytes: &[u8],
    scratch: &mut Scratch,
) -> Option<Comp>
    ensures { IfSome result (λ comp. IsComplementOf (form_tree typed.now) bytes.now (comp_tree comp)) }
{
    let Ok(text) = std::str::from_utf8(bytes) else {
        return None;
    };
    let Ok(mut reader) = Reader::new(text, scratch) else {
        return None;
    };
    let comp = take_comp(alloc, typed, &mut reader, MOST_DEPTH)?;
    if !is_at_end(&mut reader) {
        return None;
    }
    Some(comp)
}
