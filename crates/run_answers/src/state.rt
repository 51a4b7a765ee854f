//! The state of a session as lines, which end a run.
ghost use Rattle.std.specs.Prelude.{◌≡◌, IfOk};
ghost use Rattle.lens_forms.specs.Forms.{form_tree};
ghost use Rattle.edit_session.specs.Views.{triple_tree};
ghost use Rattle.run_answers.specs.Answers.{state_lines};
ghost use Rattle.lens_core.specs.LensOf.{IsLensOf};

use answer_text::{complement_line, document_line};
use edit_session::Session;
use lens_core::EditLens;
use lens_types::Typed;
use std::alloc::{AllocError, Global};

/// The state lines of a session: the left document, the right document and the complement.
///
/// The session's lens is that of the form. The only error is running out of memory.
pub fn state_lines<L: EditLens>(
    alloc: Global,
    typed: &Typed,
    session: &Session<L>,
) -> Result<Vec<u8>, AllocError>
    requires of_form { IsLensOf (L.left_type session.now.lens) (L.right_type session.now.lens)
        (L.start session.now.lens) (L.holds session.now.lens) (L.carried session.now.lens)
        (form_tree typed.now) }
    ensures lines { IfOk result (λ text. text.items
        ≡ state_lines (form_tree typed.now) (triple_tree session.now.triple)) }
{
    let left = document_line(alloc, "left", typed.left(), session.left())?;
    let right = document_line(alloc, "right", typed.right(), session.right())?;
    let comp = complement_line(alloc, "complement", typed, session.comp())?;
    let mut text = left.into_vec();
    text.extend_from_slice(right.as_slice())?;
    text.extend_from_slice(comp.as_slice())?;
    Ok(text)
}
