//! The state of a link as lines, which end a run.
ghost use Rattle.std.specs.Prelude.{◌≡◌, Some, IfOk};
ghost use Rattle.lens_forms.specs.Forms.{form_tree};
ghost use Rattle.lens_core.specs.LensOf.{IsLensOf};
ghost use Rattle.turn_link.specs.LinkViews.{link_tree};
ghost use Rattle.run_link.specs.Answers.{numbers_line, link_state_lines};

use answer_text::{bytes_of, complement_line, document_line};
use lens_core::EditLens;
use lens_types::Typed;
use std::alloc::{AllocError, Global};
use texts::Bytes;
use turn_link::Link;

/// The state lines of a link: the document and the complement that the left site shows, the document
/// that the right site shows, and the numbers of both.
///
/// The link's lens is that of the form. The only error is running out of memory.
pub fn link_state_lines<L: EditLens>(
    alloc: Global,
    typed: &Typed,
    link: &Link<L>,
) -> Result<Vec<u8>, AllocError>
    requires of_form { IsLensOf (L.left_type link.now.left.lens) (L.right_type link.now.left.lens)
        (L.start link.now.left.lens) (L.holds link.now.left.lens) (L.carried link.now.left.lens)
        (form_tree typed.now) }
    ensures lines { IfOk result (λ text.
        link_state_lines (form_tree typed.now) (link_tree link.now) ≡ Some text.items) }
{
    let near = link.left();
    let far = link.right();
    let left = document_line(alloc, "left", typed.left(), near.doc())?;
    let right = document_line(alloc, "right", typed.right(), far.doc())?;
    let comp = complement_line(alloc, "complement", typed, near.comp())?;
    let numbers = numbers_line(alloc, near.number(), far.number())?;
    let mut text = left.into_vec();
    text.extend_from_slice(right.as_slice())?;
    text.extend_from_slice(comp.as_slice())?;
    text.extend_from_slice(numbers.as_slice())?;
    Ok(text)
}

fn numbers_line(alloc: Global, left: u64, right: u64) -> Result<Bytes, AllocError>
    ensures { IfOk result (λ line. line ≡ numbers_line left right) }
{
    let line = format!(in alloc; "numbers {left} {right}\n")?;
    Ok(bytes_of(line))
}
