// Reading a script up to the program of one view more.
ghost use Rattle.std.specs.Prelude.{◌<◌, List, ℕ, IfErr, IsErrOf, MatchResult, length};
ghost use Rattle.lens_forms.specs.Forms.{form_tree};
ghost use Rattle.lens_io.specs.Calls.{SourceFailed};
ghost use Rattle.program_terms.specs.Views.{program_tree};
ghost use Rattle.script_input.specs.Parts.{HoldsPart};
ghost use Rattle.hub_run.specs.FoundLenses.{HasRefusalLine, IsRefusedHub};
ghost use Rattle.hub_run.specs.RunStates.{forms_of_lenses};
ghost use Rattle.hub_add.specs.AddedView.{IsAcceptedView, added_form};
ghost use Rattle.hub_add.specs.AddReading.{IsUnreadView, ReadsView};

use hub_new::UnreadHub;
use hub_run::{HubRefused, MOST_VIEWS, view_with_left};
use lens_flat::Flat;
use lens_io::{Source, TakeFault};
use program_accepted::Accepted;
use script_input::{Head, ProgramText, piece_buffer, read_head, skip_rest};
use std::alloc::Global;

// The program of a script and its lens, for one view more behind these lenses; there is one at least. The script is
// read to its end; its journal part is not looked at. A program part that is whole and refused is refused at once.
pub(crate) fn read_view<S: Source>(
    alloc: Global,
    lenses: &[Flat],
    source: &mut S,
) -> Result<Accepted, UnreadHub>
    requires some { 0 < length lenses.now }
    ensures script { MatchResult result
        (λ a. ReadsView S.Source source.old source.new (forms_of_lenses lenses.now)
        (program_tree a.program) (form_tree a.lens))
        (IsUnreadView S.Source source.old source.new (forms_of_lenses lenses.now)) }
    ensures cause { IsErrOf result (UnreadHub.Stopped TakeFault.SourceFault)
        → SourceFailed S.Source source.old source.new }
{
    let Ok(mut piece) = piece_buffer(alloc) else {
        return Err(UnreadHub::Stopped(TakeFault::NoMemory));
    };
    match read_head(alloc, source, &mut piece) {
        Ok(Head::Whole(part)) => match view_of_part(alloc, lenses, &part) {
            Ok(accepted) => Ok(accepted),
            Err(refused) => Err(UnreadHub::Refused(refused)),
        },
        Ok(Head::Separated(part, input)) => match view_of_part(alloc, lenses, &part) {
            Ok(accepted) => match skip_rest(input, source, &mut piece) {
                Ok(()) => Ok(accepted),
                Err(fault) => {
                    drop(accepted);
                    Err(UnreadHub::Stopped(fault))
                }
            },
            Err(refused) => Err(UnreadHub::Refused(refused)),
        },
        Err(fault) => Err(UnreadHub::Stopped(fault)),
    }
}

// The program of a program part and its lens, or why it gives no view behind these lenses.
fn view_of_part(alloc: Global, lenses: &[Flat], part: &ProgramText) -> Result<Accepted, HubRefused>
    requires some { 0 < length lenses.now }
    ensures accepted { (bytes : List ℕ) → HoldsPart part.now bytes → MatchResult result
        (λ a. IsAcceptedView (forms_of_lenses lenses.now) bytes (program_tree a.program) (form_tree a.lens))
        (IsRefusedHub (added_form (forms_of_lenses lenses.now) bytes)) }
    ensures known { IfErr result HasRefusalLine }
{
    if lenses.len() >= MOST_VIEWS {
        return Err(HubRefused::TooManyViews);
    }
    view_with_left(alloc, lenses[0].typed().left(), lenses.len() as u64, part)
}
