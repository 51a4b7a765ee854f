// Reading the script of a hub up to its programs.
ghost use Rattle.std.specs.Prelude.{List, ℕ, IfErr, IfOk, IsErrOf, MatchResult, map};
ghost use Rattle.lens_forms.specs.Forms.{form_tree};
ghost use Rattle.lens_io.specs.Calls.{SourceFailed};
ghost use Rattle.program_terms.specs.Views.{program_tree};
ghost use Rattle.view_hub.specs.Laws.{HaveOneLeftType};
ghost use Rattle.hub_run.specs.FormLenses.{form_lens};
ghost use Rattle.hub_run.specs.FoundLenses.{HasRefusalLine, IsRefusedHub};
ghost use Rattle.hub_run.specs.HubHeads.{HasPieces};
ghost use Rattle.hub_run.specs.Lenses.{lenses_of};
ghost use Rattle.hub_new.specs.HubParts.{IsAcceptedHub};
ghost use Rattle.hub_new.specs.HubReading.{IsUnreadHub, ReadsHub};

use hub_run::{AcceptedViews, HubHead, HubRefused, Pieces, read_hub_head};
use lens_io::{Source, TakeFault};
use script_input::{piece_buffer, skip_rest};
use std::alloc::Global;

/// Why a script gives no hub.
#[derive(Drop)]
pub enum UnreadHub {
    /// The program part is refused, or memory ran out.
    Refused(HubRefused),
    /// The script was not read to its end.
    Stopped(TakeFault),
}

/// The programs of the script of a hub, which is read to its end. The journal part is not looked at. A program part
/// that is whole and refused is refused at once: behind the block that ended its separator nothing is read.
pub fn read_views<S: Source>(alloc: Global, source: &mut S) -> Result<AcceptedViews, UnreadHub>
    ensures script { MatchResult result
        (λ a. ReadsHub S.Source source.old source.new (map program_tree a.programs.items)
        (map form_tree a.lenses.items))
        (IsUnreadHub S.Source source.old source.new) }
    ensures one_left { IfOk result (λ a. HaveOneLeftType form_lens (map form_tree a.lenses.items)) }
    ensures cause { IsErrOf result (UnreadHub.Stopped TakeFault.SourceFault)
        → SourceFailed S.Source source.old source.new }
{
    let Ok(mut piece) = piece_buffer(alloc) else {
        return Err(UnreadHub::Stopped(TakeFault::NoMemory));
    };
    match read_hub_head(alloc, source, &mut piece) {
        Ok(HubHead::Whole(pieces)) => match accepted_views(alloc, &pieces) {
            Ok(accepted) => Ok(accepted),
            Err(refused) => Err(UnreadHub::Refused(refused)),
        },
        Ok(HubHead::Separated(pieces, input)) => match accepted_views(alloc, &pieces) {
            Ok(accepted) => match skip_rest(input, source, &mut piece) {
                Ok(()) => Ok(accepted),
                Err(fault) => {
                    drop(accepted);
                    Err(UnreadHub::Stopped(fault))
                }
            },
            Err(refused) => Err(UnreadHub::Refused(refused)),
        },
        Err(fault) => Err(UnreadHub::Stopped(fault)),
    }
}

// The programs of the pieces of a program part, and their lenses, or why the part is refused.
fn accepted_views(alloc: Global, pieces: &Pieces) -> Result<AcceptedViews, HubRefused>
    ensures accepted { (part : List ℕ) → HasPieces pieces.now part → MatchResult result
        (λ a. IsAcceptedHub part (map program_tree a.programs.items) (map form_tree a.lenses.items))
        (IsRefusedHub (lenses_of part)) }
    ensures one_left { IfOk result (λ a. HaveOneLeftType form_lens (map form_tree a.lenses.items)) }
    ensures known { IfErr result HasRefusalLine }
{
    pieces.views(alloc)
}
