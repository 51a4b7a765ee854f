//! The lenses of the views, or why a program part is refused.

ghost use Rattle.std.specs.Prelude.{◌≡◌, ◌≢◌, ◌++◌, ◌∷◌, [], List, ℕ, IfOk, IfErr, MatchResult, Option, Result, Ok};
ghost use Rattle.std.specs.Prelude.{Err, None, Some, codes, length, map};
ghost use Rattle.doc_values.specs.Types.{TyTree, ty_tree};
ghost use Rattle.lens_forms.specs.Forms.{FormTree, form_tree};
ghost use Rattle.view_hub.specs.Laws.{HaveOneLeftType};
ghost use Rattle.program_accepted.specs.Refused.{IsKnown, IsProgramRefusal};
ghost use Rattle.program_accepted.specs.Program.{Refusal};
ghost use Rattle.answer_text.specs.Lines.{program_refused_line};
ghost use Rattle.program_terms.specs.Views.{program_tree};
ghost use Rattle.script_input.specs.Parts.{HoldsPart};
ghost use Rattle.hub_run.specs.HeldPieces.{HoldsPieces};
ghost use Rattle.answer_text.specs.RefusalLines.{reason};
ghost use Rattle.hub_run.specs.Lenses.{HubRefusal, view_with, with_left, form_of_view, first_left, forms_of};
ghost use Rattle.hub_run.specs.Lenses.{view_reason, hub_refusal_line, views_differ};
ghost use Rattle.hub_run.specs.FormLenses.{form_lens};
ghost use Rattle.hub_run.specs.FoundLenses.{IsRefusalOf, IsRefusedHub, HasRefusalLine, HasLeft};
ghost use Rattle.hub_run.specs.PiecePrograms.{AreViews, IsViewOf};

use crate::pieces::Pieces;
use answer_text::{program_refused_line, refused_part_line};
use doc_values::Ty;
use lens_syntax::Program;
use lens_types::Typed;
use program_accepted::{Accepted, Refused};
use script_input::{ProgramText, accepted_part};
use std::alloc::{AllocError, AllocFailed, Global};
use texts::Bytes;

// The bytes in front of the reason in the line of a refusal.
const FRONT: usize = 17;

/// Why the program part of a hub is refused.
#[derive(Drop)]
pub enum HubRefused {
    /// There are more than 64 views.
    TooManyViews,
    /// The program of the view with this number, from 0, is refused for this cause, which is not that memory ran out.
    InView(u64, Refused),
    /// The left type of the view with this number is not that of view 0.
    ViewsDiffer(u64),
    /// Memory ran out.
    NoMemory,
}

impl From<AllocError> for HubRefused {
    ghost use Rattle.std.specs.Prelude.{◌≡◌};
    ghost use Rattle.hub_run.specs.declared.views.HubRefused.TheVariants.{NoMemory};

    ghost from_gives = { λ _ refused. refused ≡ NoMemory };

    fn from(_: AllocError) -> HubRefused {
        HubRefused::NoMemory
    }
}

impl<T: Drop> From<AllocFailed<T>> for HubRefused {
    ghost use Rattle.std.specs.Prelude.{◌≡◌};
    ghost use Rattle.hub_run.specs.declared.views.HubRefused.TheVariants.{NoMemory};

    ghost from_gives = { λ _ refused. refused ≡ NoMemory };

    fn from(_: AllocFailed<T>) -> HubRefused {
        HubRefused::NoMemory
    }
}

/// The programs of the views of a hub, in order, and their lenses.
#[derive(Drop)]
pub struct AcceptedViews {
    /// The programs.
    pub programs: Vec<Program>,
    /// The lens of each.
    pub lenses: Vec<Typed>,
}

impl Pieces {
    /// The lenses of the views, one for each piece, or why the program part is refused: as [`Pieces::views`] refuses
    /// it.
    pub fn lenses(&self, alloc: Global) -> Result<Vec<Typed>, HubRefused>
        ensures lenses { (ended : List (List ℕ)) (begun : List ℕ) → HoldsPieces self.now ended begun
            → MatchResult result
            (λ lenses. forms_of (ended ++ begun ∷ []) ≡ Ok (map form_tree lenses.items))
            (λ refused. IsRefusedHub (forms_of (ended ++ begun ∷ [])) refused) }
        ensures one_left { IfOk result (λ lenses.
            HaveOneLeftType form_lens (map form_tree lenses.items)) }
        ensures known { IfErr result HasRefusalLine }
    {
        match self.views(alloc) {
            Ok(views) => Ok(views.lenses),
            Err(refused) => Err(refused),
        }
    }

    /// The programs of the views and their lenses, one for each piece, or why the program part is refused. Each piece
    /// is read once. The part is refused by the first of these:
    ///
    /// - `TooManyViews`: if and only if there are more than 64 pieces.
    /// - Then, for each piece in order, `InView`: if and only if its program is refused, with the number of the view
    ///   and the cause that `read_lens` of program_accepted has; a piece of more than 65,536 bytes is too long.
    /// - For the same piece after that, `ViewsDiffer`: if and only if its left type is not the same as view 0's.
    ///
    /// `NoMemory` says nothing of the program part.
    pub fn views(&self, alloc: Global) -> Result<AcceptedViews, HubRefused>
        ensures views { (ended : List (List ℕ)) (begun : List ℕ) → HoldsPieces self.now ended begun
            → MatchResult result
            (λ v. AreViews (ended ++ begun ∷ []) (map program_tree v.programs.items) (map form_tree v.lenses.items))
            (λ refused. IsRefusedHub (forms_of (ended ++ begun ∷ [])) refused) }
        ensures one_left { IfOk result (λ v.
            HaveOneLeftType form_lens (map form_tree v.lenses.items)) }
        ensures known { IfErr result HasRefusalLine }
    {
        if self.is_many {
            return Err(HubRefused::TooManyViews);
        }
        let mut programs = Vec::new(alloc);
        let mut lenses = Vec::new(alloc);
        for piece in &self.ended {
            let view = view_behind(alloc, &lenses, piece)?;
            programs.push(view.program)?;
            lenses.push(view.lens)?;
        }
        let view = view_behind(alloc, &lenses, &self.begun)?;
        programs.push(view.program)?;
        lenses.push(view.lens)?;
        Ok(AcceptedViews { programs, lenses })
    }
}

// The view of a piece behind those that were found before, with the number that they are, or why it is refused.
fn view_behind(alloc: Global, before: &[Typed], piece: &ProgramText) -> Result<Accepted, HubRefused>
    ensures view { (text : List ℕ) → HoldsPart piece.now text → MatchResult result
        (λ a. IsViewOf (first_left (map form_tree before.now)) (length before.now) text
        (program_tree a.program) (form_tree a.lens))
        (λ refused.
        IsRefusedHub (form_of_view (first_left (map form_tree before.now)) (length before.now) text) refused) }
    ensures same_left { IfOk result (λ a. HasLeft (first_left (map form_tree before.now)) (form_tree a.lens)) }
    ensures known { IfErr result HasRefusalLine }
{
    if before.is_empty() {
        return first_view(alloc, piece);
    }
    view_with_left(alloc, before[0].left(), before.len() as u64, piece)
}

// View 0, which may have any left type.
fn first_view(alloc: Global, piece: &ProgramText) -> Result<Accepted, HubRefused>
    ensures view { (text : List ℕ) → HoldsPart piece.now text → MatchResult result
        (λ a. IsViewOf None 0 text (program_tree a.program) (form_tree a.lens))
        (λ refused. IsRefusedHub (form_of_view None 0 text) refused) }
    ensures known { IfErr result HasRefusalLine }
{
    match accepted_part(alloc, piece) {
        Ok(view) => Ok(view),
        Err(refused) => Err(refused_view(0, refused)),
    }
}

/// The program of the view with this number, whose left type is to be this one, and its lens, or why it is refused. It
/// is refused by the first of these:
///
/// - `InView`: if and only if its program is refused, with the number of the view and the cause that `read_lens` of
///   program_accepted has; a piece of more than 65,536 bytes is too long.
/// - `ViewsDiffer`: if and only if its left type is another.
///
/// `NoMemory` says nothing of the piece.
pub fn view_with_left(
    alloc: Global,
    left: &Ty,
    number: u64,
    piece: &ProgramText,
) -> Result<Accepted, HubRefused>
    ensures view { (text : List ℕ) → HoldsPart piece.now text → MatchResult result
        (λ a. IsViewOf (Some (ty_tree left.now)) number text (program_tree a.program) (form_tree a.lens))
        (λ refused. IsRefusedHub (form_of_view (Some (ty_tree left.now)) number text) refused) }
    ensures same_left { IfOk result (λ a. HasLeft (Some (ty_tree left.now)) (form_tree a.lens)) }
    ensures known { IfErr result HasRefusalLine }
{
    match accepted_part(alloc, piece) {
        Ok(view) => with_left(left, number, view),
        Err(refused) => Err(refused_view(number, refused)),
    }
}

// Why the view with this number is refused, whose program is refused for this cause.
fn refused_view(number: u64, refused: Refused) -> HubRefused
    requires has_line { IsKnown refused }
    ensures refused { (ty : Option TyTree) (outcome : Result FormTree Refusal) → IsProgramRefusal outcome refused
        → IsRefusedHub (view_with ty number outcome) result }
    ensures known { HasRefusalLine result }
{
    match refused {
        Refused::Syntax(fault) => HubRefused::InView(number, Refused::Syntax(fault)),
        Refused::Typing(fault) => HubRefused::InView(number, Refused::Typing(fault)),
        Refused::NoMemory => HubRefused::NoMemory,
    }
}

// The view with this number, if its left type is this one.
fn with_left(left: &Ty, number: u64, view: Accepted) -> Result<Accepted, HubRefused>
    ensures same { MatchResult result
        (λ same. (same ≡ view)
        × (with_left (Some (ty_tree left.now)) number (form_tree view.lens) ≡ Ok (form_tree view.lens)))
        (λ refused. IsRefusedHub (with_left (Some (ty_tree left.now)) number (form_tree view.lens)) refused) }
    ensures same_left { IfOk result (λ same. HasLeft (Some (ty_tree left.now)) (form_tree same.lens)) }
    ensures known { IfErr result HasRefusalLine }
{
    if !left.is_same(view.lens.left()) {
        return Err(HubRefused::ViewsDiffer(number));
    }
    Ok(view)
}

/// `program refused: too-many-views`, `program refused: view V REASON` or `program refused: views-differ V`, and a line
/// feed.
///
/// REASON is that of the same refusal of a program that stands alone. Running out of memory is not a refusal, and the
/// only error.
pub fn refusal_line(alloc: Global, refused: &HubRefused) -> Result<Bytes, AllocError>
    requires has_line { HasRefusalLine refused.now }
    ensures refusal { IfOk result (λ _. refused.now ≢ HubRefused.NoMemory) }
    ensures line { IfOk result (λ line. (refusal : HubRefusal) → IsRefusalOf refused.now refusal → line
        ≡ hub_refusal_line refusal) }
{
    match refused {
        HubRefused::TooManyViews => program_refused_line(alloc, "too-many-views"),
        HubRefused::InView(number, refused) => in_view_line(alloc, *number, refused),
        HubRefused::ViewsDiffer(number) => views_differ_line(alloc, *number),
        HubRefused::NoMemory => Err(AllocError),
    }
}

fn views_differ_line(alloc: Global, number: u64) -> Result<Bytes, AllocError>
    ensures { IfOk result (λ line. line ≡ hub_refusal_line (views_differ number)) }
{
    let reason = format!(in alloc; "views-differ {number}")?;
    program_refused_line(alloc, reason.as_str())
}

// The line of a refusal of the view with this number.
fn in_view_line(alloc: Global, number: u64, refused: &Refused) -> Result<Bytes, AllocError>
    requires has_line { IsKnown refused.now }
    ensures { IfOk result (λ line. (why : Refusal) → IsProgramRefusal (Err why) refused.now
        → line ≡ program_refused_line (view_reason number (reason why))) }
{
    let line = refused_part_line(alloc, refused)?;
    view_line(alloc, number, &line)
}

// The line of a refusal, with the number of the view in front of the reason.
fn view_line(alloc: Global, number: u64, line: &Bytes) -> Result<Bytes, AllocError>
    ensures { IfOk result (λ longer. (why : List ℕ) → line.now ≡ program_refused_line why
        → longer ≡ program_refused_line (view_reason number why)) }
{
    let front = format!(in alloc; "program refused: view {number} ")?;
    let mut longer = front.into_bytes();
    longer.extend_from_slice(behind(line.as_slice()))?;
    Ok(Bytes::from_vec(longer))
}

// What stands behind the front of a line of refusal.
fn behind(line: &[u8]) -> &[u8]
    ensures { (rest : List ℕ) → line.now ≡ codes "program refused: " ++ rest → result.now ≡ rest }
{
    if line.len() < FRONT {
        return line;
    }
    &line[FRONT..]
}
