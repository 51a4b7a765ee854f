//! Checking a program.

ghost use Rattle.std.specs.Prelude.{◌≡◌, IsTrue, IfOk, MatchResult, None, length};
ghost use Rattle.program_terms.specs.Views.{type_tree, lens_tree, def_tree, program_tree};
ghost use Rattle.program_terms.specs.Terms.{type_def, lens_def};
ghost use Rattle.lens_forms.specs.Forms.{form_tree};
ghost use Rattle.lens_types.specs.Checking.{def_failure, first_failure};
ghost use Rattle.lens_types.specs.Earlier.{expanded_form, main_form};
ghost use Rattle.lens_types.specs.Entries.{earlier_tree, is_measured_type, is_measured_lens, IsKnownType, IsKnownLens};
ghost use Rattle.lens_types.specs.Entries.{IsKnown};
ghost use Rattle.lens_types.specs.Faults.{IsFaultOf};
ghost use Rattle.lens_types.specs.Sound.{is_sound};

use crate::earlier::Earlier;
use crate::expansion::expanded_lens;
use crate::fault::TypeFault;
use crate::heights::{lens_height, type_height, written_height};
use crate::known::{Known, KnownLens, KnownType};
use crate::lenses::checked_lens;
use crate::made::both;
use crate::sides::side_type;
use crate::size::{counted_lens, counted_type};
use crate::typed::Typed;
use crate::types::check_type;
use lens_forms::GREATEST_HEIGHT;
use program_terms::{Def, Lens, Program, TyExpr};
use std::alloc::{AllocError, Global};
use texts::{Side, Twin};

/// The main lens of a program with all names expanded, and its two types.
///
/// Definitions are checked in written order, used or not, and the main lens last; the fault is the first failure. For
/// each definition its parts are counted first, then heights are tested, then its nodes are checked, each after its
/// parts. docs/LANGUAGE.md has the condition of each fault, with an example, and the order. `NoMemory` says nothing of
/// the program.
///
/// The time is linear in the text of the program, apart from what compositions compare: for each composition, both
/// types are made.
pub fn check(alloc: Global, program: &Program) -> Result<Typed, TypeFault>
    ensures { MatchResult result
        (λ t. (first_failure (program_tree program.now) ≡ None) × (form_tree t ≡ main_form (program_tree program.now)))
        (λ fault. IsFaultOf (first_failure (program_tree program.now)) fault) }
{
    let mut earlier = Earlier::new(alloc);
    for at in 0..program.count() {
        let known = checked_definition(alloc, &earlier, program.def(at))?;
        earlier.add(program.name(at).twin(alloc)?, known)?;
    }
    let main = program.main();
    defined_lens(alloc, &earlier, main)?;
    Ok(typed_lens(alloc, &earlier, main)?)
}

// The form of a lens that has no failure, with its two types.
fn typed_lens(alloc: Global, earlier: &Earlier<'_>, lens: &Lens) -> Result<Typed, AllocError>
    requires { IsTrue (is_sound (expanded_form (earlier_tree earlier.now) (lens_tree lens.now))) }
    ensures { IfOk result (λ t. form_tree t ≡ expanded_form (earlier_tree earlier.now) (lens_tree lens.now)) }
{
    let scope = earlier.len();
    let left = side_type(alloc, earlier, scope, Side::Left, lens);
    let right = side_type(alloc, earlier, scope, Side::Right, lens);
    let (left, right) = both(left, right)?;
    let form = expanded_lens(alloc, earlier, scope, lens)?;
    Ok(Typed::new(form, left, right))
}

// What a definition stands for.
fn checked_definition<'a>(
    alloc: Global,
    earlier: &Earlier<'a>,
    def: &'a Def,
) -> Result<Known<'a>, TypeFault>
    ensures { MatchResult result
        (λ k. (def_failure (earlier_tree earlier.now) (def_tree def.now) ≡ None)
        × IsKnown (earlier_tree earlier.now) (def_tree def.now) k)
        (λ fault. IsFaultOf (def_failure (earlier_tree earlier.now) (def_tree def.now)) fault) }
{
    match def {
        Def::OfType(ty) => Ok(Known::OfType(defined_type(alloc, earlier, ty)?)),
        Def::OfLens(lens) => Ok(Known::OfLens(defined_lens(alloc, earlier, lens)?)),
    }
}

// A type that is defined.
fn defined_type<'a>(
    alloc: Global,
    earlier: &Earlier<'a>,
    ty: &'a TyExpr,
) -> Result<KnownType<'a>, TypeFault>
    ensures { MatchResult result
        (λ k. (def_failure (earlier_tree earlier.now) (type_def (type_tree ty.now)) ≡ None)
        × IsKnownType (earlier_tree earlier.now) (type_tree ty.now) k)
        (λ fault. IsFaultOf (def_failure (earlier_tree earlier.now) (type_def (type_tree ty.now))) fault) }
{
    let Some(parts) = counted_type(earlier, ty) else {
        return Err(TypeFault::TooLarge);
    };
    let height = type_height(earlier, ty);
    if height > GREATEST_HEIGHT {
        return Err(TypeFault::TooDeep);
    }
    check_type(alloc, ty)?;
    let known = KnownType {
        ty,
        scope: earlier.len(),
        parts,
        height,
    };
    Ok(without_type_alias(earlier, known))
}

// What a type stands for: a name stands for what it is defined as.
fn without_type_alias<'a>(earlier: &Earlier<'a>, known: KnownType<'a>) -> KnownType<'a>
    requires scope { known.scope ≡ length earlier.now }
    requires measured { IsTrue (is_measured_type (earlier_tree earlier.now) known) }
    ensures { IsKnownType (earlier_tree earlier.now) (type_tree known.entry.ty.now) result }
{
    if let TyExpr::Named(name) = known.ty
        && let Some(other) = earlier.type_named(name, known.scope)
    {
        return other;
    }
    known
}

// A lens that is defined, or the main lens.
fn defined_lens<'a>(
    alloc: Global,
    earlier: &Earlier<'a>,
    lens: &'a Lens,
) -> Result<KnownLens<'a>, TypeFault>
    ensures { MatchResult result
        (λ k. (def_failure (earlier_tree earlier.now) (lens_def (lens_tree lens.now)) ≡ None)
        × IsKnownLens (earlier_tree earlier.now) (lens_tree lens.now) k)
        (λ fault. IsFaultOf (def_failure (earlier_tree earlier.now) (lens_def (lens_tree lens.now))) fault) }
{
    let Some(parts) = counted_lens(earlier, lens) else {
        return Err(TypeFault::TooLarge);
    };
    let height = lens_height(earlier, lens);
    if height > GREATEST_HEIGHT {
        return Err(TypeFault::TooDeep);
    }
    if written_height(earlier, lens) > GREATEST_HEIGHT {
        return Err(TypeFault::TooDeep);
    }
    let sides = checked_lens(alloc, earlier, lens)?;
    let known = KnownLens {
        lens,
        scope: earlier.len(),
        parts,
        height,
        sides,
    };
    Ok(without_lens_alias(earlier, known))
}

// What a lens stands for: a name stands for what it is defined as.
fn without_lens_alias<'a>(earlier: &Earlier<'a>, known: KnownLens<'a>) -> KnownLens<'a>
    requires scope { known.scope ≡ length earlier.now }
    requires measured { IsTrue (is_measured_lens (earlier_tree earlier.now) known) }
    ensures { IsKnownLens (earlier_tree earlier.now) (lens_tree known.entry.lens.now) result }
{
    if let Lens::Named(name) = known.lens
        && let Some(other) = earlier.lens_named(name, known.scope)
    {
        return other;
    }
    known
}
