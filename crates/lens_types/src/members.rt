//! The members of enums and bijections: distinct on each side, and the initial value is one of them.

ghost use Rattle.std.specs.Prelude.{◌≡◌, MatchResult, None};
ghost use Rattle.texts.specs.Keys.{has_name};
ghost use Rattle.lens_forms.specs.Forms.{lefts};
ghost use Rattle.lens_types.specs.Checking.{value_failure, enum_failure, pairs_failure};
ghost use Rattle.lens_types.specs.Faults.{IsFaultOf};

use crate::fault::TypeFault;
use crate::names::{distinct_members, member_names, pair_names};
use program_terms::Pairs;
use std::alloc::Global;
use texts::{Name, Names, Twin};

// Refuses an enum with a member that occurs twice, or else with an initial value that is not a member.
pub(crate) fn check_enum(alloc: Global, members: &Names, value: &Name) -> Result<(), TypeFault>
    ensures { MatchResult result
        (λ _. enum_failure members.now value.now ≡ None)
        (λ fault. IsFaultOf (enum_failure members.now value.now) fault) }
{
    distinct_members(alloc, &member_names(alloc, members.as_slice())?)?;
    listed_member(alloc, members, value)
}

// Refuses pairs with a member that occurs twice on its side, or else with an initial value that is not a left member.
pub(crate) fn check_pairs(alloc: Global, pairs: &Pairs, value: &Name) -> Result<(), TypeFault>
    ensures { MatchResult result
        (λ _. pairs_failure pairs.now value.now ≡ None)
        (λ fault. IsFaultOf (pairs_failure pairs.now value.now) fault) }
{
    distinct_members(alloc, &pair_names(alloc, pairs.as_slice())?)?;
    listed_left_member(alloc, pairs, value)
}

// Refuses an initial value that is not among the members.
fn listed_member(alloc: Global, members: &Names, value: &Name) -> Result<(), TypeFault>
    ensures { MatchResult result
        (λ _. value_failure value.now members.now ≡ None)
        (λ fault. IsFaultOf (value_failure value.now members.now) fault) }
{
    if !members.has(value) {
        return Err(TypeFault::NotAMember {
            name: value.twin(alloc)?,
        });
    }
    Ok(())
}

// Refuses an initial value that is not among the left members.
fn listed_left_member(alloc: Global, pairs: &Pairs, value: &Name) -> Result<(), TypeFault>
    ensures { MatchResult result
        (λ _. value_failure value.now (lefts pairs.now) ≡ None)
        (λ fault. IsFaultOf (value_failure value.now (lefts pairs.now)) fault) }
{
    if !has_left(pairs.as_slice(), value) {
        return Err(TypeFault::NotAMember {
            name: value.twin(alloc)?,
        });
    }
    Ok(())
}

// Whether a name is among the left members.
fn has_left(pairs: &[(Name, Name)], name: &Name) -> bool
    ensures { result ≡ has_name name.now (lefts pairs.now) }
{
    for pair in pairs {
        if name.is_same(&pair.0) {
            return true;
        }
    }
    false
}
