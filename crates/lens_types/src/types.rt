//! The first failure among the nodes of a type.

ghost use Rattle.std.specs.Prelude.{◌≡◌, MatchResult, None};
ghost use Rattle.program_terms.specs.Views.{type_tree, fields_tree};
ghost use Rattle.lens_types.specs.Checking.{type_failure, fields_failure};
ghost use Rattle.lens_types.specs.Faults.{IsFaultOf};

use crate::fault::TypeFault;
use crate::members::check_enum;
use crate::names::{distinct_fields, distinct_tags, field_names};
use program_terms::{TyExpr, TyFields};
use std::alloc::Global;

// Refuses a type of which a node has a failure. A name counts as passed.
#[cycle(check_type)]
pub(crate) fn check_type(alloc: Global, ty: &TyExpr) -> Result<(), TypeFault>
    ensures { MatchResult result
        (λ _. type_failure (type_tree ty.now) ≡ None)
        (λ fault. IsFaultOf (type_failure (type_tree ty.now)) fault) }
{
    match ty {
        TyExpr::Unit => Ok(()),
        TyExpr::Bool => Ok(()),
        TyExpr::Int(_) => Ok(()),
        TyExpr::Text(_) => Ok(()),
        TyExpr::Enum(members, value) => check_enum(alloc, members, value),
        TyExpr::Rec(fields) => {
            check_fields(alloc, fields)?;
            distinct_fields(alloc, &field_names(alloc, fields.as_slice())?)
        }
        TyExpr::Alt(fields) => {
            check_fields(alloc, fields)?;
            distinct_tags(alloc, &field_names(alloc, fields.as_slice())?)
        }
        TyExpr::List(inner) => check_type(alloc, inner),
        TyExpr::Keyed(inner) => check_type(alloc, inner),
        TyExpr::Tree(inner) => check_type(alloc, inner),
        TyExpr::Named(_) => Ok(()),
    }
}

// Refuses fields, or tags, of which a type has a failure.
#[cycle(check_type)]
pub(crate) fn check_fields(alloc: Global, fields: &TyFields) -> Result<(), TypeFault>
    ensures { MatchResult result
        (λ _. fields_failure (fields_tree fields.now) ≡ None)
        (λ fault. IsFaultOf (fields_failure (fields_tree fields.now)) fault) }
{
    for field in fields.as_slice() {
        check_type(alloc, &field.1)?;
    }
    Ok(())
}
