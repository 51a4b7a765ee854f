//! The text of types as they are written.
ghost use Rattle.std.specs.Prelude.{◌≡◌, [], ◌++◌, OnOk, string_bytes};
ghost use Rattle.program_terms.specs.Views.{type_tree, fields_tree};
ghost use Rattle.program_writing.specs.Canonical.{put_type, put_fields};
ghost use Rattle.program_writing.specs.Puts.{Puts};

use crate::initial_text::{put_initial_member, put_initial_number, put_initial_string};
use crate::name_text::{put_comma, put_name, put_strings, put_text};
use program_terms::{TyExpr, TyFields};
use std::alloc::AllocError;

#[cycle(put_type)]
pub(crate) fn put_type(out: &mut String, ty: &TyExpr) -> Result<(), AllocError>
    ensures { OnOk result (Puts (string_bytes out.old) (string_bytes out.new) (put_type (type_tree ty.now))) }
{
    match ty {
        TyExpr::Unit => put_text(out, "unit"),
        TyExpr::Bool => put_text(out, "bool"),
        TyExpr::Int(value) => {
            put_text(out, "int")?;
            put_initial_number(out, *value)
        }
        TyExpr::Text(value) => {
            put_text(out, "text")?;
            put_initial_string(out, "", value.as_str())
        }
        TyExpr::Enum(members, value) => {
            put_text(out, "enum[")?;
            put_strings(out, members.as_slice())?;
            put_text(out, "]")?;
            put_initial_member(out, members.as_slice(), value)
        }
        TyExpr::Rec(fields) => {
            put_text(out, "{")?;
            put_fields(out, fields)?;
            put_text(out, "}")
        }
        TyExpr::Alt(tags) => {
            put_text(out, "<")?;
            put_fields(out, tags)?;
            put_text(out, ">")
        }
        TyExpr::List(inner) => {
            put_text(out, "list ")?;
            put_type(out, inner)
        }
        TyExpr::Keyed(inner) => {
            put_text(out, "keyed ")?;
            put_type(out, inner)
        }
        TyExpr::Tree(inner) => {
            put_text(out, "tree ")?;
            put_type(out, inner)
        }
        TyExpr::Named(name) => put_name(out, name),
    }
}

// Fields or tags with commas between them.
#[cycle(put_type)]
pub(crate) fn put_fields(out: &mut String, fields: &TyFields) -> Result<(), AllocError>
    ensures { OnOk result (Puts (string_bytes out.old) (string_bytes out.new) (put_fields [] (fields_tree fields.now))) }
{
    let mut first = true;
    for field in fields.as_slice() {
        put_comma(out, first)?;
        put_name(out, &field.0)?;
        put_text(out, ": ")?;
        put_type(out, &field.1)?;
        first = false;
    }
    Ok(())
}
