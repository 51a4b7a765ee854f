//! The text of types of documents.
ghost use Rattle.std.specs.Prelude.{◌≡◌, [], ◌++◌, IfOk, OnOk, string_bytes};
ghost use Rattle.doc_values.specs.Types.{ty_tree, fields_tree};
ghost use Rattle.program_writing.specs.Canonical.{put_type, put_fields, term_of_type, terms_of_fields, canonical_type};
ghost use Rattle.program_writing.specs.Puts.{Puts};

use crate::initial_text::{put_initial_member, put_initial_number, put_initial_string};
use crate::name_text::{put_comma, put_name, put_strings, put_text};
use doc_values::{Fields, Ty};
use std::alloc::{AllocError, Global};
use texts::Str;

/// The canonical text of a type, as a program writes it.
///
/// The only error is running out of memory. Where a string may hold each member, field and tag of the type, and each
/// initial value that is a text or is the empty text of `text`, the tokens of the text spell the type, as
/// `laws::type_text_is_spelled` says. docs/LANGUAGE.md has the rule.
pub fn write_type(alloc: Global, ty: &Ty) -> Result<Str, AllocError>
    ensures canonical { IfOk result (λ text. text ≡ canonical_type (ty_tree ty.now)) }
{
    let mut out = String::new(alloc);
    put_ty(&mut out, ty)?;
    Ok(Str::from_string(out))
}

#[cycle(put_ty)]
fn put_ty(out: &mut String, ty: &Ty) -> Result<(), AllocError>
    ensures { OnOk result
        (Puts (string_bytes out.old) (string_bytes out.new) (put_type (term_of_type (ty_tree ty.now)))) }
{
    match ty {
        Ty::Unit => put_text(out, "unit"),
        Ty::Bool => put_text(out, "bool"),
        Ty::Int(value) => {
            put_text(out, "int")?;
            put_initial_number(out, *value)
        }
        Ty::Text(value) => {
            put_text(out, "text")?;
            put_initial_string(out, "", value.as_str())
        }
        Ty::Enum(members, value) => {
            put_text(out, "enum[")?;
            put_strings(out, members.as_slice())?;
            put_text(out, "]")?;
            put_initial_member(out, members.as_slice(), value)
        }
        Ty::Rec(fields) => {
            put_text(out, "{")?;
            put_ty_fields(out, fields)?;
            put_text(out, "}")
        }
        Ty::Alt(tags) => {
            put_text(out, "<")?;
            put_ty_fields(out, tags)?;
            put_text(out, ">")
        }
        Ty::List(inner) => {
            put_text(out, "list ")?;
            put_ty(out, inner)
        }
        Ty::Keyed(inner) => {
            put_text(out, "keyed ")?;
            put_ty(out, inner)
        }
        Ty::Tree(inner) => {
            put_text(out, "tree ")?;
            put_ty(out, inner)
        }
    }
}

// Fields or tags with commas between them.
#[cycle(put_ty)]
fn put_ty_fields(out: &mut String, fields: &Fields) -> Result<(), AllocError>
    ensures { OnOk result (Puts (string_bytes out.old) (string_bytes out.new)
        (put_fields [] (terms_of_fields (fields_tree fields.now)))) }
{
    let mut first = true;
    for field in fields.as_slice() {
        put_comma(out, first)?;
        put_name(out, &field.0)?;
        put_text(out, ": ")?;
        put_ty(out, &field.1)?;
        first = false;
    }
    Ok(())
}
