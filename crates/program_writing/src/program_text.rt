//! The text of whole programs.
ghost use Rattle.std.specs.Prelude.{◌≡◌, [], ◌++◌, IfOk, OnOk, string_bytes};
ghost use Rattle.program_terms.specs.Views.{def_tree, program_tree};
ghost use Rattle.program_writing.specs.Canonical.{put_definition, put_definitions, canonical};
ghost use Rattle.program_writing.specs.Puts.{Puts};

use crate::lens_text::put_lens;
use crate::name_text::{put_name, put_text};
use crate::type_text::put_type;
use program_terms::{Def, Program};
use std::alloc::{AllocError, Global};
use texts::{Name, Str};

/// The canonical text of a program.
///
/// Each definition is on a line of its own, and the main lens on the last line, which no line feed ends. The
/// only error is running out of memory. docs/LANGUAGE.md has the rule.
pub fn write_program(alloc: Global, program: &Program) -> Result<Str, AllocError>
    ensures canonical { IfOk result (λ text. text ≡ canonical (program_tree program.now)) }
{
    let mut out = String::new(alloc);
    put_definitions(&mut out, program)?;
    put_text(&mut out, "main ")?;
    put_lens(&mut out, program.main())?;
    Ok(Str::from_string(out))
}

fn put_definitions(out: &mut String, program: &Program) -> Result<(), AllocError>
    ensures { OnOk result (Puts (string_bytes out.old) (string_bytes out.new)
        (put_definitions (program_tree program.now).definitions)) }
{
    for at in 0..program.count() {
        put_definition(out, program.name(at), program.def(at))?;
    }
    Ok(())
}

// A definition on a line of its own.
fn put_definition(out: &mut String, name: &Name, def: &Def) -> Result<(), AllocError>
    ensures { OnOk result (Puts (string_bytes out.old) (string_bytes out.new)
        (put_definition name.now (def_tree def.now))) }
{
    match def {
        Def::OfType(ty) => {
            put_text(out, "type ")?;
            put_name(out, name)?;
            put_text(out, " = ")?;
            put_type(out, ty)?;
        }
        Def::OfLens(lens) => {
            put_text(out, "lens ")?;
            put_name(out, name)?;
            put_text(out, " = ")?;
            put_lens(out, lens)?;
        }
    }
    put_text(out, ";\n")
}
