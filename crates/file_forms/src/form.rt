//! Forms: how a file has the documents of a type.

ghost use Rattle.std.specs.Prelude.{◌≡◌, ◌↔◌, true, None, IfOk, option_map};
ghost use Rattle.file_forms.specs.Forms.{file_form_tree};
ghost use Rattle.file_forms.specs.Fitting.{is_fit};
ghost use Rattle.file_forms.specs.Misfits.{misfit_view, first_misfit};

use crate::fit;
use crate::literal::Literal;
use crate::misfit::FormMisfit;
use std::alloc::{AllocError, Global};
use texts::{Name, Names, Str};

/// How a file has the documents of a type.
#[derive(Debug, Drop)]
pub enum FileForm {
    /// Null, as a literal. As a field of a record a literal `Gone` is a member that is never there, and any other one a
    /// member that never changes.
    Literal(Literal),
    /// A bool.
    Bool,
    /// A bool as one of two literals: that of false, and that of true.
    Truths(Literal, Literal),
    /// A whole number, with the initial one.
    Int(i64),
    /// A text, with the initial one.
    Text(Str),
    /// A member of an enum as a string, with the initial one.
    Enum(Names, Name),
    /// A member of an enum as a literal: each member with its own, and the initial member.
    Words(Vec<(Name, Literal)>, Name),
    /// A text as a number that has it as its letters, with the initial one.
    Number(Str),
    /// A record as an object: a member for each field that is there.
    Object(Vec<(Name, FileForm)>),
    /// Alternatives as an object with the tag as its one member.
    Tagged(Vec<(Name, FileForm)>),
    /// Alternatives as the content alone.
    Bare(Vec<(Name, FileForm)>),
    /// A list as an array.
    Items(Box<FileForm>),
    /// A keyed map as an object.
    Map(Box<FileForm>),
}

impl FileForm {
    /// Where the form is not fit, and why; none if it is fit.
    ///
    /// A form is fit if four things hold in all its parts. The fields of a record rise by bytes. Tags are distinct,
    /// and no tree could be of two tags whose content is written alone. Members of an enum are distinct, and so are
    /// their literals, and those of false and true. A literal that is a number has the letters of one. A form comes
    /// before its parts, and parts come in their order. Fails only if memory runs out.
    pub fn misfit(&self, alloc: Global) -> Result<Option<FormMisfit>, AllocError>
        ensures first { IfOk result (λ misfit. option_map misfit_view misfit
            ≡ first_misfit (file_form_tree self.now)) }
        ensures fit { IfOk result (λ misfit. (misfit ≡ None) ↔ (is_fit (file_form_tree self.now) ≡ true)) }
    {
        fit::first_misfit(alloc, self)
    }
}
