//! The kinds of operations.

ghost use Rattle.std.specs.Prelude.{◌≡◌};
ghost use Rattle.file_patches.specs.Reading.{kind_of};

// What an operation does, which its member `op` says.
#[derive(Clone, Copy, Drop)]
pub(crate) enum Kind {
    Add,
    Remove,
    Replace,
    Move,
    Copy,
    Test,
}

pub(crate) fn kind_of(name: &str) -> Option<Kind>
    ensures { result ≡ kind_of name.now }
{
    match name {
        "add" => Some(Kind::Add),
        "remove" => Some(Kind::Remove),
        "replace" => Some(Kind::Replace),
        "move" => Some(Kind::Move),
        "copy" => Some(Kind::Copy),
        "test" => Some(Kind::Test),
        _ => None,
    }
}
