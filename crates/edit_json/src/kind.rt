//! What a primitive does, which the name of the member of its tree says.

ghost use Rattle.std.specs.Prelude.{◌≡◌};
ghost use Rattle.edit_json.specs.Kinds.{kind_of};

/// What a primitive does. The page docs/FORMATS.md has the name and the content of each.
#[derive(Clone, Copy, Debug, PartialEq, Eq, Drop)]
pub enum Kind {
    /// Sets a value.
    Set,
    /// Adds to a number.
    Add,
    /// Replaces characters of a text.
    Splice,
    /// Acts on a field.
    At,
    /// Acts on the content of the tag that is there.
    Stay,
    /// Goes to another tag.
    Switch,
    /// Acts on the content at a place.
    Mod,
    /// Adds fresh items at the end of a list.
    Ins,
    /// Removes items at the end of a list.
    Del,
    /// Moves an item of a list.
    Move,
    /// Gives the items of a list another order.
    Reorder,
    /// Adds a key.
    Put,
    /// Removes a key.
    Drop,
    /// Renames a key.
    Rename,
    /// Adds a node to a tree.
    Graft,
    /// Removes the last child of a node.
    Prune,
    /// Moves a child of a node among its children.
    Shift,
    /// Moves a subtree to another node.
    Hang,
}

/// What the primitive does whose member has this name. None if and only if no primitive has it.
pub fn kind_of(name: &str) -> Option<Kind>
    ensures { result ≡ kind_of name.now }
{
    match name {
        "set" => Some(Kind::Set),
        "add" => Some(Kind::Add),
        "splice" => Some(Kind::Splice),
        "at" => Some(Kind::At),
        "stay" => Some(Kind::Stay),
        "switch" => Some(Kind::Switch),
        "mod" => Some(Kind::Mod),
        "ins" => Some(Kind::Ins),
        "del" => Some(Kind::Del),
        "move" => Some(Kind::Move),
        "reorder" => Some(Kind::Reorder),
        "put" => Some(Kind::Put),
        "drop" => Some(Kind::Drop),
        "rename" => Some(Kind::Rename),
        "graft" => Some(Kind::Graft),
        "prune" => Some(Kind::Prune),
        "shift" => Some(Kind::Shift),
        "hang" => Some(Kind::Hang),
        _ => None,
    }
}
