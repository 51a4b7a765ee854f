//! What is among the members of an object.

ghost use Rattle.std.specs.Prelude.{◌≡◌, true, IfOk, option_map};
ghost use Rattle.json.specs.Strict.{keys};
ghost use Rattle.texts.specs.Keys.{is_rising, has_name};
ghost use Rattle.file_trees.specs.FileTrees.{file_tree, members_view};
ghost use Rattle.file_forms.specs.Forms.{forms_view, form_names};
ghost use Rattle.file_forms.specs.Orders.{first_named, by_name};
ghost use Rattle.file_values.specs.Reading.{Reads, slot_of, stranger, known_members, one_member, lent_members};

use crate::misfit::{ReadCause, ReadFault};
use crate::slots::members_in;
use file_forms::FileForm;
use file_trees::FileTree;
use hold_shapes::SharedList;
use std::alloc::{AllocError, Global};
use std::collections::BTreeMap;
use texts::Name;

// The members of an object, each of which is a field's.
pub(crate) fn known_members<'a>(
    alloc: Global,
    fields: &[(Name, FileForm)],
    slot: Option<&'a FileTree>,
) -> Result<&'a [(Name, FileTree)], ReadFault>
    ensures { Reads (λ members. members_view members.now) result
        (known_members (form_names (forms_view fields.now)) (slot_of slot.entry)) }
{
    let members = members_in(alloc, slot)?;
    match stranger(fields, members) {
        Some(name) => Err(ReadFault::here(alloc, ReadCause::NoField).in_member(
            alloc,
            name.as_str(),
        )),
        None => Ok(members),
    }
}

// The first member that no field has.
fn stranger<'a>(fields: &[(Name, FileForm)], members: &'a [(Name, FileTree)]) -> Option<&'a Name>
    ensures { option_map (λ n. n.now) result
        ≡ stranger (form_names (forms_view fields.now)) (members_view members.now) }
{
    for member in members {
        if !has_field(fields, &member.0) {
            return Some(&member.0);
        }
    }
    None
}

fn has_field(fields: &[(Name, FileForm)], name: &Name) -> bool
    ensures { result ≡ has_name name.now (form_names (forms_view fields.now)) }
{
    for field in fields {
        if name.is_same(&field.0) {
            return true;
        }
    }
    false
}

// The content of the first member with a name.
pub(crate) fn first_named<'a>(name: &Name, members: &'a [(Name, FileTree)]) -> Option<&'a FileTree>
    ensures { slot_of result ≡ first_named name.now (members_view members.now) }
{
    for member in members {
        if name.is_same(&member.0) {
            return Some(&member.1);
        }
    }
    None
}

// The members in byte order of their names; of two with one name the first stays.
pub(crate) fn by_name(
    alloc: Global,
    members: &[(Name, FileTree)],
) -> Result<BTreeMap<&str, &FileTree>, AllocError>
    ensures members { IfOk result (λ map. lent_members map.entries ≡ by_name (members_view members.now)) }
    ensures rising { IfOk result (λ map. is_rising (keys (lent_members map.entries)) ≡ true) }
{
    let mut map = BTreeMap::new(alloc);
    for i in (0..members.len()).rev() {
        let member = &members[i];
        map.insert(member.0.as_str(), &member.1)?;
    }
    Ok(map)
}

// The one member of an object, which may come again under its name.
pub(crate) fn one_member(members: &[(Name, FileTree)]) -> Option<(&Name, &FileTree)>
    ensures { option_map (λ m. (m.0.now, file_tree m.1.now)) result ≡ one_member (members_view members.now) }
{
    let (first, rest) = members.split_first()?;
    for member in rest {
        if !first.0.is_same(&member.0) {
            return None;
        }
    }
    Some((&first.0, &first.1))
}

// The names of these members.
pub(crate) fn names_of(
    alloc: Global,
    members: &BTreeMap<&str, &FileTree>,
) -> Result<SharedList<Name>, AllocError>
    ensures { IfOk result (λ names. names ≡ keys (lent_members members.now.entries)) }
{
    let mut names = Vec::with_capacity(alloc, members.len())?;
    for (name, _) in members.iter() {
        names.push(Name::from_string(String::from_str(alloc, name)?))?;
    }
    SharedList::from_vec(alloc, names)
}
