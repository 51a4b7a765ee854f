//! Places in trees.

ghost use Rattle.std.specs.Prelude.{◌≡◌, ◌<◌, ◌≤◌, ◌+◌, ◌^◌, IfOk, IfSome, length};
ghost use Rattle.std.specs.List.{list_all};
ghost use Rattle.std.specs.Char.{is_ascii_digit};
ghost use Rattle.json.specs.Json.{array, object};
ghost use Rattle.json.specs.Strict.{keys};
ghost use Rattle.texts.specs.Keys.{key_place};
ghost use Rattle.file_trees.specs.FileTrees.{file_tree, items_view, members_view};
ghost use Rattle.file_patches.specs.Places.{is_index, is_end, index_of, item_position, free_position, found, position};
ghost use Rattle.file_patches.specs.Places.{child, content_at};
ghost use Rattle.file_patches.specs.Counts.{child_count};
ghost use Rattle.file_patches.specs.Results.{on_ok};

use crate::fault::Cause;
use file_trees::FileTree;
use texts::Name;

/// The content at a place, which is the parts of a pointer.
///
/// - `NoPlace`: if and only if an object has no member of a part's name, or an array no item at its index
/// - `NotAPlace`: if and only if a part leads into what is no array or object, or is not an index of an array
///
/// The first part that leads nowhere says which.
pub fn content_at<'a>(tree: &'a FileTree, place: &[Name]) -> Result<&'a FileTree, Cause>
    ensures { on_ok (λ content. file_tree content.now) result ≡ content_at place.now (file_tree tree.now) }
{
    let mut content = tree;
    for part in place {
        let at = position(content, part)?;
        content = child(content, at);
    }
    Ok(content)
}

// Where a part leads in an array or an object.
#[tactic(auto, using(crate::proofs::Lists::count_rules))]
pub(crate) fn position(tree: &FileTree, part: &Name) -> Result<usize, Cause>
    ensures position { result ≡ position part.now (file_tree tree.now) }
    ensures within { IfOk result (λ i. i < child_count (file_tree tree.now)) }
{
    match tree {
        FileTree::Object(members) => match member_position(members, part) {
            Some(at) => Ok(at),
            None => Err(Cause::NoPlace),
        },
        FileTree::Array(items) => item_position(part.as_str(), items.len()),
        _ => Err(Cause::NotAPlace),
    }
}

// The number of the first member that has a name.
pub(crate) fn member_position(members: &Vec<(Name, FileTree)>, name: &Name) -> Option<usize>
    ensures position { result ≡ key_place name.now (keys (members_view members.now.items)) }
    ensures within { IfSome result (λ i. i < length members.now.items) }
{
    for i in 0..members.len() {
        if name.is_same(&members[i].0) {
            return Some(i);
        }
    }
    None
}

// The item of this many that a part names.
fn item_position(part: &str, count: usize) -> Result<usize, Cause>
    ensures position { result ≡ item_position part.now count }
    ensures within { IfOk result (λ i. i < count) }
{
    if part == "-" {
        return Err(Cause::NoPlace);
    }
    index_of(part, count)
}

// The place among this many items that a part names: that of an item, or the end.
pub(crate) fn free_position(part: &str, count: usize) -> Result<usize, Cause>
    requires { count + 1 < 2 ^ 64 }
    ensures position { result ≡ free_position part.now count }
    ensures within { IfOk result (λ i. i ≤ count) }
{
    if part == "-" {
        return Ok(count);
    }
    index_of(part, count + 1)
}

// The index that a text writes, which is below a bound.
fn index_of(text: &str, bound: usize) -> Result<usize, Cause>
    ensures index { result ≡ index_of text.now bound }
    ensures within { IfOk result (λ i. i < bound) }
{
    if !is_index(text) {
        return Err(Cause::NotAPlace);
    }
    match text.parse::<usize>() {
        Ok(index) if index < bound => Ok(index),
        Ok(_) => Err(Cause::NoPlace),
        Err(_) => Err(Cause::NoPlace),
    }
}

// Whether a text is digits, with no zero in front of others.
fn is_index(text: &str) -> bool
    ensures { result ≡ is_index text.now }
{
    let bytes = text.as_bytes();
    if bytes.is_empty() || !are_digits(bytes) {
        return false;
    }
    bytes.len() == 1 || bytes[0] != b'0'
}

fn are_digits(bytes: &[u8]) -> bool
    ensures { result ≡ list_all is_ascii_digit bytes.now }
{
    bytes.iter().all(|byte| byte.is_ascii_digit())
}

// The content at a position.
#[tactic(auto, using(crate::proofs::Lists::count_rules))]
pub(crate) fn child(tree: &FileTree, at: usize) -> &FileTree
    requires { at < child_count (file_tree tree.now) }
    ensures { file_tree result.now ≡ child at (file_tree tree.now) }
{
    match tree {
        FileTree::Array(items) => &items[at],
        FileTree::Object(members) => &members[at].1,
        _ => tree,
    }
}
