//! Words that are built at their end, and words of one primitive.
//!
//! Clauses of the first speak of every rest, so that they can be used one after another.

ghost use Rattle.std.specs.Prelude.{◌≡◌, ℕ, ◌+◌, ◌<◌, ◌≤◌, IfOk, OnOk, map, length, slice_index, bytes_eq};
ghost use Rattle.hold_shapes.specs.declared.edit.Place.TheVariants.{Key, Node};
ghost use Rattle.hold_shapes.specs.declared.edit.ShapeEdit.TheVariants.{PutKey, Graft};
ghost use Rattle.edit_module.specs.declared.atom.Atom.TheVariants.{Letters};
ghost use Rattle.edit_module.specs.Words.{WordTree, word_of, joined, no_primitives, at, stay, switch, modify};
ghost use Rattle.edit_module.specs.Views.{primitive_tree, word_tree};
ghost use Rattle.edit_inverse.specs.Construct.{only, set_unless, unless_empty, reshape, insertions};
ghost use Rattle.edit_inverse.specs.Paths.{parent_path, next_path};
ghost use Rattle.edit_between.specs.Between.{deletions, resized, prunes};

use edit_module::Atom;
use edit_module::word::{Primitive, Word};
use hold_shapes::{MOST_ITEMS, Name, Path, Place, ShapeEdit, Str, Twin};
use std::alloc::{AllocError, Global};

// ---- words that are built at their end

// Appends an edit of the content at a place, unless its word is empty.
pub(crate) fn push_modify(
    out: &mut Vec<Primitive>,
    place: Place,
    word: Word,
) -> Result<(), AllocError>
    ensures { OnOk result ((rest : WordTree) → joined (word_of (map primitive_tree out.new.items)) rest
        ≡ joined (word_of (map primitive_tree out.old.items)) (unless_empty (modify place) (word_tree word) rest)) }
{
    if word.len() != 0 {
        out.push(Primitive::Mod(place, word))?;
    }
    Ok(())
}

// Appends an edit of a field, unless its word is empty.
pub(crate) fn push_at(
    alloc: Global,
    out: &mut Vec<Primitive>,
    name: &Name,
    word: Word,
) -> Result<(), AllocError>
    ensures { OnOk result ((rest : WordTree) → joined (word_of (map primitive_tree out.new.items)) rest
        ≡ joined (word_of (map primitive_tree out.old.items)) (unless_empty (at name.now) (word_tree word) rest)) }
{
    if word.len() != 0 {
        let name = name.twin(alloc)?;
        out.push(Primitive::At(name, word))?;
    }
    Ok(())
}

// Appends an edit of a shape.
pub(crate) fn push_shape(out: &mut Vec<Primitive>, edit: ShapeEdit) -> Result<(), AllocError>
    ensures { OnOk result ((rest : WordTree) → joined (word_of (map primitive_tree out.new.items)) rest
        ≡ joined (word_of (map primitive_tree out.old.items)) (reshape edit rest)) }
{
    out.push(Primitive::Shape(edit))?;
    Ok(())
}

// Insertions of a number of items, in pieces.
fn inserted(alloc: Global, count: u64) -> Result<Vec<Primitive>, AllocError>
    ensures { IfOk result (λ ps. (rest : WordTree) → joined (word_of (map primitive_tree ps.items)) rest
        ≡ insertions count rest) }
{
    let mut out = Vec::new(alloc);
    let full = count / MOST_ITEMS as u64;
    for piece in 0..full {
        push_shape(&mut out, ShapeEdit::Ins(MOST_ITEMS))?;
    }
    let rest = count % MOST_ITEMS as u64;
    if rest != 0 {
        push_shape(&mut out, ShapeEdit::Ins(rest as u32))?;
    }
    Ok(out)
}

// Deletions of a number of items, in pieces.
fn deleted(alloc: Global, count: u64) -> Result<Vec<Primitive>, AllocError>
    ensures { IfOk result (λ ps. (rest : WordTree) → joined (word_of (map primitive_tree ps.items)) rest
        ≡ deletions count rest) }
{
    let mut out = Vec::new(alloc);
    let full = count / MOST_ITEMS as u64;
    for piece in 0..full {
        push_shape(&mut out, ShapeEdit::Del(MOST_ITEMS))?;
    }
    let rest = count % MOST_ITEMS as u64;
    if rest != 0 {
        push_shape(&mut out, ShapeEdit::Del(rest as u32))?;
    }
    Ok(out)
}

// The edits by which a list of one number of items becomes one of another number.
#[tactic(auto, using(crate::proofs::Resized::resized_rules))]
pub(crate) fn resized(alloc: Global, from: u64, to: u64) -> Result<Vec<Primitive>, AllocError>
    ensures { IfOk result (λ ps. (rest : WordTree) → joined (word_of (map primitive_tree ps.items)) rest
        ≡ resized from to rest) }
{
    if to < from {
        let out = deleted(alloc, from - to)?;
        return Ok(out);
    }
    let out = inserted(alloc, to - from)?;
    Ok(out)
}

// Appends an edit of the content of a key, unless that is empty.
pub(crate) fn push_content(
    alloc: Global,
    out: &mut Vec<Primitive>,
    key: &Name,
    word: Word,
) -> Result<(), AllocError>
    ensures { OnOk result ((rest : WordTree) → joined (word_of (map primitive_tree out.new.items)) rest
        ≡ joined (word_of (map primitive_tree out.old.items))
        (unless_empty (modify (Key key.now)) (word_tree word) rest)) }
{
    let place = key.twin(alloc)?;
    push_modify(out, Place::Key(place), word)?;
    Ok(())
}

// Appends a new key, and an edit of its content, unless that is empty.
pub(crate) fn push_key(
    alloc: Global,
    out: &mut Vec<Primitive>,
    key: &Name,
    word: Word,
) -> Result<(), AllocError>
    ensures { OnOk result ((rest : WordTree) → joined (word_of (map primitive_tree out.new.items)) rest
        ≡ joined (word_of (map primitive_tree out.old.items))
        (reshape (PutKey key.now) (unless_empty (modify (Key key.now)) (word_tree word) rest))) }
{
    let name = key.twin(alloc)?;
    push_shape(out, ShapeEdit::PutKey(name))?;
    push_content(alloc, out, key, word)?;
    Ok(())
}

// Appends an edit of the content of the node with this path, unless that is empty.
pub(crate) fn push_node_content(
    alloc: Global,
    out: &mut Vec<Primitive>,
    path: &[u64],
    word: Word,
) -> Result<(), AllocError>
    ensures { OnOk result ((rest : WordTree) → joined (word_of (map primitive_tree out.new.items)) rest
        ≡ joined (word_of (map primitive_tree out.old.items))
        (unless_empty (modify (Node path.now)) (word_tree word) rest)) }
{
    let place = Vec::from_slice(alloc, path)?;
    push_modify(out, Place::Node(Path::from_vec(place)), word)?;
    Ok(())
}

// Appends a new node with this path, and an edit of its content, unless that is empty.
pub(crate) fn push_node(
    alloc: Global,
    out: &mut Vec<Primitive>,
    path: &[u64],
    word: Word,
) -> Result<(), AllocError>
    requires { 0 < length path.now }
    ensures { OnOk result ((rest : WordTree) → joined (word_of (map primitive_tree out.new.items)) rest
        ≡ joined (word_of (map primitive_tree out.old.items))
        (reshape (Graft (parent_path path.now)) (unless_empty (modify (Node path.now)) (word_tree word) rest))) }
{
    let parent = Vec::from_slice(alloc, &path[..path.len() - 1])?;
    push_shape(out, ShapeEdit::Graft(Path::from_vec(parent)))?;
    push_node_content(alloc, out, path, word)?;
    Ok(())
}

// Appends removals of the last child of the root.
pub(crate) fn push_prunes(
    alloc: Global,
    out: &mut Vec<Primitive>,
    count: usize,
) -> Result<(), AllocError>
    ensures { OnOk result ((rest : WordTree) → joined (word_of (map primitive_tree out.new.items)) rest
        ≡ joined (word_of (map primitive_tree out.old.items)) (prunes count rest)) }
{
    for child in 0..count {
        push_shape(out, ShapeEdit::Prune(Path::from_vec(Vec::new(alloc))))?;
    }
    Ok(())
}

// The path of the next node in preorder, of a depth. Each number in a path is below the number of nodes before.
pub(crate) fn next_path(path: Vec<u64>, depth: u64, nodes: u64) -> Result<Vec<u64>, AllocError>
    requires some { 1 ≤ depth }
    requires most { depth ≤ length path.items + 1 }
    requires low { (k : ℕ) → slice_index path.items k < nodes }
    ensures { IfOk result
        (λ q. (q.items ≡ next_path path.items depth) × ((k : ℕ) → slice_index q.items k < nodes + 1)) }
{
    let mut path = path;
    let parent = (depth - 1) as usize;
    let mut number = 0;
    if parent < path.len() {
        number = path[parent] + 1;
    }
    path.truncate(parent);
    path.push(number)?;
    Ok(path)
}

// ---- words of one primitive

// The word of a primitive.
fn one(alloc: Global, primitive: Primitive) -> Result<Word, AllocError>
    ensures { IfOk result (λ w. word_tree w ≡ only (primitive_tree primitive)) }
{
    let mut primitives = Vec::new(alloc);
    primitives.push(primitive)?;
    Ok(Word::from_vec(primitives))
}

// The word of one primitive that sets a value, unless it is there already.
pub(crate) fn set(alloc: Global, is_there: bool, value: Atom) -> Result<Word, AllocError>
    ensures { IfOk result (λ w. word_tree w ≡ set_unless is_there value) }
{
    let mut primitives = Vec::new(alloc);
    if !is_there {
        primitives.push(Primitive::Set(value))?;
    }
    Ok(Word::from_vec(primitives))
}

// The word that sets a text, unless it is there already.
pub(crate) fn set_text(alloc: Global, from: &Str, to: &Str) -> Result<Word, AllocError>
    ensures { IfOk result (λ w. word_tree w ≡ set_unless (bytes_eq to.now from.now) (Letters to.now)) }
{
    let is_there = to.is_same(from);
    set(alloc, is_there, Atom::Letters(to.twin(alloc)?))
}

// The word that sets a member of an enum, unless it is there already.
pub(crate) fn set_member(alloc: Global, from: &Name, to: &Name) -> Result<Word, AllocError>
    ensures { IfOk result (λ w. word_tree w ≡ set_unless (bytes_eq to.now from.now) (Letters to.now)) }
{
    let is_there = to.is_same(from);
    let text = String::from_str(alloc, to.as_str())?;
    set(alloc, is_there, Atom::Letters(Str::from_string(text)))
}

// An edit of the content of a tag, unless the word is empty.
pub(crate) fn stay_at(alloc: Global, tag: &Name, word: Word) -> Result<Word, AllocError>
    ensures { IfOk result (λ w. word_tree w ≡ unless_empty (stay tag.now) (word_tree word) no_primitives) }
{
    let mut out = Vec::new(alloc);
    if word.len() != 0 {
        let tag = tag.twin(alloc)?;
        out.push(Primitive::Stay(tag, word))?;
    }
    Ok(Word::from_vec(out))
}

// An edit that goes from one tag to another.
pub(crate) fn switch_to(
    alloc: Global,
    from: &Name,
    to: &Name,
    word: Word,
) -> Result<Word, AllocError>
    ensures { IfOk result (λ w. word_tree w ≡ only (switch from.now to.now (word_tree word))) }
{
    let from = from.twin(alloc)?;
    let to = to.twin(alloc)?;
    one(alloc, Primitive::Switch(from, to, word))
}
