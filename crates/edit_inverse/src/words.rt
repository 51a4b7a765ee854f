//! Words that are built at their end, and words of one primitive.
//!
//! Clauses of the first speak of every rest, so that they can be used one after another.

ghost use Rattle.std.specs.Prelude.{◌≡◌, ℕ, ◌+◌, ◌<◌, ◌≤◌, IfOk, OnOk, map, length, slice_index};
ghost use Rattle.hold_shapes.specs.declared.edit.Place.TheVariants.{Key, Node};
ghost use Rattle.hold_shapes.specs.declared.edit.ShapeEdit.TheVariants.{PutKey, Graft};
ghost use Rattle.edit_module.specs.Words.{WordTree, word_of, joined, at, stay, switch, modify, shape};
ghost use Rattle.edit_module.specs.Views.{primitive_tree, word_tree};
ghost use Rattle.edit_inverse.specs.Construct.{only, unless_empty, reshape, insertions};
ghost use Rattle.edit_inverse.specs.Paths.{parent_path, next_path};

use edit_module::word::{Primitive, Word};
use hold_shapes::{MOST_ITEMS, Name, Path, Place, ShapeEdit, Twin};
use std::alloc::{AllocError, Global};

// ---- words that are built at their end

// Appends an edit of the content at a place, unless its word is empty.
pub(crate) fn push_modify(
    out: &mut Vec<Primitive>,
    place: Place,
    word: Word,
) -> Result<(), AllocError>
    ensures { OnOk result ((rest : WordTree) → joined (word_of (map primitive_tree out.new.items)) rest
        ≡ joined (word_of (map primitive_tree out.old.items)) (unless_empty (modify place) (word_tree word) rest)) }
{
    if word.len() != 0 {
        out.push(Primitive::Mod(place, word))?;
    }
    Ok(())
}

// Appends an edit of a field, unless its word is empty.
pub(crate) fn push_at(
    alloc: Global,
    out: &mut Vec<Primitive>,
    name: &Name,
    word: Word,
) -> Result<(), AllocError>
    ensures { OnOk result ((rest : WordTree) → joined (word_of (map primitive_tree out.new.items)) rest
        ≡ joined (word_of (map primitive_tree out.old.items)) (unless_empty (at name.now) (word_tree word) rest)) }
{
    if word.len() != 0 {
        let name = name.twin(alloc)?;
        out.push(Primitive::At(name, word))?;
    }
    Ok(())
}

// Appends an edit of a shape.
pub(crate) fn push_shape(out: &mut Vec<Primitive>, edit: ShapeEdit) -> Result<(), AllocError>
    ensures { OnOk result ((rest : WordTree) → joined (word_of (map primitive_tree out.new.items)) rest
        ≡ joined (word_of (map primitive_tree out.old.items)) (reshape edit rest)) }
{
    out.push(Primitive::Shape(edit))?;
    Ok(())
}

// Insertions of a number of items, in pieces.
pub(crate) fn inserted(alloc: Global, count: u64) -> Result<Vec<Primitive>, AllocError>
    ensures { IfOk result (λ ps. (rest : WordTree) → joined (word_of (map primitive_tree ps.items)) rest
        ≡ insertions count rest) }
{
    let mut out = Vec::new(alloc);
    let full = count / MOST_ITEMS as u64;
    for piece in 0..full {
        push_shape(&mut out, ShapeEdit::Ins(MOST_ITEMS))?;
    }
    let rest = count % MOST_ITEMS as u64;
    if rest != 0 {
        push_shape(&mut out, ShapeEdit::Ins(rest as u32))?;
    }
    Ok(out)
}

// Appends a new key, and an edit of its content, unless that is empty.
pub(crate) fn push_key(
    alloc: Global,
    out: &mut Vec<Primitive>,
    key: &Name,
    word: Word,
) -> Result<(), AllocError>
    ensures { OnOk result ((rest : WordTree) → joined (word_of (map primitive_tree out.new.items)) rest
        ≡ joined (word_of (map primitive_tree out.old.items))
        (reshape (PutKey key.now) (unless_empty (modify (Key key.now)) (word_tree word) rest))) }
{
    let name = key.twin(alloc)?;
    push_shape(out, ShapeEdit::PutKey(name))?;
    let place = key.twin(alloc)?;
    push_modify(out, Place::Key(place), word)?;
    Ok(())
}

// Appends a new node with this path, and an edit of its content, unless that is empty.
pub(crate) fn push_node(
    alloc: Global,
    out: &mut Vec<Primitive>,
    path: &[u64],
    word: Word,
) -> Result<(), AllocError>
    requires { 0 < length path.now }
    ensures { OnOk result ((rest : WordTree) → joined (word_of (map primitive_tree out.new.items)) rest
        ≡ joined (word_of (map primitive_tree out.old.items))
        (reshape (Graft (parent_path path.now)) (unless_empty (modify (Node path.now)) (word_tree word) rest))) }
{
    let parent = Vec::from_slice(alloc, &path[..path.len() - 1])?;
    push_shape(out, ShapeEdit::Graft(Path::from_vec(parent)))?;
    let place = Vec::from_slice(alloc, path)?;
    push_modify(out, Place::Node(Path::from_vec(place)), word)?;
    Ok(())
}

// The path of the next node in preorder, of a depth. Each number in a path is below the number of nodes before.
pub(crate) fn next_path(path: Vec<u64>, depth: u64, nodes: u64) -> Result<Vec<u64>, AllocError>
    requires some { 1 ≤ depth }
    requires most { depth ≤ length path.items + 1 }
    requires low { (k : ℕ) → slice_index path.items k < nodes }
    ensures { IfOk result
        (λ q. (q.items ≡ next_path path.items depth) × ((k : ℕ) → slice_index q.items k < nodes + 1)) }
{
    let mut path = path;
    let parent = (depth - 1) as usize;
    let mut number = 0;
    if parent < path.len() {
        number = path[parent] + 1;
    }
    path.truncate(parent);
    path.push(number)?;
    Ok(path)
}

// ---- words of one primitive

// The word of a primitive.
pub(crate) fn one(alloc: Global, primitive: Primitive) -> Result<Word, AllocError>
    ensures { IfOk result (λ w. word_tree w ≡ only (primitive_tree primitive)) }
{
    let mut primitives = Vec::new(alloc);
    primitives.push(primitive)?;
    Ok(Word::from_vec(primitives))
}

// An edit of a shape.
pub(crate) fn one_edit(alloc: Global, edit: ShapeEdit) -> Result<Word, AllocError>
    ensures { IfOk result (λ w. word_tree w ≡ only (shape edit)) }
{
    one(alloc, Primitive::Shape(edit))
}

// An edit of a field.
pub(crate) fn at_word(alloc: Global, name: &Name, word: Word) -> Result<Word, AllocError>
    ensures { IfOk result (λ w. word_tree w ≡ only (at name.now (word_tree word))) }
{
    let name = name.twin(alloc)?;
    one(alloc, Primitive::At(name, word))
}

// An edit of the content of a tag.
pub(crate) fn stay_word(alloc: Global, tag: &Name, word: Word) -> Result<Word, AllocError>
    ensures { IfOk result (λ w. word_tree w ≡ only (stay tag.now (word_tree word))) }
{
    let tag = tag.twin(alloc)?;
    one(alloc, Primitive::Stay(tag, word))
}

// An edit that goes from one tag to another.
pub(crate) fn switch_word(
    alloc: Global,
    from: &Name,
    to: &Name,
    word: Word,
) -> Result<Word, AllocError>
    ensures { IfOk result (λ w. word_tree w ≡ only (switch from.now to.now (word_tree word))) }
{
    let from = from.twin(alloc)?;
    let to = to.twin(alloc)?;
    one(alloc, Primitive::Switch(from, to, word))
}

// An edit of the content at a place.
pub(crate) fn mod_word(alloc: Global, place: &Place, word: Word) -> Result<Word, AllocError>
    ensures { IfOk result (λ w. word_tree w ≡ only (modify place.now (word_tree word))) }
{
    let place = place.twin(alloc)?;
    one(alloc, Primitive::Mod(place, word))
}
