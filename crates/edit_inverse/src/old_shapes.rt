//! Words that take back an edit of a shape, and bring back the contents that it took away.

ghost use Rattle.std.specs.Prelude.{◌≡◌, ℕ, ◌+◌, ◌-◌, ◌<◌, ◌≤◌, List, [], true, IfOk, IsOk, option_map, drop, length};
ghost use Rattle.std.specs.Prelude.{slice_index, slice_range};
ghost use Rattle.hold_shapes.specs.Plans.{plan, is_each_new, remove_part};
ghost use Rattle.hold_shapes.specs.Trees.{is_valid, end_of};
ghost use Rattle.hold_shapes.specs.declared.edit.ShapeEdit.TheVariants.{Del, DropKey, RenameKey, Prune, Hang, Shift};
ghost use Rattle.hold_shapes.specs.declared.edit.ShapeEdit.TheVariants.{Reorder};
ghost use Rattle.doc_values.specs.Documents.{doc_tree, docs_tree, doc_list};
ghost use Rattle.doc_values.specs.Types.{ty_tree};
ghost use Rattle.doc_values.specs.Typing.{has, has_each};
ghost use Rattle.edit_module.specs.Action.{act_primitive};
ghost use Rattle.edit_module.specs.Containers.{IsHeld};
ghost use Rattle.edit_module.specs.Words.{WordTree, shape};
ghost use Rattle.edit_module.specs.Views.{word_tree};
ghost use Rattle.edit_inverse.specs.Construct.{construct_each, only, reshape, graft_each};
ghost use Rattle.edit_inverse.specs.Inverse.{inverse_primitive, inverse_shape, inverse_order, count_at};
ghost use Rattle.edit_inverse.specs.Paths.{parent_path, last_number, paths_after};
ghost use Rattle.law_shapes.specs.Children.{child_path};
ghost use Rattle.edit_inverse.specs.Steps.{contents_of};
ghost use Rattle.hold_shapes.proofs.ValidDepths.{GoesOn};

use crate::construction::{construct, with_items};
use crate::words::{next_path, one_edit, push_key, push_node, push_shape};
use doc_values::{Doc, Docs, Ty};
use edit_module::action::item_of;
use edit_module::word::Word;
use hold_shapes::{DepthSeq, Name, Path, Place, Places, Shape, ShapeEdit, Twin, trees};
use std::alloc::{AllocError, Global};

// The inverse of an edit of a container's shape that acts.
pub(crate) fn reshape_back(
    alloc: Global,
    ty: &Ty,
    edit: &ShapeEdit,
    doc: &Doc,
) -> Result<Word, AllocError>
    requires typed { has (ty_tree ty.now) (doc_tree doc.now) ≡ true }
    requires acts { IsOk (act_primitive (ty_tree ty.now) (shape edit.now) (doc_tree doc.now)) }
    ensures { IfOk result (λ w.
        word_tree w ≡ inverse_primitive (ty_tree ty.now) (shape edit.now) (doc_tree doc.now)) }
{
    let Some(inner) = contents_of(ty) else {
        unreachable!()
    };
    let Doc::Hold(shape, docs) = doc else {
        unreachable!()
    };
    edit_back(alloc, inner, edit, shape, docs)
}

// The type of the contents of a container.
fn contents_of(ty: &Ty) -> Option<&Ty>
    ensures { option_map (λ t. ty_tree t.now) result ≡ contents_of (ty_tree ty.now) }
{
    match ty {
        Ty::List(inner) => Some(inner),
        Ty::Keyed(inner) => Some(inner),
        Ty::Tree(inner) => Some(inner),
        _ => None,
    }
}

// The inverse of an edit of a shape that has a plan.
fn edit_back(
    alloc: Global,
    inner: &Ty,
    edit: &ShapeEdit,
    shape: &Shape,
    docs: &Docs,
) -> Result<Word, AllocError>
    requires held { IsHeld (ty_tree inner.now) shape.now (docs_tree docs.now) }
    requires planned { IsOk (plan shape.now edit.now) }
    ensures { IfOk result (λ w. word_tree w
        ≡ inverse_shape edit.now shape.now (construct_each (ty_tree inner.now) (docs_tree docs.now))) }
{
    match edit {
        ShapeEdit::Ins(count) => one_edit(alloc, ShapeEdit::Del(*count)),
        ShapeEdit::Del(count) => items_back(alloc, inner, *count, shape, docs),
        ShapeEdit::MoveItem(from, to) => one_edit(alloc, ShapeEdit::MoveItem(*to, *from)),
        ShapeEdit::Reorder(places) => order_back(alloc, places.as_slice()),
        ShapeEdit::PutKey(key) => one_edit(alloc, ShapeEdit::DropKey(key.twin(alloc)?)),
        ShapeEdit::DropKey(key) => key_back(alloc, inner, key, shape, docs),
        ShapeEdit::RenameKey(old, new) => name_back(alloc, old, new),
        ShapeEdit::Graft(path) => one_edit(alloc, ShapeEdit::Prune(path.twin(alloc)?)),
        ShapeEdit::Prune(path) => nodes_back(alloc, inner, path, shape, docs),
        ShapeEdit::Shift(path, from, to) => {
            one_edit(alloc, ShapeEdit::Shift(path.twin(alloc)?, *to, *from))
        }
        ShapeEdit::Hang(part, below) => hung_back(alloc, part, below, shape),
    }
}

// ---- lists

// The last items that were deleted: insertions, and what makes each.
fn items_back(
    alloc: Global,
    inner: &Ty,
    count: u32,
    shape: &Shape,
    docs: &Docs,
) -> Result<Word, AllocError>
    requires held { IsHeld (ty_tree inner.now) shape.now (docs_tree docs.now) }
    ensures { IfOk result (λ w. word_tree w
        ≡ inverse_shape (Del count) shape.now (construct_each (ty_tree inner.now) (docs_tree docs.now))) }
{
    let mut out = Vec::new(alloc);
    push_shape(&mut out, ShapeEdit::Ins(count))?;
    let kept = docs.len().saturating_sub(count as usize);
    with_items(alloc, inner, docs, kept, out)
}

// The order that takes an order back.
fn order_back(alloc: Global, order: &[u64]) -> Result<Word, AllocError>
    requires { is_each_new (length order.now) [] order.now ≡ true }
    ensures { IfOk result (λ w. word_tree w ≡ only (shape (Reorder (inverse_order order.now)))) }
{
    let places = inverse_order(alloc, order)?;
    one_edit(alloc, ShapeEdit::Reorder(Places::from_vec(places)))
}

// At each place, where the order has this place.
fn inverse_order(alloc: Global, order: &[u64]) -> Result<Vec<u64>, AllocError>
    requires { is_each_new (length order.now) [] order.now ≡ true }
    ensures { IfOk result (λ back. back.items ≡ inverse_order order.now) }
{
    let mut back = vec![in alloc; 0u64; order.len()]?;
    for j in 0..order.len() {
        back[order[j] as usize] = j as u64;
    }
    Ok(back)
}

// ---- keyed maps

// A key that was dropped, and what makes its content.
fn key_back(
    alloc: Global,
    inner: &Ty,
    key: &Name,
    shape: &Shape,
    docs: &Docs,
) -> Result<Word, AllocError>
    requires held { IsHeld (ty_tree inner.now) shape.now (docs_tree docs.now) }
    ensures { IfOk result (λ w. word_tree w
        ≡ inverse_shape (DropKey key.now) shape.now (construct_each (ty_tree inner.now) (docs_tree docs.now))) }
{
    let name = key.twin(alloc)?;
    let place = Place::Key(name);
    let Some(at) = item_of(&place, inner, shape, docs) else {
        return one_edit(alloc, ShapeEdit::PutKey(key.twin(alloc)?));
    };
    let word = construct(alloc, inner, docs.get(at))?;
    let mut out = Vec::new(alloc);
    push_key(alloc, &mut out, key, word)?;
    Ok(Word::from_vec(out))
}

// The old name of a key.
fn name_back(alloc: Global, old: &Name, new: &Name) -> Result<Word, AllocError>
    ensures { IfOk result (λ w. word_tree w ≡ only (shape (RenameKey new.now old.now))) }
{
    let from = new.twin(alloc)?;
    let to = old.twin(alloc)?;
    one_edit(alloc, ShapeEdit::RenameKey(from, to))
}

// ---- trees

// A last child that was pruned, with its subtree: each node in preorder, and what makes its content.
fn nodes_back(
    alloc: Global,
    inner: &Ty,
    path: &Path,
    shape: &Shape,
    docs: &Docs,
) -> Result<Word, AllocError>
    requires held { IsHeld (ty_tree inner.now) shape.now (docs_tree docs.now) }
    requires planned { IsOk (plan shape.now (Prune path.now)) }
    ensures { IfOk result (λ w. word_tree w
        ≡ inverse_shape (Prune path.now) shape.now (construct_each (ty_tree inner.now) (docs_tree docs.now))) }
{
    let Shape::Tree(tree) = shape else {
        unreachable!()
    };
    let depths = tree.depths();
    let Some(parent) = trees::node(depths, path.as_slice()) else {
        unreachable!()
    };
    let last = (trees::children(depths, parent) as u64).saturating_sub(1);
    let Some(first) = trees::child(depths, parent, last) else {
        unreachable!()
    };
    let end = trees::end(depths, first);
    let before = path_before(alloc, depths, first)?;
    grown(alloc, inner, depths, docs, before, first, end)
}

// The path of the node before a place.
fn path_before(alloc: Global, depths: &DepthSeq, to: usize) -> Result<Vec<u64>, AllocError>
    requires valid { is_valid depths.now ≡ true }
    requires some { 1 ≤ to }
    requires within { to < length depths.now }
    ensures path { IfOk result (λ p.
        drop (to - 1) (paths_after [] (drop 1 depths.now)) ≡ paths_after p.items (drop to depths.now)) }
    ensures goes { IfOk result (λ p. GoesOn (length p.items) (drop to depths.now)) }
    ensures low { IfOk result (λ p. (k : ℕ) → slice_index p.items k < to) }
{
    let mut path = Vec::new(alloc);
    for i in 1..to {
        path = next_path(path, *depths.get(i), i as u64)?;
    }
    Ok(path)
}

// Grafts of the nodes from one place to another in preorder, each with what makes its content. The path is that of the
// node before them.
fn grown(
    alloc: Global,
    inner: &Ty,
    depths: &DepthSeq,
    docs: &Docs,
    before: Vec<u64>,
    from: usize,
    to: usize,
) -> Result<Word, AllocError>
    requires many { length depths.now ≡ length (doc_list (docs_tree docs.now)) }
    requires typed { has_each (ty_tree inner.now) (docs_tree docs.now) ≡ true }
    requires within { to ≤ length depths.now }
    requires goes { GoesOn (length before.items) (drop from depths.now) }
    requires low { (k : ℕ) → slice_index before.items k < from }
    ensures { IfOk result (λ w. word_tree w ≡ graft_each (paths_after before.items (slice_range depths.now from to))
        (slice_range (construct_each (ty_tree inner.now) (docs_tree docs.now)) from to)) }
{
    let mut out = Vec::new(alloc);
    let mut path = before;
    for i in from..to {
        let word = construct(alloc, inner, docs.get(i))?;
        path = next_path(path, *depths.get(i), i as u64)?;
        push_node(alloc, &mut out, path.as_slice(), word)?;
    }
    Ok(Word::from_vec(out))
}

// A subtree that was hung elsewhere: below its old parent again, and then at its old number.
fn hung_back(alloc: Global, part: &Path, below: &Path, shape: &Shape) -> Result<Word, AllocError>
    requires planned { IsOk (plan shape.now (Hang part.now below.now)) }
    ensures { (ws : List WordTree)
        → IfOk result (λ w. word_tree w ≡ inverse_shape (Hang part.now below.now) shape.now ws) }
{
    let Shape::Tree(tree) = shape else {
        unreachable!()
    };
    let depths = tree.depths();
    let path = part.as_slice();
    let Some(at) = trees::node(depths, path) else {
        unreachable!()
    };
    let rest = without(alloc, depths, at)?;
    let parent = &path[..path.len() - 1];
    let number = children_at(&rest, below.as_slice());
    let last = children_at(&rest, parent);
    unhung(alloc, path, below.as_slice(), number, last)
}

// The depths without those of a subtree.
fn without(alloc: Global, depths: &DepthSeq, at: usize) -> Result<DepthSeq, AllocError>
    requires { at < length depths.now }
    ensures { IfOk result (λ rest. rest ≡ remove_part at (end_of depths.now at) depths.now) }
{
    let end = trees::end(depths, at);
    let _len = depths.len();
    depths.spliced(alloc, at, end, &[])
}

// How many children the node that a path names has; none, if there is no such node.
fn children_at(depths: &DepthSeq, path: &[u64]) -> u64
    requires { 0 < length depths.now }
    ensures { result ≡ count_at depths.now path.now }
{
    match trees::node(depths, path) {
        Some(at) => trees::children(depths, at) as u64,
        None => 0,
    }
}

// The two edits that take a hang back.
fn unhung(
    alloc: Global,
    part: &[u64],
    below: &[u64],
    number: u64,
    last: u64,
) -> Result<Word, AllocError>
    requires { 0 < length part.now }
    ensures { IfOk result (λ w. word_tree w ≡ reshape (Hang (child_path below.now number) (parent_path part.now))
        (only (shape (Shift (parent_path part.now) last (last_number part.now))))) }
{
    let mut out = Vec::new(alloc);
    let child = child_of(alloc, below, number)?;
    let parent = parent_of(alloc, part)?;
    push_shape(&mut out, ShapeEdit::Hang(child, parent))?;
    let parent = parent_of(alloc, part)?;
    push_shape(
        &mut out,
        ShapeEdit::Shift(parent, last, part[part.len() - 1]),
    )?;
    Ok(Word::from_vec(out))
}

// The path of a child of the node that a path names.
fn child_of(alloc: Global, path: &[u64], number: u64) -> Result<Path, AllocError>
    ensures { IfOk result (λ p. p ≡ child_path path.now number) }
{
    let mut child = Vec::from_slice(alloc, path)?;
    child.push(number)?;
    Ok(Path::from_vec(child))
}

// The path of the parent of the node that a path names.
fn parent_of(alloc: Global, path: &[u64]) -> Result<Path, AllocError>
    requires { 0 < length path.now }
    ensures { IfOk result (λ p. p ≡ parent_path path.now) }
{
    let parent = Vec::from_slice(alloc, &path[..path.len() - 1])?;
    Ok(Path::from_vec(parent))
}
