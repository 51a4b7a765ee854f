//! A word that takes a document to another one of its type.
//!
//! The word is built in one pass over both documents; a content is looked up, and never copied.

ghost use Rattle.std.specs.Prelude.{◌≡◌, ℕ, ◌+◌, ◌≤◌, true, Ok, IfOk, map, drop, length, if◌then◌else◌};
ghost use Rattle.hold_shapes.specs.declared.shape.Shape.TheVariants.{Keyed as KeyedOf, Tree as TreeOf};
ghost use Rattle.hold_shapes.specs.Plans.{list_of};
ghost use Rattle.hold_shapes.specs.Trees.{is_valid, children};
ghost use Rattle.texts.specs.Keys.{is_rising};
ghost use Rattle.doc_values.specs.Documents.{doc_tree, docs_tree, doc_list, rec, alt, hold};
ghost use Rattle.doc_values.specs.Types.{ty_tree, fields_tree, ty_rec, ty_alt, ty_list, ty_keyed, ty_ordered};
ghost use Rattle.doc_values.specs.Types.{is_well_formed};
ghost use Rattle.doc_values.specs.Typing.{has, has_fields, has_each};
ghost use Rattle.edit_module.specs.Words.{WordTree, word_of, joined};
ghost use Rattle.edit_module.specs.Action.{act};
ghost use Rattle.edit_module.specs.Views.{primitive_tree, word_tree};
ghost use Rattle.edit_inverse.specs.Construct.{modify_each, grow, construct_each};
ghost use Rattle.edit_inverse.specs.Paths.{paths};
ghost use Rattle.edit_between.specs.Between.{between, between_items, between_keys, modify_nodes};
ghost use Rattle.edit_between.specs.Between.{prunes, with_root, is_first};
ghost use Rattle.edit_between.specs.Steps.{item_word, key_word};

use crate::keys::{drop_before, drop_rest, is_first};
use crate::nodes::are_same;
use crate::words::{
    next_path, push_at, push_content, push_key, push_modify, push_node, push_node_content,
    push_prunes, resized, set, set_member, set_text, stay_at, switch_to,
};
use doc_values::{Doc, Docs, Fields, Ty};
use edit_inverse::construct;
use edit_module::Atom;
use edit_module::word::{Primitive, Word};
use hold_shapes::{DepthSeq, Name, Place, Shape, SharedList, trees};
use std::alloc::{AllocError, Global};

/// A word that takes a document to another one of its type. Fails only if memory runs out.
///
/// Both documents have the type. What is equal in both gets no edit: of a record the fields that differ are edited, of
/// alternatives the content if the tag is the same. The items of a list are compared place by place; a longer list
/// loses its last items, and a shorter one gets new ones at its end. Of a keyed map the keys that are in both keep
/// their contents. A tree of another form keeps its root alone. The definition has a line for each type. Where the
/// type is well formed, the action of the word on the first document gives the second.
pub fn between(alloc: Global, ty: &Ty, from: &Doc, to: &Doc) -> Result<Word, AllocError>
    requires from { has (ty_tree ty.now) (doc_tree from.now) ≡ true }
    requires to { has (ty_tree ty.now) (doc_tree to.now) ≡ true }
    ensures exact { IfOk result
        (λ w. word_tree w ≡ between (ty_tree ty.now) (doc_tree from.now) (doc_tree to.now)) }
    ensures leads { is_well_formed (ty_tree ty.now) ≡ true → IfOk result (λ w.
        act (ty_tree ty.now) (word_tree w) (doc_tree from.now) ≡ Ok (doc_tree to.now)) }
{
    build(alloc, ty, from, to)
}

#[cycle(build)]
fn build(alloc: Global, ty: &Ty, from: &Doc, to: &Doc) -> Result<Word, AllocError>
    requires from { has (ty_tree ty.now) (doc_tree from.now) ≡ true }
    requires to { has (ty_tree ty.now) (doc_tree to.now) ≡ true }
    ensures { IfOk result
        (λ w. word_tree w ≡ between (ty_tree ty.now) (doc_tree from.now) (doc_tree to.now)) }
{
    match (ty, from) {
        (Ty::Unit, Doc::Unit) => Ok(Word::from_vec(Vec::new(alloc))),
        (Ty::Bool, Doc::Bool(old)) => match to {
            Doc::Bool(new) => set(alloc, *new == *old, Atom::Truth(*new)),
            _ => unreachable!(),
        },
        (Ty::Int(_), Doc::Int(old)) => match to {
            Doc::Int(new) => set(alloc, *new == *old, Atom::Number(*new)),
            _ => unreachable!(),
        },
        (Ty::Text(_), Doc::Text(old)) => match to {
            Doc::Text(new) => set_text(alloc, old, new),
            _ => unreachable!(),
        },
        (Ty::Enum(_, _), Doc::Pick(old)) => match to {
            Doc::Pick(new) => set_member(alloc, old, new),
            _ => unreachable!(),
        },
        (Ty::Rec(fields), Doc::Rec(olds)) => of_record(alloc, fields, olds, to),
        (Ty::Alt(tags), Doc::Alt(tag, content)) => of_tag(alloc, tags, tag, content, to),
        (Ty::List(inner), Doc::Hold(Shape::List(list), olds)) => {
            of_list(alloc, inner, list.count, olds, to)
        }
        (Ty::Keyed(inner), Doc::Hold(Shape::Keyed(keys), olds)) => {
            of_keyed(alloc, inner, keys.names(), olds, to)
        }
        (Ty::Tree(inner), Doc::Hold(Shape::Tree(nodes), olds)) => {
            of_tree(alloc, inner, nodes.depths(), olds, to)
        }
        _ => unreachable!(),
    }
}

// At for each field of a record.
#[cycle(build)]
fn of_record(alloc: Global, fields: &Fields, olds: &Docs, to: &Doc) -> Result<Word, AllocError>
    requires from { has_fields (fields_tree fields.now) (docs_tree olds.now) ≡ true }
    requires to { has (ty_rec (fields_tree fields.now)) (doc_tree to.now) ≡ true }
    ensures { IfOk result (λ w. word_tree w
        ≡ between (ty_rec (fields_tree fields.now)) (rec (docs_tree olds.now)) (doc_tree to.now)) }
{
    let Doc::Rec(news) = to else { unreachable!() };
    let mut out = Vec::new(alloc);
    for (i, field) in fields.as_slice().iter().enumerate() {
        let word = build(alloc, &field.1, olds.get(i), news.get(i))?;
        push_at(alloc, &mut out, &field.0, word)?;
    }
    Ok(Word::from_vec(out))
}

// Stay at the tag, or Switch from it.
#[cycle(build)]
fn of_tag(
    alloc: Global,
    tags: &Fields,
    tag: &Name,
    content: &Doc,
    to: &Doc,
) -> Result<Word, AllocError>
    requires from { has (ty_alt (fields_tree tags.now)) (alt tag.now (doc_tree content.now)) ≡ true }
    requires to { has (ty_alt (fields_tree tags.now)) (doc_tree to.now) ≡ true }
    ensures { IfOk result (λ w. word_tree w ≡ between (ty_alt (fields_tree tags.now))
        (alt tag.now (doc_tree content.now)) (doc_tree to.now)) }
{
    let Doc::Alt(other, new) = to else {
        unreachable!()
    };
    let Some((_, ty)) = tags.find(other.as_str()) else {
        unreachable!()
    };
    if tag.is_same(other) {
        let word = build(alloc, ty, content, new)?;
        stay_at(alloc, other, word)
    } else {
        let word = construct(alloc, ty, new)?;
        switch_to(alloc, tag, other, word)
    }
}

// The size of a list, and then Mod at each place.
#[cycle(build)]
fn of_list(alloc: Global, inner: &Ty, count: u64, olds: &Docs, to: &Doc) -> Result<Word, AllocError>
    requires from { has_each (ty_tree inner.now) (docs_tree olds.now) ≡ true }
    requires to { has (ty_list (ty_tree inner.now)) (doc_tree to.now) ≡ true }
    ensures { IfOk result (λ w. word_tree w ≡ between (ty_list (ty_tree inner.now))
        (hold (list_of count) (docs_tree olds.now)) (doc_tree to.now)) }
{
    let Doc::Hold(Shape::List(list), news) = to else {
        unreachable!()
    };
    let out = resized(alloc, count, list.count)?;
    with_items(alloc, inner, olds, news, out)
}

// Mod at each place of a list, after what there is.
#[cycle(build)]
fn with_items(
    alloc: Global,
    inner: &Ty,
    olds: &Docs,
    news: &Docs,
    before: Vec<Primitive>,
) -> Result<Word, AllocError>
    requires from { has_each (ty_tree inner.now) (docs_tree olds.now) ≡ true }
    requires to { has_each (ty_tree inner.now) (docs_tree news.now) ≡ true }
    ensures { IfOk result (λ w. word_tree w ≡ joined (word_of (map primitive_tree before.items))
        (modify_each 0 (between_items (ty_tree inner.now) (docs_tree olds.now) (docs_tree news.now)))) }
{
    let mut out = before;
    for i in 0..news.len() {
        let word = of_item(alloc, inner, olds, i, news.get(i))?;
        push_modify(&mut out, Place::Index(i as u64), word)?;
    }
    Ok(Word::from_vec(out))
}

// The word of one item.
#[cycle(build)]
fn of_item(
    alloc: Global,
    inner: &Ty,
    olds: &Docs,
    place: usize,
    to: &Doc,
) -> Result<Word, AllocError>
    requires from { has_each (ty_tree inner.now) (docs_tree olds.now) ≡ true }
    requires to { has (ty_tree inner.now) (doc_tree to.now) ≡ true }
    ensures { IfOk result (λ w. word_tree w
        ≡ item_word (ty_tree inner.now) (doc_list (docs_tree olds.now)) place (doc_tree to.now)) }
{
    if place < olds.len() {
        return build(alloc, inner, olds.get(place), to);
    }
    construct(alloc, inner, to)
}

// The keys of two keyed maps.
#[cycle(build)]
fn of_keyed(
    alloc: Global,
    inner: &Ty,
    old_keys: &SharedList<Name>,
    olds: &Docs,
    to: &Doc,
) -> Result<Word, AllocError>
    requires from { has (ty_keyed (ty_tree inner.now)) (hold (KeyedOf old_keys.now) (docs_tree olds.now)) ≡ true }
    requires to { has (ty_keyed (ty_tree inner.now)) (doc_tree to.now) ≡ true }
    ensures { IfOk result (λ w. word_tree w ≡ between (ty_keyed (ty_tree inner.now))
        (hold (KeyedOf old_keys.now) (docs_tree olds.now)) (doc_tree to.now)) }
{
    let Doc::Hold(Shape::Keyed(shape), news) = to else {
        unreachable!()
    };
    with_keys(alloc, inner, old_keys, olds, shape.names(), news)
}

// The keys in byte order: those that go, and Mod of those that come or stay.
#[cycle(build)]
fn with_keys(
    alloc: Global,
    inner: &Ty,
    old_keys: &SharedList<Name>,
    olds: &Docs,
    keys: &SharedList<Name>,
    news: &Docs,
) -> Result<Word, AllocError>
    requires rising { is_rising old_keys.now ≡ true }
    requires old_many { length old_keys.now ≡ length (doc_list (docs_tree olds.now)) }
    requires from { has_each (ty_tree inner.now) (docs_tree olds.now) ≡ true }
    requires many { length keys.now ≡ length (doc_list (docs_tree news.now)) }
    requires to { has_each (ty_tree inner.now) (docs_tree news.now) ≡ true }
    ensures { IfOk result (λ w. word_tree w ≡ between_keys (ty_tree inner.now) old_keys.now
        (doc_list (docs_tree olds.now)) keys.now (docs_tree news.now)) }
{
    let mut out = Vec::new(alloc);
    let mut at = 0;
    for i in 0..news.len() {
        let key = keys.get(i);
        at = drop_before(alloc, &mut out, old_keys, at, key)?;
        let is_there = is_first(old_keys, at, key);
        at = push_entry(alloc, inner, &mut out, olds, at, is_there, key, news.get(i))?;
    }
    drop_rest(alloc, &mut out, old_keys, at)?;
    Ok(Word::from_vec(out))
}

// Appends the edits of a key, and returns the place behind it among the old ones.
#[cycle(build)]
fn push_entry(
    alloc: Global,
    inner: &Ty,
    out: &mut Vec<Primitive>,
    olds: &Docs,
    at: usize,
    is_there: bool,
    key: &Name,
    to: &Doc,
) -> Result<usize, AllocError>
    requires from { has_each (ty_tree inner.now) (docs_tree olds.now) ≡ true }
    requires to { has (ty_tree inner.now) (doc_tree to.now) ≡ true }
    requires there { is_there ≡ true → at + 1 ≤ length (doc_list (docs_tree olds.now)) }
    ensures place { IfOk result (λ next. next ≡ (if is_there then at + 1 else at)) }
    ensures word { IfOk result (λ next. (rest : ℕ → WordTree)
        → joined (word_of (map primitive_tree out.new.items)) (rest next)
        ≡ joined (word_of (map primitive_tree out.old.items))
        (key_word is_there (ty_tree inner.now) (doc_list (docs_tree olds.now)) key.now at (doc_tree to.now) rest)) }
{
    if is_there {
        let word = build(alloc, inner, olds.get(at), to)?;
        push_content(alloc, out, key, word)?;
        // The number of documents bounds the place behind this one.
        let _count = olds.len();
        return Ok(at + 1);
    }
    let word = construct(alloc, inner, to)?;
    push_key(alloc, out, key, word)?;
    Ok(at)
}

// Mod of each node, or all nodes but the root anew.
#[cycle(build)]
fn of_tree(
    alloc: Global,
    inner: &Ty,
    old_depths: &DepthSeq,
    olds: &Docs,
    to: &Doc,
) -> Result<Word, AllocError>
    requires from { has (ty_ordered (ty_tree inner.now)) (hold (TreeOf old_depths.now) (docs_tree olds.now)) ≡ true }
    requires to { has (ty_ordered (ty_tree inner.now)) (doc_tree to.now) ≡ true }
    ensures { IfOk result (λ w. word_tree w ≡ between (ty_ordered (ty_tree inner.now))
        (hold (TreeOf old_depths.now) (docs_tree olds.now)) (doc_tree to.now)) }
{
    let Doc::Hold(Shape::Tree(shape), news) = to else {
        unreachable!()
    };
    let depths = shape.depths();
    if are_same(old_depths, depths) {
        with_nodes(alloc, inner, depths, olds, news)
    } else {
        let mut out = Vec::new(alloc);
        push_prunes(alloc, &mut out, trees::children(old_depths, 0))?;
        with_new_nodes(alloc, inner, depths, olds, news, out)
    }
}

// Mod of each node.
#[cycle(build)]
fn with_nodes(
    alloc: Global,
    inner: &Ty,
    depths: &DepthSeq,
    olds: &Docs,
    news: &Docs,
) -> Result<Word, AllocError>
    requires valid { is_valid depths.now ≡ true }
    requires many { length depths.now ≡ length (doc_list (docs_tree news.now)) }
    requires from { has_each (ty_tree inner.now) (docs_tree olds.now) ≡ true }
    requires to { has_each (ty_tree inner.now) (docs_tree news.now) ≡ true }
    ensures { IfOk result (λ w. word_tree w ≡ modify_nodes (paths depths.now)
        (between_items (ty_tree inner.now) (docs_tree olds.now) (docs_tree news.now))) }
{
    let mut out = Vec::new(alloc);
    let mut path = Vec::new(alloc);
    let root = of_item(alloc, inner, olds, 0, news.get(0))?;
    push_node_content(alloc, &mut out, path.as_slice(), root)?;
    for i in 1..news.len() {
        let word = of_item(alloc, inner, olds, i, news.get(i))?;
        path = next_path(path, *depths.get(i), i as u64)?;
        push_node_content(alloc, &mut out, path.as_slice(), word)?;
    }
    Ok(Word::from_vec(out))
}

// Mod of the root, and then Graft and Mod for each further node, after what there is.
#[cycle(build)]
fn with_new_nodes(
    alloc: Global,
    inner: &Ty,
    depths: &DepthSeq,
    olds: &Docs,
    news: &Docs,
    before: Vec<Primitive>,
) -> Result<Word, AllocError>
    requires valid { is_valid depths.now ≡ true }
    requires many { length depths.now ≡ length (doc_list (docs_tree news.now)) }
    requires from { has_each (ty_tree inner.now) (docs_tree olds.now) ≡ true }
    requires to { has_each (ty_tree inner.now) (docs_tree news.now) ≡ true }
    ensures { IfOk result (λ w. word_tree w ≡ joined (word_of (map primitive_tree before.items))
        (grow (paths depths.now) (with_root
        (between_items (ty_tree inner.now) (docs_tree olds.now) (docs_tree news.now))
        (construct_each (ty_tree inner.now) (docs_tree news.now))))) }
{
    let mut out = before;
    let mut path = Vec::new(alloc);
    let root = of_item(alloc, inner, olds, 0, news.get(0))?;
    push_node_content(alloc, &mut out, path.as_slice(), root)?;
    for i in 1..news.len() {
        let word = construct(alloc, inner, news.get(i))?;
        path = next_path(path, *depths.get(i), i as u64)?;
        push_node(alloc, &mut out, path.as_slice(), word)?;
    }
    Ok(Word::from_vec(out))
}
