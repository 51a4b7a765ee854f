//! What an edit makes of the far document, with the bridge to it: the steps that need no word.
ghost use Rattle.std.specs.Prelude.{◌≡◌, ◌<◌, Ok, IfOk, length};
ghost use Rattle.std.specs.Str.{is_utf8};
ghost use Rattle.doc_values.specs.Documents.{doc_tree, docs_tree, doc_list, rec, alt, hold};
ghost use Rattle.doc_values.specs.Types.{ty_tree};
ghost use Rattle.edit_module.specs.Action.{put_at};
ghost use Rattle.bridge_core.specs.Bridges.{bridge_tree, bridges_tree, parts, put_bridge_at};
ghost use Rattle.bridge_core.specs.Bridged.{bridge_set, bridge_splice, with_splice, bridge_stay, bridge_switch};
ghost use Rattle.bridge_core.specs.Bridged.{parts_of, arm_of, with_inner};

use crate::bridge::{Bridge, Bridges};
use crate::laws::a_text_is_utf8;
use crate::list_bridging::with_inner;
use bridge_texts::TextBridge;
use doc_values::{Doc, Docs, Ty};
use hold_shapes::Shape;
use std::alloc::{AllocError, Global};
use std::rc::Rc;
use texts::{Name, Str, Twin};

// What a word, or a primitive, makes of the far document, and the bridge to it.
#[derive(Drop)]
pub(crate) struct Made {
    pub(crate) value: Doc,
    pub(crate) bridge: Bridge,
}

// The bridge after a value of a type was set.
pub(crate) fn after_set(ty: &Ty) -> Bridge
    ensures { bridge_tree result ≡ bridge_set (ty_tree ty.now) }
{
    match ty {
        Ty::Text(_) => Bridge::Lost,
        _ => Bridge::Other,
    }
}

// The bridge after the far document went from a tag to another.
pub(crate) fn after_switch(
    alloc: Global,
    before: &Bridge,
    from: &Name,
    to: &Name,
) -> Result<Bridge, AllocError>
    ensures { IfOk result (λ b. bridge_tree b ≡ bridge_switch (bridge_tree before.now) from.now to.now) }
{
    let to = to.twin(alloc)?;
    match before {
        Bridge::Away(old, _) => Ok(Bridge::Away(old.twin(alloc)?, to)),
        _ => Ok(Bridge::Away(from.twin(alloc)?, to)),
    }
}

// The bridge after a splice of the far text.
pub(crate) fn after_splice(
    alloc: Global,
    old: &Str,
    before: &Bridge,
    from: u64,
    count: u64,
    with: &Str,
) -> Result<Bridge, AllocError>
    ensures { IfOk result (λ b. bridge_tree b ≡ bridge_splice old.now (bridge_tree before.now) from count with.now) }
{
    match before {
        Bridge::Same => {
            a_text_is_utf8(old.as_str());
            let runs = TextBridge::between_the_same(alloc);
            with_splice(alloc, &runs, from, count, with)
        }
        Bridge::Text(runs) => with_splice(alloc, runs, from, count, with),
        _ => Ok(Bridge::Lost),
    }
}

// The bridge of a text with the runs after a splice of the far text.
fn with_splice(
    alloc: Global,
    runs: &TextBridge,
    from: u64,
    count: u64,
    with: &Str,
) -> Result<Bridge, AllocError>
    ensures { IfOk result (λ b. bridge_tree b ≡ with_splice (is_utf8 with.now) runs.now from count with.now) }
{
    a_text_is_utf8(with.as_str());
    let next = runs.after_splice(alloc, from, count, with.character_count() as u64)?;
    Ok(Bridge::Text(Rc::new(alloc, next)?))
}

// The bridges of the fields of a record.
pub(crate) fn parts_of(alloc: Global, before: &Bridge, docs: &Docs) -> Result<Bridges, AllocError>
    ensures { IfOk result (λ bs. bridges_tree bs ≡ parts_of (bridge_tree before.now) (docs_tree docs.now)) }
{
    match before {
        Bridge::Same => Bridges::same_each(alloc, docs),
        Bridge::Rec(bridges) => bridges.copy(alloc),
        _ => Ok(Bridges::empty(alloc)),
    }
}

// The bridge of the contents, where both documents have the same tag.
pub(crate) fn arm_of(alloc: Global, before: &Bridge) -> Result<Bridge, AllocError>
    ensures { IfOk result (λ b. bridge_tree b ≡ arm_of (bridge_tree before.now)) }
{
    match before {
        Bridge::Arm(_, inner) => inner.twin(alloc),
        _ => Ok(Bridge::Same),
    }
}

// The document itself.
pub(crate) fn unchanged(alloc: Global, doc: &Doc, before: &Bridge) -> Result<Made, AllocError>
    ensures value { IfOk result (λ m. doc_tree m.value ≡ doc_tree doc.now) }
    ensures bridge { IfOk result (λ m. bridge_tree m.bridge ≡ bridge_tree before.now) }
{
    let value = doc.twin(alloc)?;
    let bridge = before.twin(alloc)?;
    Ok(Made { value, bridge })
}

// A record with another content of a field, and the bridges of all fields.
pub(crate) fn with_field(
    alloc: Global,
    docs: &Docs,
    bridges: &Bridges,
    place: usize,
    made: Made,
) -> Result<Made, AllocError>
    requires { place < length (doc_list (docs_tree docs.now)) }
    ensures value { IfOk result (λ m.
        doc_tree m.value ≡ rec (put_at (docs_tree docs.now) place (doc_tree made.value))) }
    ensures bridge { IfOk result (λ m. bridge_tree m.bridge
        ≡ parts (put_bridge_at (bridges_tree bridges.now) place (bridge_tree made.bridge))) }
{
    let next = bridges.with(alloc, place, made.bridge);
    both(
        rec_with(alloc, docs, place, made.value),
        next.map(Bridge::Rec),
    )
}

fn rec_with(alloc: Global, docs: &Docs, place: usize, next: Doc) -> Result<Doc, AllocError>
    requires { place < length (doc_list (docs_tree docs.now)) }
    ensures { IfOk result (λ d. doc_tree d ≡ rec (put_at (docs_tree docs.now) place (doc_tree next))) }
{
    let mut docs = docs.twin(alloc)?;
    docs.set(alloc, place, next)?;
    Ok(Doc::Rec(docs))
}

// A tag with another content, and the bridge to it.
pub(crate) fn with_content(
    alloc: Global,
    held: &Name,
    before: &Bridge,
    made: Made,
) -> Result<Made, AllocError>
    ensures value { IfOk result (λ m. doc_tree m.value ≡ alt held.now (doc_tree made.value)) }
    ensures bridge { IfOk result (λ m. bridge_tree m.bridge
        ≡ bridge_stay (bridge_tree before.now) held.now (bridge_tree made.bridge)) }
{
    let next = after_stay(alloc, held, before, made.bridge);
    both(tagged(alloc, held, made.value), next)
}

fn tagged(alloc: Global, tag: &Name, content: Doc) -> Result<Doc, AllocError>
    ensures { IfOk result (λ d. doc_tree d ≡ alt tag.now (doc_tree content)) }
{
    let content = Box::new(alloc, content)?;
    Ok(Doc::Alt(tag.twin(alloc)?, content))
}

// The bridge after the content of a tag was acted on.
fn after_stay(
    alloc: Global,
    tag: &Name,
    before: &Bridge,
    inner: Bridge,
) -> Result<Bridge, AllocError>
    ensures { IfOk result (λ b. bridge_tree b ≡ bridge_stay (bridge_tree before.now) tag.now (bridge_tree inner)) }
{
    match before {
        Bridge::Away(..) => before.twin(alloc),
        _ => Bridge::with_tag(alloc, tag, inner),
    }
}

// A list with another item at a place, and the bridge to it.
pub(crate) fn with_item(
    alloc: Global,
    shape: &Shape,
    docs: &Docs,
    links: &Bridge,
    place: usize,
    made: Made,
) -> Result<Made, AllocError>
    requires { place < length (doc_list (docs_tree docs.now)) }
    ensures value { IfOk result (λ m.
        doc_tree m.value ≡ hold shape.now (put_at (docs_tree docs.now) place (doc_tree made.value))) }
    ensures bridge { IfOk result (λ m.
        bridge_tree m.bridge ≡ with_inner (bridge_tree links.now) place (bridge_tree made.bridge)) }
{
    let next = with_inner(alloc, links, place, made.bridge);
    both(hold_with(alloc, shape, docs, place, made.value), next)
}

fn hold_with(
    alloc: Global,
    shape: &Shape,
    docs: &Docs,
    place: usize,
    next: Doc,
) -> Result<Doc, AllocError>
    requires { place < length (doc_list (docs_tree docs.now)) }
    ensures { IfOk result (λ d. doc_tree d ≡ hold shape.now (put_at (docs_tree docs.now) place (doc_tree next))) }
{
    let mut docs = docs.twin(alloc)?;
    docs.set(alloc, place, next)?;
    Ok(Doc::Hold(shape.twin(alloc)?, docs))
}

// A value with the bridge to it, if there was memory for both.
fn both(
    value: Result<Doc, AllocError>,
    next: Result<Bridge, AllocError>,
) -> Result<Made, AllocError>
    ensures { IfOk result (λ m. (value ≡ Ok m.value) × (next ≡ Ok m.bridge)) }
{
    let value = value?;
    let bridge = next?;
    Ok(Made { value, bridge })
}
