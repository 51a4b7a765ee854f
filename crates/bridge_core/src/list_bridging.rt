//! The links of two lists, and the bridges of their items, after an edit of the far one.
ghost use Rattle.std.specs.Prelude.{◌≡◌, IfOk};
ghost use Rattle.doc_values.specs.Documents.{docs_tree};
ghost use Rattle.hold_shapes.specs.Plans.{plan_list};
ghost use Rattle.bridge_core.specs.Bridges.{bridge_tree, bridges_tree, same};
ghost use Rattle.bridge_core.specs.Bridged.{linked_of, inner_of, with_inner, links_after, bridge_shape};

use crate::bridge::{Bridge, Bridges};
use bridge_lists::ListBridge;
use doc_values::Docs;
use hold_shapes::{PlanFault, ShapeEdit};
use std::alloc::{AllocError, Global};
use std::rc::Rc;
use texts::Twin;

// The bridge of two lists, where each item of the near one has a link.
pub(crate) fn linked_of(alloc: Global, before: &Bridge, docs: &Docs) -> Result<Bridge, AllocError>
    ensures { IfOk result (λ b. bridge_tree b ≡ linked_of (bridge_tree before.now) (docs_tree docs.now)) }
{
    match before {
        Bridge::Same => same_list(alloc, docs),
        _ => before.twin(alloc),
    }
}

// The bridge between a list and itself.
fn same_list(alloc: Global, docs: &Docs) -> Result<Bridge, AllocError>
    ensures { IfOk result (λ b. bridge_tree b ≡ linked_of same (docs_tree docs.now)) }
{
    let links = ListBridge::between_the_same(alloc, docs.len() as u64)?;
    let inner = Bridges::same_each(alloc, docs)?;
    Bridge::with_links(alloc, links, inner)
}

// The bridge of the item at a place of the far list. An item that the near list does not have is the same.
pub(crate) fn inner_of(alloc: Global, bridge: &Bridge, place: usize) -> Result<Bridge, AllocError>
    ensures { IfOk result (λ b. bridge_tree b ≡ inner_of (bridge_tree bridge.now) place) }
{
    let Bridge::List(links, bridges) = bridge else {
        return Ok(Bridge::Same);
    };
    match links.links().place_in_near(place as u64).place() {
        Some(near) => bridges.at(alloc, near as usize),
        None => Ok(Bridge::Same),
    }
}

// The bridge, with another one of the item at a place of the far list, if the near list has it.
pub(crate) fn with_inner(
    alloc: Global,
    bridge: &Bridge,
    place: usize,
    inner: Bridge,
) -> Result<Bridge, AllocError>
    ensures { IfOk result (λ b.
        bridge_tree b ≡ with_inner (bridge_tree bridge.now) place (bridge_tree inner)) }
{
    let Bridge::List(links, bridges) = bridge else {
        return bridge.twin(alloc);
    };
    match links.links().place_in_near(place as u64).place() {
        Some(near) => {
            let next = bridges.with(alloc, near as usize, inner)?;
            Ok(Bridge::List(links.clone()?, next))
        }
        None => bridge.twin(alloc),
    }
}

// The bridge after an edit of the far list.
pub(crate) fn after_shape(
    alloc: Global,
    before: &Bridge,
    docs: &Docs,
    edit: &ShapeEdit,
) -> Result<Bridge, AllocError>
    ensures { IfOk result (λ b. bridge_tree b
        ≡ bridge_shape (linked_of (bridge_tree before.now) (docs_tree docs.now)) edit.now) }
{
    match linked_of(alloc, before, docs)? {
        Bridge::List(links, bridges) => after_edit(alloc, links, bridges, edit),
        other => Ok(other),
    }
}

// The links after an edit of the far list. They stay where the edit has no plan.
fn after_edit(
    alloc: Global,
    links: Rc<ListBridge>,
    bridges: Bridges,
    edit: &ShapeEdit,
) -> Result<Bridge, AllocError>
    ensures { IfOk result (λ b. bridge_tree b
        ≡ links_after (plan_list links.value.1 edit.now) edit.now links.value.0 links.value.1 (bridges_tree bridges)) }
{
    match links.after_edit(alloc, edit) {
        Ok(next) => Bridge::with_links(alloc, next, bridges),
        Err(PlanFault::NoMemory) => Err(AllocError),
        Err(_) => Ok(Bridge::List(links, bridges)),
    }
}
