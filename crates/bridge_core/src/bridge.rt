//! A bridge between two documents of a type: it begins with one document twice, and both may be edited.
ghost use Rattle.std.specs.Prelude.{◌≡◌, IfOk, map};
ghost use Rattle.doc_values.specs.Documents.{docs_tree};
ghost use Rattle.bridge_core.specs.Bridges.{bridge_tree, bridges_tree, bridges_of, arm, no_bridges, same_each};
ghost use Rattle.bridge_core.specs.Bridges.{same, bridge_list, bridge_at, put_bridge_at, bridges_after, linked};
ghost use Rattle.hold_shapes.specs.Gather.{content_at};

use bridge_lists::ListBridge;
use bridge_texts::TextBridge;
use doc_values::Docs;
use hold_shapes::{Origin, Origins};
use std::alloc::{AllocError, Global};
use std::rc::Rc;
use texts::{Name, Twin};

/// How a document, the far one, differs from another, the near one, by the edits that were made of it.
///
/// A copy shares the bridges of texts and the links of lists.
#[derive(Drop)]
#[cycle(bridge)]
pub enum Bridge {
    /// Both documents are the same.
    Same,
    /// A bool, an int or a member of an enum, which may be another one.
    Other,
    /// A text that was set, or a keyed map or a tree that was edited: nothing of the near one is followed.
    Lost,
    /// A text that was spliced.
    Text(Rc<TextBridge>),
    /// A record: a bridge for each field.
    Rec(Bridges),
    /// Both documents have this tag: the bridge of its contents.
    Arm(Name, Box<Bridge>),
    /// The near document has the first tag, and the far one has been switched to the second.
    Away(Name, Name),
    /// A list that was edited: where the items of the near one are in the far one, and a bridge for each of them.
    List(Rc<ListBridge>, Bridges),
}

/// The bridges of the fields of a record, or of the items of the near list, in order.
#[derive(Drop)]
#[cycle(bridge)]
pub struct Bridges {
    pub(crate) items: Vec<Bridge>,
}

impl Bridge {
    // Both documents have a tag, with the bridge of its contents.
    pub(crate) fn with_tag(alloc: Global, tag: &Name, inner: Bridge) -> Result<Bridge, AllocError>
        ensures { IfOk result (λ b. bridge_tree b ≡ arm tag.now (bridge_tree inner)) }
    {
        let content = Box::new(alloc, inner)?;
        Ok(Bridge::Arm(tag.twin(alloc)?, content))
    }

    // Two lists, with their links and the bridges of the near items.
    pub(crate) fn with_links(
        alloc: Global,
        links: ListBridge,
        inner: Bridges,
    ) -> Result<Bridge, AllocError>
        ensures { IfOk result (λ b. bridge_tree b ≡ linked links.0 links.1 (bridges_tree inner)) }
    {
        let links = Rc::new(alloc, links)?;
        Ok(Bridge::List(links, inner))
    }
}

impl Bridges {
    /// The bridges, in the order of the fields or items.
    pub fn as_slice(&self) -> &[Bridge]
        ensures { bridges_of (map bridge_tree result.now) ≡ bridges_tree self.now }
    {
        self.items.as_slice()
    }

    // No bridges. Does not allocate.
    pub(crate) fn empty(alloc: Global) -> Bridges
        ensures { bridges_tree result ≡ no_bridges }
    {
        Bridges {
            items: Vec::new(alloc),
        }
    }

    // The same bridges.
    pub(crate) fn copy(&self, alloc: Global) -> Result<Bridges, AllocError>
        ensures { IfOk result (λ bs. bridges_tree bs ≡ bridges_tree self.now) }
    {
        copy_each(alloc, self)
    }

    // For each document the bridge to itself.
    #[tactic(auto, using(crate::proofs::BridgeItems::same_rules))]
    pub(crate) fn same_each(alloc: Global, docs: &Docs) -> Result<Bridges, AllocError>
        ensures { IfOk result (λ bs. bridges_tree bs ≡ same_each (docs_tree docs.now)) }
    {
        let mut items = Vec::new(alloc);
        for _ in 0..docs.len() {
            items.push(Bridge::Same)?;
        }
        Ok(Bridges { items })
    }

    // The bridge of the field at a place. A field that is not there has the same content in both documents.
    pub(crate) fn at(&self, alloc: Global, place: usize) -> Result<Bridge, AllocError>
        ensures { IfOk result (λ b. bridge_tree b ≡ bridge_at (bridges_tree self.now) place) }
    {
        if place >= self.items.len() {
            return Ok(Bridge::Same);
        }
        copy(alloc, &self.items[place])
    }

    // The bridges, with another one at a place.
    #[tactic(auto, using(crate::proofs::BridgeItems::place_rules))]
    pub(crate) fn with(
        &self,
        alloc: Global,
        place: usize,
        bridge: Bridge,
    ) -> Result<Bridges, AllocError>
        ensures { IfOk result (λ bs. bridges_tree bs
            ≡ put_bridge_at (bridges_tree self.now) place (bridge_tree bridge)) }
    {
        let mut bridges = copy_each(alloc, self)?;
        if place < bridges.items.len() {
            bridges.items[place] = bridge;
        }
        Ok(bridges)
    }
}

impl Bridges {
    // The bridges of the items of a near list after a plan of it. A fresh item is the same in both lists.
    pub(crate) fn after(&self, alloc: Global, from: &Origins) -> Result<Bridges, AllocError>
        ensures { IfOk result (λ bs. bridges_tree bs ≡ bridges_after from.now (bridges_tree self.now)) }
    {
        let mut items = Vec::new(alloc);
        for origin in from {
            items.push(self.of_origin(alloc, origin)?)?;
        }
        Ok(Bridges { items })
    }

    // The bridge of an item that comes from a place of the near list, or is fresh.
    fn of_origin(&self, alloc: Global, origin: Origin) -> Result<Bridge, AllocError>
        ensures { IfOk result (λ b. bridge_tree b ≡ content_at (bridge_list (bridges_tree self.now)) same origin) }
    {
        match origin {
            Origin::Old(place) => self.at(alloc, place as usize),
            Origin::Fresh => Ok(Bridge::Same),
        }
    }
}

impl Twin for Bridge {
    ghost use Rattle.bridge_core.specs.Bridges.{BridgeTree, bridge_tree};

    ghost Meaning = { BridgeTree };

    ghost meaning = { bridge_tree };

    fn twin(&self, alloc: Global) -> Result<Self, AllocError> {
        copy(alloc, self)
    }
}

// A copy of a bridge, and of the bridges of fields.
#[cycle(copy)]
fn copy(alloc: Global, bridge: &Bridge) -> Result<Bridge, AllocError>
    ensures { IfOk result (λ b. bridge_tree b ≡ bridge_tree bridge.now) }
{
    match bridge {
        Bridge::Same => Ok(Bridge::Same),
        Bridge::Other => Ok(Bridge::Other),
        Bridge::Lost => Ok(Bridge::Lost),
        Bridge::Text(runs) => Ok(Bridge::Text(runs.clone()?)),
        Bridge::Rec(parts) => Ok(Bridge::Rec(copy_each(alloc, parts)?)),
        Bridge::Arm(tag, inner) => Bridge::with_tag(alloc, tag, copy(alloc, inner)?),
        Bridge::Away(old, new) => {
            let old = old.twin(alloc)?;
            Ok(Bridge::Away(old, new.twin(alloc)?))
        }
        Bridge::List(links, items) => {
            let items = copy_each(alloc, items)?;
            Ok(Bridge::List(links.clone()?, items))
        }
    }
}

#[cycle(copy)]
fn copy_each(alloc: Global, bridges: &Bridges) -> Result<Bridges, AllocError>
    ensures { IfOk result (λ bs. bridges_tree bs ≡ bridges_tree bridges.now) }
{
    let mut items = Vec::new(alloc);
    for bridge in &bridges.items {
        items.push(copy(alloc, bridge)?)?;
    }
    Ok(Bridges { items })
}
