//! Complements: what is remembered beside the two documents.

ghost use Rattle.std.specs.Prelude.{◌≡◌, ◌↔◌, ◌<◌, All, map, slice_set, slice_index_or, IsTrue, IfOk, OnOk, OnErr};
ghost use Rattle.hold_shapes.specs.Gather.{content_at, IsBelow};
ghost use Rattle.lens_core.specs.Complements.{comp_tree, comps_tree, comps_of, comp_list, comp_count, nil, then_comp};
ghost use Rattle.lens_core.specs.Complements.{no_comps};

use hold_shapes::{Origins, Shape, gather};
use shared_lists::{Hint, Iter, SharedList};
use std::alloc::{AllocError, Global};
use tag_seq::TagSeq;
use texts::{Name, Twin};

/// A complement. docs/FORMATS.md says which complements fit a form.
///
/// A copy shares all lists of complements and of tags.
#[derive(Drop)]
#[cycle(comp)]
pub enum Comp {
    /// Nothing is kept.
    Nil,
    /// Of a composition: the complement of its first lens, and that of its second.
    Then(Box<Comp>, Box<Comp>),
    /// Of a record: one complement for each paired row, in written order.
    Rec(Comps),
    /// Of alternatives: the left tag of an arm, and a complement of that arm.
    Alt(Name, Box<Comp>),
    /// Of a container: its shape, and the complement of each place.
    Hold(Shape, Comps),
    /// Of a partition: the number of its tag for each item.
    Tags(TagSeq),
}

/// A list of complements. A copy shares them.
#[derive(Drop)]
#[cycle(comp)]
pub struct Comps {
    pub(crate) items: SharedList<Comp>,
}

impl Comps {
    /// No complements. Does not allocate.
    pub fn empty() -> Comps
        ensures { comps_tree result ≡ no_comps }
    {
        Comps {
            items: SharedList::empty(),
        }
    }

    /// These complements, in this order. Fails only if memory runs out; the complements are then dropped.
    pub fn from_vec(alloc: Global, items: Vec<Comp>) -> Result<Comps, AllocError>
        ensures { IfOk result (λ cs. comps_tree cs ≡ comps_of (map comp_tree items.items)) }
    {
        let items = SharedList::from_vec(alloc, items)?;
        Ok(Comps { items })
    }

    /// How many complements there are.
    #[tactic(auto, using(crate::proofs::ComplementTrees::list_rules))]
    pub fn len(&self) -> usize
        ensures { result ≡ comp_count (comps_tree self.now) }
    {
        self.items.len()
    }

    /// Whether there are no complements.
    #[tactic(auto, using(crate::proofs::ComplementTrees::list_rules))]
    pub fn is_empty(&self) -> bool
        ensures { IsTrue result ↔ (comp_count (comps_tree self.now) ≡ 0) }
    {
        self.items.is_empty()
    }

    /// The complement at a place, which is counted from 0 and is one of the places.
    #[tactic(auto, using(crate::proofs::ComplementTrees::list_rules))]
    pub fn get(&self, place: usize) -> &Comp
        requires { place < comp_count (comps_tree self.now) }
        ensures { comp_tree result.now ≡ slice_index_or (comp_list (comps_tree self.now)) place nil }
    {
        self.items.get(place)
    }

    /// The complements in order.
    pub fn iter(&self) -> Iter<'_, Comp>
        ensures { comps_of (map comp_tree result) ≡ comps_tree self.now }
    {
        self.items.iter()
    }

    /// Puts a complement at a place, which is counted from 0 and is one of the places.
    ///
    /// Fails only if memory runs out; the list is then as it was, and the complement is dropped.
    #[tactic(auto, using(crate::proofs::ComplementTrees::list_rules))]
    pub fn set(&mut self, alloc: Global, place: usize, comp: Comp) -> Result<(), AllocError>
        requires { place < comp_count (comps_tree self.old) }
        ensures replaced { OnOk result (comps_tree self.new
            ≡ comps_of (slice_set (comp_list (comps_tree self.old)) place (comp_tree comp))) }
        ensures unchanged { OnErr result (comps_tree self.new ≡ comps_tree self.old) }
    {
        self.items.set(alloc, place, comp)
    }

    /// A copy of the complement of each old place that is named, and of the fresh one elsewhere, in the order of the
    /// origins. Fails only if memory runs out.
    ///
    /// Each old place is one of the places.
    #[tactic(auto, using(crate::proofs::ComplementTrees::gather_rules))]
    pub fn gathered(&self, alloc: Global, from: &Origins, fresh: &Comp) -> Result<Comps, AllocError>
        requires { All (IsBelow (comp_count (comps_tree self.now))) from.now }
        ensures { IfOk result (λ cs. comps_tree cs
            ≡ comps_of (map (content_at (comp_list (comps_tree self.now)) (comp_tree fresh.now)) from.now)) }
    {
        let items = gather(alloc, from, &self.items, fresh)?;
        Ok(Comps { items })
    }
}

/// The complement of a composition, from those of its two lenses. Fails only if memory runs out; both are then dropped.
pub fn then_join(alloc: Global, first: Comp, second: Comp) -> Result<Comp, AllocError>
    ensures { IfOk result (λ c. comp_tree c ≡ then_comp (comp_tree first) (comp_tree second)) }
{
    let first = Box::new(alloc, first)?;
    let second = Box::new(alloc, second)?;
    Ok(Comp::Then(first, second))
}

impl Hint for Comp {}

impl Twin for Comp {
    ghost use Rattle.lens_core.specs.Complements.{CompTree, comp_tree};

    ghost Meaning = { CompTree };

    ghost meaning = { comp_tree };

    fn twin(&self, alloc: Global) -> Result<Self, AllocError> {
        copy_comp(alloc, self)
    }
}

impl Twin for Comps {
    ghost use Rattle.lens_core.specs.Complements.{CompTrees, comps_tree};

    ghost Meaning = { CompTrees };

    ghost meaning = { comps_tree };

    fn twin(&self, alloc: Global) -> Result<Self, AllocError> {
        copy_comps(alloc, self)
    }
}

#[cycle(copy_comp)]
fn copy_comp(alloc: Global, comp: &Comp) -> Result<Comp, AllocError>
    ensures { IfOk result (λ c. comp_tree c ≡ comp_tree comp.now) }
{
    match comp {
        Comp::Nil => Ok(Comp::Nil),
        Comp::Then(first, second) => {
            let first = copy_comp(alloc, first)?;
            then_join(alloc, first, copy_comp(alloc, second)?)
        }
        Comp::Rec(comps) => Ok(Comp::Rec(copy_comps(alloc, comps)?)),
        Comp::Alt(tag, part) => Ok(Comp::Alt(
            tag.twin(alloc)?,
            Box::new(alloc, copy_comp(alloc, part)?)?,
        )),
        Comp::Hold(shape, comps) => Ok(Comp::Hold(shape.twin(alloc)?, copy_comps(alloc, comps)?)),
        Comp::Tags(tags) => Ok(Comp::Tags(tags.twin()?)),
    }
}

#[tactic(auto, using(crate::proofs::ComplementTrees::list_rules))]
fn copy_comps(alloc: Global, comps: &Comps) -> Result<Comps, AllocError>
    ensures { IfOk result (λ cs. comps_tree cs ≡ comps_tree comps.now) }
{
    let items = comps.items.copy(alloc)?;
    Ok(Comps { items })
}
