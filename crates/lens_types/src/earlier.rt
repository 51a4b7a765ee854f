//! The definitions before the one that is checked.

ghost use Rattle.std.specs.Prelude.{◌≡◌, ◌≤◌, ◌∷◌, ◌++◌, [], IsTrue, None, OnOk, MatchOption, length, take};
ghost use Rattle.doc_values.specs.Types.{ty_unit, height};
ghost use Rattle.lens_forms.specs.Forms.{form_id, left_type, right_type};
ghost use Rattle.lens_forms.specs.Measures.{type_parts, form_parts, form_height};
ghost use Rattle.lens_types.specs.Earlier.{known, type_named, form_named};
ghost use Rattle.lens_types.specs.Entries.{earlier_tree, stands_for, is_measured, IsFound, IsTypeFound, IsLensFound};
ghost use Rattle.lens_types.specs.Heights.{capped, HasHeights};

use crate::known::{Known, KnownLens, KnownType, SideHeights};
use indexmap::IndexMap;
use std::alloc::{AllocError, Global};
use std::marker::Model;
use texts::Name;

// Definitions in written order, each with what it stands for.
#[derive(Drop)]
pub(crate) struct Earlier<'a> {
    entries: IndexMap<Name, Known<'a>>,
}

impl<'a> Model for Earlier<'a> {
    ghost use Rattle.std.specs.Prelude.{List, ℕ, IsTrue, []};
    ghost use Rattle.lens_types.specs.declared.known.Known.{Known};
    ghost use Rattle.lens_types.specs.Entries.{are_measured};
    ghost use Rattle.std.specs.Coded.{codes};
    ghost use Rattle.program_terms.specs.contracts.types.TyExpr as type_code;
    ghost use Rattle.program_terms.specs.contracts.lens.Lens as lens_code;

    ghost Value = { List (List ℕ × Known) };

    ghost coded = { Prim.hlevel (codes, type_code.the_row.coded, lens_code.the_row.coded) };

    ghost view = { λ e. e.entries.entries };

    ghost invariant = { λ e. IsTrue (are_measured [] e.entries.entries) };
}

impl<'a> Earlier<'a> {
    pub(crate) fn new(alloc: Global) -> Earlier<'a>
        ensures { result ≡ [] }
    {
        Earlier {
            entries: IndexMap::new(alloc),
        }
    }

    pub(crate) fn len(&self) -> usize
        ensures { result ≡ length self.now }
    {
        self.entries.len()
    }

    // Adds a definition behind the others, none of which has its name.
    pub(crate) fn add(&mut self, name: Name, meaning: Known<'a>) -> Result<(), AllocError>
        requires is_new { known (earlier_tree self.old) name ≡ None }
        requires measured { IsTrue (is_measured (earlier_tree self.old) meaning) }
        ensures { OnOk result (earlier_tree self.new
            ≡ earlier_tree self.old ++ (name, stands_for (earlier_tree self.old) meaning.entry) ∷ []) }
    {
        self.entries.insert(name, meaning)?;
        Ok(())
    }

    // What a name stands for among the first `scope` definitions.
    fn find(&self, name: &Name, scope: usize) -> Option<Known<'a>>
        ensures { MatchOption result (known (take scope (earlier_tree self.now)) name.now ≡ None)
            (λ k. IsFound self.now scope name.now k) }
    {
        let (place, _, known) = self.entries.get_full(name)?;
        if place < scope { Some(*known) } else { None }
    }

    // The type that a name stands for.
    pub(crate) fn type_named(&self, name: &Name, scope: usize) -> Option<KnownType<'a>>
        ensures { MatchOption result (type_named (take scope (earlier_tree self.now)) name.now ≡ ty_unit)
            (λ k. IsTypeFound self.now scope name.now k) }
    {
        match self.find(name, scope)? {
            Known::OfType(known) => Some(known),
            Known::OfLens(_) => None,
        }
    }

    // The lens that a name stands for.
    pub(crate) fn lens_named(&self, name: &Name, scope: usize) -> Option<KnownLens<'a>>
        ensures { MatchOption result (form_named (take scope (earlier_tree self.now)) name.now ≡ form_id ty_unit)
            (λ k. IsLensFound self.now scope name.now k) }
    {
        match self.find(name, scope)? {
            Known::OfType(_) => None,
            Known::OfLens(known) => Some(known),
        }
    }

    pub(crate) fn type_parts(&self, name: &Name) -> usize
        ensures { result ≡ type_parts (type_named (earlier_tree self.now) name.now) }
    {
        match self.type_named(name, self.len()) {
            Some(known) => known.parts,
            None => 1,
        }
    }

    pub(crate) fn lens_parts(&self, name: &Name) -> usize
        ensures { result ≡ form_parts (form_named (earlier_tree self.now) name.now) }
    {
        match self.lens_named(name, self.len()) {
            Some(known) => known.parts,
            None => 2,
        }
    }

    pub(crate) fn type_height(&self, name: &Name) -> u32
        ensures { result ≡ capped (height (type_named (earlier_tree self.now) name.now)) }
    {
        match self.type_named(name, self.len()) {
            Some(known) => known.height,
            None => 1,
        }
    }

    pub(crate) fn lens_height(&self, name: &Name) -> u32
        ensures { result ≡ capped (form_height (form_named (earlier_tree self.now) name.now)) }
    {
        match self.lens_named(name, self.len()) {
            Some(known) => known.height,
            None => 1,
        }
    }

    pub(crate) fn side_heights(&self, name: &Name) -> SideHeights
        ensures { HasHeights (form_named (earlier_tree self.now) name.now) result }
    {
        match self.lens_named(name, self.len()) {
            Some(known) => known.sides,
            None => SideHeights { left: 1, right: 1 },
        }
    }
}
