//! Definitions by name.

ghost use Rattle.std.specs.Prelude.{◌≡◌, ◌<◌, ◌∷◌, ◌++◌, [], Some, true, false, IsErrOf, OnErr, OnOk, IfOk, IsTrue};
ghost use Rattle.std.specs.Prelude.{option_map, slice_get, length};
ghost use Rattle.program_terms.specs.Terms.{def_named, is_defined, are_defined_once};
ghost use Rattle.program_terms.specs.Views.{def_tree, definitions_tree};
ghost use Rattle.program_terms.specs.declared.definitions.AddFault;

use crate::lens::Lens;
use crate::types::TyExpr;
use indexmap::IndexMap;
use std::alloc::{AllocError, Global};
use texts::{Name, Twin};

/// What a name is defined as. Contracts see it as a `DefTree`.
#[derive(Drop)]
pub enum Def {
    /// A type: `type point = {x: int, y: int};`.
    OfType(TyExpr),
    /// A lens: `lens swap = {x ~ y: id int, y ~ x: id int};`.
    OfLens(Lens),
}

/// Why a definition is not added.
#[derive(Clone, Copy, Debug, PartialEq, Eq, Drop)]
pub enum AddFault {
    /// The name is defined already, as a type or as a lens.
    Repeated,
    /// Memory ran out.
    NoMemory,
}

impl From<AllocError> for AddFault {
    ghost use Rattle.program_terms.specs.declared.definitions.AddFault.TheVariants.{NoMemory};

    ghost from_gives = { λ _ fault. fault ≡ NoMemory };

    fn from(_: AllocError) -> AddFault {
        AddFault::NoMemory
    }
}

impl Twin for AddFault {
    ghost use Rattle.program_terms.specs.declared.definitions.AddFault.{AddFault};

    ghost Meaning = { AddFault };

    ghost meaning = { λ x. x };

    fn twin(&self, _alloc: Global) -> Result<Self, AllocError> {
        Ok(*self)
    }
}

/// Definitions in written order, each under a name of its own, types and lenses alike.
///
/// Contracts see them as the list of the names with the trees of what they are defined as.
#[derive(Drop)]
pub struct Definitions {
    entries: IndexMap<Name, Def>,
}

impl Definitions {
    /// No definitions. Does not allocate until the first one is added.
    pub fn new(alloc: Global) -> Definitions
        ensures { definitions_tree result ≡ [] }
    {
        Definitions {
            entries: IndexMap::new(alloc),
        }
    }

    /// How many definitions there are. No two of them have the same name.
    pub fn len(&self) -> usize
        ensures count { result ≡ length (definitions_tree self.now) }
        ensures distinct { IsTrue (are_defined_once (definitions_tree self.now)) }
    {
        self.entries.len()
    }

    /// What a name is defined as. None if and only if no definition has the name.
    pub fn find(&self, name: &Name) -> Option<&Def>
        ensures { option_map (λ d. def_tree d.now) result ≡ def_named name.now (definitions_tree self.now) }
    {
        self.entries.get(name)
    }

    /// Whether a definition has the name.
    pub fn has(&self, name: &Name) -> bool
        ensures { result ≡ is_defined name.now (definitions_tree self.now) }
    {
        self.find(name).is_some()
    }

    // The name at a place and what it is defined as.
    pub(crate) fn entry_at(&self, at: usize) -> (&Name, &Def)
        requires { at < length (definitions_tree self.now) }
        ensures { slice_get (definitions_tree self.now) at ≡ Some (result.0.now, def_tree result.1.now) }
    {
        self.entries.get_index(at).unwrap()
    }

    /// Adds a definition behind the others.
    ///
    /// `Repeated` if and only if a definition has the name already, and else `NoMemory` when memory runs out.
    /// On either fault the definitions are as they were.
    pub fn add(&mut self, name: Name, def: Def) -> Result<(), AddFault>
        ensures added { OnOk result (definitions_tree self.new ≡ definitions_tree self.old ++ (name, def_tree def) ∷ []) }
        ensures was_new { OnOk result (is_defined name (definitions_tree self.old) ≡ false) }
        ensures repeated { IsErrOf result AddFault.Repeated → is_defined name (definitions_tree self.old) ≡ true }
        ensures without_memory { IsErrOf result AddFault.NoMemory → is_defined name (definitions_tree self.old)
            ≡ false }
        ensures unchanged { OnErr result (definitions_tree self.new ≡ definitions_tree self.old) }
    {
        if self.has(&name) {
            drop((name, def));
            return Err(AddFault::Repeated);
        }
        self.add_new(name, def)?;
        Ok(())
    }

    // Adds a definition behind the others, where none has the name.
    fn add_new(&mut self, name: Name, def: Def) -> Result<(), AllocError>
        requires { is_defined name (definitions_tree self.old) ≡ false }
        ensures added { OnOk result (definitions_tree self.new ≡ definitions_tree self.old ++ (name, def_tree def) ∷ []) }
        ensures unchanged { OnErr result (definitions_tree self.new ≡ definitions_tree self.old) }
    {
        drop(self.entries.insert(name, def)?);
        Ok(())
    }
}

impl Twin for Def {
    ghost use Rattle.program_terms.specs.Terms.{DefTree};
    ghost use Rattle.program_terms.specs.Views.{def_tree};

    ghost Meaning = { DefTree };

    ghost meaning = { def_tree };

    fn twin(&self, alloc: Global) -> Result<Self, AllocError> {
        match self {
            Def::OfType(ty) => Ok(Def::OfType(ty.twin(alloc)?)),
            Def::OfLens(lens) => Ok(Def::OfLens(lens.twin(alloc)?)),
        }
    }
}

impl Twin for Definitions {
    ghost use Rattle.std.specs.Prelude.{List, ℕ};
    ghost use Rattle.program_terms.specs.Terms.{DefTree};
    ghost use Rattle.program_terms.specs.Views.{definitions_tree};

    ghost Meaning = { List (List ℕ × DefTree) };

    ghost meaning = { definitions_tree };

    fn twin(&self, alloc: Global) -> Result<Self, AllocError> {
        let mut copies = Definitions::new(alloc);
        for at in 0..self.len() {
            let (name, def) = self.entry_at(at);
            let name = name.twin(alloc)?;
            let def = def.twin(alloc)?;
            copies.add_new(name, def)?;
        }
        Ok(copies)
    }
}
