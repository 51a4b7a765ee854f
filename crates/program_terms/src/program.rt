//! Complete programs.

ghost use Rattle.std.specs.Prelude.{◌≡◌, ◌<◌, Some, IsTrue, option_map, slice_get, length};
ghost use Rattle.program_terms.specs.Terms.{def_named, are_defined_once};
ghost use Rattle.program_terms.specs.Views.{lens_tree, def_tree, definitions_tree, program_tree};

use crate::definitions::{Def, Definitions};
use crate::lens::Lens;
use std::alloc::{AllocError, Global};
use texts::{Name, Twin};

/// A program: definitions in written order, no two of one name, and a main lens.
///
/// Contracts see it as a `ProgramTree`. docs/LANGUAGE.md has the grammar.
#[derive(Drop)]
pub struct Program {
    definitions: Definitions,
    main: Lens,
}

impl Program {
    /// The program of these definitions and this main lens. Does not allocate.
    pub fn from_parts(definitions: Definitions, main: Lens) -> Program
        ensures { program_tree result ≡ record { definitions = definitions_tree definitions; main = lens_tree main } }
    {
        Program { definitions, main }
    }

    /// How many definitions there are. No two of them have the same name.
    pub fn count(&self) -> u64
        ensures count { result ≡ length (program_tree self.now).definitions }
        ensures distinct { IsTrue (are_defined_once (program_tree self.now).definitions) }
    {
        self.definitions.len() as u64
    }

    /// The name of the definition at a place, counted from 0 in written order. The place must be below the count.
    pub fn name(&self, at: u64) -> &Name
        requires { at < length (program_tree self.now).definitions }
        ensures { option_map (λ d. d.0) (slice_get (program_tree self.now).definitions at) ≡ Some result.now }
    {
        self.definitions.entry_at(at as usize).0
    }

    /// What the name at a place is defined as, counted from 0 in written order. The place must be below the count.
    pub fn def(&self, at: u64) -> &Def
        requires { at < length (program_tree self.now).definitions }
        ensures { option_map (λ d. d.1) (slice_get (program_tree self.now).definitions at)
            ≡ Some (def_tree result.now) }
    {
        self.definitions.entry_at(at as usize).1
    }

    /// What a name is defined as. None if and only if no definition has the name.
    pub fn find(&self, name: &Name) -> Option<&Def>
        ensures { option_map (λ d. def_tree d.now) result ≡ def_named name.now (program_tree self.now).definitions }
    {
        self.definitions.find(name)
    }

    /// The main lens.
    pub fn main(&self) -> &Lens
        ensures { lens_tree result.now ≡ (program_tree self.now).main }
    {
        &self.main
    }
}

impl Twin for Program {
    ghost use Rattle.program_terms.specs.Terms.{ProgramTree};
    ghost use Rattle.program_terms.specs.Views.{program_tree};

    ghost Meaning = { ProgramTree };

    ghost meaning = { program_tree };

    fn twin(&self, alloc: Global) -> Result<Self, AllocError> {
        let definitions = self.definitions.twin(alloc)?;
        let main = self.main.twin(alloc)?;
        Ok(Program { definitions, main })
    }
}
