//! Checking the names of a program.
ghost use Rattle.std.specs.Prelude.{◌≡◌, ◌∷◌, ◌++◌, [], map, OnOk};
ghost use Rattle.program_grammar.specs.Mentions.{without_notes, definition_without_notes};
ghost use Rattle.program_reader.specs.Causes.{IsResult, if_no_fault};
ghost use Rattle.program_reader.specs.Known.{is_known_among, first_unknown_among, definition_fault, first_fault_among};
ghost use Rattle.program_reader.specs.Known.{or_fault};
ghost use Rattle.program_reader.specs.Programs.{definition_with_notes, program_with_notes};
ghost use Rattle.program_terms.specs.Views.{definitions_tree, program_tree};

use crate::fault::ProgramReadFault;
use crate::programs::{ReadDefinition, ReadProgram};
use program_grammar::{Mention, NameFault, Sort};
use program_terms::{AddFault, Def, Definitions, Program};
use std::alloc::Global;
use std::collections::VecDeque;

/// The program without its notes, or the first fault of its names in written order.
pub(crate) fn with_known_names(
    alloc: Global,
    program: ReadProgram,
) -> Result<Program, ProgramReadFault>
    ensures { let p = program_with_notes program in
        IsResult program_tree result (if_no_fault (first_fault_among [] p.definitions p.mentions) (without_notes p)) }
{
    let ReadProgram {
        definitions,
        main,
        mentions,
    } = program;
    match known_definitions(alloc, definitions, &mentions) {
        Ok(known) => Ok(Program::from_parts(known, main)),
        Err(fault) => Err(fault),
    }
}

/// The definitions without their notes, or the first fault of their names and of those that the main lens mentions.
fn known_definitions(
    alloc: Global,
    definitions: VecDeque<ReadDefinition>,
    mentions: &[Mention],
) -> Result<Definitions, ProgramReadFault>
    ensures { let ds = map definition_with_notes definitions.items in
        IsResult definitions_tree result
        (if_no_fault (first_fault_among [] ds mentions.now) (map definition_without_notes ds)) }
{
    let mut left = definitions;
    let mut known = Definitions::new(alloc);
    'definitions: while let Some(definition) = left.pop_front() {
        add_definition(&mut known, definition)?;
    }
    all_known(&known, mentions)?;
    Ok(known)
}

/// Adds a definition behind the earlier ones, or returns its first fault.
fn add_definition(
    known: &mut Definitions,
    definition: ReadDefinition,
) -> Result<(), ProgramReadFault>
    ensures answer { IsResult (λ u. u) result
        (if_no_fault (definition_fault (definitions_tree known.old) (definition_with_notes definition)) tt) }
    ensures added { OnOk result
        (definitions_tree known.new ≡ definitions_tree known.old ++ definition_without_notes
        (definition_with_notes definition) ∷ []) }
{
    let ReadDefinition {
        name,
        at,
        def,
        mentions,
    } = definition;
    // Before it is added: a definition is not in scope in its own body.
    let mentioned = all_known(known, &mentions);
    match known.add(name, def) {
        Ok(()) => {}
        Err(AddFault::Repeated) => return Err(ProgramReadFault::RepeatedName { at }),
        Err(AddFault::NoMemory) => return Err(ProgramReadFault::NoMemory),
    }
    mentioned?;
    Ok(())
}

/// Whether all names mentioned are known, or which is the first that is not.
fn all_known(known: &Definitions, mentions: &[Mention]) -> Result<(), NameFault>
    ensures { result ≡ or_fault (first_unknown_among (definitions_tree known.now) mentions.now) }
{
    for mention in mentions {
        if !is_known(known, mention) {
            return Err(NameFault::Unknown { at: mention.at });
        }
    }
    Ok(())
}

/// Whether the definition with the name that is mentioned is of the wanted sort.
fn is_known(known: &Definitions, mention: &Mention) -> bool
    ensures { result ≡ is_known_among (definitions_tree known.now) mention.now }
{
    match known.find(&mention.name) {
        Some(Def::OfType(_)) => matches!(mention.sort, Sort::Type),
        Some(Def::OfLens(_)) => matches!(mention.sort, Sort::Lens),
        None => false,
    }
}
