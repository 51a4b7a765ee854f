//! Reading definitions and complete programs.
ghost use Rattle.std.specs.Prelude.{◌≡◌, [], Ok, map, option_map};
ghost use Rattle.program_grammar.specs.Reading.{next_word, type_at, lens_at, definition_at, definition_of};
ghost use Rattle.program_grammar.specs.Reading.{definitions_at, program_at};
ghost use Rattle.program_reader.specs.Gives.{Gives, GivesAll};
ghost use Rattle.program_reader.specs.Programs.{definition_with_notes, program_with_notes, term_at, with_no_mentions};
ghost use Rattle.program_terms.specs.Views.{def_tree};

use crate::fault::ReadFault;
use crate::lenses::read_lens;
use crate::reader::Reader;
use crate::types::read_type;
use program_grammar::{Mention, Sort};
use program_terms::{Def, Lens};
use program_tokens::{Keyword, Mark, Tokens};
use std::alloc::Global;
use std::collections::VecDeque;
use texts::Name;

/// How many types and lenses may be nested.
const NESTED: u32 = 100;

/// A definition, with the offset of its name and the names that it mentions in written order.
#[derive(Drop)]
pub(crate) struct ReadDefinition {
    pub name: Name,
    pub at: u64,
    pub def: Def,
    pub mentions: Vec<Mention>,
}

/// A program whose names are not checked yet, with the names that its main lens mentions.
#[derive(Drop)]
pub(crate) struct ReadProgram {
    pub definitions: VecDeque<ReadDefinition>,
    pub main: Lens,
    pub mentions: Vec<Mention>,
}

/// The program that these are the tokens of.
pub(crate) fn read_program(alloc: Global, tokens: Tokens) -> Result<ReadProgram, ReadFault>
    ensures { GivesAll program_with_notes result (program_at tokens) }
{
    let mut reader = Reader::new(alloc, tokens);
    read_parts(alloc, &mut reader)
}

/// The program of a text of which no token is taken yet.
#[tactic(auto, unfolding(program_grammar::specs::Reading::program_at))]
fn read_parts(alloc: Global, reader: &mut Reader) -> Result<ReadProgram, ReadFault>
    requires { reader.old.0 ≡ [] }
    ensures { GivesAll program_with_notes result (program_at reader.old.1) }
{
    let definitions = read_definitions(alloc, reader)?;
    reader.take_main()?;
    let main = read_lens(alloc, reader, NESTED)?;
    reader.take_end()?;
    let mentions = reader.take_mentions(alloc);
    Ok(ReadProgram {
        definitions,
        main,
        mentions,
    })
}

/// The definitions that come next, in written order.
fn read_definitions(
    alloc: Global,
    reader: &mut Reader,
) -> Result<VecDeque<ReadDefinition>, ReadFault>
    requires { reader.old.0 ≡ [] }
    ensures { Gives (λ v. map definition_with_notes v.items) result reader.new
        (with_no_mentions (definitions_at 0 reader.old.1)) }
{
    let mut definitions = VecDeque::new(alloc);
    'definitions: while let Some(sort) = next_sort(reader) {
        reader.skip();
        let definition = read_definition(alloc, reader, sort)?;
        definitions.push_back(definition)?;
    }
    Ok(definitions)
}

/// The sort of the definition that comes next, if one does.
fn next_sort(reader: &Reader) -> Option<Sort>
    ensures { definition_of (next_word reader.now.1) ≡ option_map term_at result }
{
    match reader.next_word() {
        Some(Keyword::Type) => Some(Sort::Type),
        Some(Keyword::Lens) => Some(Sort::Lens),
        _ => None,
    }
}

/// A definition of this sort, behind its first word.
#[tactic(auto, unfolding(program_grammar::specs::Reading::definition_at))]
fn read_definition(
    alloc: Global,
    reader: &mut Reader,
    sort: Sort,
) -> Result<ReadDefinition, ReadFault>
    requires { reader.old.0 ≡ [] }
    ensures { Gives definition_with_notes result reader.new
        (with_no_mentions (definition_at (term_at sort) reader.old.1)) }
{
    let (name, at) = reader.take_name()?;
    reader.take_mark(Mark::Equals)?;
    let def = read_def(alloc, reader, sort)?;
    reader.take_mark(Mark::Semicolon)?;
    let mentions = reader.take_mentions(alloc);
    Ok(ReadDefinition {
        name,
        at,
        def,
        mentions,
    })
}

/// What a name of this sort is defined as.
#[tactic(auto, unfolding(program_grammar::specs::Reading::type_term_at, program_grammar::specs::Reading::lens_term_at))]
fn read_def(alloc: Global, reader: &mut Reader, sort: Sort) -> Result<Def, ReadFault>
    ensures { Gives def_tree result reader.new (term_at sort reader.old) }
{
    match sort {
        Sort::Type => {
            let ty = read_type(alloc, reader, NESTED)?;
            Ok(Def::OfType(ty))
        }
        Sort::Lens => {
            let lens = read_lens(alloc, reader, NESTED)?;
            Ok(Def::OfLens(lens))
        }
    }
}
