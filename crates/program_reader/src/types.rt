//! Reading types.
ghost use Rattle.std.specs.Prelude.{◌≡◌, ◌∷◌, ◌++◌, [], Ok, map};
ghost use Rattle.program_grammar.specs.Mentions.{mention};
ghost use Rattle.program_grammar.specs.declared.mention.Sort;
ghost use Rattle.program_grammar.specs.Reading.{string_at, list_at, closed_at, perhaps_at, typed_at, enum_at};
ghost use Rattle.program_grammar.specs.Reading.{word_type, mark_type, type_step, type_at};
ghost use Rattle.program_reader.specs.Gives.{Gives};
ghost use Rattle.program_terms.specs.Terms.{named};
ghost use Rattle.program_terms.specs.Views.{type_tree, field_tree};
ghost use Rattle.program_tokens.specs.declared.mark.Mark.TheVariants.{CloseBracket, CloseBrace};

use crate::fault::ReadFault;
use crate::initial::{read_initial_member, read_initial_number, read_initial_text};
use crate::reader::Reader;
use program_grammar::Sort;
use program_terms::{TyExpr, TyFields};
use program_tokens::{Keyword, Mark, Token};
use std::alloc::Global;
use texts::{Name, Names};

/// Strings with commas between them, at least one.
fn read_strings(alloc: Global, reader: &mut Reader) -> Result<Vec<Name>, ReadFault>
    ensures { Gives (λ v. v.items) result reader.new (list_at string_at reader.old) }
{
    let mut names = Vec::new(alloc);
    let first = reader.take_string()?;
    names.push(first)?;
    'commas: while reader.take_comma() {
        let next = reader.take_string()?;
        names.push(next)?;
    }
    Ok(names)
}

/// The members of an enum, with the bracket behind them.
#[tactic(auto, unfolding(program_grammar::specs::Reading::closed_at))]
fn read_members(alloc: Global, reader: &mut Reader) -> Result<Vec<Name>, ReadFault>
    ensures { Gives (λ v. v.items) result reader.new (closed_at string_at CloseBracket reader.old) }
{
    let names = read_strings(alloc, reader)?;
    reader.take_mark(Mark::CloseBracket)?;
    Ok(names)
}

/// An enum, behind its word.
#[tactic(auto, unfolding(program_grammar::specs::Reading::enum_at))]
fn read_enum(alloc: Global, reader: &mut Reader) -> Result<TyExpr, ReadFault>
    ensures { Gives type_tree result reader.new (enum_at reader.old) }
{
    reader.take_mark(Mark::OpenBracket)?;
    let names = read_members(alloc, reader)?;
    let initial = read_initial_member(alloc, reader, &names)?;
    Ok(TyExpr::Enum(Names::from_vec(names), initial))
}

/// A type that has this name, which is at this offset.
fn read_named_type(
    alloc: Global,
    reader: &mut Reader,
    name: Name,
    at: u64,
) -> Result<TyExpr, ReadFault>
    ensures { Gives type_tree result reader.new
        (Ok (named name, (reader.old.0 ++ mention Sort.Type name at ∷ [], reader.old.1))) }
{
    reader.mention(alloc, Sort::Type, &name, at)?;
    Ok(TyExpr::Named(name))
}

/// A type with at most `room` types nested, itself among them.
#[cycle(types)]
#[tactic(auto, unfolding(program_grammar::specs::Reading::type_at))]
pub(crate) fn read_type(alloc: Global, reader: &mut Reader, room: u32) -> Result<TyExpr, ReadFault>
    ensures { Gives type_tree result reader.new (type_at room reader.old) }
{
    if room == 0 {
        return Err(reader.next_fault());
    }
    read_begun_type(alloc, reader, room - 1)
}

/// A type whose parts have at most `room` types nested.
#[cycle(types)]
#[tactic(auto, unfolding(program_grammar::specs::Reading::type_step, program_grammar::specs::Reading::begun_type))]
fn read_begun_type(alloc: Global, reader: &mut Reader, room: u32) -> Result<TyExpr, ReadFault>
    ensures { Gives type_tree result reader.new (type_step (type_at room) reader.old) }
{
    let first = reader.take()?;
    let at = first.at;
    match first.token {
        Token::Keyword(word) => read_word_type(alloc, reader, room, word, at),
        Token::Name(name) => read_named_type(alloc, reader, name, at),
        Token::Mark(mark) => read_mark_type(alloc, reader, room, mark, at),
        _ => Err(ReadFault::At(at)),
    }
}

/// A type behind its first word, which is at this offset.
#[cycle(types)]
#[tactic(auto, unfolding(program_grammar::specs::Reading::word_type))]
fn read_word_type(
    alloc: Global,
    reader: &mut Reader,
    room: u32,
    word: Keyword,
    at: u64,
) -> Result<TyExpr, ReadFault>
    ensures { Gives type_tree result reader.new (word_type (type_at room) word at reader.old) }
{
    match word {
        Keyword::Unit => Ok(TyExpr::Unit),
        Keyword::Bool => Ok(TyExpr::Bool),
        Keyword::Int => Ok(TyExpr::Int(read_initial_number(reader)?)),
        Keyword::Text => Ok(TyExpr::Text(read_initial_text(alloc, reader)?)),
        Keyword::Enum => read_enum(alloc, reader),
        Keyword::List => Ok(TyExpr::List(read_inner_type(alloc, reader, room)?)),
        Keyword::Keyed => Ok(TyExpr::Keyed(read_inner_type(alloc, reader, room)?)),
        Keyword::Tree => Ok(TyExpr::Tree(read_inner_type(alloc, reader, room)?)),
        _ => Err(ReadFault::At(at)),
    }
}

/// A type that is inside another one.
#[cycle(types)]
fn read_inner_type(alloc: Global, reader: &mut Reader, room: u32) -> Result<Box<TyExpr>, ReadFault>
    ensures { Gives (λ inner. type_tree inner.value) result reader.new (type_at room reader.old) }
{
    let inner = read_type(alloc, reader, room)?;
    Ok(Box::new(alloc, inner)?)
}

/// A record or alternatives, behind the opening mark, which is at this offset.
#[cycle(types)]
#[tactic(auto, unfolding(program_grammar::specs::Reading::mark_type, program_grammar::specs::Reading::record_at, program_grammar::specs::Reading::one_of_at))]
fn read_mark_type(
    alloc: Global,
    reader: &mut Reader,
    room: u32,
    mark: Mark,
    at: u64,
) -> Result<TyExpr, ReadFault>
    ensures { Gives type_tree result reader.new (mark_type (type_at room) mark at reader.old) }
{
    match mark {
        Mark::OpenBrace => {
            let fields = read_perhaps_fields(alloc, reader, room)?;
            Ok(TyExpr::Rec(TyFields::from_vec(fields)))
        }
        Mark::Less => {
            let tags = read_closed_fields(alloc, reader, room, Mark::Greater)?;
            Ok(TyExpr::Alt(TyFields::from_vec(tags)))
        }
        _ => Err(ReadFault::At(at)),
    }
}

/// The fields of a record, which may have none, with the brace behind them.
#[cycle(types)]
#[tactic(auto, unfolding(program_grammar::specs::Reading::perhaps_at))]
fn read_perhaps_fields(
    alloc: Global,
    reader: &mut Reader,
    room: u32,
) -> Result<Vec<(Name, TyExpr)>, ReadFault>
    ensures { Gives (λ v. map field_tree v.items) result reader.new
        (perhaps_at (typed_at (type_at room)) CloseBrace reader.old) }
{
    if reader.next_is(Mark::CloseBrace) {
        reader.take_mark(Mark::CloseBrace)?;
        return Ok(Vec::new(alloc));
    }
    read_closed_fields(alloc, reader, room, Mark::CloseBrace)
}

/// Fields with their types, at least one, with the mark behind them.
#[cycle(types)]
#[tactic(auto, unfolding(program_grammar::specs::Reading::closed_at))]
pub(crate) fn read_closed_fields(
    alloc: Global,
    reader: &mut Reader,
    room: u32,
    close: Mark,
) -> Result<Vec<(Name, TyExpr)>, ReadFault>
    ensures { Gives (λ v. map field_tree v.items) result reader.new
        (closed_at (typed_at (type_at room)) close reader.old) }
{
    let fields = read_fields(alloc, reader, room)?;
    reader.take_mark(close)?;
    Ok(fields)
}

/// Fields with their types and commas between them, at least one.
#[cycle(types)]
fn read_fields(
    alloc: Global,
    reader: &mut Reader,
    room: u32,
) -> Result<Vec<(Name, TyExpr)>, ReadFault>
    ensures { Gives (λ v. map field_tree v.items) result reader.new
        (list_at (typed_at (type_at room)) reader.old) }
{
    let mut fields = Vec::new(alloc);
    let first = read_field(alloc, reader, room)?;
    fields.push(first)?;
    'fields: while reader.take_comma() {
        let next = read_field(alloc, reader, room)?;
        fields.push(next)?;
    }
    Ok(fields)
}

/// A field or a tag with its type.
#[cycle(types)]
#[tactic(auto, unfolding(program_grammar::specs::Reading::typed_at))]
pub(crate) fn read_field(
    alloc: Global,
    reader: &mut Reader,
    room: u32,
) -> Result<(Name, TyExpr), ReadFault>
    ensures { Gives field_tree result reader.new (typed_at (type_at room) reader.old) }
{
    let name = reader.take_field()?;
    reader.take_mark(Mark::Colon)?;
    let inner = read_type(alloc, reader, room)?;
    Ok((name, inner))
}
