//! Reading initial values. One that is not there is the one that is meant when it is left out.
ghost use Rattle.std.specs.Prelude.{◌≡◌, IfOk};
ghost use Rattle.program_grammar.specs.Reading.{string_at, number_at, initial_at};
ghost use Rattle.program_reader.specs.Gives.{Gives};
ghost use Rattle.program_terms.specs.Terms.{initial_number, initial_text, initial_member, initial_left};

use crate::fault::ReadFault;
use crate::reader::Reader;
use program_tokens::Mark;
use std::alloc::{AllocError, Global};
use texts::{Name, Str, Twin};

/// The initial value of an int: the number behind `=`, or 0.
#[tactic(auto, unfolding(program_grammar::specs::Reading::initial_at))]
pub(crate) fn read_initial_number(reader: &mut Reader) -> Result<i64, ReadFault>
    ensures { Gives (λ number. number) result reader.new (initial_at number_at initial_number reader.old) }
{
    if reader.next_is(Mark::Equals) {
        reader.take_mark(Mark::Equals)?;
        return reader.take_number();
    }
    Ok(0)
}

/// The initial value of a text: the string behind `=`, or the empty text.
#[tactic(auto, unfolding(program_grammar::specs::Reading::initial_at))]
pub(crate) fn read_initial_text(alloc: Global, reader: &mut Reader) -> Result<Str, ReadFault>
    ensures { Gives (λ text. text) result reader.new (initial_at string_at initial_text reader.old) }
{
    if reader.next_is(Mark::Equals) {
        reader.take_mark(Mark::Equals)?;
        let text = reader.take_string()?;
        return Ok(Str::from_string(text.into_string()));
    }
    Ok(Str::empty(alloc))
}

/// The initial value of an enum of these members: the string behind `=`, or the first member.
#[tactic(auto, unfolding(program_grammar::specs::Reading::initial_at))]
pub(crate) fn read_initial_member(
    alloc: Global,
    reader: &mut Reader,
    members: &[Name],
) -> Result<Name, ReadFault>
    ensures { Gives (λ name. name) result reader.new
        (initial_at string_at (initial_member members.now) reader.old) }
{
    if reader.next_is(Mark::Equals) {
        reader.take_mark(Mark::Equals)?;
        return reader.take_string();
    }
    Ok(first_member(alloc, members)?)
}

/// The initial value of a bijection of these pairs on the left: the string behind `=`, or the first left string.
#[tactic(auto, unfolding(program_grammar::specs::Reading::initial_at))]
pub(crate) fn read_initial_left(
    alloc: Global,
    reader: &mut Reader,
    pairs: &[(Name, Name)],
) -> Result<Name, ReadFault>
    ensures { Gives (λ name. name) result reader.new
        (initial_at string_at (initial_left pairs.now) reader.old) }
{
    if reader.next_is(Mark::Equals) {
        reader.take_mark(Mark::Equals)?;
        return reader.take_string();
    }
    Ok(first_left(alloc, pairs)?)
}

/// The first of some names, or the empty one where there are none.
fn first_member(alloc: Global, members: &[Name]) -> Result<Name, AllocError>
    ensures { IfOk result (λ name. name ≡ initial_member members.now) }
{
    match members {
        [first, ..] => first.twin(alloc),
        [] => Ok(Name::from_string(String::new(alloc))),
    }
}

/// The left name of the first of some pairs, or the empty one where there are none.
fn first_left(alloc: Global, pairs: &[(Name, Name)]) -> Result<Name, AllocError>
    ensures { IfOk result (λ name. name ≡ initial_left pairs.now) }
{
    match pairs {
        [first, ..] => first.0.twin(alloc),
        [] => Ok(Name::from_string(String::new(alloc))),
    }
}
