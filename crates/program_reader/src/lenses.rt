//! Reading lenses.
ghost use Rattle.std.specs.Prelude.{◌≡◌, ◌∷◌, ◌++◌, [], Ok, map};
ghost use Rattle.program_grammar.specs.Mentions.{mention};
ghost use Rattle.program_grammar.specs.declared.mention.Sort;
ghost use Rattle.program_grammar.specs.Reading.{list_at, closed_at, perhaps_at, type_at, pair_at, bij_at, arm_at};
ghost use Rattle.program_grammar.specs.Reading.{row_at, left_row_at, right_row_at, both_row_at, then_at, disc_at};
ghost use Rattle.program_grammar.specs.Reading.{part_at, word_lens, mark_lens, lens_step, lens_at};
ghost use Rattle.program_reader.specs.Gives.{Gives};
ghost use Rattle.program_terms.specs.Terms.{named_lens};
ghost use Rattle.program_terms.specs.Views.{lens_tree, row_tree, arm_tree};
ghost use Rattle.program_tokens.specs.declared.mark.Mark.TheVariants.{CloseBracket, CloseBrace, Greater};

use crate::fault::ReadFault;
use crate::initial::read_initial_left;
use crate::reader::Reader;
use crate::types::{read_closed_fields, read_field, read_type};
use program_grammar::Sort;
use program_terms::{Arms, Lens, Pairs, Row, Rows, TyFields};
use program_tokens::{Keyword, Mark, Token};
use std::alloc::Global;
use texts::Name;

// ---- lenses with no lens inside

/// Two types of which no edit is translated, behind their word.
#[tactic(auto, unfolding(program_grammar::specs::Reading::disc_at))]
fn read_disc(alloc: Global, reader: &mut Reader, room: u32) -> Result<Lens, ReadFault>
    ensures { Gives lens_tree result reader.new (disc_at (type_at room) reader.old) }
{
    let left = read_type(alloc, reader, room)?;
    let right = read_type(alloc, reader, room)?;
    Ok(Lens::Disc(left, right))
}

/// The tags of a partition with their types, behind its word.
#[tactic(auto, unfolding(program_grammar::specs::Reading::part_at))]
fn read_part(alloc: Global, reader: &mut Reader, room: u32) -> Result<Lens, ReadFault>
    ensures { Gives lens_tree result reader.new (part_at (type_at room) reader.old) }
{
    reader.take_mark(Mark::Less)?;
    let tags = read_closed_fields(alloc, reader, room, Mark::Greater)?;
    Ok(Lens::Part(TyFields::from_vec(tags)))
}

/// The pairs of a bijection and its initial value, behind its word.
#[tactic(auto, unfolding(program_grammar::specs::Reading::bij_at))]
fn read_bij(alloc: Global, reader: &mut Reader) -> Result<Lens, ReadFault>
    ensures { Gives lens_tree result reader.new (bij_at reader.old) }
{
    reader.take_mark(Mark::OpenBracket)?;
    let pairs = read_closed_pairs(alloc, reader)?;
    let initial = read_initial_left(alloc, reader, &pairs)?;
    Ok(Lens::Bij(Pairs::from_vec(pairs), initial))
}

/// Pairs of strings, at least one, with the bracket behind them.
#[tactic(auto, unfolding(program_grammar::specs::Reading::closed_at))]
fn read_closed_pairs(alloc: Global, reader: &mut Reader) -> Result<Vec<(Name, Name)>, ReadFault>
    ensures { Gives (λ v. v.items) result reader.new (closed_at pair_at CloseBracket reader.old) }
{
    let pairs = read_pairs(alloc, reader)?;
    reader.take_mark(Mark::CloseBracket)?;
    Ok(pairs)
}

/// Pairs of strings with commas between them, at least one.
fn read_pairs(alloc: Global, reader: &mut Reader) -> Result<Vec<(Name, Name)>, ReadFault>
    ensures { Gives (λ v. v.items) result reader.new (list_at pair_at reader.old) }
{
    let mut pairs = Vec::new(alloc);
    let first = read_pair(reader)?;
    pairs.push(first)?;
    'pairs: while reader.take_comma() {
        let next = read_pair(reader)?;
        pairs.push(next)?;
    }
    Ok(pairs)
}

/// A pair of strings.
#[tactic(auto, unfolding(program_grammar::specs::Reading::pair_at))]
fn read_pair(reader: &mut Reader) -> Result<(Name, Name), ReadFault>
    ensures { Gives (λ pair. pair) result reader.new (pair_at reader.old) }
{
    let left = reader.take_string()?;
    reader.take_mark(Mark::Equals)?;
    let right = reader.take_string()?;
    Ok((left, right))
}

/// A lens that has this name, which is at this offset.
fn read_named_lens(
    alloc: Global,
    reader: &mut Reader,
    name: Name,
    at: u64,
) -> Result<Lens, ReadFault>
    ensures { Gives lens_tree result reader.new
        (Ok (named_lens name, (reader.old.0 ++ mention Sort.Lens name at ∷ [], reader.old.1))) }
{
    reader.mention(alloc, Sort::Lens, &name, at)?;
    Ok(Lens::Named(name))
}

// ---- lenses

/// A lens with at most `room` types and lenses nested, itself among them.
#[cycle(lenses)]
#[tactic(auto, unfolding(program_grammar::specs::Reading::lens_at))]
pub(crate) fn read_lens(alloc: Global, reader: &mut Reader, room: u32) -> Result<Lens, ReadFault>
    ensures { Gives lens_tree result reader.new (lens_at room reader.old) }
{
    if room == 0 {
        return Err(reader.next_fault());
    }
    read_begun_lens(alloc, reader, room - 1)
}

/// A lens whose parts have at most `room` types and lenses nested.
#[cycle(lenses)]
#[tactic(auto, unfolding(program_grammar::specs::Reading::lens_step, program_grammar::specs::Reading::begun_lens))]
fn read_begun_lens(alloc: Global, reader: &mut Reader, room: u32) -> Result<Lens, ReadFault>
    ensures { Gives lens_tree result reader.new (lens_step (type_at room) (lens_at room) reader.old) }
{
    let first = reader.take()?;
    let at = first.at;
    match first.token {
        Token::Keyword(word) => read_word_lens(alloc, reader, room, word, at),
        Token::Name(name) => read_named_lens(alloc, reader, name, at),
        Token::Mark(mark) => read_mark_lens(alloc, reader, room, mark, at),
        _ => Err(ReadFault::At(at)),
    }
}

/// A lens behind its first word, which is at this offset.
#[cycle(lenses)]
#[tactic(auto, unfolding(program_grammar::specs::Reading::word_lens))]
fn read_word_lens(
    alloc: Global,
    reader: &mut Reader,
    room: u32,
    word: Keyword,
    at: u64,
) -> Result<Lens, ReadFault>
    ensures { Gives lens_tree result reader.new
        (word_lens (type_at room) (lens_at room) word at reader.old) }
{
    match word {
        Keyword::Id => {
            let inner = read_type(alloc, reader, room)?;
            Ok(Lens::Id(inner))
        }
        Keyword::Bij => read_bij(alloc, reader),
        Keyword::Disc => read_disc(alloc, reader, room),
        Keyword::Then => read_then(alloc, reader, room),
        Keyword::Each => Ok(Lens::Each(read_inner_lens(alloc, reader, room)?)),
        Keyword::Keyed => Ok(Lens::Keyed(read_inner_lens(alloc, reader, room)?)),
        Keyword::Tree => Ok(Lens::Tree(read_inner_lens(alloc, reader, room)?)),
        Keyword::Part => read_part(alloc, reader, room),
        Keyword::Inv => Ok(Lens::Inv(read_inner_lens(alloc, reader, room)?)),
        _ => Err(ReadFault::At(at)),
    }
}

/// A lens that is inside another one.
#[cycle(lenses)]
fn read_inner_lens(alloc: Global, reader: &mut Reader, room: u32) -> Result<Box<Lens>, ReadFault>
    ensures { Gives (λ inner. lens_tree inner.value) result reader.new (lens_at room reader.old) }
{
    let inner = read_lens(alloc, reader, room)?;
    Ok(Box::new(alloc, inner)?)
}

/// A record or alternatives, behind the opening mark, which is at this offset.
#[cycle(lenses)]
#[tactic(auto, unfolding(program_grammar::specs::Reading::mark_lens, program_grammar::specs::Reading::rec_at, program_grammar::specs::Reading::alt_at))]
fn read_mark_lens(
    alloc: Global,
    reader: &mut Reader,
    room: u32,
    mark: Mark,
    at: u64,
) -> Result<Lens, ReadFault>
    ensures { Gives lens_tree result reader.new
        (mark_lens (type_at room) (lens_at room) mark at reader.old) }
{
    match mark {
        Mark::OpenBrace => {
            let rows = read_perhaps_rows(alloc, reader, room)?;
            Ok(Lens::Rec(Rows::from_vec(rows)))
        }
        Mark::Less => {
            let arms = read_closed_arms(alloc, reader, room)?;
            Ok(Lens::Alt(Arms::from_vec(arms)))
        }
        _ => Err(ReadFault::At(at)),
    }
}

/// The two lenses of a composition, behind its word.
#[cycle(lenses)]
#[tactic(auto, unfolding(program_grammar::specs::Reading::then_at))]
fn read_then(alloc: Global, reader: &mut Reader, room: u32) -> Result<Lens, ReadFault>
    ensures { Gives lens_tree result reader.new (then_at (lens_at room) reader.old) }
{
    reader.take_mark(Mark::OpenParen)?;
    let first = read_inner_lens(alloc, reader, room)?;
    reader.take_mark(Mark::Comma)?;
    let second = read_inner_lens(alloc, reader, room)?;
    reader.take_mark(Mark::CloseParen)?;
    Ok(Lens::Then(first, second))
}

// ---- rows and arms

/// The rows of a record, which may have none, with the brace behind them.
#[cycle(lenses)]
#[tactic(auto, unfolding(program_grammar::specs::Reading::perhaps_at, program_grammar::specs::Reading::closed_at))]
fn read_perhaps_rows(alloc: Global, reader: &mut Reader, room: u32) -> Result<Vec<Row>, ReadFault>
    ensures { Gives (λ v. map row_tree v.items) result reader.new
        (perhaps_at (row_at (type_at room) (lens_at room)) CloseBrace reader.old) }
{
    if reader.next_is(Mark::CloseBrace) {
        reader.take_mark(Mark::CloseBrace)?;
        return Ok(Vec::new(alloc));
    }
    let rows = read_rows(alloc, reader, room)?;
    reader.take_mark(Mark::CloseBrace)?;
    Ok(rows)
}

/// Rows with commas between them, at least one.
#[cycle(lenses)]
fn read_rows(alloc: Global, reader: &mut Reader, room: u32) -> Result<Vec<Row>, ReadFault>
    ensures { Gives (λ v. map row_tree v.items) result reader.new
        (list_at (row_at (type_at room) (lens_at room)) reader.old) }
{
    let mut rows = Vec::new(alloc);
    let first = read_row(alloc, reader, room)?;
    rows.push(first)?;
    'rows: while reader.take_comma() {
        let next = read_row(alloc, reader, room)?;
        rows.push(next)?;
    }
    Ok(rows)
}

/// A row: a field on one side alone, behind the word for its side, or a pair of fields.
#[cycle(lenses)]
#[tactic(auto, unfolding(program_grammar::specs::Reading::row_at))]
fn read_row(alloc: Global, reader: &mut Reader, room: u32) -> Result<Row, ReadFault>
    ensures { Gives row_tree result reader.new (row_at (type_at room) (lens_at room) reader.old) }
{
    match reader.next_word() {
        Some(Keyword::Left) => {
            reader.skip();
            read_left_row(alloc, reader, room)
        }
        Some(Keyword::Right) => {
            reader.skip();
            read_right_row(alloc, reader, room)
        }
        _ => read_both_row(alloc, reader, room),
    }
}

/// A field on the left side alone, behind the word for its side.
#[tactic(auto, unfolding(program_grammar::specs::Reading::left_row_at))]
fn read_left_row(alloc: Global, reader: &mut Reader, room: u32) -> Result<Row, ReadFault>
    ensures { Gives row_tree result reader.new (left_row_at (type_at room) reader.old) }
{
    let (field, ty) = read_field(alloc, reader, room)?;
    Ok(Row::OnlyLeft(field, ty))
}

/// A field on the right side alone, behind the word for its side.
#[tactic(auto, unfolding(program_grammar::specs::Reading::right_row_at))]
fn read_right_row(alloc: Global, reader: &mut Reader, room: u32) -> Result<Row, ReadFault>
    ensures { Gives row_tree result reader.new (right_row_at (type_at room) reader.old) }
{
    let (field, ty) = read_field(alloc, reader, room)?;
    Ok(Row::OnlyRight(field, ty))
}

/// A pair of fields, and the lens between them.
#[cycle(lenses)]
#[tactic(auto, unfolding(program_grammar::specs::Reading::both_row_at))]
fn read_both_row(alloc: Global, reader: &mut Reader, room: u32) -> Result<Row, ReadFault>
    ensures { Gives row_tree result reader.new (both_row_at (lens_at room) reader.old) }
{
    let (left, right, lens) = read_arm(alloc, reader, room)?;
    Ok(Row::Both(left, right, lens))
}

/// Arms of alternatives, at least one, with the mark behind them.
#[cycle(lenses)]
#[tactic(auto, unfolding(program_grammar::specs::Reading::closed_at))]
fn read_closed_arms(
    alloc: Global,
    reader: &mut Reader,
    room: u32,
) -> Result<Vec<(Name, Name, Lens)>, ReadFault>
    ensures { Gives (λ v. map arm_tree v.items) result reader.new
        (closed_at (arm_at (lens_at room)) Greater reader.old) }
{
    let arms = read_arms(alloc, reader, room)?;
    reader.take_mark(Mark::Greater)?;
    Ok(arms)
}

/// Arms of alternatives with commas between them, at least one.
#[cycle(lenses)]
fn read_arms(
    alloc: Global,
    reader: &mut Reader,
    room: u32,
) -> Result<Vec<(Name, Name, Lens)>, ReadFault>
    ensures { Gives (λ v. map arm_tree v.items) result reader.new
        (list_at (arm_at (lens_at room)) reader.old) }
{
    let mut arms = Vec::new(alloc);
    let first = read_arm(alloc, reader, room)?;
    arms.push(first)?;
    'arms: while reader.take_comma() {
        let next = read_arm(alloc, reader, room)?;
        arms.push(next)?;
    }
    Ok(arms)
}

/// A left and a right field or tag, and the lens between their contents.
#[cycle(lenses)]
#[tactic(auto, unfolding(program_grammar::specs::Reading::arm_at))]
fn read_arm(alloc: Global, reader: &mut Reader, room: u32) -> Result<(Name, Name, Lens), ReadFault>
    ensures { Gives arm_tree result reader.new (arm_at (lens_at room) reader.old) }
{
    let left = reader.take_field()?;
    reader.take_mark(Mark::Tilde)?;
    let right = reader.take_field()?;
    reader.take_mark(Mark::Colon)?;
    let lens = read_lens(alloc, reader, room)?;
    Ok((left, right, lens))
}
