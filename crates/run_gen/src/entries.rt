//! The entries of a generated journal.

ghost use Rattle.std.specs.Prelude.{◌≡◌, ◌≤◌, ◌<◌, ◌^◌, ◌+◌, IfOk};
ghost use Rattle.edit_module.specs.Views.{primitive_tree, word_tree, entry_tree};
ghost use Rattle.edit_module.specs.Words.{no_primitives, more_primitives, shape};
ghost use Rattle.run_gen.specs.Journal.{choice, entry_of, in_numbers, next_seed, drawn_from};
ghost use Rattle.run_gen.specs.Invariant.{AddsAtMost};
ghost use Rattle.texts.specs.declared.side.Side.TheVariants.{Left};

use crate::choice::Choice;
use edit_module::word::Primitive;
use edit_module::{Entry, Side, Word};
use hold_shapes::{Name, Place, ShapeEdit};
use std::alloc::{AllocError, Global};

const FACTOR: u64 = 6_364_136_223_846_793_005;

const SUMMAND: u64 = 1_442_695_040_888_963_407;

// 2 to the power of 33.
const DIVISOR: u64 = 8_589_934_592;

/// The seed of the next entry.
pub(crate) fn next_seed(seed: u64) -> u64
    ensures { result ≡ next_seed seed }
{
    FACTOR.wrapping_mul(seed).wrapping_add(SUMMAND)
}

/// The choice of an entry by its number and its seed, where there are `names` texts and `nums` numbers.
pub(crate) fn choose(number: u64, names: u64, nums: u64, seed: u64) -> Choice
    requires few { names + nums < 2 ^ 64 }
    ensures { result ≡ choice number names nums (drawn_from seed) }
{
    let items = names + nums;
    let drawn = seed / DIVISOR;
    let rest = drawn % 4;
    let quotient = drawn / 4;
    if items == 0 {
        Choice::InsertItem
    } else if rest == 0 {
        Choice::InsertNumber
    } else if rest == 1 {
        Choice::InsertItem
    } else if rest == 2 {
        Choice::MoveItem(quotient % items, number % items)
    } else if nums > 0 {
        Choice::AddToNumber(quotient % nums, number)
    } else {
        Choice::InsertItem
    }
}

/// The entry of a choice. Fails only if memory runs out. A number that is added must fit in an i64.
pub(crate) fn entry_of(alloc: Global, choice: Choice) -> Result<Entry, AllocError>
    requires added { AddsAtMost choice }
    ensures { IfOk result (λ entry. entry_tree entry ≡ entry_of choice) }
{
    match choice {
        Choice::InsertItem => on_items(alloc, ShapeEdit::Ins(1)),
        Choice::InsertNumber => on_numbers(alloc, Primitive::Shape(ShapeEdit::Ins(1))),
        Choice::MoveItem(from, to) => on_items(alloc, ShapeEdit::MoveItem(from, to)),
        Choice::AddToNumber(place, number) => {
            let word = word_of(alloc, Primitive::Add(number as i64))?;
            on_numbers(alloc, Primitive::Mod(Place::Index(place), word))
        }
    }
}

// An edit of the left list.
fn on_items(alloc: Global, edit: ShapeEdit) -> Result<Entry, AllocError>
    ensures { IfOk result (λ entry. entry_tree entry ≡ (Left, more_primitives (shape edit) no_primitives)) }
{
    let word = word_of(alloc, Primitive::Shape(edit))?;
    Ok(Entry {
        side: Side::Left,
        word,
    })
}

// An edit of the right list of numbers.
fn on_numbers(alloc: Global, primitive: Primitive) -> Result<Entry, AllocError>
    ensures { IfOk result (λ entry. entry_tree entry
        ≡ in_numbers (more_primitives (primitive_tree primitive) no_primitives)) }
{
    let inner = word_of(alloc, primitive)?;
    let nums = Name::from_string(String::from_str(alloc, "nums")?);
    let word = word_of(alloc, Primitive::At(nums, inner))?;
    Ok(Entry {
        side: Side::Right,
        word,
    })
}

// The word of one primitive.
fn word_of(alloc: Global, primitive: Primitive) -> Result<Word, AllocError>
    ensures { IfOk result (λ word. word_tree word ≡ more_primitives (primitive_tree primitive) no_primitives) }
{
    Ok(Word::from_vec(vec![in alloc; primitive]?))
}
