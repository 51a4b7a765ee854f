// The commands, and what refuses the words.
ghost use Rattle.std.specs.Prelude.{◌≡◌};
ghost use Rattle.command_words.specs.Orders.{count_of_word, plain_order, store_order, undo_order, gen_order};
ghost use Rattle.command_words.specs.declared.orders.WordsFault.TheVariants.{NoMemory};

use crate::numbers::read_number;
use std::alloc::AllocError;

/// A command of the program.
#[derive(Clone, Copy, Debug, PartialEq, Eq)]
pub enum Order {
    /// Translate the entries of a journal.
    Run,
    /// Show the two types of a lens.
    Check,
    /// Make a store of a program.
    Init,
    /// Translate the entries of a journal, and keep them in the store.
    Apply,
    /// Show the state of the store.
    Show,
    /// Count the changes of the store.
    Verify,
    /// Add a snapshot to the store.
    Pack,
    /// Run a generated journal: its number of entries, and the seed that it is made from.
    Gen { count: u64, seed: u64 },
    /// Translate the entries of a journal over one document and many views of it.
    Hub,
    /// Run the events of a link between two sites.
    Link,
    /// Take back this many of the last changes of the store.
    Undo { count: u64 },
    /// Make a store of a program and a left document.
    Import,
}

/// Why words were refused.
#[derive(Clone, Copy, Debug, PartialEq, Eq)]
pub enum WordsFault {
    /// The words name no command.
    Usage,
    /// Out of memory.
    NoMemory,
}

impl From<AllocError> for WordsFault {
    ghost from_gives = { λ _ fault. fault ≡ NoMemory };

    fn from(_: AllocError) -> WordsFault {
        WordsFault::NoMemory
    }
}

/// The command that is written as this one word. None if no command is.
pub fn plain_order(word: &str) -> Option<Order>
    ensures { result ≡ plain_order word.now }
{
    match word {
        "run" => Some(Order::Run),
        "check" => Some(Order::Check),
        "hub" => Some(Order::Hub),
        "link" => Some(Order::Link),
        _ => store_order(word),
    }
}

// The command over a store that is written as this one word.
fn store_order(word: &str) -> Option<Order>
    ensures { result ≡ store_order word.now }
{
    match word {
        "init" => Some(Order::Init),
        "apply" => Some(Order::Apply),
        "show" => Some(Order::Show),
        "verify" => Some(Order::Verify),
        "pack" => Some(Order::Pack),
        "import" => Some(Order::Import),
        _ => None,
    }
}

/// The command `gen` with these two numbers. None unless both are numbers, the first one from 1 to
/// 10,000.
pub fn gen_order(count: &str, seed: &str) -> Option<Order>
    ensures { result ≡ gen_order count.now seed.now }
{
    let count = read_count(count)?;
    let seed = read_number(seed)?;
    Some(Order::Gen { count, seed })
}

/// The command `undo` with this number. None unless it is a number from 1 to 10,000.
pub fn undo_order(count: &str) -> Option<Order>
    ensures { result ≡ undo_order count.now }
{
    let count = read_count(count)?;
    Some(Order::Undo { count })
}

/// A number from 1 to 10,000, as `gen` and `undo` have it. None if the text is anything else.
pub fn read_count(text: &str) -> Option<u64>
    ensures { result ≡ count_of_word text.now }
{
    let count = read_number(text)?;
    if count == 0 || 10000 < count {
        return None;
    }
    Some(count)
}
