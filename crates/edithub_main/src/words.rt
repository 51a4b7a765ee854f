//! The words of the command line.
ghost use Rattle.std.specs.Prelude.{◌≡◌, map, string_bytes};
ghost use Rattle.edithub_main.specs.HubOrders.{hub_only_reads, hub_order_of, plain_hub_order, undo_hub_order};

use command_words::read_count;

/// A command of the program.
#[derive(Clone, Copy, Debug, PartialEq, Eq)]
pub enum HubOrder {
    /// Make the store of a hub, with the programs of its views.
    Init,
    /// Translate the edits of a journal, and keep them in the store.
    Apply,
    /// Show the hub and its views.
    Show,
    /// Count the changes of the store.
    Verify,
    /// Add a snapshot to the store.
    Pack,
    /// Take back this many of the last changes of the store.
    Undo { count: u64 },
    /// Add a view.
    Add,
}

/// The command that the words name, the program's own name first. Does not allocate.
///
/// The words of a command are any name and one of `init`, `apply`, `show`, `verify`, `pack` and `add`, or any name,
/// `undo` and K, a number of one to twenty ASCII digits from 1 to 10,000.
pub fn read_order(words: &[String]) -> Option<HubOrder>
    ensures { result ≡ hub_order_of (map string_bytes words.now) }
{
    match words.len() {
        2 => plain_order(words[1].as_str()),
        3 => undo_order(words[1].as_str(), words[2].as_str()),
        _ => None,
    }
}

/// Whether the words name a command that only reads the store: `show` or `verify`.
pub fn only_reads(words: &[String]) -> bool
    ensures { result ≡ hub_only_reads (hub_order_of (map string_bytes words.now)) }
{
    matches!(read_order(words), Some(HubOrder::Show | HubOrder::Verify))
}

// The command that is written as this one word.
fn plain_order(word: &str) -> Option<HubOrder>
    ensures { result ≡ plain_hub_order word.now }
{
    match word {
        "init" => Some(HubOrder::Init),
        "apply" => Some(HubOrder::Apply),
        "show" => Some(HubOrder::Show),
        "verify" => Some(HubOrder::Verify),
        "pack" => Some(HubOrder::Pack),
        "add" => Some(HubOrder::Add),
        _ => None,
    }
}

// The command `undo` with this number.
fn undo_order(word: &str, count: &str) -> Option<HubOrder>
    ensures { result ≡ undo_hub_order word.now count.now }
{
    if word != "undo" {
        return None;
    }
    let count = read_count(count)?;
    Some(HubOrder::Undo { count })
}
