//! The words of the command line.
ghost use Rattle.std.specs.Prelude.{◌≡◌, IfSome, map, string_bytes};
ghost use Rattle.std.specs.List.{list_all};
ghost use Rattle.std.specs.Char.{is_ascii_digit};
ghost use Rattle.command_words.specs.Orders.{number_of};
ghost use Rattle.editstore_main.specs.StoreOrders.{IsNumbered, back_number, back_upkeep, of_kind, plain_upkeep};
ghost use Rattle.editstore_main.specs.StoreOrders.{store_order_of, three_words, two_words};

/// The kind of a store.
#[derive(Clone, Copy, Debug, PartialEq, Eq)]
pub enum StoreKind {
    /// The store of a pair of documents, as `editlens` keeps it.
    Pair,
    /// The store of a hub, as `edithub` keeps it.
    Hub,
}

/// What is made of a store.
#[derive(Clone, Copy, Debug, PartialEq, Eq)]
pub enum Upkeep {
    /// A store of its state alone.
    Compact,
    /// A store of the same records.
    Copy,
    /// A store of the same records that goes back to the state after the one with this number, counted from 1.
    Back { number: u64 },
}

/// A command of the program.
#[derive(Clone, Copy, Debug, PartialEq, Eq)]
pub struct StoreOrder {
    /// The kind of the store.
    pub kind: StoreKind,
    /// What is made of it.
    pub upkeep: Upkeep,
}

/// The command that the words name, the program's own name first. Does not allocate.
///
/// The words of a command are any name, then `hub` if the store is one of a hub, and then `compact`, `copy`, or `back`
/// and N. N is a number of one to twenty ASCII digits from 1 to 2^64 - 1.
pub fn read_order(words: &[String]) -> Option<StoreOrder>
    ensures order { result ≡ store_order_of (map string_bytes words.now) }
    ensures numbered { IfSome result (λ order. IsNumbered order.upkeep) }
{
    match words.len() {
        2 => of_kind(StoreKind::Pair, plain_upkeep(words[1].as_str())),
        3 => two_words(words[1].as_str(), words[2].as_str()),
        4 => three_words(words[1].as_str(), words[2].as_str(), words[3].as_str()),
        _ => None,
    }
}

// The command of two words behind the program's name.
fn two_words(first: &str, second: &str) -> Option<StoreOrder>
    ensures order { result ≡ two_words first.now second.now }
    ensures numbered { IfSome result (λ order. IsNumbered order.upkeep) }
{
    if first == "hub" {
        of_kind(StoreKind::Hub, plain_upkeep(second))
    } else {
        of_kind(StoreKind::Pair, back_upkeep(first, second))
    }
}

// The command of three words behind the program's name.
fn three_words(first: &str, second: &str, third: &str) -> Option<StoreOrder>
    ensures order { result ≡ three_words first.now second.now third.now }
    ensures numbered { IfSome result (λ order. IsNumbered order.upkeep) }
{
    if first != "hub" {
        return None;
    }
    of_kind(StoreKind::Hub, back_upkeep(second, third))
}

// The command for a store of this kind, if there is one.
fn of_kind(kind: StoreKind, upkeep: Option<Upkeep>) -> Option<StoreOrder>
    requires numbered { IfSome upkeep IsNumbered }
    ensures order { result ≡ of_kind kind upkeep }
    ensures numbered { IfSome result (λ order. IsNumbered order.upkeep) }
{
    match upkeep {
        Some(upkeep) => Some(StoreOrder { kind, upkeep }),
        None => None,
    }
}

// What is written as this one word.
fn plain_upkeep(word: &str) -> Option<Upkeep>
    ensures upkeep { result ≡ plain_upkeep word.now }
    ensures numbered { IfSome result IsNumbered }
{
    match word {
        "compact" => Some(Upkeep::Compact),
        "copy" => Some(Upkeep::Copy),
        _ => None,
    }
}

// `back` with this number.
fn back_upkeep(word: &str, number: &str) -> Option<Upkeep>
    ensures upkeep { result ≡ back_upkeep word.now number.now }
    ensures numbered { IfSome result IsNumbered }
{
    if word != "back" {
        return None;
    }
    match back_number(number) {
        Some(number) => Some(Upkeep::Back { number }),
        None => None,
    }
}

// The number of a record: one to twenty ASCII digits, and not 0.
fn back_number(text: &str) -> Option<u64>
    ensures number { result ≡ back_number text.now }
    ensures some { IfSome result (λ number. IsNumbered (Upkeep.Back number)) }
{
    match read_number(text) {
        Some(number) => { if number == 0 { None } else { Some(number) } }
        None => None,
    }
}

// The number that is written as one to twenty ASCII digits. None if it is past 2^64 - 1, or the text is anything else.
fn read_number(text: &str) -> Option<u64>
    ensures { result ≡ number_of text.now }
{
    if text.is_empty() || 20 < text.len() || !all_digits(text) {
        return None;
    }
    text.parse::<u64>().ok()
}

fn all_digits(text: &str) -> bool
    ensures { result ≡ list_all is_ascii_digit text.now }
{
    text.as_bytes().iter().all(|byte| byte.is_ascii_digit())
}
