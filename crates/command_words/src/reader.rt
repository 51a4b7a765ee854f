// Reads the words.
ghost use Rattle.std.specs.Prelude.{◌≡◌, Some, None, IfOk, IsErrOf, map, string_bytes, bytes_eq, codes, length, true};
ghost use Rattle.std.specs.Prelude.{if◌then◌else◌};
ghost use Rattle.clap.specs.Matches.{found_of, first_value};
ghost use Rattle.clap.specs.Simple.{subcommand_of, subcommand_rows_of};
ghost use Rattle.clap.specs.Takes.{takes};
ghost use Rattle.command_words.specs.CommandLine.{editlens_app};
ghost use Rattle.command_words.specs.Matches.{gen_of_values, undo_of_value, order_of_match, begins_with_hyphen};
ghost use Rattle.command_words.specs.Orders.{HasFewEntries, only_reads, order_of};

use crate::command_line::command_line;
use crate::orders::{Order, WordsFault, gen_order, plain_order, undo_order};
use clap::ArgMatches;
use clap::error::ErrorKind;
use std::alloc::Global;

/// The command that the words name, the program's own name first.
///
/// The words of a command are any name and one of `run`, `check`, `init`, `apply`, `show`, `verify`,
/// `pack`, `hub`, `link` and `import`, or any name, `undo` and K, or any name, `gen`, N and SEED.
/// K, N and SEED are one to twenty ASCII digits, K and N from 1 to 10,000 and SEED at most 2^64 - 1.
///
/// - `order`: what is returned is the command that the words name.
/// - `few`: the numbers K and N are from 1 to 10,000.
/// - `usage`: `Usage` is returned only if the words name no command.
///
/// So words that name no command are `Usage`, unless memory runs out. `NoMemory` is returned only
/// then.
pub fn read_words(alloc: Global, words: &[String]) -> Result<Order, WordsFault>
    ensures order { IfOk result (λ order. order_of (map string_bytes words.now) ≡ Some order) }
    ensures few { IfOk result HasFewEntries }
    ensures usage { IsErrOf result WordsFault.Usage → order_of (map string_bytes words.now) ≡ None }
{
    match words.len() {
        2 => read_two(alloc, words),
        3 => read_three(alloc, words),
        4 => read_four(alloc, words),
        _ => Err(WordsFault::Usage),
    }
}

/// Whether the words name a command that only reads the store: `show` or `verify`.
pub fn only_reads(words: &[String]) -> bool
    ensures { result ≡ only_reads (order_of (map string_bytes words.now)) }
{
    if words.len() != 2 {
        return false;
    }
    matches!(
        plain_order(words[1].as_str()),
        Some(Order::Show | Order::Verify)
    )
}

// Two words name a command of one word, or nothing.
fn read_two(alloc: Global, words: &[String]) -> Result<Order, WordsFault>
    requires { length words.now ≡ 2 }
    ensures order { IfOk result (λ order. order_of (map string_bytes words.now) ≡ Some order) }
    ensures usage { IsErrOf result WordsFault.Usage → order_of (map string_bytes words.now) ≡ None }
{
    match read_by_clap(alloc, words, words[1].as_str()) {
        Ok(Some(order)) => Ok(order),
        Ok(None) => Err(WordsFault::Usage),
        Err(fault) => Err(fault),
    }
}

// Three words name `undo` with its number, or nothing. clap would read a word with a hyphen as a flag.
fn read_three(alloc: Global, words: &[String]) -> Result<Order, WordsFault>
    requires { length words.now ≡ 3 }
    ensures order { IfOk result (λ order. order_of (map string_bytes words.now) ≡ Some order) }
    ensures usage { IsErrOf result WordsFault.Usage → order_of (map string_bytes words.now) ≡ None }
{
    if begins_with_hyphen(&words[2]) {
        return Err(WordsFault::Usage);
    }
    match read_by_clap(alloc, words, words[1].as_str()) {
        Ok(Some(order)) => Ok(order),
        Ok(None) => Err(WordsFault::Usage),
        Err(fault) => Err(fault),
    }
}

// Four words name `gen` with its numbers, or nothing. clap would read a word with a hyphen as a flag.
fn read_four(alloc: Global, words: &[String]) -> Result<Order, WordsFault>
    requires { length words.now ≡ 4 }
    ensures order { IfOk result (λ order. order_of (map string_bytes words.now) ≡ Some order) }
    ensures usage { IsErrOf result WordsFault.Usage → order_of (map string_bytes words.now) ≡ None }
{
    if begins_with_hyphen(&words[2]) {
        return Err(WordsFault::Usage);
    }
    if begins_with_hyphen(&words[3]) {
        return Err(WordsFault::Usage);
    }
    match read_by_clap(alloc, words, words[1].as_str()) {
        Ok(Some(order)) => Ok(order),
        Ok(None) => Err(WordsFault::Usage),
        Err(fault) => Err(fault),
    }
}

fn begins_with_hyphen(word: &String) -> bool
    ensures { result ≡ begins_with_hyphen (string_bytes word.now) }
{
    match word.as_str().as_bytes() {
        [first, ..] => *first == b'-',
        [] => false,
    }
}

// What clap makes of the words, of which `word` is the second.
fn read_by_clap(alloc: Global, words: &[String], word: &str) -> Result<Option<Order>, WordsFault>
    ensures order { IfOk result (λ order. order
        ≡ order_of_match (length words.now) word.now (subcommand_of editlens_app (map string_bytes words.now))) }
    ensures usage { IsErrOf result WordsFault.Usage
        → takes editlens_app (map string_bytes words.now) ≡ true → ⊥ }
{
    match command_line(alloc)?.try_get_matches_from(words) {
        Ok(matches) => Ok(order_of_match(&matches, word, words.len())),
        Err(error) => match error.kind() {
            ErrorKind::OutOfMemory => Err(WordsFault::NoMemory),
            _ => Err(WordsFault::Usage),
        },
    }
}

// The command of the subcommand that clap found. There are `words` words, the second of which is
// `word`. The subcommand always has this name; the test spares a proof of that.
fn order_of_match(matches: &ArgMatches<'_>, word: &str, words: usize) -> Option<Order>
    ensures { result ≡ order_of_match words word.now (subcommand_rows_of matches.now) }
{
    let (name, inner) = matches.subcommand()?;
    if name != word {
        return None;
    }
    if words == 2 {
        return plain_order(name);
    }
    if words == 3 {
        return undo_of_match(name, inner);
    }
    gen_of_match(name, inner)
}

fn gen_of_match(name: &str, inner: &ArgMatches<'_>) -> Option<Order>
    ensures { result
        ≡ (if bytes_eq name.now (codes "gen") then gen_of_values (first_value (found_of inner.now) (codes "count"))
        (first_value (found_of inner.now) (codes "seed")) else None) }
{
    if name != "gen" {
        return None;
    }
    let count = inner.get_str("count")?;
    let seed = inner.get_str("seed")?;
    gen_order(count, seed)
}

fn undo_of_match(name: &str, inner: &ArgMatches<'_>) -> Option<Order>
    ensures { result
        ≡ (if bytes_eq name.now (codes "undo") then undo_of_value
        (first_value (found_of inner.now) (codes "count")) else None) }
{
    if name != "undo" {
        return None;
    }
    let count = inner.get_str("count")?;
    undo_order(count)
}
