// Describes the command line to clap.
ghost use Rattle.std.specs.Prelude.{◌≡◌, IfOk, false};
ghost use Rattle.clap.specs.Words.{app_of};
ghost use Rattle.clap.specs.declared.builder.command.Command.TheViews.{out-Command as fields_of};
ghost use Rattle.command_words.specs.CommandLine.{gen_app, undo_app, with_plain, script_apps, store_apps, editlens_app};

use clap::{Arg, Command};
use std::alloc::{AllocError, Global};

/// The command line of the program: one level of subcommands, one of which is required. There is no
/// help flag and no help command.
pub fn command_line<'a>(alloc: Global) -> Result<Command<'a>, AllocError>
    ensures { IfOk result (λ command. app_of command ≡ editlens_app) }
{
    store_commands(alloc)?
        .subcommand(gen_command(alloc)?)?
        .subcommand(undo_command(alloc)?)
}

// The commands that read a script alone.
fn script_commands<'a>(alloc: Global) -> Result<Command<'a>, AllocError>
    ensures { IfOk result (λ command. app_of command ≡ script_apps) }
{
    let top = Command::new(alloc, "editlens")
        .disable_help_flag(true)
        .disable_help_subcommand(true)
        .subcommand_required(true);
    let command = with_plain(alloc, top, "run")?;
    let command = with_plain(alloc, command, "check")?;
    let command = with_plain(alloc, command, "hub")?;
    with_plain(alloc, command, "link")
}

// These and the commands of one word over a store.
fn store_commands<'a>(alloc: Global) -> Result<Command<'a>, AllocError>
    ensures { IfOk result (λ command. app_of command ≡ store_apps) }
{
    let command = script_commands(alloc)?;
    let command = with_plain(alloc, command, "init")?;
    let command = with_plain(alloc, command, "apply")?;
    let command = with_plain(alloc, command, "show")?;
    let command = with_plain(alloc, command, "verify")?;
    let command = with_plain(alloc, command, "pack")?;
    with_plain(alloc, command, "import")
}

// A command line with this command of one word besides.
fn with_plain<'a>(
    alloc: Global,
    command: Command<'a>,
    name: &'a str,
) -> Result<Command<'a>, AllocError>
    ensures { IfOk result (λ more. app_of more ≡ with_plain (app_of command.entry) name.now) }
{
    let plain = Command::new(alloc, name);
    command.subcommand(plain)
}

// The numbers are read as texts, by the program's own reader of digits.
fn gen_command<'a>(alloc: Global) -> Result<Command<'a>, AllocError>
    ensures app { IfOk result (λ command. app_of command ≡ gen_app) }
    ensures local { IfOk result (λ command. (fields_of command).has_globals ≡ false) }
{
    let count = Arg::new(alloc, "count").required(true);
    let seed = Arg::new(alloc, "seed").required(true);
    Command::new(alloc, "gen").arg(count)?.arg(seed)
}

fn undo_command<'a>(alloc: Global) -> Result<Command<'a>, AllocError>
    ensures app { IfOk result (λ command. app_of command ≡ undo_app) }
    ensures local { IfOk result (λ command. (fields_of command).has_globals ≡ false) }
{
    let count = Arg::new(alloc, "count").required(true);
    Command::new(alloc, "undo").arg(count)
}
