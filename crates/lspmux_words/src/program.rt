//! The program and its subcommands, as clap reads them.
ghost use Rattle.std.specs.Prelude.{◌≡◌, IfOk, false};
ghost use Rattle.clap.specs.Words.{app_of, rule_of, with_rule};
ghost use Rattle.clap.specs.declared.builder.command.Command.TheViews.{out-Command};
ghost use Rattle.lspmux_words.specs.Program.{IsMade, beside, client, configured, flag_rule, make, option_rule, positional_rule, program, serve, top, with_hubs, with_links};

use clap::builder::ValueParser;
use clap::{Arg, ArgAction, Command};
use std::alloc::{AllocError, Global};

// An option that is set at most once, to a value that isn't empty.
fn option<'a>(alloc: Global, name: &'a str, value: &'a str) -> Arg<'a>
    ensures rule { rule_of result ≡ option_rule name.entry.now }
    ensures local { result.global ≡ false }
{
    Arg::new(alloc, name)
        .long(name)
        .value_name(value)
        .action(ArgAction::Set)
        .value_parser(ValueParser::NonEmptyString)
}

// A flag that is set at most once.
fn flag<'a>(alloc: Global, name: &'a str) -> Arg<'a>
    ensures rule { rule_of result ≡ flag_rule name.entry.now }
    ensures local { result.global ≡ false }
{
    Arg::new(alloc, name).long(name).action(ArgAction::SetTrue)
}

// A word that has to be there.
fn positional<'a>(alloc: Global, name: &'a str) -> Arg<'a>
    ensures rule { rule_of result ≡ positional_rule name.entry.now }
    ensures local { result.global ≡ false }
{
    Arg::new(alloc, name).required(true).action(ArgAction::Set)
}

// A command with one more option.
fn with<'a>(command: Command<'a>, arg: Arg<'a>) -> Result<Command<'a>, AllocError>
    requires { arg.global ≡ false }
    ensures { (out-Command command.entry).has_globals ≡ false → IfOk result (IsMade (with_rule (app_of command.entry) (rule_of arg.entry))) }
{
    command.arg(arg)
}

// A subcommand with the option `--config FILE`.
fn configured<'a>(alloc: Global, name: &'a str) -> Result<Command<'a>, AllocError>
    ensures { IfOk result (IsMade (configured name.entry.now)) }
{
    with(Command::new(alloc, name), option(alloc, "config", "FILE"))
}

fn serve<'a>(alloc: Global) -> Result<Command<'a>, AllocError>
    ensures { IfOk result (IsMade serve) }
{
    with(configured(alloc, "serve")?, option(alloc, "log", "LEVEL"))
}

fn client<'a>(alloc: Global) -> Result<Command<'a>, AllocError>
    ensures { IfOk result (IsMade client) }
{
    with(
        configured(alloc, "client")?,
        option(alloc, "server", "NAME"),
    )
}

fn make<'a>(alloc: Global) -> Result<Command<'a>, AllocError>
    ensures { IfOk result (IsMade make) }
{
    let command = with(Command::new(alloc, "make"), flag(alloc, "lines"))?;
    let command = with(command, positional(alloc, "N"))?;
    with(command, positional(alloc, "SEED"))
}

// The program, before its subcommands.
fn top<'a>(alloc: Global) -> Command<'a>
    ensures { IsMade top result }
{
    Command::new(alloc, "lspmux")
        .no_binary_name(true)
        .disable_help_flag(true)
        .disable_help_subcommand(true)
        .disable_version_flag(true)
        .subcommand_required(true)
}

// A program with one more subcommand.
fn beside<'a>(program: Command<'a>, subcommand: Command<'a>) -> Result<Command<'a>, AllocError>
    requires { (out-Command subcommand).has_globals ≡ false }
    ensures { (out-Command program.entry).has_globals ≡ false → IfOk result (IsMade (beside (app_of program.entry) (app_of subcommand.entry))) }
{
    program.subcommand(subcommand)
}

// The program with the subcommands that run a hub.
fn with_hubs<'a>(alloc: Global) -> Result<Command<'a>, AllocError>
    ensures { IfOk result (IsMade with_hubs) }
{
    let program = beside(top(alloc), configured(alloc, "drive")?)?;
    beside(program, serve(alloc)?)
}

// The same with two that dial a daemon.
fn with_links<'a>(alloc: Global) -> Result<Command<'a>, AllocError>
    ensures { IfOk result (IsMade with_links) }
{
    let program = beside(with_hubs(alloc)?, client(alloc)?)?;
    beside(program, configured(alloc, "status")?)
}

/// The program, as clap reads its words.
pub(crate) fn program<'a>(alloc: Global) -> Result<Command<'a>, AllocError>
    ensures { IfOk result (IsMade program) }
{
    let program = beside(with_links(alloc)?, configured(alloc, "stop")?)?;
    beside(program, make(alloc)?)
}
