//! From words to a command.
ghost use Rattle.std.specs.Prelude.{◌≡◌, IfErr, IfOk, Some, codes, false, map, option_map, string_bytes, true};
ghost use Rattle.clap.specs.Words.{first_of, found_of, kind_of, rows_of, subcommand_of, subcommand_rows_of};
ghost use Rattle.lspmux_words.specs.Meaning.{IsRefused, asked, asked_by, asked_in, is_set, is_taken, level_or_warn, made_in, meaning, text};
ghost use Rattle.lspmux_words.specs.Program.{program};

use crate::command::Command;
use crate::fault::WordsFault;
use crate::level::{Level, level_of};
use crate::number::{count, seed};
use crate::program::program;
use clap::error::ErrorKind;
use clap::{ArgMatches, Error};
use std::alloc::{AllocError, Global};

// The value of an argument.
fn value<'a>(matches: &ArgMatches<'a>, id: &str) -> Option<&'a str>
    ensures { text result ≡ first_of id.now (rows_of (found_of matches.now)) }
{
    matches.get_str(id)
}

// The level that a subcommand's words ask for.
fn level(matches: &ArgMatches<'_>) -> Option<Level>
    ensures { result ≡ level_or_warn (first_of (codes "log") (rows_of (found_of matches.now))) }
{
    match value(matches, "log") {
        Some(name) => level_of(name),
        None => Some(Level::Warn),
    }
}

// Whether the flag `--lines` is set.
fn has_lines(matches: &ArgMatches<'_>) -> bool
    ensures { result ≡ is_set (first_of (codes "lines") (rows_of (found_of matches.now))) }
{
    match value(matches, "lines") {
        Some(text) => text == "true",
        None => false,
    }
}

// The command that a `make` of these matches is.
fn made<'a>(matches: &ArgMatches<'a>) -> Option<Command<'a>>
    ensures { option_map asked result ≡ made_in (rows_of (found_of matches.now)) }
{
    let count = count(value(matches, "N")?)?;
    let seed = seed(value(matches, "SEED")?)?;
    if has_lines(matches) {
        Some(Command::MakeLines { count, seed })
    } else {
        Some(Command::Make { count, seed })
    }
}

// The command that a subcommand of this name and these matches is.
fn asked_as<'a>(name: &str, matches: &ArgMatches<'a>) -> Option<Command<'a>>
    ensures { option_map asked result ≡ asked_in name.now (rows_of (found_of matches.now)) }
{
    let config = value(matches, "config");
    match name {
        "drive" => Some(Command::Drive { config }),
        "serve" => Some(Command::Serve {
            config,
            log: level(matches)?,
        }),
        "client" => Some(Command::Client {
            config,
            server: value(matches, "server"),
        }),
        "status" => Some(Command::Status { config }),
        "stop" => Some(Command::Stop { config }),
        "make" => made(matches),
        _ => None,
    }
}

// The command that the subcommand of these matches is.
fn asked_of<'a>(matches: &ArgMatches<'a>) -> Option<Command<'a>>
    ensures { option_map asked result ≡ asked_by (subcommand_rows_of matches.now) }
{
    match matches.subcommand() {
        Some((name, matches)) => asked_as(name, matches),
        None => None,
    }
}

// The first line of a text.
fn first_line(text: &str) -> &str {
    match text.split_once('\n') {
        Some((line, _)) => line,
        None => text,
    }
}

// What clap says of words, in one line. Where a word is missing clap lists those there are, as the usage does.
fn sentence(alloc: Global, error: &Error) -> Result<String, AllocError> {
    match error.kind() {
        ErrorKind::MissingSubcommand => String::from_str(alloc, "error: a command is missing\n"),
        ErrorKind::MissingRequiredArgument => {
            String::from_str(alloc, "error: `make` needs N and SEED\n")
        }
        _ => {
            let text = format!(in alloc; "{error}")?;
            let line = first_line(text.as_str());
            format!(in alloc; "{line}\n")
        }
    }
}

// Why clap refuses words.
fn refusal(alloc: Global, error: &Error) -> WordsFault
    ensures { kind_of error.now ≡ ErrorKind.OutOfMemory → result ≡ WordsFault.Memory }
{
    if matches!(error.kind(), ErrorKind::OutOfMemory) {
        return WordsFault::Memory;
    }
    match sentence(alloc, error) {
        Ok(text) => WordsFault::Refused(text),
        Err(_) => WordsFault::Memory,
    }
}

// What clap finds in words.
fn parse(alloc: Global, words: &[String]) -> Result<ArgMatches<'_>, WordsFault>
    ensures taken { IfOk result (λ m. (is_taken (map string_bytes words.now) ≡ true)
        × (subcommand_rows_of m ≡ subcommand_of program (map string_bytes words.now))) }
    ensures refused { IfErr result (λ fault. IsRefused fault → is_taken (map string_bytes words.now) ≡ false) }
{
    match program(alloc)?.try_get_matches_from(words) {
        Ok(matches) => Ok(matches),
        Err(error) => Err(refusal(alloc, &error)),
    }
}

// The fault of a value that is none of its argument's.
fn bad_value(alloc: Global) -> Result<String, AllocError> {
    String::from_str(
        alloc,
        "error: a value is out of its form: LEVEL is error, warn, info, debug or trace; N is 1 to 1000000 and SEED 0 to \
         18446744073709551615, both without a sign or a leading zero\n",
    )
}

/// The command that the words behind the program's name are. It takes the time of the words' length.
///
/// The first word names a subcommand; each option of it is given at most once, as `--config FILE` or `--config=FILE`, and
/// behind a word `--` no word is an option. A FILE, a NAME and a LEVEL has a letter, and as a word of its own it begins with no
/// `-`, but may be `-`. A count is 1 to 1,000,000 and a seed 0 to 2^64 - 1, in decimal digits without a sign or a leading zero.
///
/// # Errors
///
/// `Refused` where the words are no command, and `Memory` where memory was wanted.
pub fn command_of(alloc: Global, words: &[String]) -> Result<Command<'_>, WordsFault>
    ensures taken { IfOk result (λ command. meaning (map string_bytes words.now) ≡ Some (asked command)) }
    ensures refused { IfErr result (λ fault. IsRefused fault → meaning (map string_bytes words.now) ≡ None) }
{
    let matches = parse(alloc, words)?;
    match asked_of(&matches) {
        Some(command) => Ok(command),
        None => Err(WordsFault::Refused(bad_value(alloc)?)),
    }
}
