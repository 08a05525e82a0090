//! Reading the words.

ghost use Rattle.std.specs.Prelude.{◌≡◌, None, IfOk, OnErr};
ghost use Rattle.std.specs.List.{list_any};
ghost use Rattle.clap.specs.Faults.{fault_of};
ghost use Rattle.clap.specs.Kinds.{FailsBy};
ghost use Rattle.clap.specs.Simple.{subcommand_of, subcommand_rows_of};
ghost use Rattle.clap.specs.Values.{kind_of};
ghost use Rattle.clap.specs.declared.error.kind.ErrorKind.{ErrorKind};
ghost use Rattle.command_line.specs.Commands.{AskFor, IsReading};
ghost use Rattle.command_line.specs.declared.command.Command.{Command};
ghost use Rattle.command_line.specs.Grammar.{grammar_app};
ghost use Rattle.command_line.specs.Reading.{command_in, is_barred, RefusedBy};

use crate::command::{Command, asked, said};
use crate::grammar::{WORD, grammar};
use crate::word::Word;
use clap::error::ErrorKind;
use clap::{ArgMatches, Error};
use net_types::OutOfMemory;
use std::alloc::Global;

/// Whether a word is none of any command: it begins with a hyphen, or is `help`.
fn is_barred(word: &Word) -> bool
    ensures { result ≡ is_barred word.now }
{
    let text = word.as_str();
    text.as_bytes().starts_with(b"-") || text == "help"
}

fn has_barred(words: &[Word]) -> bool
    ensures { result ≡ list_any is_barred words.now }
{
    words.iter().any(|word| is_barred(word))
}

/// What `clap` makes of the words.
fn parse<'a>(alloc: Global, words: &'a [Word]) -> Result<ArgMatches<'a>, Error>
    ensures subcommand { IfOk result (λ m. subcommand_rows_of m ≡ subcommand_of grammar_app words.entry.now) }
    ensures faults { FailsBy (fault_of grammar_app words.entry.now) result }
{
    grammar(alloc)?.try_get_matches_from(words)
}

/// A refusal for another cause than memory is no command.
fn refused(error: &Error) -> Result<Option<Command>, OutOfMemory>
    ensures { RefusedBy (kind_of error.now) result }
{
    if error.kind() == ErrorKind::OutOfMemory {
        Err(OutOfMemory::told_by_library())
    } else {
        Ok(None)
    }
}

/// The command that `clap` found, if its word is one that it can have.
fn command_in(matches: &ArgMatches) -> Option<Command>
    ensures { result ≡ command_in (subcommand_rows_of matches.now) }
{
    match matches.subcommand() {
        Some((name, found)) => asked(name, found.get_str(WORD)),
        None => None,
    }
}

/// The command whose words these are, without the program's name; `None` exactly where they are no
/// command's. A drill's number is 1 to 9999, in decimal without a sign or a leading zero. Want of memory
/// comes only to words that are a command's: `clap` may tell it of any, so others never come before it.
pub fn read_command(alloc: Global, words: &[Word]) -> Result<Option<Command>, OutOfMemory>
    ensures reading { IfOk result (IsReading words.now) }
    ensures memory { OnErr result ((command : Command) × AskFor words.now command) }
{
    let Some(_) = said(words) else {
        return Ok(None);
    };
    if has_barred(words) {
        return Ok(None);
    }
    match parse(alloc, words) {
        Ok(matches) => Ok(command_in(&matches)),
        Err(error) => refused(&error),
    }
}
