//! The grammar that `clap` parts the words by: a name of a command and at most one word behind it.

ghost use Rattle.std.specs.Prelude.{◌≡◌, false, IfOk};
ghost use Rattle.clap.specs.Simple.{app_of, new_app, with_rule};
ghost use Rattle.clap.specs.declared.builder.command.Command.TheViews.{out-Command};
ghost use Rattle.command_line.specs.Grammar.{word_rule, grammar_app, top_app};

use clap::{Arg, Command};
use std::alloc::{AllocError, Global};

/// The name by which the grammar calls the word behind a command's.
pub const WORD: &str = "word";

fn bare<'a>(alloc: Global, name: &'a str) -> Command<'a>
    ensures app { app_of result ≡ new_app name.entry.now }
    ensures local { (out-Command result).has_globals ≡ false }
{
    Command::new(alloc, name)
}

fn worded<'a>(alloc: Global, name: &'a str, required: bool) -> Result<Command<'a>, AllocError>
    ensures app { IfOk result (λ c. app_of c ≡ with_rule (new_app name.entry.now) (word_rule required)) }
    ensures local { IfOk result (λ c. (out-Command c).has_globals ≡ false) }
{
    let word = Arg::new(alloc, WORD).required(required);
    Command::new(alloc, name).arg(word)
}

fn top<'a>(alloc: Global) -> Command<'a>
    ensures app { app_of result ≡ top_app }
    ensures local { (out-Command result).has_globals ≡ false }
{
    Command::new(alloc, "ipswitch")
        .no_binary_name(true)
        .disable_help_flag(true)
        .disable_help_subcommand(true)
        .subcommand_required(true)
}

/// The grammar of all commands. Which word may stand behind a name is no part of it.
pub fn grammar<'a>(alloc: Global) -> Result<Command<'a>, AllocError>
    ensures { IfOk result (λ c. app_of c ≡ grammar_app) }
{
    top(alloc)
        .subcommand(worded(alloc, "replay", false)?)?
        .subcommand(bare(alloc, "ideal"))?
        .subcommand(worded(alloc, "decode", true)?)?
        .subcommand(worded(alloc, "drill", true)?)?
        .subcommand(bare(alloc, "rules"))?
        .subcommand(bare(alloc, "audit"))?
        .subcommand(bare(alloc, "console"))?
        .subcommand(bare(alloc, "trace"))?
        .subcommand(bare(alloc, "show"))?
        .subcommand(bare(alloc, "journal"))?
        .subcommand(bare(alloc, "capture"))
}
