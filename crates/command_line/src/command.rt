//! The commands, and the words that they have.

ghost use Rattle.std.specs.Prelude.{◌≡◌};
ghost use Rattle.std.specs.Option.{option_map};
ghost use Rattle.lab_text.specs.Forms.{number_in};
ghost use Rattle.command_line.specs.Reading.{drill, behind_replay, behind_decode, worded, alone, asked, said};

use crate::word::Word;
use lab_text::read_number;

/// A subcommand of the program (a command). This project's own.
#[derive(Clone, Copy, Debug, PartialEq, Eq)]
pub enum Command {
    /// `replay`: replays a script and reports what becomes of each packet.
    Replay,
    /// `replay toml`: the same of a script that is a TOML document.
    ReplayToml,
    /// `ideal`: tells the fate of each packet of a script by routing alone.
    Ideal,
    /// `rules`: judges the rules of a document, which of them can never decide.
    Rules,
    /// `decode ifmp`: tells the messages of hexadecimal lines, in IFMP.
    DecodeIfmp,
    /// `decode gsmp`: the same, in GSMP.
    DecodeGsmp,
    /// `drill N`: replays the script of the drill with this number, 1 to 9999.
    Drill(u32),
    /// `audit`: judges a trace of the cells on links.
    Audit,
    /// `console`: drives one switch by hand, over queues that lose cells.
    Console,
    /// `trace`: tells the cells that pass on the links of a script's run.
    Trace,
    /// `show`: tells what the network of a script holds behind its last event.
    Show,
    /// `journal`: tells each event of a script's run as a line of JSON.
    Journal,
    /// `capture`: tells the frames on the links of a script's run as a file of pcapng.
    Capture,
}

/// The least and the greatest number of a drill.
const LEAST_DRILL: u32 = 1;

const GREATEST_DRILL: u32 = 9999;

/// The number of a drill that a word spells.
fn read_drill(word: &str) -> Option<u32>
    ensures { result ≡ number_in 1 9999 word.now }
{
    match read_number(word.as_bytes()) {
        Some(number) if LEAST_DRILL <= number && number <= GREATEST_DRILL => Some(number),
        _ => None,
    }
}

fn drill(word: &str) -> Option<Command>
    ensures { result ≡ drill word.now }
{
    match read_drill(word) {
        Some(number) => Some(Command::Drill(number)),
        None => None,
    }
}

fn behind_replay(word: &str) -> Option<Command>
    ensures { result ≡ behind_replay word.now }
{
    match word {
        "toml" => Some(Command::ReplayToml),
        _ => None,
    }
}

fn behind_decode(word: &str) -> Option<Command>
    ensures { result ≡ behind_decode word.now }
{
    match word {
        "ifmp" => Some(Command::DecodeIfmp),
        "gsmp" => Some(Command::DecodeGsmp),
        _ => None,
    }
}

fn worded(name: &str, word: &str) -> Option<Command>
    ensures { result ≡ worded name.now word.now }
{
    match name {
        "replay" => behind_replay(word),
        "decode" => behind_decode(word),
        "drill" => drill(word),
        _ => None,
    }
}

fn alone(name: &str) -> Option<Command>
    ensures { result ≡ alone name.now }
{
    match name {
        "replay" => Some(Command::Replay),
        "ideal" => Some(Command::Ideal),
        "rules" => Some(Command::Rules),
        "audit" => Some(Command::Audit),
        "console" => Some(Command::Console),
        "trace" => Some(Command::Trace),
        "show" => Some(Command::Show),
        "journal" => Some(Command::Journal),
        "capture" => Some(Command::Capture),
        _ => None,
    }
}

/// The command of this name, with the word behind it where it has one.
pub fn asked(name: &str, word: Option<&str>) -> Option<Command>
    ensures { result ≡ asked name.now (option_map (λ w. w.now) word.entry) }
{
    match word {
        Some(word) => worded(name, word),
        None => alone(name),
    }
}

/// The command that words ask for: a name, with at most one word behind it. It takes no memory.
pub fn said(words: &[Word]) -> Option<Command>
    ensures { result ≡ said words.now }
{
    match words {
        [name] => asked(name.as_str(), None),
        [name, word] => asked(name.as_str(), Some(word.as_str())),
        _ => None,
    }
}
