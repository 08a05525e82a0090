//! What the words of the command line ask for.

ghost use Rattle.std.specs.Prelude.{◌≡◌, IfOk};
ghost use Rattle.commands.specs.Task.{task_of, IsTaskOf};

use command_line::{Command, Word, read_command};
use message_text::Protocol;
use net_types::OutOfMemory;
use std::alloc::Global;

/// A task over a whole input: what is made of it once it is read.
#[derive(Clone, Copy, Debug, PartialEq, Eq)]
pub enum Whole {
    /// The fate of each packet of a script by routing alone.
    Ideal,
    /// The messages of hexadecimal lines, as text.
    Decode(Protocol),
    /// Which rules of a document can decide.
    Rules,
}

/// A task over single lines: what is made of the lines of an input, which are taken one by one.
#[derive(Clone, Copy, Debug, PartialEq, Eq)]
pub enum Lined {
    /// The verdict on a trace.
    Audit,
    /// What a console and its switch do, and what each command is answered.
    Console,
}

/// The output format of a script's run that is told in place of its report.
#[derive(Clone, Copy, Debug, PartialEq, Eq)]
pub enum View {
    /// What passes on the links, line by line.
    Trace,
    /// What the network holds at last.
    Show,
    /// Each event, as a line of JSON.
    Journal,
    /// The frames on the links, as a file of pcapng.
    Capture,
}

/// A task of the program: what a command does.
#[derive(Clone, Copy, Debug, PartialEq, Eq)]
pub enum Task {
    /// A script is replayed as it is read, line by line.
    Replay,
    /// A script is run as it is read, line by line, and something else is told of it than its report.
    View(View),
    /// A document is read as a whole, and the script that it is is replayed.
    Document,
    /// The drill with this number is replayed; nothing is read.
    Drill(u32),
    /// The input is read as a whole, and then its report is written.
    Whole(Whole),
    /// The lines of the input are taken one by one, up to the first that settles what is made of them.
    Lined(Lined),
}

/// What a command does.
fn task_of(command: Command) -> Task
    ensures { result ≡ task_of command }
{
    match command {
        Command::Replay => Task::Replay,
        Command::ReplayToml => Task::Document,
        Command::Ideal => Task::Whole(Whole::Ideal),
        Command::Rules => Task::Whole(Whole::Rules),
        Command::DecodeIfmp => Task::Whole(Whole::Decode(Protocol::Ifmp)),
        Command::DecodeGsmp => Task::Whole(Whole::Decode(Protocol::Gsmp)),
        Command::Drill(number) => Task::Drill(number),
        Command::Audit => Task::Lined(Lined::Audit),
        Command::Console => Task::Lined(Lined::Console),
        Command::Trace => Task::View(View::Trace),
        Command::Show => Task::View(View::Show),
        Command::Journal => Task::View(View::Journal),
        Command::Capture => Task::View(View::Capture),
    }
}

/// The task that the words ask for; `None` exactly where they are no command's.
#[tactic(auto, using(crate::proofs::Asked::some_read, crate::proofs::Asked::none_read))]
pub fn read_task(alloc: Global, words: &[Word]) -> Result<Option<Task>, OutOfMemory>
    ensures { IfOk result (IsTaskOf words.now) }
{
    match read_command(alloc, words)? {
        Some(command) => Ok(Some(task_of(command))),
        None => Ok(None),
    }
}
