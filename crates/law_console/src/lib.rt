//! The safety theorem of a console: what it is told is what a reference model (a plain machine) answers, and its switch
//! holds that machine's map, whatever cells are lost, however often a request is sent again, and whenever an adjacency
//! is reset or the console starts again.
//!
//! `console_model`'s `specs/Law` has the statement. The argument is in three steps: a command that comes again right after itself
//! does no harm (`specs/Again`); a switch handles a command as the plain machine does (`specs/Handled`); and on the way there
//! and back the copies of commands come in their order, and what answers the request that stands answers its command
//! (`specs/Words`, `specs/Kept`). Nothing is said of the adjacency but that a console which enters Estab asks for all ports. There is
//! no code that runs.
#![tactic(auto)]

ghost use Rattle.law_console.specs.Again.{CommandsComeTwice};
ghost use Rattle.law_console.specs.Handled.{SwitchesArePlain};
ghost use Rattle.console_model.specs.Law.{EveryRunIsRight};

/// A command that comes again right after itself is answered as the first time, and leaves the map as it is. It does nothing, and
/// its contract is the statement.
pub fn commands_come_twice()
    ensures { CommandsComeTwice }
{}

/// A switch answers a command that names the right session as the plain machine does, and has that machine's map then. It does
/// nothing, and its contract is the statement.
pub fn switches_are_plain()
    ensures { SwitchesArePlain }
{}

/// In every run without a chance the answers are those of the plain machine, and the switch holds its map. It does nothing, and
/// its contract is the statement.
pub fn every_run_is_right()
    ensures { EveryRunIsRight }
{}
