//! Where the inputs of a switch lead (RFC 1987) mirrors what its controller believes of them, by the labels that it hands out,
//! the labels under which it may send (RFC 1953), and the requests that stand at its desk. Requests on their way lead an input on
//! from where it leads to where the controller believes it to lead; so each of them finds the branch that it speaks of, and the
//! switch carries it out.
//!
//! `specs/Mirrors` has the definitions, `specs/Fit` what a switch asks of a request beside its branch. The statements: `specs/Law`
//! of a switch, `specs/Standing` of what is asked, sent again and answered, `specs/Asking` of a controller that asks, and
//! `specs/Answers` of one that hears. There is no code that runs.
#![tactic(auto)]

ghost use Rattle.law_live_mirrors.specs.Law.{RequestsAreFit, SwitchesCarryOut, SwitchesLeadSame};
ghost use Rattle.law_live_mirrors.specs.Standing.{LikePortsMirror, AskingKeepsMirrors, SendingAgainKeepsMirrors, AnswersKeepMirrors, ShutPortsMirror, DeletesMirror};
ghost use Rattle.law_live_mirrors.specs.Asking.{PlainWorkKeepsMirrors, PacketsKeepMirrors, GrantsKeepMirrors, RefreshesKeepMirrors, TriesKeepMirrors};
ghost use Rattle.law_live_mirrors.specs.Answers.{OffersKeepMirrors, StartsKeepMirrors, JoinsKeepMirrors};
ghost use Rattle.law_live_mirrors.specs.Runs.{DesksStandAlone};

/// A switch that mirrors its controller carries out what it is asked, and mirrors it still. It does nothing, and its contract is
/// the statements.
pub fn switches_carry_out()
    ensures fit { RequestsAreFit }
    ensures carried { SwitchesCarryOut }
    ensures same { SwitchesLeadSame }
{}

/// A request that is asked, sent again or answered keeps an input mirrored. It does nothing, and its contract is the statements.
pub fn requests_keep_mirrors()
    ensures alike { LikePortsMirror }
    ensures asked { AskingKeepsMirrors }
    ensures again { SendingAgainKeepsMirrors }
    ensures answered { AnswersKeepMirrors }
    ensures shut { ShutPortsMirror }
    ensures emptied { DeletesMirror }
{}

/// A controller that asks for the branch of a label, of a grant or of a join keeps its inputs mirrored. It does nothing, and its
/// contract is the statements.
pub fn asking_keeps_mirrors()
    ensures works { PlainWorkKeepsMirrors }
    ensures packets { PacketsKeepMirrors }
    ensures grants { GrantsKeepMirrors }
    ensures refreshes { RefreshesKeepMirrors }
    ensures joins { TriesKeepMirrors }
{}

/// And so does one that hears that they are made. It does nothing, and its contract is the statements.
pub fn answers_keep_mirrors()
    ensures labels { OffersKeepMirrors }
    ensures grants { StartsKeepMirrors }
    ensures joins { JoinsKeepMirrors }
    ensures alone { DesksStandAlone }
{}
