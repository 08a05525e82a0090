//! Preconditions of a controller's calls, which its invariants give: what holds of one controller, between events and
//! in the midst of one, gives the conditions that the calls of `controller_router` ask, where the numbers behind a rule can be
//! given out.
//!
//! `specs/Kept` has what holds of a controller in the midst of an event and between events, `specs/Laws`
//! that it holds from the opening on and what an input draws, `specs/Calls` the conditions that follow.
//! The proof goes over what `law_controller` proves of each rule (`proofs/Ready`), from a reset
//! (`proofs/Restarting`) and a request (`proofs/Asking`) to what a port asks one by one (`proofs/Doing`,
//! `proofs/Working`), its rules (`proofs/Rules`) and the switch (`proofs/Meeting`). There is no code
//! that runs.
#![tactic(auto)]

ghost use Rattle.law_controller_conditions.specs.Calls.{CanBeAsked, CanBeReset, PortsCanWork, SwitchCanBeMet};
ghost use Rattle.law_controller_conditions.specs.Cells.{CellsCanCome};
ghost use Rattle.law_controller_conditions.specs.Laws.{InputsDraw, InputsKeep, KeptIsHeld, NumbersSuffice, OpensKept};
ghost use Rattle.law_controller_conditions.specs.Routes.{RoutesLeadToLinks};

/// What holds of one controller between events and in the midst of one gives what the calls of its
/// router ask. It does nothing, and its contract is the statement.
pub fn calls_can_be_made()
    ensures opens { OpensKept }
    ensures keeps { InputsKeep }
    ensures held { KeptIsHeld }
    ensures draws { InputsDraw }
    ensures suffices { NumbersSuffice }
    ensures asks { CanBeAsked }
    ensures resets { CanBeReset }
    ensures ports { PortsCanWork }
    ensures meets { SwitchCanBeMet }
    ensures cells { CellsCanCome }
    ensures routes { RoutesLeadToLinks }
{}
