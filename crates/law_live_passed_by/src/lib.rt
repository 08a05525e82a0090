//! What a carry brings a controller for others than one of its ports leaves this port as the other end of its link sees it, in a
//! network (RFC 1953, RFC 1987): whatever comes on the default channel of another port or on the channel of a label, a packet
//! on its own default channel that asks for no label, and what the switch says. So it does where the chain that a cell ends
//! fails its test, and where nobody takes the cell.
//!
//! `specs/Law` has the statements, with what is asked of a frame. `law_live_others` and `law_live_numbers` say it of a controller
//! that is handed a frame; here a cell ends that (`proofs/Frames`, `proofs/Cells`), and a carry brings the cell
//! (`proofs/Carries`). There is no code that runs.
#![tactic(auto)]

ghost use Rattle.law_live_passed_by.specs.Law.{CarriesPassBy, CarriesForOthersAreUnseen};

/// What a carry brings for others than a port leaves it as its peer sees it. It does nothing, and its contract is the
/// statements.
pub fn carries_pass_by()
    ensures one { CarriesPassBy }
    ensures both { CarriesForOthersAreUnseen }
{}
