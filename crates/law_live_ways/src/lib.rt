//! Open ways stay open: where the default channels of a link lead from one of its controllers to the other and nothing else
//! does (RFC 1953), so it is behind each event of the network, but where one of the two switches is restarted, or is asked for
//! Delete All (RFC 1987).
//!
//! `specs/Requests` has which requests keep ways open, and that a switch which is asked one keeps its default channels;
//! `specs/Law` has the statements of a network. `specs/Deleting` has that a controller says no Delete All in an event behind
//! which none stands at its desk, and `specs/Links` what follows of it: in a network in peace none comes to a switch, so what a
//! switch reads keeps ways open. `proofs/Branches` has what a request makes of branches, `proofs/Switches` what a switch does,
//! `proofs/Worlds` and `proofs/Shaped` the events of a network; `proofs/Deleting` goes by the walk of `law_live_control` over
//! all that a controller does. There is no code that runs.
#![tactic(auto)]

ghost use Rattle.law_live_ways.specs.Requests.{ShapesKeepWays, SwitchesKeepWays};
ghost use Rattle.law_live_ways.specs.Law.{WaysStayOpen, StretchesKeepWays, TicksKeepWays};
ghost use Rattle.law_live_ways.specs.Deleting.{NoneIsRead, ControllersDeleteNone};
ghost use Rattle.law_live_ways.specs.Links.{MetStandNone, NoneComesStill, ReadsKeepWays, CarriesKeepWays};

/// All that a controller asks but Delete All keeps ways open, at its switch. It does nothing, and its contract is the statements.
pub fn switches_keep_ways()
    ensures shapes { ShapesKeepWays }
    ensures switches { SwitchesKeepWays }
{}

/// Open ways stay open in a network. It does nothing, and its contract is the statements.
pub fn ways_stay_open()
    ensures events { WaysStayOpen }
    ensures stretches { StretchesKeepWays }
    ensures ticks { TicksKeepWays }
{}

/// A controller says no Delete All in an event behind which none stands. It does nothing, and its contract is the statements.
pub fn controllers_delete_none()
    ensures reading { NoneIsRead }
    ensures controllers { ControllersDeleteNone }
{}

/// In peace no Delete All comes to a switch, so what it reads keeps ways open. It does nothing, and its contract is the
/// statements.
pub fn links_keep_ways()
    ensures desks { MetStandNone }
    ensures coming { NoneComesStill }
    ensures reading { ReadsKeepWays }
    ensures carries { CarriesKeepWays }
{}
