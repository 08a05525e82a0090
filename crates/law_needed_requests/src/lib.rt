//! A bound on outstanding requests: how many stand that a controller asks however many stand already, for default
//! channels, for joins that end, for ports that are emptied and for all ports.
//!
//! `specs/Needed` has the definitions, and `law_controller` what they rest on. There is no code that runs.
#![tactic(auto)]

ghost use Rattle.law_needed_requests.specs.Needed.{AlwaysNeedsFew};

/// At most 2,076 needed requests stand after every list of inputs from an opening with at most 8 ports. It does
/// nothing, and its contract is the statement.
pub fn needed_requests_are_few()
    ensures few { AlwaysNeedsFew }
{}
