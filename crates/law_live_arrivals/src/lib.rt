//! What is on its way between the two ends of a link is heard in a network (RFC 1953): where they agree, and the port of one of
//! them hears the first message that the other said, they agree again, on what is still on its way.
//!
//! `specs/Law` has the statement. `law_live_links` says it of the two ports; here these are those of two nodes
//! (`proofs/Arriving`). There is no code that runs.
#![tactic(auto)]

ghost use Rattle.law_live_arrivals.specs.Law.{HearingsKeepAgreement};

/// Where the two ends of a link agree in a network, they do so as one hears what the other said. It does nothing, and its
/// contract is the statement.
pub fn hearings_keep_agreement()
    ensures keep { HearingsKeepAgreement }
{}
