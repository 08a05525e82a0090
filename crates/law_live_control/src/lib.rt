//! Where a controller and its switch have met (RFC 1987), what comes on the control link are ACKs, requests and answers of
//! success, and so both stay met, and nothing is reset: what each of them hears of these, and its tick, leaves its side as it is,
//! and makes it say such messages alone. An answer of failure would reset the node, and so would the last transaction number.
//!
//! `specs/Calm` has the messages and what they leave, `specs/Law` the statements. The proof goes over all that a controller
//! does with ports, answers and packets (`proofs/Walks` to `proofs/Controllers`), and what a switch answers
//! (`proofs/Switches`). There is no code that runs.
#![tactic(auto)]

ghost use Rattle.law_live_control.specs.Law.{SidesStayMet, CalmIsRead, SwitchesHearCalmly, SwitchesTickCalmly, ControllersHearCalmly, FramesComeCalmly, ControllersTickCalmly};

/// Both stay met by what is calm, and say nothing else. It does nothing, and its contract is the statements.
pub fn control_stays_met()
    ensures sides { SidesStayMet }
    ensures reading { CalmIsRead }
    ensures switches { SwitchesHearCalmly }
    ensures switches_tick { SwitchesTickCalmly }
    ensures controllers { ControllersHearCalmly }
    ensures frames { FramesComeCalmly }
    ensures controllers_tick { ControllersTickCalmly }
{}
