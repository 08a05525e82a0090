//! Invariants of one controller of an IP switch, whatever cells come, forged ones among them: of its ports, the
//! requests that stand, its desk, and that the numbers of a run never fall.
//!
//! `claims_model` has what may come to a controller, `specs/Sound` what holds of it. The proof goes by
//! the smallest moves of which every rule is made (`proofs/Moves`, and of a port
//! `law_port_facts::proofs::Steps`): what each of them keeps, every rule keeps. There is no code that runs.
#![tactic(auto)]

ghost use Rattle.law_controller_facts.specs.Sound.{Always, HasSoundSide, HasSoundPorts, HasShapedRequests, HasSoundDesk, HasShutPorts, NumbersNeverFall, DrawsFewInstances, DrawsFewMarks};
ghost use Rattle.law_controller_facts.specs.Refused.{RefusedIsRecorded};
ghost use Rattle.law_controller_facts.specs.Conditions.{HasMovingRequests, HasGrantedJoins};
ghost use Rattle.law_controller_facts.specs.Said.{HasFlowingPorts, SaysInRange};

/// What holds of one controller after every list of inputs from its opening. It does nothing, and its
/// contract is the statement.
pub fn controller_is_sound()
    ensures side { Always HasSoundSide }
    ensures ports { Always HasSoundPorts }
    ensures requests { Always HasShapedRequests }
    ensures desk { Always HasSoundDesk }
    ensures unmet { Always HasShutPorts }
    ensures numbers { NumbersNeverFall }
    ensures instances { DrawsFewInstances }
    ensures marks { DrawsFewMarks }
    ensures refused { RefusedIsRecorded }
    ensures moves { Always HasMovingRequests }
    ensures joins { Always HasGrantedJoins }
    ensures flows { Always HasFlowingPorts }
    ensures says { SaysInRange }
{}
