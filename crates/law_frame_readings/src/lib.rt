//! Round-trip theorems of the frames of a network: what a receiver reads in those that were made is a packet, a message
//! of IFMP or a message of GSMP, each as it was written, and no frame is read as another kind.
//!
//! `specs/Reading` has the statements. There is no code that runs.
#![tactic(auto)]

ghost use Rattle.law_frame_readings.specs.Reading.{FramesAreRead, MarksAreRead};

/// Each frame is read as what its maker wrote, by its payload and by its mark. It does nothing, and its contract is the
/// statement.
pub fn frames_are_read()
    ensures frames { FramesAreRead }
    ensures marks { MarksAreRead }
{}
