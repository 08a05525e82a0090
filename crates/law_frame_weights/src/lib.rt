//! The ranking function of a frame: in the measure of `claims_model` its cells together weigh no more than 32 of them,
//! with what the frame may cause (`proofs/Frames`), and what is read in a frame that was made as a message or a packet
//! costs no more than what was said in it (`proofs/Readings`). There is no code that runs.
#![tactic(auto)]
