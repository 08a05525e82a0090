//! Bounds on the growth of a controller's and a switch's counters: no cell that one of them sends has a greater frame
//! number than those that came, but for the frame that a packet goes on in, whose number is one higher, and for those
//! of control messages. And which table the changes of routes that came to a controller lead to. Definitions and laws
//! alone.
#![tactic(auto)]
