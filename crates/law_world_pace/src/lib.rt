//! Bounds on the growth of a network's counters, event by event, and what stays of its nodes: their ports and links are
//! the topology's, and the numbers of frames, of changes of routes and of what it has given out are no more than its
//! events can have needed. Definitions and laws alone.
#![tactic(auto)]
