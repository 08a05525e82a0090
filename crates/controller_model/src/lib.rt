//! A controller as plain data: the router of a node, which drives its switch. A record, with a function
//! for each rule: cells and frames, forwarding, meeting the switch, its answers, joins, ticks, resets,
//! changes of routes. Definitions alone, in `specs/`, which share nothing with the code; here is only the
//! type of a linked port.
#![tactic(auto)]

mod range;

pub use range::PortRange;
