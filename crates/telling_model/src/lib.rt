//! What an observer outputs of a run (a tale), event by event, as definitions, in `specs/`: the
//! events of a script with the numbers of their lines, what an event takes from the queues of a
//! network and what it puts there, and the account of a script, whatever is told of each event.
//! Here are only the types of their data.
#![tactic(auto)]

mod ended;
mod reached;
mod standing;

pub use ended::Ended;
pub use reached::Reached;
pub use standing::Standing;
