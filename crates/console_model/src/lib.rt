//! A controller for one switch (RFC 1987) that is told commands by hand (a console), as plain data:
//! it asks them of the switch over two queues that may lose cells. The lines of its language and
//! how each is refused, the reference model (the plain machine) of which the answers are to be, and
//! the console with its switch as a record with a function for each event. Definitions alone, in
//! `specs/`; here are only the types of their data, and the first words of lines.
#![tactic(auto)]

mod event;
mod fault;
mod keyword;
mod line;
mod reply;

pub use event::{ConsoleEvent, Side};
pub use fault::ConsoleFault;
pub use keyword::{FIRST_WORDS, Keyword};
pub use line::ConsoleLine;
pub use reply::Reply;
