//! A controller for one switch (RFC 1987) that is told commands by hand (a console): it takes
//! commands one by one, asks each of the switch once the one before it is answered, and sends it
//! again at ticks until it is answered, over two queues that may lose cells. [`ConsoleScript`]
//! reads the lines of its language; [`Lab`] is the console with its switch and the two queues. Both
//! are the definitions of `console_model`, in code.
#![tactic(auto)]

mod bench;
mod commands;
mod console;
mod forms;
mod hearing;
mod keyword;
mod lab;
mod script;
mod words;

pub use console_model::{ConsoleEvent, ConsoleFault, ConsoleLine, Reply, Side};
pub use lab::Lab;
pub use script::ConsoleScript;
