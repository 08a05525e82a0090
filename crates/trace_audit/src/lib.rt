//! A runtime monitor of traces (the auditor): it reads line by line what passed on a network's
//! links, and judges each line by those before it. It knows nothing of controllers and switches.
#![tactic(auto)]

mod auditor;
mod fault;
mod flows;
mod forms;
mod lines;
mod maps;
mod queue;
mod queues;
mod tally;

pub use auditor::Auditor;
pub use fault::AuditFault;
pub use tally::AuditCounts;
pub use trace_model::{Breach, Step, TraceRefusal};
