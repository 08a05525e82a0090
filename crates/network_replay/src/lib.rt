//! A simulation of a scenario (the run of a script): its lines are taken one by one, and the
//! network that they describe runs as they say. As it goes, it is told: the network as it opens,
//! each event, and the end; and at the end what is still held of its report is written.
#![tactic(auto)]

mod form;
mod held;
mod line_run;
mod policy;
mod replay;

pub use form::LineForm;
pub use held::settle;
pub use policy::PolicyChoice;
pub use replay::Replay;
