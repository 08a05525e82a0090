//! The refusal of a line.

ghost use Rattle.std.specs.Prelude.{◌≡◌};
ghost use Rattle.console_run.specs.Report.{fault_name};

use console_model::ConsoleFault;

/// Which line is refused, and why.
#[derive(Clone, Copy, Debug)]
pub(crate) struct Refusal {
    /// The line's number, counted from 1, blank ones too.
    pub(crate) number: u64,
    /// Why it is refused.
    pub(crate) fault: ConsoleFault,
}

impl Refusal {
    /// The name of why.
    pub(crate) fn name(&self) -> &'static str
        ensures { result.now ≡ fault_name self.now.fault }
    {
        match self.fault {
            ConsoleFault::ScriptTooLong => "ScriptTooLong",
            ConsoleFault::LineTooLong => "LineTooLong",
            ConsoleFault::BadByte => "BadByte",
            ConsoleFault::UnknownWord => "UnknownWord",
            ConsoleFault::Arity => "Arity",
            ConsoleFault::BadNumber => "BadNumber",
            ConsoleFault::BadPlace => "BadPlace",
            ConsoleFault::NoPorts => "NoPorts",
            ConsoleFault::Late => "Late",
            ConsoleFault::TooMany => "TooMany",
        }
    }
}
